// Weights of next hops.
ghost use Rattle.std.specs.Prelude.{◌≡◌, ◌==◌, ◌<◌, None, Some, if◌then◌else◌};
ghost use Rattle.std.proofs.Common.{rules};
ghost use Rattle.std.specs.Cmp.{partial_order_from_own_ties};
ghost use Rattle.std.specs.Cmp.Rules.{comparing};
ghost use Rattle.std.specs.Ordering.{nat_cmp, as_partial_cmp};

use crate::Hop;
use std::cmp::Ordering;
use std::fmt;
use std::marker::Model;

/// The weight of a next hop in a group: 1 to 255.
#[derive(Clone, Copy)]
pub struct Weight {
    number: u8,
}

impl Model for Weight {
    ghost use Rattle.std.specs.Prelude.{ℕ, ◌<◌};

    ghost Value = { ℕ };

    ghost view = { λ w. w.number };

    ghost inverse = { λ n. record { number = n } };

    ghost invariant = { λ w. (0 < w.number) × (w.number < 256) };
}

/// A next hop with its weight.
#[derive(Clone, Copy, Debug, PartialEq, Eq, PartialOrd, Ord)]
pub struct WHop {
    /// The hop.
    pub hop: Hop,
    /// Its weight.
    pub weight: Weight,
}

impl Weight {
    /// The weight of this number: None exactly at 0.
    pub fn new(n: u8) -> Option<Weight>
        ensures { result ≡ (if n == 0 then None else Some n) }
    {
        if n == 0 {
            None
        } else {
            Some(Weight { number: n })
        }
    }

    /// The weight 1, the least.
    pub fn one() -> Weight
        ensures { result ≡ 1 }
    {
        Weight { number: 1 }
    }

    /// Its number, 1 to 255.
    pub fn get(self) -> u8
        ensures number { result ≡ self }
        ensures some { 0 < result }
    {
        self.number
    }
}

impl PartialEq for Weight {
    ghost eq = { ◌==◌ };

    ghost laws = { Prim.search (comparing, rules) };

    fn eq(&self, other: &Weight) -> bool {
        self.number == other.number
    }
}

impl Eq for Weight {
    ghost laws = { Prim.search (comparing, rules) };
}

impl PartialOrd for Weight {
    ghost partial_cmp = { as_partial_cmp nat_cmp };

    ghost laws = { partial_order_from_own_ties (Prim.search (comparing, rules)) (Prim.search (comparing, rules)) };

    fn partial_cmp(&self, other: &Weight) -> Option<Ordering> {
        Some(self.cmp(other))
    }
}

impl Ord for Weight {
    ghost cmp = { nat_cmp };

    ghost total = { Prim.search (comparing, rules) };

    ghost matches_partial_cmp = { Prim.search (comparing, rules) };

    ghost matches_eq = { Prim.search (comparing, rules) };

    fn cmp(&self, other: &Weight) -> Ordering {
        self.number.cmp(&other.number)
    }
}

impl fmt::Debug for Weight {
    fn fmt<W: fmt::Write>(&self, f: &mut fmt::Formatter<W>) -> fmt::Result {
        self.number.fmt(f)
    }
}
