// The hops of a route's row.
ghost use Rattle.std.specs.Prelude.{◌≡◌, ◌<◌, ◌==◌, ◌&&◌, [], ◌∷◌, IfOk, OnOk, OnErr};
ghost use Rattle.std.specs.Cmp.{and_equiv, and_per, nat_eq_equiv, on_equiv, on_per, partial_equiv_from_equiv};
ghost use Rattle.std.specs.Cmp.Lexicographic.{lists_equiv, lists_per, pointwise};
ghost use Rattle.table_schema.specs.Hop.{AreRisingRowHops, HaveWeights, put_row_hop};
ghost use Rattle.table_schema.specs.contracts.row_hop.RowHopPartialEq.TheImpl.Laws as same_hop;
ghost use Rattle.table_schema.specs.contracts.row_hop.RowHopEq.TheImpl.Laws as equal_hop;

use crate::RowHop;
use crate::held_hops::HeldHops;
use std::alloc::Global;
use std::marker::Model;
use swss_types::OutOfMemory;

/// The hops of a route's row with their weights, which are not 0. The hops are distinct and rise.
#[derive(Debug, Drop)]
pub struct RowHops {
    hops: HeldHops,
}

impl Model for RowHops {
    ghost use Rattle.std.specs.Prelude.{ℕ, List};
    ghost use Rattle.table_schema.specs.HeldHops.{hops_in};
    ghost use Rattle.table_schema.specs.Hop.{AreRisingRowHops, HaveWeights};
    ghost use Rattle.table_schema.specs.declared.row_hop.RowHop.{RowHop};

    ghost Value = { List (RowHop × ℕ) };

    ghost view = { λ h. hops_in h.hops };

    ghost invariant = { λ h. AreRisingRowHops (hops_in h.hops) × HaveWeights (hops_in h.hops) };
}

impl RowHops {
    /// No hop.
    pub fn new(alloc: Global) -> RowHops
        ensures { result ≡ [] }
    {
        RowHops {
            hops: HeldHops::List(Vec::new(alloc)),
        }
    }

    /// One hop, of weight 1.
    pub(crate) fn one(alloc: Global, hop: RowHop) -> RowHops
        ensures { result ≡ (hop, 1) ∷ [] }
    {
        RowHops {
            hops: HeldHops::One((hop, 1), alloc),
        }
    }

    /// Puts a hop in its place, with a weight of 1 to 255; of a hop that is there the greater weight is kept.
    pub fn put(&mut self, hop: RowHop, weight: u8) -> Result<(), OutOfMemory>
        requires { 0 < weight }
        ensures ok { OnOk result (self.new ≡ put_row_hop self.old hop weight) }
        ensures err { OnErr result (self.new ≡ self.old) }
    {
        self.hops.put(hop, weight)
    }

    /// The hops with their weights; the hops rise.
    pub fn items(&self) -> &[(RowHop, u8)]
        ensures value { result.now ≡ self.now }
        ensures rising { AreRisingRowHops result.now }
        ensures weights { HaveWeights result.now }
    {
        self.hops.as_slice()
    }

    /// The same hops once more.
    pub fn copy(&self) -> Result<RowHops, OutOfMemory>
        ensures { IfOk result (λ hops. hops ≡ self.now) }
    {
        Ok(RowHops {
            hops: self.hops.copy()?,
        })
    }
}

impl PartialEq for RowHops {
    ghost eq = { pointwise (λ a b. ⟦<RowHop as PartialEq>⟧.eq a.0 b.0 && (a.1 == b.1)) };

    ghost laws = { lists_per (and_per (on_per (λ h. h.0) same_hop.laws-law) (on_per (λ h. h.1) (partial_equiv_from_equiv nat_eq_equiv))) };

    fn eq(&self, other: &RowHops) -> bool {
        self.hops.as_slice() == other.hops.as_slice()
    }
}

impl Eq for RowHops {
    ghost laws = { lists_equiv (and_equiv (on_equiv (λ h. h.0) equal_hop.laws-law) (on_equiv (λ h. h.1) nat_eq_equiv)) };
}
