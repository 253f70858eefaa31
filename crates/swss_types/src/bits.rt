// The bits of an internet address.
ghost use Rattle.std.specs.Prelude.{◌≡◌, ◌==◌, ◌/◌, ◌%◌, ◌^◌};
ghost use Rattle.std.proofs.Common.{rules};
ghost use Rattle.std.specs.Cmp.{partial_order_from_own_ties};
ghost use Rattle.std.specs.Cmp.Rules.{comparing};
ghost use Rattle.std.specs.Ordering.{nat_cmp, as_partial_cmp};

use std::cmp::Ordering;
use std::fmt;
use std::marker::Model;

/// A number below 2^128: the bits of an internet address. It stands in words of 32 bits, the lowest first, so that an
/// address takes the room of its bits beside other fields, and two words are read at once.
#[derive(Clone, Copy)]
pub struct Bits {
    fourth: u32,
    third: u32,
    second: u32,
    first: u32,
}

impl Model for Bits {
    ghost use Rattle.std.specs.Prelude.{ℕ, ◌^◌, ◌<◌, ◌/◌, ◌%◌};
    ghost use Rattle.swss_types.specs.Bits.{of_words};

    ghost Value = { ℕ };

    ghost view = { λ b. of_words b.first b.second b.third b.fourth };

    ghost inverse = { λ n. record { first = n / 2 ^ 96; second = n / 2 ^ 64 % 2 ^ 32; third = n / 2 ^ 32 % 2 ^ 32; fourth = n % 2 ^ 32 } };

    ghost invariant = { λ b. (b.first < 2 ^ 32) × (b.second < 2 ^ 32) × (b.third < 2 ^ 32) × (b.fourth < 2 ^ 32) };
}

impl Bits {
    /// The bits of a number.
    pub const fn new(number: u128) -> Bits
        ensures { result ≡ number }
    {
        Bits {
            first: (number >> 96) as u32,
            second: ((number >> 64) % (1 << 32)) as u32,
            third: ((number >> 32) % (1 << 32)) as u32,
            fourth: (number % (1 << 32)) as u32,
        }
    }

    /// The number.
    pub fn number(self) -> u128
        ensures { result ≡ self }
    {
        u128::from(self.upper()) * (1 << 64) + u128::from(self.lower())
    }

    /// Its upper half.
    #[inline(always)]
    fn upper(self) -> u64
        ensures { result ≡ self / 2 ^ 64 }
    {
        u64::from(self.first) * (1 << 32) + u64::from(self.second)
    }

    /// Its lower half.
    #[inline(always)]
    fn lower(self) -> u64
        ensures { result ≡ self % 2 ^ 64 }
    {
        u64::from(self.third) * (1 << 32) + u64::from(self.fourth)
    }
}

impl PartialEq for Bits {
    ghost eq = { ◌==◌ };

    ghost laws = { Prim.search (comparing, rules) };

    fn eq(&self, other: &Bits) -> bool {
        self.number() == other.number()
    }
}

impl Eq for Bits {
    ghost laws = { Prim.search (comparing, rules) };
}

impl PartialOrd for Bits {
    ghost partial_cmp = { as_partial_cmp nat_cmp };

    ghost laws = { partial_order_from_own_ties (Prim.search (comparing, rules)) (Prim.search (comparing, rules)) };

    fn partial_cmp(&self, other: &Bits) -> Option<Ordering> {
        Some(self.cmp(other))
    }
}

impl Ord for Bits {
    ghost cmp = { nat_cmp };

    ghost total = { Prim.search (comparing, rules) };

    ghost matches_partial_cmp = { Prim.search (comparing, rules) };

    ghost matches_eq = { Prim.search (comparing, rules) };

    // Half by half, so that the numbers need not be put together. The comparison stands in a map's search.
    #[inline(always)]
    fn cmp(&self, other: &Bits) -> Ordering {
        match self.upper().cmp(&other.upper()) {
            Ordering::Equal => self.lower().cmp(&other.lower()),
            order => order,
        }
    }
}

impl fmt::Debug for Bits {
    fn fmt<W: fmt::Write>(&self, f: &mut fmt::Formatter<W>) -> fmt::Result {
        self.number().fmt(f)
    }
}
