// Addresses of the internet protocol and of Ethernet.
ghost use Rattle.std.specs.Prelude.{◌≡◌};
ghost use Rattle.std.proofs.Common.{rules};
ghost use Rattle.std.specs.Cmp.{partial_order_from_own_ties, partial_order_from_total};
ghost use Rattle.std.specs.Cmp.Rules.{comparing};
ghost use Rattle.std.specs.Ordering.{as_partial_cmp};
ghost use Rattle.swss_types.specs.Address.{IsProperIp, IsProperPrefix, covers, width};
ghost use Rattle.swss_types.specs.AddressOrder.{ip_cmp, ip_total, prefix_cmp, prefix_total};

use crate::Bits;
use std::cmp::Ordering;
use std::marker::Model;

/// The bits of an address of version 4.
pub const V4_BITS: u8 = 32;

/// The bits of an address of version 6.
pub const V6_BITS: u8 = 128;

/// The version of the internet protocol.
#[derive(Clone, Copy, Debug, PartialEq, Eq, PartialOrd, Ord)]
pub enum Family {
    /// Version 4: 32 bits.
    V4,
    /// Version 6: 128 bits.
    V6,
}

/// An internet address. It is proper where an address of version 4 is below 2^32.
#[derive(Clone, Copy, Debug, PartialEq, Eq)]
pub struct Ip {
    /// The version.
    pub family: Family,
    /// The address as a number, the first byte of the address the highest.
    pub bits: Bits,
}

/// An address with the number of its first bits that count. It is proper where the length is in the family's range
/// and all bits past it are zero.
#[derive(Clone, Copy, Debug, PartialEq, Eq)]
pub struct Prefix {
    /// The first address that the prefix covers.
    pub ip: Ip,
    /// How many bits count: at most 32 or 128, by family.
    pub len: u8,
}

/// An Ethernet address, its six bytes in the order in which they are written.
#[derive(Clone, Copy, Debug, PartialEq, Eq, PartialOrd, Ord)]
pub struct Mac(pub [u8; 6]);

impl Model for Prefix {
    ghost use Rattle.swss_types.specs.Address.{IsProperPrefix};
    ghost use Rattle.swss_types.specs.PrefixParts.{PrefixParts};

    ghost Value = { PrefixParts };

    ghost view = { λ p. record { ip = p.ip; len = p.len } };

    ghost inverse = { λ p. record { ip = p.ip; len = p.len } };

    ghost invariant = { λ p. IsProperPrefix (record { ip = p.ip; len = p.len }) };
}

impl Prefix {
    /// Whether the address is of the prefix's family and agrees with it in the prefix's first bits.
    pub fn covers(&self, ip: Ip) -> bool
        requires prefix { IsProperPrefix self.now }
        requires address { IsProperIp ip }
        ensures { result ≡ covers self.now ip }
    {
        if self.ip.family != ip.family {
            return false;
        }
        let rest = ip.family.width() - self.len;
        rest == V6_BITS || self.ip.bits.number() >> rest == ip.bits.number() >> rest
    }
}

impl Family {
    /// The number of bits of an address.
    pub fn width(self) -> u8
        ensures { result ≡ width self }
    {
        match self {
            Family::V4 => V4_BITS,
            Family::V6 => V6_BITS,
        }
    }
}

impl PartialOrd for Ip {
    ghost partial_cmp = { as_partial_cmp ip_cmp };

    ghost laws = { partial_order_from_own_ties (partial_order_from_total ip_total) (Prim.search (comparing, rules)) };

    fn partial_cmp(&self, other: &Ip) -> Option<Ordering> {
        Some(self.cmp(other))
    }
}

impl Ord for Ip {
    ghost cmp = { ip_cmp };

    ghost total = { ip_total };

    ghost matches_partial_cmp = { Prim.search (comparing, rules) };

    ghost matches_eq = { Prim.search (comparing, rules) };

    // A map's search compares with many keys, so the comparison stands in it and is no call.
    #[inline(always)]
    fn cmp(&self, other: &Ip) -> Ordering {
        match (self.family, other.family) {
            (Family::V4, Family::V6) => Ordering::Less,
            (Family::V6, Family::V4) => Ordering::Greater,
            (Family::V4, Family::V4) | (Family::V6, Family::V6) => self.bits.cmp(&other.bits),
        }
    }
}

impl PartialOrd for Prefix {
    ghost partial_cmp = { as_partial_cmp prefix_cmp };

    ghost laws = { partial_order_from_own_ties (partial_order_from_total prefix_total) (Prim.search (comparing, rules)) };

    fn partial_cmp(&self, other: &Prefix) -> Option<Ordering> {
        Some(self.cmp(other))
    }
}

impl Ord for Prefix {
    ghost cmp = { prefix_cmp };

    ghost total = { prefix_total };

    ghost matches_partial_cmp = { Prim.search (comparing, rules) };

    ghost matches_eq = { Prim.search (comparing, rules) };

    #[inline(always)]
    fn cmp(&self, other: &Prefix) -> Ordering {
        match self.ip.cmp(&other.ip) {
            Ordering::Equal => self.len.cmp(&other.len),
            order => order,
        }
    }
}
