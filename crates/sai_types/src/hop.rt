// What router interfaces stand on, and next hops.
use swss_types::Ip;

/// What a router interface stands on: a port, by its first lane, or a VLAN, by its number.
#[derive(Clone, Copy, Debug, PartialEq, Eq, PartialOrd, Ord)]
pub enum Base {
    /// The port whose first lane this is.
    Port(u16),
    /// The VLAN of this number.
    Vlan(u16),
}

/// A next hop: an address on a router interface.
#[derive(Clone, Copy, Debug, PartialEq, Eq, PartialOrd, Ord)]
pub struct Hop {
    /// The interface.
    pub on: Base,
    /// The address.
    pub ip: Ip,
}
