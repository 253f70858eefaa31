// What stands on a chip, up to identifiers.
ghost use Rattle.std.specs.Prelude.{◌≡◌, IfOk};

use crate::{Base, Hop, Hops, WHop};
use swss_types::{Ip, Lanes, Mac, OutOfMemory, Prefix, Tagging, Vrf, VrfName};

/// Where a route sends its packets.
#[derive(Debug, PartialEq, Eq, PartialOrd, Ord, Drop)]
pub enum Goal {
    /// Nowhere.
    Drop,
    /// To whoever is on the interface.
    Direct(Base),
    /// To one next hop.
    Via(Hop),
    /// To one of several next hops.
    Group(Hops),
}

/// A port as a thing.
#[derive(Debug, PartialEq, Eq, PartialOrd, Ord, Drop)]
pub struct PortThing {
    /// Its lanes, by which it is known.
    pub lanes: Lanes,
    /// Its speed in megabits a second.
    pub speed: u32,
    /// Its largest frame in bytes.
    pub mtu: u32,
    /// Whether it is administratively up.
    pub up: bool,
}

/// An object with each identifier replaced by the natural key of what it names.
#[derive(Debug, PartialEq, Eq, PartialOrd, Ord, Drop)]
pub enum Thing {
    /// A port.
    Port(PortThing),
    /// A VLAN, by its number.
    Vlan(u16),
    /// A virtual router, by its label.
    VirtualRouter(VrfName),
    /// A bridge port, by its port's first lane.
    BridgePort(u16),
    /// A member of a VLAN: the VLAN, the port's first lane, the tagging.
    VlanMember(u16, u16, Tagging),
    /// A router interface, and the virtual router that it is in.
    Rif(Base, Vrf),
    /// An address of the switch itself, in a virtual router.
    Own(Vrf, Ip),
    /// A neighbour with its Ethernet address.
    Neighbor(Hop, Mac),
    /// A next hop.
    NextHop(Hop),
    /// A group, by its hops with their weights.
    Group(Hops),
    /// A hop in a group.
    GroupMember(Hops, WHop),
    /// A route, in a virtual router.
    Route(Vrf, Prefix, Goal),
}

impl Goal {
    /// The same goal once more.
    pub fn copy(&self) -> Result<Goal, OutOfMemory>
        ensures { IfOk result (λ goal. goal ≡ self.now) }
    {
        Ok(match self {
            Goal::Drop => Goal::Drop,
            Goal::Direct(base) => Goal::Direct(*base),
            Goal::Via(hop) => Goal::Via(*hop),
            Goal::Group(hops) => Goal::Group(hops.copy()?),
        })
    }
}

impl PortThing {
    /// The same port once more.
    pub fn copy(&self) -> Result<PortThing, OutOfMemory>
        ensures { IfOk result (λ port. port ≡ self.now) }
    {
        Ok(PortThing {
            lanes: self.lanes.copy()?,
            speed: self.speed,
            mtu: self.mtu,
            up: self.up,
        })
    }
}

impl Thing {
    /// The same thing once more.
    pub fn copy(&self) -> Result<Thing, OutOfMemory>
        ensures { IfOk result (λ thing. thing ≡ self.now) }
    {
        Ok(match self {
            Thing::Port(port) => Thing::Port(port.copy()?),
            Thing::Vlan(vlan) => Thing::Vlan(*vlan),
            Thing::VirtualRouter(label) => Thing::VirtualRouter(*label),
            Thing::BridgePort(port) => Thing::BridgePort(*port),
            Thing::VlanMember(vlan, port, tagging) => Thing::VlanMember(*vlan, *port, *tagging),
            Thing::Rif(base, vrf) => Thing::Rif(*base, *vrf),
            Thing::Own(vrf, ip) => Thing::Own(*vrf, *ip),
            Thing::Neighbor(hop, mac) => Thing::Neighbor(*hop, *mac),
            Thing::NextHop(hop) => Thing::NextHop(*hop),
            Thing::Group(hops) => Thing::Group(hops.copy()?),
            Thing::GroupMember(hops, hop) => Thing::GroupMember(hops.copy()?, *hop),
            Thing::Route(vrf, prefix, goal) => Thing::Route(*vrf, *prefix, goal.copy()?),
        })
    }
}
