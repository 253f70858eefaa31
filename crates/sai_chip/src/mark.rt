// What an object takes up on a chip, one mark for each.
use sai_types::{Kind, Rid, RifOn, Weight};
use swss_types::{Ip, VrfName};

/// What an object takes up: a place among its kind, a reference to another object, its natural key, a lane. An object
/// without an identifier is found by its entry, so its natural key needs no mark.
#[derive(Clone, Copy, Debug, PartialEq, Eq)]
pub enum TakenMark {
    /// One of this kind stands.
    Of(Kind),
    /// The object with this identifier is referred to.
    RefersTo(Rid),
    /// A port has the lane.
    Lane(u16),
    /// The VLAN of this number stands.
    Vlan(u16),
    /// The virtual router of this label stands.
    VirtualRouter(VrfName),
    /// The bridge port of this port stands.
    BridgePort(Rid),
    /// The bridge port is a member of the VLAN.
    VlanMember(Rid, Rid),
    /// A router interface stands on it.
    Rif(RifOn<Rid>),
    /// A next hop goes through the neighbour of this interface and address.
    NextHop(Rid, Ip),
    /// The next hop is a member of the group, with this weight.
    GroupMember(Rid, Rid, Weight),
}
