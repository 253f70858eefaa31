// How far the operation of a VLAN is, or that of a member of one.
use swss_types::Tagging;

/// How far the operation of a VLAN is.
#[derive(Clone, Copy, Debug)]
pub enum VlanStep {
    /// The VLAN is to be made.
    Add,
    /// The VLAN is made.
    Added,
    /// The VLAN is to be removed.
    Remove,
    /// The VLAN is removed.
    Removed,
    /// The VLAN stays as it is.
    Keep,
}

/// How far the operation of a member of a VLAN is, with the member's tagging.
#[derive(Clone, Copy, Debug)]
pub enum MemberStep {
    /// The bridge port is to be made, and then the member.
    AddBridge(Tagging),
    /// The member is to be made.
    Add(Tagging),
    /// The member is made.
    Added(Tagging),
    /// The tagging is to be set: the old one, and the new one.
    Set(Tagging, Tagging),
    /// The member stays as it is.
    Keep(Tagging),
    /// The member is to be removed.
    Remove(Tagging),
    /// The member is removed, and other members use its bridge port.
    Removed(Tagging),
    /// The member is removed, and the bridge port is to be.
    RemoveBridge(Tagging),
    /// The member and the bridge port are removed.
    Retired(Tagging),
}

/// A port in a VLAN.
#[derive(Clone, Copy, Debug)]
pub struct Membership {
    /// The VLAN.
    pub vlan: u16,
    /// The port.
    pub port: u32,
    /// The port's first lane.
    pub lane: u16,
}

/// What an operation is about, and how far it is.
#[derive(Clone, Copy, Debug)]
pub enum VlanSubject {
    /// A VLAN.
    Vlan(u16, VlanStep),
    /// A member of a VLAN.
    Member(Membership, MemberStep),
}
