// The kinds of objects, and numbers for each of them.
ghost use Rattle.std.specs.Prelude.{◌≡◌, ◌<◌};

/// How many kinds there are.
pub const KINDS: usize = 12;

/// A number for each kind, in the order of `Kind`.
pub type KindCounts = [u64; KINDS];

/// A kind of object, in the order of the chip's table: lowest level first.
#[derive(Clone, Copy, Debug, PartialEq, Eq, PartialOrd, Ord)]
pub enum Kind {
    /// A port of the switch.
    Port,
    /// A VLAN.
    Vlan,
    /// A virtual router.
    VirtualRouter,
    /// A port as a member of the bridge.
    BridgePort,
    /// A bridge port in a VLAN.
    VlanMember,
    /// A router interface on a port or a VLAN.
    Rif,
    /// An address of the switch itself.
    OwnAddress,
    /// A neighbour with its Ethernet address.
    Neighbor,
    /// A next hop through a neighbour.
    NextHop,
    /// A group of next hops.
    Group,
    /// A next hop in a group.
    GroupMember,
    /// A route.
    Route,
}

impl Kind {
    ghost use Rattle.sai_types.specs.Objects.{level};

    /// The kinds in their order.
    pub const ALL: [Kind; KINDS] = [
        Kind::Port,
        Kind::Vlan,
        Kind::VirtualRouter,
        Kind::BridgePort,
        Kind::VlanMember,
        Kind::Rif,
        Kind::OwnAddress,
        Kind::Neighbor,
        Kind::NextHop,
        Kind::Group,
        Kind::GroupMember,
        Kind::Route,
    ];

    /// The place of the kind in their order, from 0 on.
    pub fn index(self) -> usize
        ensures place { result ≡ level self }
        ensures within { result < KINDS }
    {
        match self {
            Kind::Port => 0,
            Kind::Vlan => 1,
            Kind::VirtualRouter => 2,
            Kind::BridgePort => 3,
            Kind::VlanMember => 4,
            Kind::Rif => 5,
            Kind::OwnAddress => 6,
            Kind::Neighbor => 7,
            Kind::NextHop => 8,
            Kind::Group => 9,
            Kind::GroupMember => 10,
            Kind::Route => 11,
        }
    }
}
