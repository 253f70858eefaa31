// Objects, and the calls that make, change and remove them. I is the type of identifiers.
ghost use Rattle.std.specs.Prelude.{◌≡◌, IfOk};

use crate::{Kind, Weight};
use swss_types::{Ip, Lanes, Mac, OutOfMemory, Prefix, Tagging, VrfName};

/// What a router interface stands on.
#[derive(Clone, Copy, Debug, PartialEq, Eq, PartialOrd, Ord)]
pub enum RifOn<I> {
    /// A port.
    Port(I),
    /// A VLAN.
    Vlan(I),
}

/// Where a route points.
#[derive(Clone, Copy, Debug, PartialEq, Eq, PartialOrd, Ord)]
pub enum To<I> {
    /// Nowhere: its packets are dropped.
    Drop,
    /// A router interface.
    Rif(I),
    /// A next hop.
    NextHop(I),
    /// A group of next hops.
    Group(I),
}

/// What an object is, with its references.
#[derive(Debug, PartialEq, Eq, Drop)]
pub enum Body<I> {
    /// A port, known by its lanes.
    Port {
        /// Its lanes.
        lanes: Lanes,
        /// Its speed in megabits a second.
        speed: u32,
        /// Its largest frame in bytes.
        mtu: u32,
        /// Whether it is administratively up.
        up: bool,
    },
    /// A VLAN, known by its number.
    Vlan {
        /// Its number, 1 to 4094.
        vlan: u16,
    },
    /// A virtual router, known by its label.
    VirtualRouter {
        /// Its label.
        label: VrfName,
    },
    /// A port as a member of the bridge.
    BridgePort {
        /// The port.
        port: I,
    },
    /// A bridge port in a VLAN.
    VlanMember {
        /// The VLAN.
        vlan: I,
        /// The bridge port.
        bridge_port: I,
        /// The tagging.
        tagging: Tagging,
    },
    /// A router interface.
    Rif {
        /// Its virtual router, unless it is the default one.
        vr: Option<I>,
        /// The port or VLAN that it stands on.
        on: RifOn<I>,
    },
    /// An address of the switch itself.
    OwnAddress {
        /// Its virtual router, unless it is the default one.
        vr: Option<I>,
        /// The address.
        ip: Ip,
    },
    /// A neighbour.
    Neighbor {
        /// Its router interface.
        rif: I,
        /// Its address.
        ip: Ip,
        /// Its Ethernet address.
        mac: Mac,
    },
    /// A next hop through the neighbour of the same interface and address.
    NextHop {
        /// Its router interface.
        rif: I,
        /// Its address.
        ip: Ip,
    },
    /// A group of next hops.
    Group,
    /// A next hop in a group.
    GroupMember {
        /// The group.
        group: I,
        /// The next hop.
        next_hop: I,
        /// Its weight.
        weight: Weight,
    },
    /// A route.
    Route {
        /// Its virtual router, unless it is the default one.
        vr: Option<I>,
        /// What it covers.
        prefix: Prefix,
        /// Where it points.
        to: To<I>,
    },
}

/// By what an object is named in a call: its identifier, or for the kinds that have none its key.
#[derive(Clone, Copy, Debug, PartialEq, Eq, PartialOrd, Ord)]
pub enum Entry<I> {
    /// An identifier.
    Oid(I),
    /// An address of the switch itself, in a virtual router unless it is in the default one.
    Own(Option<I>, Ip),
    /// A neighbour, by its interface and address.
    Neigh(I, Ip),
    /// A route, by its virtual router unless it is the default one, and its prefix.
    Route(Option<I>, Prefix),
}

/// A new value of one attribute.
#[derive(Clone, Copy, Debug, PartialEq, Eq)]
pub enum Attr<I> {
    /// Of a port.
    Speed(u32),
    /// Of a port.
    Mtu(u32),
    /// Of a port: administratively up.
    Up(bool),
    /// Of a VLAN member.
    Tagging(Tagging),
    /// Of a neighbour.
    Mac(Mac),
    /// Of a route.
    To(To<I>),
}

/// A call on the chip.
#[derive(Debug, PartialEq, Eq, Drop)]
pub enum Call<I> {
    /// Makes an object.
    Create(Body<I>),
    /// Sets an attribute of an object.
    Set(Entry<I>, Attr<I>),
    /// Removes an object.
    Remove(Entry<I>),
}

/// An object of a chip with its entry.
#[derive(Debug, PartialEq, Eq, Drop)]
pub struct Object<I> {
    /// By what it is named.
    pub entry: Entry<I>,
    /// What it is.
    pub body: Body<I>,
}

impl<I> Body<I> {
    ghost use Rattle.sai_types.specs.Objects.{kind_of};
    ghost use Rattle.sai_types.specs.declared.body.Body.TheVariants as body;

    /// Its kind.
    pub fn kind(&self) -> Kind
        ensures { result ≡ kind_of self.now }
    {
        match self {
            Body::Port { .. } => Kind::Port,
            Body::Vlan { .. } => Kind::Vlan,
            Body::VirtualRouter { .. } => Kind::VirtualRouter,
            Body::BridgePort { .. } => Kind::BridgePort,
            Body::VlanMember { .. } => Kind::VlanMember,
            Body::Rif { .. } => Kind::Rif,
            Body::OwnAddress { .. } => Kind::OwnAddress,
            Body::Neighbor { .. } => Kind::Neighbor,
            Body::NextHop { .. } => Kind::NextHop,
            Body::Group => Kind::Group,
            Body::GroupMember { .. } => Kind::GroupMember,
            Body::Route { .. } => Kind::Route,
        }
    }

    /// A port.
    fn port(lanes: Lanes, speed: u32, mtu: u32, up: bool) -> Body<I>
        ensures { result ≡ body.Port lanes speed mtu up }
    {
        Body::Port {
            lanes,
            speed,
            mtu,
            up,
        }
    }

    /// A bridge port in a VLAN.
    fn vlan_member(vlan: I, bridge_port: I, tagging: Tagging) -> Body<I>
        ensures { result ≡ body.VlanMember vlan bridge_port tagging }
    {
        Body::VlanMember {
            vlan,
            bridge_port,
            tagging,
        }
    }

    /// A next hop in a group.
    fn group_member(group: I, next_hop: I, weight: Weight) -> Body<I>
        ensures { result ≡ body.GroupMember group next_hop weight }
    {
        Body::GroupMember {
            group,
            next_hop,
            weight,
        }
    }
}

impl<I: Copy> Body<I> {
    /// The same body once more.
    pub fn copy(&self) -> Result<Body<I>, OutOfMemory>
        ensures { IfOk result (λ body. body ≡ self.now) }
    {
        Ok(match self {
            Body::Port {
                lanes,
                speed,
                mtu,
                up,
            } => Self::port(lanes.copy()?, *speed, *mtu, *up),
            Body::Vlan { vlan } => Body::Vlan { vlan: *vlan },
            Body::VirtualRouter { label } => Body::VirtualRouter { label: *label },
            Body::BridgePort { port } => Body::BridgePort { port: *port },
            Body::VlanMember {
                vlan,
                bridge_port,
                tagging,
            } => Self::vlan_member(*vlan, *bridge_port, *tagging),
            Body::Rif { vr, on } => Body::Rif { vr: *vr, on: *on },
            Body::OwnAddress { vr, ip } => Body::OwnAddress { vr: *vr, ip: *ip },
            Body::Neighbor { rif, ip, mac } => Body::Neighbor {
                rif: *rif,
                ip: *ip,
                mac: *mac,
            },
            Body::NextHop { rif, ip } => Body::NextHop { rif: *rif, ip: *ip },
            Body::Group => Body::Group,
            Body::GroupMember {
                group,
                next_hop,
                weight,
            } => Self::group_member(*group, *next_hop, *weight),
            Body::Route { vr, prefix, to } => Body::Route {
                vr: *vr,
                prefix: *prefix,
                to: *to,
            },
        })
    }
}

impl<I: Copy> Call<I> {
    /// The same call once more.
    pub fn copy(&self) -> Result<Call<I>, OutOfMemory>
        ensures { IfOk result (λ call. call ≡ self.now) }
    {
        Ok(match self {
            Call::Create(body) => Call::Create(body.copy()?),
            Call::Set(entry, attr) => Call::Set(*entry, *attr),
            Call::Remove(entry) => Call::Remove(*entry),
        })
    }
}

impl<I: Copy> Object<I> {
    /// The same object once more.
    pub fn copy(&self) -> Result<Object<I>, OutOfMemory>
        ensures { IfOk result (λ object. object ≡ self.now) }
    {
        Ok(Object {
            entry: self.entry,
            body: self.body.copy()?,
        })
    }
}
