// What identifiers stand for.
ghost use Rattle.std.specs.Prelude.{◌≡◌, [], IfOk, option_copied, option_map};
ghost use Rattle.std.specs.Option.{is_some};
ghost use Rattle.sai_types.specs.Named.{base_on, both, bridge_port_at, goal_by, hop_on, next_hop_at, port_at, rif_at, router_at, thing_by, vlan_at, whop_at};
ghost use Rattle.sai_types.specs.Objects.{body_at};
ghost use Rattle.chip_names.specs.Naming.{hops_of_group, numbered};

use crate::known::{Known, Numbered};
use late_maps::LateMap;
use sai_types::{
    Base, Body, Entry, Goal, Hop, Hops, PortThing, Rid, RifOn, Thing, To, WHop, Weight,
};
use std::alloc::Global;
use swss_types::{Ip, Mac, OutOfMemory, Prefix, Tagging, Vrf};

/// The hops of each group that has members: None where a member's next hop is absent.
pub type GroupHops = LateMap<Rid, Option<Hops>>;

/// The body with this identifier.
fn body_at<'a>(bodies: &'a Numbered, id: Rid) -> Option<&'a Body<Rid>>
    ensures { option_copied result ≡ body_at (numbered bodies.now) (Entry.Oid id) }
{
    bodies.get(&id)
}

/// A port is named by its first lane.
fn port_at(bodies: &Numbered, port: Rid) -> Option<u16>
    ensures { result ≡ port_at (numbered bodies.now) port }
{
    match body_at(bodies, port) {
        Some(Body::Port { lanes, .. }) => Some(lanes.first()),
        _ => None,
    }
}

/// A VLAN is named by its number.
fn vlan_at(bodies: &Numbered, vlan: Rid) -> Option<u16>
    ensures { result ≡ vlan_at (numbered bodies.now) vlan }
{
    match body_at(bodies, vlan) {
        Some(Body::Vlan { vlan }) => Some(*vlan),
        _ => None,
    }
}

/// The virtual router of an object, where it is there: the default one is none of the objects.
pub fn router_at(bodies: &Numbered, vr: Option<Rid>) -> Option<Vrf>
    ensures { result ≡ router_at (numbered bodies.now) vr }
{
    let Some(vr) = vr else {
        return Some(Vrf::Default);
    };
    match body_at(bodies, vr) {
        Some(Body::VirtualRouter { label }) => Some(Vrf::Named(*label)),
        _ => None,
    }
}

/// A bridge port is named by its port.
fn bridge_port_at(bodies: &Numbered, bridge_port: Rid) -> Option<u16>
    ensures { result ≡ bridge_port_at (numbered bodies.now) bridge_port }
{
    match body_at(bodies, bridge_port) {
        Some(Body::BridgePort { port }) => port_at(bodies, *port),
        _ => None,
    }
}

/// What a router interface stands on.
fn base_on(bodies: &Numbered, on: &RifOn<Rid>) -> Option<Base>
    ensures { result ≡ base_on (numbered bodies.now) on.now }
{
    match on {
        RifOn::Port(port) => Some(Base::Port(port_at(bodies, *port)?)),
        RifOn::Vlan(vlan) => Some(Base::Vlan(vlan_at(bodies, *vlan)?)),
    }
}

/// A router interface is named by its base.
pub fn rif_at(bodies: &Numbered, rif: Rid) -> Option<Base>
    ensures { result ≡ rif_at (numbered bodies.now) rif }
{
    match body_at(bodies, rif) {
        Some(Body::Rif { on, .. }) => base_on(bodies, on),
        _ => None,
    }
}

/// A neighbour is named by its interface and address.
pub fn hop_on(bodies: &Numbered, rif: Rid, ip: Ip) -> Option<Hop>
    ensures { result ≡ hop_on (numbered bodies.now) rif ip }
{
    let on = rif_at(bodies, rif)?;
    Some(Hop { on, ip })
}

/// A next hop is named as its neighbour.
fn next_hop_at(bodies: &Numbered, next_hop: Rid) -> Option<Hop>
    ensures { result ≡ next_hop_at (numbered bodies.now) next_hop }
{
    match body_at(bodies, next_hop) {
        Some(Body::NextHop { rif, ip }) => hop_on(bodies, *rif, *ip),
        _ => None,
    }
}

/// The hop of a next hop, with the weight of a member.
pub fn whop_at(bodies: &Numbered, next_hop: Rid, weight: Weight) -> Option<WHop>
    ensures { result ≡ whop_at (numbered bodies.now) next_hop weight }
{
    let hop = next_hop_at(bodies, next_hop)?;
    Some(WHop { hop, weight })
}

/// The hops of a group once more, without a hop where it has no member.
fn hops_at(alloc: Global, groups: &GroupHops, group: Rid) -> Result<Option<Hops>, OutOfMemory>
    ensures { IfOk result (λ hops. hops ≡ hops_of_group groups.now group) }
{
    Ok(match groups.get(&group) {
        Some(Some(hops)) => Some(hops.copy()?),
        Some(None) => None,
        None => Some(Hops::new(alloc)),
    })
}

/// Where a route points.
fn goal_at(
    alloc: Global,
    bodies: &Numbered,
    groups: &GroupHops,
    to: &To<Rid>,
) -> Result<Option<Goal>, OutOfMemory>
    ensures { IfOk result (λ goal. goal ≡ goal_by (hops_of_group groups.now) (numbered bodies.now) to.now) }
{
    Ok(match to {
        To::Drop => Some(Goal::Drop),
        To::Rif(rif) => rif_at(bodies, *rif).map(Goal::Direct),
        To::NextHop(next_hop) => next_hop_at(bodies, *next_hop).map(Goal::Via),
        To::Group(group) => hops_at(alloc, groups, *group)?.map(Goal::Group),
    })
}

/// Whether what a route points to is there.
pub fn leads(known: &Known, groups: &GroupHops, to: &To<Rid>) -> bool
    ensures { result ≡ is_some (goal_by (hops_of_group groups.now) known.now to.now) }
{
    match to {
        To::Drop => true,
        To::Rif(rif) => rif_at(known.bodies(), *rif).is_some(),
        To::NextHop(next_hop) => known.hop(*next_hop).is_some(),
        To::Group(group) => has_hops(groups, *group),
    }
}

/// Whether the next hop of each member of a group is there.
fn has_hops(groups: &GroupHops, group: Rid) -> bool
    ensures { result ≡ is_some (hops_of_group groups.now group) }
{
    match groups.get(&group) {
        Some(hops) => hops.is_some(),
        None => true,
    }
}

/// What an object stands for: None where a reference is absent.
pub fn thing_at(
    alloc: Global,
    bodies: &Numbered,
    groups: &GroupHops,
    entry: &Entry<Rid>,
    body: &Body<Rid>,
) -> Result<Option<Thing>, OutOfMemory>
    ensures { IfOk result (λ thing. thing ≡ thing_by (hops_of_group groups.now) (numbered bodies.now) (entry.now, body.now)) }
{
    match body {
        Body::Port {
            lanes,
            speed,
            mtu,
            up,
        } => Ok(Some(Thing::Port(PortThing {
            lanes: lanes.copy()?,
            speed: *speed,
            mtu: *mtu,
            up: *up,
        }))),
        Body::Vlan { vlan } => Ok(Some(Thing::Vlan(*vlan))),
        Body::VirtualRouter { label } => Ok(Some(Thing::VirtualRouter(*label))),
        Body::BridgePort { port } => Ok(port_at(bodies, *port).map(Thing::BridgePort)),
        Body::VlanMember {
            vlan,
            bridge_port,
            tagging,
        } => Ok(member_at(bodies, *vlan, *bridge_port, *tagging)),
        Body::Rif { vr, on } => Ok(interface_at(bodies, *vr, on)),
        Body::OwnAddress { vr, ip } => Ok(own_at(bodies, *vr, *ip)),
        Body::Neighbor { rif, ip, mac } => Ok(neighbor_at(bodies, *rif, *ip, *mac)),
        Body::NextHop { rif, ip } => Ok(hop_on(bodies, *rif, *ip).map(Thing::NextHop)),
        Body::Group => group_at(alloc, groups, entry),
        Body::GroupMember {
            group,
            next_hop,
            weight,
        } => group_member_at(alloc, groups, *group, whop_at(bodies, *next_hop, *weight)),
        Body::Route { vr, prefix, to } => route_at(alloc, bodies, groups, *vr, *prefix, to),
    }
}

/// A router interface as a thing.
fn interface_at(bodies: &Numbered, vr: Option<Rid>, on: &RifOn<Rid>) -> Option<Thing>
    ensures { result ≡ both Thing.Rif (base_on (numbered bodies.now) on.now) (router_at (numbered bodies.now) vr) }
{
    let base = base_on(bodies, on)?;
    let vrf = router_at(bodies, vr)?;
    Some(Thing::Rif(base, vrf))
}

/// An address of the switch itself as a thing.
fn own_at(bodies: &Numbered, vr: Option<Rid>, ip: Ip) -> Option<Thing>
    ensures { result ≡ option_map (λ v. Thing.Own v ip) (router_at (numbered bodies.now) vr) }
{
    let vrf = router_at(bodies, vr)?;
    Some(Thing::Own(vrf, ip))
}

/// A route as a thing.
fn route_at(
    alloc: Global,
    bodies: &Numbered,
    groups: &GroupHops,
    vr: Option<Rid>,
    prefix: Prefix,
    to: &To<Rid>,
) -> Result<Option<Thing>, OutOfMemory>
    ensures { IfOk result (λ thing. thing ≡ both (λ v g. Thing.Route v prefix g) (router_at (numbered bodies.now) vr) (goal_by (hops_of_group groups.now) (numbered bodies.now) to.now)) }
{
    let Some(vrf) = router_at(bodies, vr) else {
        return Ok(None);
    };
    match goal_at(alloc, bodies, groups, to)? {
        Some(goal) => Ok(Some(Thing::Route(vrf, prefix, goal))),
        None => Ok(None),
    }
}

/// A member of a VLAN as a thing.
fn member_at(bodies: &Numbered, vlan: Rid, bridge_port: Rid, tagging: Tagging) -> Option<Thing>
    ensures { result ≡ both (λ v p. Thing.VlanMember v p tagging) (vlan_at (numbered bodies.now) vlan) (bridge_port_at (numbered bodies.now) bridge_port) }
{
    let vlan = vlan_at(bodies, vlan)?;
    let port = bridge_port_at(bodies, bridge_port)?;
    Some(Thing::VlanMember(vlan, port, tagging))
}

/// A neighbour as a thing.
fn neighbor_at(bodies: &Numbered, rif: Rid, ip: Ip, mac: Mac) -> Option<Thing>
    ensures { result ≡ option_map (λ h. Thing.Neighbor h mac) (hop_on (numbered bodies.now) rif ip) }
{
    let hop = hop_on(bodies, rif, ip)?;
    Some(Thing::Neighbor(hop, mac))
}

/// A group as a thing, named by the hops of its members.
fn group_at(
    alloc: Global,
    groups: &GroupHops,
    entry: &Entry<Rid>,
) -> Result<Option<Thing>, OutOfMemory>
    ensures { IfOk result (λ thing. thing ≡ thing_by (hops_of_group groups.now) [] (entry.now, Body.Group)) }
{
    match entry {
        Entry::Oid(group) => Ok(hops_at(alloc, groups, *group)?.map(Thing::Group)),
        _ => Ok(None),
    }
}

/// A member of a group as a thing, with the hop of its next hop and its weight, where that hop is there.
pub fn group_member_at(
    alloc: Global,
    groups: &GroupHops,
    group: Rid,
    hop: Option<WHop>,
) -> Result<Option<Thing>, OutOfMemory>
    ensures { IfOk result (λ thing. thing ≡ both Thing.GroupMember (hops_of_group groups.now group) hop) }
{
    let Some(hop) = hop else {
        return Ok(None);
    };
    match hops_at(alloc, groups, group)? {
        Some(hops) => Ok(Some(Thing::GroupMember(hops, hop))),
        None => Ok(None),
    }
}
