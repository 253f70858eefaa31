// What a row stands for on the chip, put among the things of other rows.
ghost use Rattle.std.specs.Prelude.{◌≡◌, ◌<◌, ◌∷◌, [], IfOk, OnOk, option_map};
ghost use Rattle.std.specs.BTreeSet.{insert_key};
ghost use Rattle.sai_types.specs.declared.thing.Goal.TheVariants as goal;
ghost use Rattle.sai_types.specs.declared.thing.Thing.TheVariants as thing;
ghost use Rattle.sai_types.specs.Order.{thing_cmp};
ghost use Rattle.switch_model.specs.Placed.{place};
ghost use Rattle.switch_model.specs.Things.{address_things, base_of, from_base, from_lane, hops_of, lane_of, members_of, route_things, route_to, things_of, whop_of};
ghost use Rattle.table_schema.specs.Hop.{HaveWeights};
ghost use Rattle.want_view.specs.Walk.{with_things};

use sai_types::{Base, Goal, Hop, Hops, PortThing, Thing, WHop, Weight};
use std::alloc::Global;
use std::collections::BTreeSet;
use swss_types::{IfName, Ip, Mac, OutOfMemory, Prefix, Tagging, Vrf};
use table_schema::{Key, PortPlan, PortRow, RouteRow, Row, RowHop};

/// Puts the things of a row, of an address in this virtual router.
pub(crate) fn put_things(
    alloc: Global,
    plan: &PortPlan,
    things: &mut BTreeSet<Thing>,
    vrf: Vrf,
    key: &Key,
    row: &Row,
) -> Result<(), OutOfMemory>
    ensures { OnOk result (things.new.keys ≡ with_things things.old.keys (things_of plan.now key.now (place vrf row.now))) }
{
    match (key, row) {
        (Key::Port(port), Row::Port(row)) => put_port(plan, things, *port, row),
        (Key::Vlan(vlan), Row::Vlan) => put(things, Thing::Vlan(*vlan)),
        (Key::Vrf(name), Row::Vrf) => put(things, Thing::VirtualRouter(*name)),
        (Key::Member(vlan, port), Row::Member(tagging)) => {
            put_member(plan, things, *vlan, *port, *tagging)
        }
        (Key::Intf(on), Row::Intf(vrf)) => put_interface(plan, things, *on, *vrf),
        (Key::Addr(on, ip, _), Row::Addr) => put_address(plan, things, *on, vrf, *ip),
        (Key::Neigh(on, ip), Row::Neigh(mac)) => put_neighbor(plan, things, *on, *ip, mac),
        (Key::Route(vrf, prefix), Row::Route(target)) => {
            put_route(alloc, plan, things, *vrf, *prefix, target)
        }
        _ => Ok(()),
    }
}

/// Puts a thing.
fn put(things: &mut BTreeSet<Thing>, thing: Thing) -> Result<(), OutOfMemory>
    ensures { OnOk result (things.new.keys ≡ insert_key thing_cmp things.old.keys thing) }
{
    things.insert(thing)?;
    Ok(())
}

/// Puts a port of the plan.
fn put_port(
    plan: &PortPlan,
    things: &mut BTreeSet<Thing>,
    port: u32,
    row: &PortRow,
) -> Result<(), OutOfMemory>
    ensures { OnOk result (things.new.keys ≡ with_things things.old.keys (from_lane (λ lane. thing.Port (record { lanes = row.now.lanes; speed = row.now.speed; mtu = row.now.mtu; up = row.now.up }) ∷ []) (lane_of plan.now port))) }
{
    if lane_of(plan, port).is_none() {
        return Ok(());
    }
    let port = PortThing {
        lanes: row.lanes.copy()?,
        speed: row.speed,
        mtu: row.mtu,
        up: row.up,
    };
    put(things, Thing::Port(port))
}

/// Puts a member of a VLAN with its bridge port.
fn put_member(
    plan: &PortPlan,
    things: &mut BTreeSet<Thing>,
    vlan: u16,
    port: u32,
    tagging: Tagging,
) -> Result<(), OutOfMemory>
    ensures { OnOk result (things.new.keys ≡ with_things things.old.keys (from_lane (λ lane. thing.BridgePort lane ∷ thing.VlanMember vlan lane tagging ∷ []) (lane_of plan.now port))) }
{
    let Some(lane) = lane_of(plan, port) else {
        return Ok(());
    };
    put(things, Thing::BridgePort(lane))?;
    put(things, Thing::VlanMember(vlan, lane, tagging))
}

/// Puts the router interface of an interface.
fn put_interface(
    plan: &PortPlan,
    things: &mut BTreeSet<Thing>,
    on: IfName,
    vrf: Vrf,
) -> Result<(), OutOfMemory>
    ensures { OnOk result (things.new.keys ≡ with_things things.old.keys (from_base (λ b. thing.Rif b vrf ∷ []) (base_of plan.now on))) }
{
    match base_of(plan, on) {
        Some(base) => put(things, Thing::Rif(base, vrf)),
        None => Ok(()),
    }
}

/// Puts an interface's address as the switch's own.
fn put_address(
    plan: &PortPlan,
    things: &mut BTreeSet<Thing>,
    on: IfName,
    vrf: Vrf,
    ip: Ip,
) -> Result<(), OutOfMemory>
    ensures { OnOk result (things.new.keys ≡ with_things things.old.keys (address_things plan.now on vrf ip)) }
{
    if let IfName::Ethernet(port) = on {
        if lane_of(plan, port).is_none() {
            return Ok(());
        }
    }
    put(things, Thing::Own(vrf, ip))
}

/// Puts a neighbour and its next hop.
fn put_neighbor(
    plan: &PortPlan,
    things: &mut BTreeSet<Thing>,
    on: IfName,
    ip: Ip,
    mac: &Mac,
) -> Result<(), OutOfMemory>
    ensures { OnOk result (things.new.keys ≡ with_things things.old.keys (from_base (λ b. thing.Neighbor (record { on = b; ip = ip }) mac.now ∷ thing.NextHop (record { on = b; ip = ip }) ∷ []) (base_of plan.now on))) }
{
    match base_of(plan, on) {
        Some(base) => put_hop(things, &Hop { on: base, ip }, mac),
        None => Ok(()),
    }
}

/// Puts the neighbour of a hop and the next hop.
fn put_hop(things: &mut BTreeSet<Thing>, hop: &Hop, mac: &Mac) -> Result<(), OutOfMemory>
    ensures { OnOk result (things.new.keys ≡ with_things things.old.keys (thing.Neighbor hop.now mac.now ∷ thing.NextHop hop.now ∷ [])) }
{
    put(things, Thing::Neighbor(*hop, *mac))?;
    put(things, Thing::NextHop(*hop))
}

/// Puts a route, and the group that it brings along.
fn put_route(
    alloc: Global,
    plan: &PortPlan,
    things: &mut BTreeSet<Thing>,
    vrf: Vrf,
    prefix: Prefix,
    target: &RouteRow,
) -> Result<(), OutOfMemory>
    ensures { OnOk result (things.new.keys ≡ with_things things.old.keys (route_things plan.now vrf prefix target.now)) }
{
    match target {
        RouteRow::Drop => put(things, Thing::Route(vrf, prefix, Goal::Drop)),
        RouteRow::Direct(on) => match base_of(plan, *on) {
            Some(base) => put(things, Thing::Route(vrf, prefix, Goal::Direct(base))),
            None => Ok(()),
        },
        RouteRow::Hops(hops) => match hops_of(alloc, plan, hops.items())? {
            Some(hops) => put_route_to(things, vrf, prefix, &hops),
            None => Ok(()),
        },
    }
}

/// Puts a route to one hop, or to a group of several with its members.
fn put_route_to(
    things: &mut BTreeSet<Thing>,
    vrf: Vrf,
    prefix: Prefix,
    hops: &Hops,
) -> Result<(), OutOfMemory>
    ensures { OnOk result (things.new.keys ≡ with_things things.old.keys (route_to vrf prefix hops.now)) }
{
    match hops.items() {
        [] => Ok(()),
        [only] => put(things, Thing::Route(vrf, prefix, Goal::Via(only.hop))),
        members => {
            let goal = Goal::Group(hops.copy()?);
            put(things, Thing::Route(vrf, prefix, goal))?;
            put(things, Thing::Group(hops.copy()?))?;
            put_members(things, hops, members)
        }
    }
}

/// Puts members of a group.
fn put_members(things: &mut BTreeSet<Thing>, group: &Hops, hops: &[WHop]) -> Result<(), OutOfMemory>
    ensures { OnOk result (things.new.keys ≡ with_things things.old.keys (members_of group.now hops.now)) }
{
    for hop in hops {
        put(things, Thing::GroupMember(group.copy()?, *hop))?;
    }
    Ok(())
}

/// The hops of a row as hops of the chip with their weights: None where one of them stands on nothing.
fn hops_of(
    alloc: Global,
    plan: &PortPlan,
    hops: &[(RowHop, u8)],
) -> Result<Option<Hops>, OutOfMemory>
    requires { HaveWeights hops.now }
    ensures { IfOk result (λ found. found ≡ hops_of plan.now hops.now) }
{
    let [hop, others @ ..] = hops else {
        return Ok(Some(Hops::new(alloc)));
    };
    let Some(mut found) = hops_of(alloc, plan, others)? else {
        return Ok(None);
    };
    let Some(hop) = whop_of(plan, hop) else {
        return Ok(None);
    };
    found.put(hop)?;
    Ok(Some(found))
}

/// A hop of a row as a hop of the chip with its weight: None exactly where it stands on nothing.
fn whop_of(plan: &PortPlan, hop: &(RowHop, u8)) -> Option<WHop>
    requires { 0 < hop.now.1 }
    ensures { result ≡ whop_of plan.now hop.now }
{
    let on = base_of(plan, hop.0.on)?;
    let Some(weight) = Weight::new(hop.1) else {
        unreachable!();
    };
    Some(WHop {
        hop: Hop { on, ip: hop.0.ip },
        weight,
    })
}

/// What an interface's router interface stands on: None where its port is not in the plan, and for a Loopback.
fn base_of(plan: &PortPlan, on: IfName) -> Option<Base>
    ensures { result ≡ base_of plan.now on }
{
    match on {
        IfName::Ethernet(port) => match lane_of(plan, port) {
            Some(lane) => Some(Base::Port(lane)),
            None => None,
        },
        IfName::Vlan(vlan) => Some(Base::Vlan(vlan)),
        IfName::Loopback(_) => None,
    }
}

/// The first lane of a port: None exactly where the plan has no such port.
fn lane_of(plan: &PortPlan, port: u32) -> Option<u16>
    ensures { result ≡ lane_of plan.now port }
{
    match plan.lanes_of(port) {
        Some(lanes) => Some(lanes.first()),
        None => None,
    }
}
