// What rows stand on and share.
ghost use Rattle.std.specs.Prelude.{◌≡◌, ◌<◌, [], ◌∷◌, IfOk};
ghost use Rattle.switch_model.specs.Placed.{place};
ghost use Rattle.switch_model.specs.Things.{base_of, hops_of, lane_of, whop_of};
ghost use Rattle.row_layout.specs.Rows.{Bridge, from};
ghost use Rattle.row_layout.specs.Shared.{address_uses, group_by, uses};
ghost use Rattle.orch_flight.specs.Sharing.{AreOfShared, owners_of};

use ref_counts::Name;
use sai_types::{Base, Hop, Hops, WHop, Weight};
use std::alloc::Global;
use swss_types::{IfName, Ip, OutOfMemory, Vrf};
use table_schema::{Key, PortPlan, RouteRow, Row, RowHop, RowHops};

/// The first lane of a port: None exactly where the plan has no such port.
pub fn lane_of(plan: &PortPlan, port: u32) -> Option<u16>
    ensures { result ≡ lane_of plan.now port }
{
    match plan.lanes_of(port) {
        Some(lanes) => Some(lanes.first()),
        None => None,
    }
}

/// What an interface's router interface stands on: None where its port is not in the plan, and for a Loopback.
pub fn base_of(plan: &PortPlan, on: IfName) -> Option<Base>
    ensures { result ≡ base_of plan.now on }
{
    match on {
        IfName::Ethernet(port) => match lane_of(plan, port) {
            Some(lane) => Some(Base::Port(lane)),
            None => None,
        },
        IfName::Vlan(vlan) => Some(Base::Vlan(vlan)),
        IfName::Loopback(_) => None,
    }
}

/// What a row of this key shares with other rows, if anything: an address that is in this virtual router its own address there.
pub fn shared(
    alloc: Global,
    plan: &PortPlan,
    router: &Vrf,
    key: &Key,
    row: &Row,
) -> Result<Option<Name>, OutOfMemory>
    ensures value { IfOk result (λ name. uses plan.now key.now (place router.now row.now) ≡ owners_of name) }
    ensures kind { IfOk result (λ name. AreOfShared name) }
{
    match (key, row) {
        (Key::Member(_, port), Row::Member(_)) => Ok(bridge_of(plan, *port)),
        (Key::Addr(on, ip, _), Row::Addr) => Ok(own_of(plan, router, *on, *ip)),
        (Key::Route(..), Row::Route(RouteRow::Hops(hops))) => group_of(alloc, plan, hops),
        _ => Ok(None),
    }
}

/// The bridge port of a port: None exactly where the plan has no such port.
pub fn bridge_of(plan: &PortPlan, port: u32) -> Option<Name>
    ensures value { from (lane_of plan.now port) (λ lane. Bridge lane ∷ []) ≡ owners_of result }
    ensures kind { AreOfShared result }
{
    match lane_of(plan, port) {
        Some(lane) => Some(Name::BridgePort(lane)),
        None => None,
    }
}

/// An interface's address as the switch's own in a virtual router, unless the interface is on a port that is not in the plan.
pub fn own_of(plan: &PortPlan, router: &Vrf, on: IfName, ip: Ip) -> Option<Name>
    ensures value { address_uses plan.now on router.now ip ≡ owners_of result }
    ensures kind { AreOfShared result }
{
    match on {
        IfName::Ethernet(port) => match lane_of(plan, port) {
            Some(_) => Some(Name::Own(*router, ip)),
            None => None,
        },
        IfName::Vlan(_) | IfName::Loopback(_) => Some(Name::Own(*router, ip)),
    }
}

/// The group of several hops.
fn group_of(alloc: Global, plan: &PortPlan, hops: &RowHops) -> Result<Option<Name>, OutOfMemory>
    ensures value { IfOk result (λ name. group_by (hops_of plan.now hops.now) ≡ owners_of name) }
    ensures kind { IfOk result (λ name. AreOfShared name) }
{
    let Some(hops) = hops_of(alloc, plan, hops)? else {
        return Ok(None);
    };
    match hops.items() {
        [] | [_] => Ok(None),
        _ => Ok(Some(Name::Group(hops))),
    }
}

/// The hops of a row as hops of the chip with their weights, where each stands on something. They are put from the last one
/// to the first: a row's hops rise, so each is mostly less than those put so far, and one comparison tells it.
fn hops_of(alloc: Global, plan: &PortPlan, hops: &RowHops) -> Result<Option<Hops>, OutOfMemory>
    ensures { IfOk result (λ found. found ≡ hops_of plan.now hops.now) }
{
    let mut found = Hops::new(alloc);
    for hop in hops.items().iter().rev() {
        let Some(whop) = whop_of(plan, hop) else {
            return Ok(None);
        };
        found.put(whop)?;
    }
    Ok(Some(found))
}

/// A hop of a row as a hop of the chip with its weight: None exactly where it stands on nothing.
fn whop_of(plan: &PortPlan, hop: &(RowHop, u8)) -> Option<WHop>
    requires { 0 < hop.now.1 }
    ensures { result ≡ whop_of plan.now hop.now }
{
    match (base_of(plan, hop.0.on), Weight::new(hop.1)) {
        (Some(on), Some(weight)) => Some(WHop {
            hop: Hop { on, ip: hop.0.ip },
            weight,
        }),
        (None, _) => None,
        (Some(_), None) => unreachable!(),
    }
}
