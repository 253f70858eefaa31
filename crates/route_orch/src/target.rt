// Where a route points.
ghost use Rattle.std.specs.Prelude.{◌≡◌, ◌↔◌, Some, option_map, map, IfOk, IsTrue};
ghost use Rattle.sai_types.specs.contracts.thing.GoalPartialEq.TheImpl as goal_eq;
ghost use Rattle.switch_model.specs.Placed as placed;
ghost use Rattle.orch_flight.specs.Calling.{HaveIds, pointed};
ghost use Rattle.orch_flight.specs.Sharing.{owner_for, owners_of};
ghost use Rattle.orch_flight.specs.Starting.{first_left, in_default};
ghost use Rattle.route_orch.specs.Targets.{AreGroups, HasSeveral, IsRouteKey, IsTargetOf, IsToFirst, PointsTo, goal_at, row_way};

use orch_flight::{base_of, shared, vid};
use ref_counts::{Name, Registry};
use sai_types::{Base, Hop, To, Vid};
use std::alloc::Global;
use swss_types::{OutOfMemory, Vrf};
use table_schema::{Key, PortPlan, RouteRow, Row, RowHop};

/// Where a route points that has no group.
#[derive(Clone, Copy, Debug, PartialEq, Eq)]
pub enum Way {
    /// Nowhere.
    Drop,
    /// To whoever is on the interface.
    Direct(Base),
    /// To one next hop.
    Via(Hop),
}

/// Where a route points: to its group, by the name under which the registry keeps it, or else a way of its own.
#[derive(Debug, Drop)]
pub struct Target {
    /// The group, where the route has several hops.
    pub group: Option<Name>,
    /// The way, where it has none.
    pub way: Way,
}

impl Target {
    /// Where the row of a route points, where there is one. A row of another kind points nowhere.
    pub fn of(
        alloc: Global,
        plan: &PortPlan,
        key: &Key,
        row: Option<&Row>,
    ) -> Result<Target, OutOfMemory>
        requires { IsRouteKey key.now }
        ensures { IfOk result (λ target. IsTargetOf plan.now key.now (in_default (option_map (λ r. r.now) row.entry)) target) }
    {
        let Some(row) = row else {
            return Ok(Target {
                group: None,
                way: Way::Drop,
            });
        };
        match row {
            Row::Route(route) => {
                let group = if has_several(route) {
                    shared(alloc, plan, &Vrf::Default, key, row)?
                } else {
                    None
                };
                let way = own_way(plan, route);
                Ok(Target { group, way })
            }
            _ => Ok(Target {
                group: None,
                way: Way::Drop,
            }),
        }
    }

    /// Whether another target is the same.
    pub fn is(&self, other: &Target) -> bool
        requires own { AreGroups self.now.group }
        requires other { AreGroups other.now.group }
        ensures { result ≡ goal_eq.ghosts.eq (goal_at self.now) (goal_at other.now) }
    {
        match (&self.group, &other.group) {
            (Some(group), Some(other)) => group == other,
            (None, None) => self.way == other.way,
            (Some(_), None) | (None, Some(_)) => false,
        }
    }

    /// The target of a call, for a row that points there.
    pub fn to(&self, reg: &Registry, row: &RouteRow) -> To<Vid>
        requires groups { AreGroups self.now.group }
        requires known { HaveIds reg.now (pointed (Some (placed.Route row.now)) (goal_at self.now)) }
        ensures { PointsTo reg.now row.now (goal_at self.now) result }
    {
        match row {
            RouteRow::Drop => To::Drop,
            RouteRow::Direct(on) => To::Rif(vid(reg, &Name::Row(Key::Intf(*on)))),
            RouteRow::Hops(hops) => match &self.group {
                Some(group) => To::Group(vid(reg, group)),
                None => to_first(reg, hops.items()),
            },
        }
    }
}

/// The next hop that is the first of some hops.
fn to_first(reg: &Registry, hops: &[(RowHop, u8)]) -> To<Vid>
    requires { HaveIds reg.now (map (λ h. Name.Row (Key.Neigh h.0.on h.0.ip)) hops.now) }
    ensures { IsToFirst reg.now hops.now result }
{
    match hops {
        [] => To::Drop,
        [(hop, _), ..] => To::NextHop(vid(reg, &Name::Row(Key::Neigh(hop.on, hop.ip)))),
    }
}

/// The group that the one has and the other has not.
pub fn left(group: Option<Name>, other: &Option<Name>) -> Option<Name>
    requires own { AreGroups group }
    requires other { AreGroups other.now }
    ensures value { option_map owner_for result ≡ first_left (owners_of other.now) (owners_of group) }
    ensures groups { AreGroups result }
{
    match (&group, other) {
        (Some(name), Some(other)) if name == other => None,
        _ => group,
    }
}

/// Whether a route's row has several hops: one that has a group has.
fn has_several(row: &RouteRow) -> bool
    ensures { IsTrue result ↔ HasSeveral row.now }
{
    match row {
        RouteRow::Hops(hops) => hops.items().len() > 1,
        RouteRow::Drop | RouteRow::Direct(_) => false,
    }
}

/// Where a route's row points that has no group.
fn own_way(plan: &PortPlan, row: &RouteRow) -> Way
    ensures { result ≡ row_way plan.now row.now }
{
    match row {
        RouteRow::Drop => Way::Drop,
        RouteRow::Direct(on) => match base_of(plan, *on) {
            Some(base) => Way::Direct(base),
            None => Way::Drop,
        },
        RouteRow::Hops(hops) => way_to(plan, hops.items()),
    }
}

/// The way to the first of some hops.
fn way_to(plan: &PortPlan, hops: &[(RowHop, u8)]) -> Way
    ensures { result ≡ row_way plan.now (RouteRow.Hops hops.now) }
{
    match hops {
        [] => Way::Drop,
        [(hop, _), ..] => match base_of(plan, hop.on) {
            Some(on) => Way::Via(Hop { on, ip: hop.ip }),
            None => Way::Drop,
        },
    }
}
