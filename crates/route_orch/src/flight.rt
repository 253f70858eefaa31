// The operation of a route.
ghost use Rattle.std.specs.Prelude.{◌≡◌, ◌↔◌, [], Some, option_map, IsTrue, IfOk, OnErr};
ghost use Rattle.table_schema.specs.Plan.{Ports};
ghost use Rattle.switch_model.specs.Placed as placed;
ghost use Rattle.switch_model.specs.Placed.{bare};
ghost use Rattle.row_layout.specs.Operations.{uses_of};
ghost use Rattle.row_layout.specs.Rows.{Group};
ghost use Rattle.ref_counts.specs.Registry.{state_of};
ghost use Rattle.ref_counts.specs.declared.name.NameState.TheVariants as state;
ghost use Rattle.orch_flight.specs.Calling.{IsNextOf, IsOver, KnowsIds};
ghost use Rattle.orch_flight.specs.Sharing.{MayStart, owner_for};
ghost use Rattle.orch_flight.specs.Starting.{IsStartedBy, answered, in_default, left_names, retired_by};
ghost use Rattle.orch_flight.specs.Taking.{IsTook, MayTake};
ghost use Rattle.route_orch.specs.Targets.{AreGroups, IsRouteKey, IsRouteRow};
ghost use Rattle.route_orch.specs.Routes.{IsFirst, first_step, group_hops, group_owners, later_step, operation_of_route};

use crate::starting::begin;
use crate::target::{Target, left};
use orch_flight::{leave, router_vid};
use ref_counts::{Name, Next, Registry, Room};
use sai_types::{Attr, Body, Call, Entry, Hops, KindCounts, Vid};
use std::alloc::Global;
use std::marker::Model;
use switch_model::Wait;
use swss_types::{OutOfMemory, Prefix, Vrf};
use table_schema::{Key, PortPlan, RouteRow, Row};

/// How far a route's operation is.
#[derive(Clone, Copy, Debug, PartialEq, Eq)]
enum RouteStep {
    /// The route is to be made.
    Make,
    /// Its target is to be set.
    Set,
    /// It is to be removed.
    Take,
    /// Its target was set.
    Changed,
    /// Nothing else is to be done.
    Ended,
}

/// The operation of a route: it is made, set to its new target where that differs, or removed. A group that it is to have is
/// built before it, and the one that it leaves last is taken away after it, each by an operation of its own.
#[derive(Debug, Drop)]
pub struct RouteFlight {
    // the row that the route is to have
    wanted: Option<RouteRow>,
    // the rest stands in a box: a flight is moved often
    body: Box<RouteBody>,
}

/// What is known of a route's operation beside the row that the route is to have.
#[derive(Debug, Drop)]
struct RouteBody {
    worker: u32,
    vrf: Vrf,
    prefix: Prefix,
    // the row before, and where the new one points
    applied: Option<RouteRow>,
    target: Target,
    step: RouteStep,
    // the group that it has still to leave, and the one that it takes away since it left it last
    leaves: Option<Name>,
    retires: Option<Name>,
}

impl Model for RouteFlight {
    ghost use Rattle.route_orch.specs.Routes.{IsRouteKept, RouteState, route_state};

    ghost Value = { RouteState };

    ghost view = { λ f. route_state f.wanted f.body.value };

    ghost invariant = { λ f. IsRouteKept f.body.value };
}

impl RouteFlight {
    /// Starts the operation that brings a route from its applied row to its new one, or tells the first reason why it has to
    /// wait, and changes nothing then. The worker is below 4 and has no operation.
    pub fn start(
        alloc: Global,
        plan: &PortPlan,
        reg: &mut Registry,
        room: &mut Room,
        used: &KindCounts,
        worker: u32,
        key: &Key,
        old: Option<&Row>,
        new: Option<Row>,
    ) -> Result<Result<RouteFlight, Wait>, OutOfMemory>
        requires key { IsRouteKey key.now }
        requires may { MayStart plan.now reg.old worker key.now (in_default (option_map (λ r. r.now) old)) (in_default new) }
        ensures started { IfOk result (λ answer. IsStartedBy plan.now reg.old room.old used.now worker key.now (in_default (option_map (λ r. r.now) old.entry)) (in_default new) (answered operation_of_route answer) reg.new room.new) }
        ensures group { IfOk result (λ answer. IfOk answer (λ f. uses_of plan.now key.now (in_default new) ≡ group_owners f.group)) }
        ensures err { OnErr result (reg.new ≡ reg.old) }
        ensures err_room { OnErr result (room.new ≡ room.old) }
    {
        let given = new.as_ref();
        let body = body_of(alloc, plan, worker, key, old, given)?;
        match begin(
            alloc,
            plan,
            reg,
            room,
            used,
            worker,
            key,
            old,
            given,
            &body.target.group,
        )? {
            Ok(()) => {
                let wanted = own_row(new);
                Ok(Ok(RouteFlight { wanted, body }))
            }
            Err(wait) => Ok(Err(wait)),
        }
    }

    /// The call that is due, or the end. It takes no memory.
    pub fn next(&self, reg: &Registry) -> Result<Next, OutOfMemory>
        requires { KnowsIds reg.now self.now.operation }
        ensures { IfOk result (λ next. (plan : Ports) → IsOver plan self.now.operation → IsNextOf plan reg.now self.now.operation next) }
    {
        let body = self.body.as_ref();
        let vr = router_vid(reg, body.vrf);
        match (body.step, &self.wanted) {
            (RouteStep::Make, Some(row)) => Ok(Next::Call(Call::Create(Body::Route {
                vr,
                prefix: body.prefix,
                to: body.target.to(reg, row),
            }))),
            (RouteStep::Set, Some(row)) => {
                let to = body.target.to(reg, row);
                Ok(Next::Call(Call::Set(Entry::Route(vr, body.prefix), Attr::To(to))))
            }
            (RouteStep::Take, _) => Ok(Next::Call(Call::Remove(Entry::Route(vr, body.prefix)))),
            (RouteStep::Make | RouteStep::Set, None) => Ok(Next::End),
            (RouteStep::Changed | RouteStep::Ended, _) => Ok(Next::End),
        }
    }

    /// The call that was due has taken effect. The route then leaves the group that its new row has no more, and takes it
    /// away where it was the last.
    pub fn took(&mut self, _made: Option<Vid>, reg: &mut Registry)
        requires { MayTake self.old.operation _made reg.old }
        ensures took { IsTook self.old.operation _made reg.old self.new.operation reg.new }
        ensures group { self.new.group ≡ self.old.group }
    {
        self.body.step = later_step(self.body.step);
        if let Some(name) = self.body.leaves.take() {
            self.body.retires = part(reg, self.body.worker, self.body.vrf, self.body.prefix, name);
        }
    }

    /// The row that the route is to have.
    pub fn into_row(self) -> Option<Row>
        ensures { result ≡ option_map bare self.operation.new }
    {
        let RouteFlight { wanted, .. } = self;
        match wanted {
            Some(row) => Some(Row::Route(row)),
            None => None,
        }
    }

    /// Whether no call is due.
    pub fn is_over(&self) -> bool
        ensures { IsTrue result ↔ (self.now.operation.due ≡ []) }
    {
        match self.body.step {
            RouteStep::Make | RouteStep::Set | RouteStep::Take => false,
            RouteStep::Changed | RouteStep::Ended => true,
        }
    }

    /// The name of the group that the new row has.
    pub fn group(&self) -> Option<&Name>
        ensures { option_map (λ name. name.now) result ≡ option_map Name.Group self.now.group }
    {
        self.body.target.group.as_ref()
    }

    /// The group that it takes away.
    pub fn retired(&self) -> Option<&Hops>
        ensures { option_map (λ hops. Group hops.now) result ≡ self.now.operation.retires }
    {
        match &self.body.retires {
            Some(Name::Group(hops)) => Some(hops),
            _ => None,
        }
    }
}

/// What is known of a route's operation at first.
fn body_of(
    alloc: Global,
    plan: &PortPlan,
    worker: u32,
    key: &Key,
    old: Option<&Row>,
    new: Option<&Row>,
) -> Result<Box<RouteBody>, OutOfMemory>
    requires key { IsRouteKey key.now }
    requires old { IsRouteRow (in_default (option_map (λ r. r.now) old)) }
    ensures { IfOk result (λ body. IsFirst plan.now worker key.now (in_default (option_map (λ r. r.now) old.entry)) (in_default (option_map (λ r. r.now) new.entry)) body.value) }
{
    let Key::Route(vrf, prefix) = key else {
        unreachable!();
    };
    let was = Target::of(alloc, plan, key, old)?;
    let target = Target::of(alloc, plan, key, new)?;
    let applied = copied_row(old)?;
    let step = first_step(old, new, &was, &target);
    let leaves = left(was.group, &target.group);
    let body = RouteBody {
        worker,
        vrf: *vrf,
        prefix: *prefix,
        applied,
        target,
        step,
        leaves,
        retires: None,
    };
    Ok(Box::new(alloc, body)?)
}

/// The first step of a route's operation.
fn first_step(old: Option<&Row>, new: Option<&Row>, was: &Target, target: &Target) -> RouteStep
    requires was { AreGroups was.now.group }
    requires target { AreGroups target.now.group }
    ensures { result ≡ first_step (in_default (option_map (λ r. r.now) old.entry)) (in_default (option_map (λ r. r.now) new.entry)) was.now target.now }
{
    match (old, new) {
        (None, None) => RouteStep::Ended,
        (None, Some(_)) => RouteStep::Make,
        (Some(_), None) => RouteStep::Take,
        (Some(_), Some(_)) => {
            if was.is(target) {
                RouteStep::Ended
            } else {
                RouteStep::Set
            }
        }
    }
}

/// The step after one.
fn later_step(step: RouteStep) -> RouteStep
    ensures { result ≡ later_step step }
{
    match step {
        RouteStep::Set => RouteStep::Changed,
        _ => RouteStep::Ended,
    }
}

/// A route leaves its old group: the group, where the route was the last.
fn part(reg: &mut Registry, worker: u32, vrf: Vrf, prefix: Prefix, group: Name) -> Option<Name>
    requires live { state_of reg.old group ≡ state.Live }
    requires groups { AreGroups (Some group) }
    ensures names { reg.new ≡ left_names reg.old worker (Key.Route vrf prefix) (owner_for group) }
    ensures last { option_map owner_for result ≡ retired_by reg.old worker (Key.Route vrf prefix) (owner_for group) }
    ensures groups { AreGroups result }
{
    if leave(reg, worker, &Key::Route(vrf, prefix), &group) {
        Some(group)
    } else {
        None
    }
}

/// A copy of a route's row, where there is one.
fn copied_row(given: Option<&Row>) -> Result<Option<RouteRow>, OutOfMemory>
    requires { IsRouteRow (in_default (option_map (λ r. r.now) given)) }
    ensures { IfOk result (λ route. option_map placed.Route route ≡ in_default (option_map (λ r. r.now) given.entry)) }
{
    match given {
        Some(Row::Route(row)) => Ok(Some(row.copy()?)),
        Some(_) => unreachable!(),
        None => Ok(None),
    }
}

/// A route's row, where there is one.
fn own_row(given: Option<Row>) -> Option<RouteRow>
    requires { IsRouteRow (in_default given) }
    ensures { option_map placed.Route result ≡ in_default given }
{
    match given {
        Some(Row::Route(row)) => Some(row),
        Some(_) => unreachable!(),
        None => None,
    }
}
