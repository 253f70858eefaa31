// What a worker has under way.
ghost use Rattle.std.specs.Prelude.{◌≡◌, ◌<◌, ◌↔◌, [], IsTrue, OnOk, OnErr, IfOk, option_map};
ghost use Rattle.table_schema.specs.Plan.{Ports};
ghost use Rattle.ref_counts.specs.Room.{GivesBack};
ghost use Rattle.swss_types.specs.declared.vrf.Vrf.{Vrf};
ghost use Rattle.switch_model.specs.Placed.{bare};
ghost use Rattle.orch_flight.specs.Operation.{is_between};
ghost use Rattle.orch_flight.specs.Sharing.{MayStart};
ghost use Rattle.orch_flight.specs.Starting.{IsStartedBy, answered, in_place};
ghost use Rattle.registry_laws.specs.Ending.{MayEnd, ended_names, named_by};
ghost use Rattle.registry_laws.specs.Flown.{due_for, group_to_build, group_to_take};
ghost use Rattle.registry_laws.specs.Making.{IsNextCall, MayTakeFor, TookFor, group_begun, left_of_group_by};
ghost use Rattle.flight_board.specs.Applied.{HasPlace, KeepsOthers, placed_at, row_at};
ghost use Rattle.flight_board.specs.Board.{IsCallReady, IsFlightBegun, KnowsGroup, operation_in, with_group};
ghost use Rattle.flight_board.specs.Flights.{IsPlaceOf, unboxed};

use crate::applied::AppliedRows;
use crate::ending::{drop_users, end_row};
use crate::row_flight::RowFlight;
use nexthop_orch::GroupFlight;
use ref_counts::{Name, NameState, Next, Registry, Room};
use sai_types::{Call, Hops, KindCounts, Vid};
use std::alloc::Global;
use std::marker::Model;
use switch_model::Wait;
use swss_types::{OutOfMemory, Vrf};
use table_schema::{Key, PortPlan, Row, names};

/// The operation of a key's row, with that of the group that is built before it or taken away after it.
#[derive(Drop)]
pub struct Flight {
    worker: u32,
    // the name of the key's row
    name: Name,
    // the keys of the rows that its applied row names
    named: Vec<Key>,
    operation: RowFlight,
    // in a box: few operations have one, and each is moved often
    group: Option<Box<GroupFlight>>,
}

impl Model for Flight {
    ghost use Rattle.flight_board.specs.Board.{FlightState};
    ghost use Rattle.flight_board.specs.Flights.{IsFlightOf, operation_of, shared_group, unboxed};

    ghost Value = { FlightState };

    ghost view = { λ f. record { named = f.named.items; shared = shared_group f.operation; flown = record { operation = operation_of f.operation; group = unboxed f.group } } };

    ghost invariant = { λ f. IsFlightOf f.worker f.name f.operation };
}

impl Flight {
    /// Starts the operation that brings a key from its applied row to its new one, or tells the first reason why it has to
    /// wait, and changes nothing then. The worker has no operation.
    pub fn start(
        alloc: Global,
        plan: &PortPlan,
        reg: &mut Registry,
        room: &mut Room,
        used: &KindCounts,
        worker: u32,
        key: &Key,
        old: Option<&Row>,
        mut new: Option<Row>,
        router: &Vrf,
    ) -> Result<Result<Flight, Wait>, OutOfMemory>
        requires router { IsPlaceOf key.now router.now }
        requires may { MayStart plan.now reg.old worker key.now (in_place router.now (option_map (λ r. r.now) old)) (in_place router.now new) }
        ensures started { IfOk result (λ answer. IsStartedBy plan.now reg.old room.old used.now worker key.now (in_place router.now (option_map (λ r. r.now) old.entry)) (in_place router.now new) (answered operation_in answer) reg.new room.new) }
        ensures begun { IfOk result (λ answer. IfOk answer (IsFlightBegun plan.now key.now (in_place router.now (option_map (λ r. r.now) old.entry)) (in_place router.now new))) }
        ensures err { OnErr result (reg.new ≡ reg.old) }
        ensures err_room { OnErr result (room.new ≡ room.old) }
    {
        let name = Name::Row(key.copy()?);
        let named = keys_named(alloc, key, old)?;
        match RowFlight::start(
            alloc, plan, reg, room, used, worker, key, old, &mut new, router,
        )? {
            Ok(operation) => Ok(Ok(Flight {
                worker,
                name,
                named,
                operation,
                group: None,
            })),
            Err(wait) => Ok(Err(wait)),
        }
    }

    /// Whether it is the operation of a key.
    pub fn has_key(&self, key: &Key) -> bool
        ensures { IsTrue result ↔ (self.now.flown.operation.key ≡ key.now) }
    {
        match &self.name {
            Name::Row(own) => own == key,
            _ => false,
        }
    }

    /// Whether nothing is due any more.
    pub fn is_over(&self, reg: &Registry) -> bool
        ensures { (plan : Ports) → KnowsGroup plan self.now → IsTrue result ↔ (due_for plan reg.now self.now.flown ≡ []) }
    {
        if !self.operation.is_over() {
            return false;
        }
        match &self.group {
            Some(group) => group.is_over(),
            None => match (self.group_to_build(reg), self.operation.retired_group()) {
                (None, None) => true,
                _ => false,
            },
        }
    }

    /// The group that the worker builds for the new row.
    fn group_to_build(&self, reg: &Registry) -> Option<&Hops>
        ensures { (plan : Ports) → KnowsGroup plan self.now → option_map (λ hops. hops.now) result ≡ group_to_build plan reg.now self.now.flown.operation }
    {
        let Some(name) = self.operation.group() else {
            return None;
        };
        let Name::Group(hops) = name else {
            return None;
        };
        match reg.state(name) {
            NameState::Building(worker) if worker == self.worker => Some(hops),
            _ => None,
        }
    }

    /// Begins the operation of a group that is due.
    pub fn prepare(
        &mut self,
        alloc: Global,
        plan: &PortPlan,
        reg: &Registry,
    ) -> Result<(), OutOfMemory>
        requires { KnowsGroup plan.now self.old }
        ensures ok { OnOk result (self.new ≡ with_group plan.now reg.now self.old) }
        ensures err { OnErr result (self.new ≡ self.old) }
    {
        if self.group.is_some() {
            return Ok(());
        }
        if let Some(group) = self.group_due(alloc, plan, reg)? {
            self.group = Some(Box::new(alloc, group)?);
        }
        Ok(())
    }

    /// The operation of the group that is due.
    fn group_due(
        &self,
        alloc: Global,
        plan: &PortPlan,
        reg: &Registry,
    ) -> Result<Option<GroupFlight>, OutOfMemory>
        requires { KnowsGroup plan.now self.now }
        ensures { IfOk result (λ group. group ≡ group_begun plan.now self.now.flown.operation.worker (group_to_build plan.now reg.now self.now.flown.operation) (group_to_take self.now.flown.operation)) }
    {
        if let Some(hops) = self.group_to_build(reg) {
            return Ok(Some(GroupFlight::start(alloc, plan, reg, self.worker, hops, true)?));
        }
        match self.operation.retired_group() {
            Some(hops) => Ok(Some(GroupFlight::start(alloc, plan, reg, self.worker, hops, false)?)),
            None => Ok(None),
        }
    }

    /// The call that is due.
    pub fn next(&self, reg: &Registry) -> Result<Call<Vid>, OutOfMemory>
        requires { (plan : Ports) × IsCallReady plan reg.now self.now.flown }
        ensures { IfOk result (λ call. (plan : Ports) → IsCallReady plan reg.now self.now.flown → IsNextCall plan reg.now self.now.flown.operation self.now.flown.group call) }
    {
        match &self.group {
            Some(group) => Ok(call_in(group.next(reg)?)),
            None => Ok(call_in(self.operation.next(reg)?)),
        }
    }

    /// The call that was due has taken effect.
    pub fn took(&mut self, made: Option<Vid>, reg: &mut Registry)
        requires { MayTakeFor self.old.flown.operation self.old.flown.group made reg.old }
        ensures took { TookFor self.old.flown.operation self.old.flown.group made reg.old self.new.flown reg.new }
        ensures named { self.new.named ≡ self.old.named }
        ensures shared { self.new.shared ≡ self.old.shared }
    {
        match self.group.take() {
            Some(mut group) => {
                group.took(made, reg);
                self.group = left_of(group);
            }
            None => self.operation.took(made, reg),
        }
    }

    /// Whether it stands between the removal of an interface's router interface and its creation in another virtual router.
    pub fn is_between(&self) -> bool
        ensures { result ≡ is_between self.now.flown.operation }
    {
        self.operation.is_between()
    }

    /// The operation ends: its key uses the rows that it names now in the place of those that it named before, its name is
    /// live or gone, its places are given back, and its row is applied.
    pub fn end(self, reg: &mut Registry, room: &mut Room, applied: &mut AppliedRows)
        requires worker { self.flown.operation.worker < 4 }
        requires named { self.named ≡ named_by self.flown.operation.key (placed_at applied.old self.flown.operation.key) }
        requires placed { HasPlace applied.old self.flown.operation.key }
        requires may { MayEnd reg.old self.flown.operation.worker self.flown.operation.key self.flown.operation.new }
        ensures names { reg.new ≡ ended_names reg.old self.flown.operation.worker self.flown.operation.key (placed_at applied.old self.flown.operation.key) self.flown.operation.new }
        ensures room { GivesBack room.old self.flown.operation.worker room.new }
        ensures row { row_at applied.new self.flown.operation.key ≡ option_map bare self.flown.operation.new }
        ensures others { KeepsOthers self.flown.operation.key applied.old applied.new }
    {
        let Flight {
            worker,
            name,
            named,
            operation,
            ..
        } = self;
        let target = operation.into_row();
        if let Name::Row(key) = &name {
            drop_users(reg, named, key);
            reg.release(worker, true);
            end_row(reg, worker, &name, &target);
            room.give_back(worker);
            applied.apply(key, target);
        }
    }
}

/// The keys of the rows that a key's row names.
fn keys_named(alloc: Global, key: &Key, row: Option<&Row>) -> Result<Vec<Key>, OutOfMemory>
    ensures { IfOk result (λ named. (v : Vrf) → named.items ≡ named_by key.now (in_place v (option_map (λ r. r.now) row.entry))) }
{
    match row {
        Some(row) => names(alloc, key, row),
        None => Ok(Vec::new(alloc)),
    }
}

/// What is left of a group's operation: nothing once the group is built.
fn left_of(group: Box<GroupFlight>) -> Option<Box<GroupFlight>>
    ensures { unboxed result ≡ left_of_group_by group.value group.value.due }
{
    if group.is_over() && group.builds() {
        None
    } else {
        Some(group)
    }
}

/// The call that is due, where it is not the end.
fn call_in(next: Next) -> Call<Vid>
    requires { next ≡ Next.End → ⊥ }
    ensures { next ≡ Next.Call result }
{
    match next {
        Next::Call(call) => call,
        Next::End => unreachable!(),
    }
}
