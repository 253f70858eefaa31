// The board.
ghost use Rattle.std.specs.Prelude.{◌≡◌, ◌<◌, ◌≤◌, ◌^◌, ◌↔◌, [], Some, None, IsSome, IsTrue, option_map, IfOk, IfSome, IfNone, OnOk, OnErr};
ghost use Rattle.sai_types.specs.declared.kind.Kind.TheVariants as kind;
ghost use Rattle.switch_model.specs.Placed.{router_in};
ghost use Rattle.ref_counts.specs.Room.{number_of_kind};
ghost use Rattle.orch_flight.specs.Needing.{first_unapplied};
ghost use Rattle.orch_flight.specs.Sharing.{MayStart};
ghost use Rattle.orch_flight.specs.Taking.{to_list};
ghost use Rattle.registry_laws.specs.Ending.{MayEnd};
ghost use Rattle.registry_laws.specs.Flown.{Flown, due_for};
ghost use Rattle.registry_laws.specs.Making.{IsNextCall, MayTakeFor};
ghost use Rattle.flight_board.specs.Applied.{placed_at, placed_for, row_at};
ghost use Rattle.flight_board.specs.Board.{AreCountedWith, BoardFollows, FlightState, IsBegunFor, IsFlownAt, IsHeldUp, IsPrepared, IsCallReady, IsSameBoard, IsTakenFor, IsUnflown, MayEndAtOnce, MayEndThen, flight_at, flown_at, new_board};
ghost use Rattle.flight_board.specs.Flights.{IsPlaceOf};

use crate::applied::AppliedRows;
use crate::flight::Flight;
use crate::workers::Workers;
use orch_flight::unapplied;
use ref_counts::{Registry, Room};
use sai_types::{Call, Caps, Kind, KindCounts, Vid};
use std::alloc::Global;
use std::marker::Model;
use std::mem::{drop, replace};
use switch_model::Wait;
use swss_types::{OutOfMemory, Vrf};
use table_schema::{Key, PortPlan, Row, first_name};

/// The rows that are applied, and the operations of up to four workers, which know names, users, pins and places, and no chip.
#[derive(Drop)]
pub struct Board {
    alloc: Global,
    plan: PortPlan,
    registry: Registry,
    room: Room,
    applied: AppliedRows,
    workers: Workers,
}

impl Model for Board {
    ghost use Rattle.flight_board.specs.Board.{AreKept, BoardState};

    ghost Value = { BoardState };

    ghost view = { λ b. record { plan = b.plan; names = b.registry; room = b.room; applied = b.applied; flights = b.workers } };

    ghost invariant = { λ b. AreKept b.plan b.applied b.workers };
}

impl Board {
    /// No row is applied, and nothing is under way.
    pub fn new(alloc: Global, plan: PortPlan, caps: Caps) -> Board
        ensures { result ≡ new_board plan caps.0 }
    {
        Board {
            alloc,
            plan,
            registry: Registry::new(alloc),
            room: Room::new(caps),
            applied: AppliedRows::new(alloc),
            workers: Workers::new(),
        }
    }

    /// Forgets the names, the applied rows and what is under way: no row is applied, all places of these capacities are free,
    /// and the plan stays.
    pub fn forget(&mut self, caps: Caps)
        ensures { self.new ≡ new_board self.old.plan caps.0 }
    {
        drop(replace(&mut self.registry, Registry::new(self.alloc)));
        self.room = Room::new(caps);
        drop(replace(&mut self.applied, AppliedRows::new(self.alloc)));
        drop(replace(&mut self.workers, Workers::new()));
    }

    /// The port plan.
    pub fn plan(&self) -> &PortPlan
        ensures { result.now ≡ self.now.plan }
    {
        &self.plan
    }

    /// The applied row of a key.
    pub fn row(&self, key: &Key) -> Option<&Row>
        ensures { option_map (λ row. row.now) result ≡ row_at self.now.applied key.now }
    {
        self.applied.row(key)
    }

    /// Whether this is the applied row of a key, or it has none where none is given.
    pub fn has_row(&self, key: &Key, row: Option<&Row>) -> bool
        ensures { IsTrue result ↔ (row_at self.now.applied key.now ≡ option_map (λ row. row.now) row.entry) }
    {
        is_same(self.row(key), row)
    }

    /// Whether a worker has something under way.
    pub fn is_flying(&self, worker: u32) -> bool
        requires { worker < 4 }
        ensures { IsTrue result ↔ IsSome (flown_at self.now worker) }
    {
        self.workers.get(worker).is_some()
    }

    /// The worker whose operation has a key.
    pub fn worker_of(&self, key: &Key) -> Option<u32>
        ensures some { IfSome result (λ worker. IsFlownAt self.now key.now worker) }
        ensures none { IfNone result (IsUnflown self.now key.now) }
    {
        self.workers.worker_of(key)
    }

    /// Begins the operation that brings a key from its applied row to this one, or tells why it has to wait: for the worker
    /// whose operation has the key, or for the first reason that holds. An operation for which no call is due ends at once. The
    /// worker has nothing under way.
    pub fn begin(
        &mut self,
        used: &KindCounts,
        worker: u32,
        key: &Key,
        new: Option<Row>,
    ) -> Result<Result<(), Wait>, OutOfMemory>
        requires worker { worker < 4 }
        requires none { flown_at self.old worker ≡ None }
        requires counted { number_of_kind used.now kind.Rif ≤ 2 ^ 63 }
        requires may { IsUnflown self.old key.now → MayStart self.old.plan self.old.names worker key.now (placed_at self.old.applied key.now) (placed_for self.old.applied key.now new) }
        requires ends { IsUnflown self.old key.now → MayEndAtOnce self.old used.now worker key.now new }
        ensures begun { IfOk result (λ answer. IsBegunFor self.old used.now worker key.now new answer self.new) }
        ensures err { OnErr result (IsSameBoard self.old self.new) }
    {
        if let Some(wait) = self.first_wait(key, &new)? {
            return Ok(Err(wait));
        }
        let router = self.router_of(key);
        let counted = self.counted(used);
        let has_row = self.applied.keep_place(key)?;
        match Flight::start(
            self.alloc,
            &self.plan,
            &mut self.registry,
            &mut self.room,
            &counted,
            worker,
            key,
            self.applied.known_row(key, has_row),
            new,
            &router,
        ) {
            Ok(Ok(flight)) => {
                self.workers.put(worker, flight);
                self.go_on(worker);
                Ok(Ok(()))
            }
            Ok(Err(wait)) => {
                self.applied.forget_place(key);
                Ok(Err(wait))
            }
            Err(error) => {
                self.applied.forget_place(key);
                Err(error)
            }
        }
    }

    /// The virtual router in which the row of a key is: for an address that of its interface's applied row.
    fn router_of(&self, key: &Key) -> Vrf
        ensures value { result ≡ router_in (row_at self.now.applied) key.now }
        ensures place { IsPlaceOf key.now result }
    {
        let Key::Addr(on, ..) = key else {
            return Vrf::Default;
        };
        match self.applied.row(&Key::Intf(*on)) {
            Some(Row::Intf(router)) => *router,
            _ => Vrf::Default,
        }
    }

    /// How many objects of each kind there are, where a router interface that was removed and is to be made in another virtual
    /// router counts as still there.
    fn counted(&self, used: &KindCounts) -> KindCounts
        requires { number_of_kind used.now kind.Rif ≤ 2 ^ 63 }
        ensures { AreCountedWith self.now used.now result }
    {
        let mut counted = *used;
        let place = Kind::Rif.index();
        counted[place] += self.workers.between();
        counted
    }

    /// Why a key has to wait, as far as that is found before anything is kept for it: for the worker whose operation has the
    /// key, or for the first key that its new row names, where that is not applied.
    fn first_wait(&self, key: &Key, new: &Option<Row>) -> Result<Option<Wait>, OutOfMemory>
        ensures some { IfOk result (λ wait. IfSome wait (λ wait. IsHeldUp self.now key.now new.now wait)) }
        ensures none { IfOk result (λ wait. IfNone wait (IsUnflown self.now key.now)) }
    {
        if let Some(other) = self.workers.worker_of(key) {
            return Ok(Some(Wait::Busy(other)));
        }
        let Some(row) = new else {
            return Ok(None);
        };
        match self.unapplied_in(first_name(key, row))? {
            Some(missing) => Ok(Some(Wait::Missing(missing))),
            None => Ok(None),
        }
    }

    /// A key, where there is one that is not applied.
    fn unapplied_in(&self, key: Option<Key>) -> Result<Option<Key>, OutOfMemory>
        ensures { IfOk result (λ found. found ≡ first_unapplied self.now.names (to_list key)) }
    {
        match key {
            Some(key) => unapplied(&self.registry, &key),
            None => Ok(None),
        }
    }

    /// Begins the operation of a group that is due for a worker. Nothing else changes.
    pub fn prepare(&mut self, worker: u32) -> Result<(), OutOfMemory>
        requires { worker < 4 }
        ensures ok { OnOk result (IsPrepared self.old worker self.new) }
        ensures err { OnErr result (self.new ≡ self.old) }
    {
        self.workers
            .prepare(self.alloc, &self.plan, &self.registry, worker)
    }

    /// The call that is due for a worker that has something under way.
    pub fn next(&self, worker: u32) -> Result<Call<Vid>, OutOfMemory>
        requires worker { worker < 4 }
        requires flying { (x : Flown) × (flown_at self.now worker ≡ Some x) × IsCallReady self.now.plan self.now.names x }
        ensures { IfOk result (λ call. (x : Flown) → flown_at self.now worker ≡ Some x → IsNextCall self.now.plan self.now.names x.operation x.group call) }
    {
        match self.workers.get(worker) {
            Some(flight) => flight.next(&self.registry),
            None => unreachable!(),
        }
    }

    /// The call that was due for a worker has taken effect: `made` is the identifier of what it made, where that has one. An
    /// operation for which no call is due any more ends.
    pub fn took(&mut self, worker: u32, made: Option<Vid>)
        requires worker { worker < 4 }
        requires may { (x : Flown) × (flown_at self.old worker ≡ Some x) × MayTakeFor x.operation x.group made self.old.names }
        requires ends { MayEndThen self.old worker made }
        ensures { IsTakenFor self.old worker made self.new }
    {
        self.workers.took(worker, made, &mut self.registry);
        self.go_on(worker);
    }

    /// What a worker has under way goes on where something is due for it, and ends where nothing is.
    fn go_on(&mut self, worker: u32)
        requires worker { worker < 4 }
        requires may { (f : FlightState) → flight_at self.old worker ≡ Some f → due_for self.old.plan self.old.names f.flown ≡ [] → MayEnd self.old.names worker f.flown.operation.key f.flown.operation.new }
        ensures { (f : FlightState) → flight_at self.old worker ≡ Some f → BoardFollows worker f.flown self.old.names self.old.room self.old self.new }
    {
        if !self.is_over(worker) {
            return;
        }
        if let Some(flight) = self.workers.take(worker) {
            flight.end(&mut self.registry, &mut self.room, &mut self.applied);
        }
    }

    /// Whether nothing is due any more for a worker that has something under way.
    fn is_over(&self, worker: u32) -> bool
        requires { worker < 4 }
        ensures { (f : FlightState) → flight_at self.now worker ≡ Some f → IsTrue result ↔ (due_for self.now.plan self.now.names f.flown ≡ []) }
    {
        match self.workers.get(worker) {
            Some(flight) => flight.is_over(&self.registry),
            None => false,
        }
    }
}

/// Whether two rows, or none, are the same.
fn is_same(one: Option<&Row>, other: Option<&Row>) -> bool
    ensures { IsTrue result ↔ (option_map (λ row. row.now) one.entry ≡ option_map (λ row. row.now) other.entry) }
{
    match (one, other) {
        (Some(one), Some(other)) => one == other,
        (None, None) => true,
        _ => false,
    }
}
