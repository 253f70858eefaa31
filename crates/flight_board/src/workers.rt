// What each worker has under way.
ghost use Rattle.std.specs.Prelude.{◌≡◌, ◌<◌, ◌≤◌, ◌↔◌, ◌∷◌, [], ℕ, None, Some, length, set, option_map, IfSome, IfNone, IsTrue, OnErr, OnOk};
ghost use Rattle.sai_types.specs.declared.kind.Kind.TheVariants as kind;
ghost use Rattle.registry_laws.specs.Flown.{still_there, still_there_in_all};
ghost use Rattle.registry_laws.specs.Making.{MayTakeFor};
ghost use Rattle.flight_board.specs.Board.{FlightState, HasKeyAt, KnowsGroup, TookOn, flight_on, with_group};

use crate::flight::Flight;
use ref_counts::Registry;
use sai_types::Vid;
use std::alloc::Global;
use std::marker::Model;
use swss_types::OutOfMemory;
use table_schema::{Key, PortPlan};

/// What each of four workers has under way.
#[derive(Drop)]
pub struct Workers {
    flights: [Option<Flight>; 4],
}

impl Model for Workers {
    ghost use Rattle.std.specs.Prelude.{List, Option};
    ghost use Rattle.flight_board.specs.Board.{FlightState};

    ghost Value = { List (Option FlightState) };

    ghost view = { λ w. w.flights };
}

impl Workers {
    /// Nobody has anything under way.
    pub fn new() -> Workers
        ensures { result ≡ None ∷ None ∷ None ∷ None ∷ [] }
    {
        Workers {
            flights: [None, None, None, None],
        }
    }

    /// What a worker has under way.
    pub fn get(&self, worker: u32) -> Option<&Flight>
        requires worker { worker < 4 }
        requires four { length self.now ≡ 4 }
        ensures { option_map (λ f. f.now) result ≡ flight_on self.now worker }
    {
        self.flights[worker as usize].as_ref()
    }

    /// Takes out what a worker has under way.
    pub fn take(&mut self, worker: u32) -> Option<Flight>
        requires worker { worker < 4 }
        requires four { length self.old ≡ 4 }
        ensures value { result ≡ flight_on self.old worker }
        ensures rest { self.new ≡ set self.old worker None }
    {
        self.flights[worker as usize].take()
    }

    /// Puts in what a worker has under way.
    pub fn put(&mut self, worker: u32, flight: Flight)
        requires worker { worker < 4 }
        requires four { length self.old ≡ 4 }
        ensures { self.new ≡ set self.old worker (Some flight) }
    {
        self.flights[worker as usize] = Some(flight);
    }

    /// Begins the operation of a group that is due for a worker.
    pub fn prepare(
        &mut self,
        alloc: Global,
        plan: &PortPlan,
        reg: &Registry,
        worker: u32,
    ) -> Result<(), OutOfMemory>
        requires worker { worker < 4 }
        requires four { length self.old ≡ 4 }
        requires shared { (f : FlightState) → flight_on self.old worker ≡ Some f → KnowsGroup plan.now f }
        ensures ok { OnOk result (self.new ≡ set self.old worker (option_map (with_group plan.now reg.now) (flight_on self.old worker))) }
        ensures err { OnErr result (self.new ≡ self.old) }
    {
        match &mut self.flights[worker as usize] {
            Some(flight) => flight.prepare(alloc, plan, reg),
            None => Ok(()),
        }
    }

    /// The call that was due for a worker has taken effect.
    pub fn took(&mut self, worker: u32, made: Option<Vid>, reg: &mut Registry)
        requires worker { worker < 4 }
        requires four { length self.old ≡ 4 }
        requires may { (f : FlightState) → flight_on self.old worker ≡ Some f → MayTakeFor f.flown.operation f.flown.group made reg.old }
        ensures { TookOn self.old worker made reg.old self.new reg.new }
    {
        match &mut self.flights[worker as usize] {
            Some(flight) => flight.took(made, reg),
            None => {}
        }
    }

    /// How many operations stand between the removal of an interface's router interface and its creation in another virtual
    /// router.
    pub fn between(&self) -> u64
        requires four { length self.now ≡ 4 }
        ensures bound { result ≤ 4 }
        ensures value { result ≡ still_there_in_all (λ w. option_map (λ f. f.flown) (flight_on self.now w)) kind.Rif }
    {
        self.between_at(0) + self.between_at(1) + self.between_at(2) + self.between_at(3)
    }

    /// Whether a worker's operation stands there: 1 or 0.
    fn between_at(&self, worker: u32) -> u64
        requires worker { worker < 4 }
        requires four { length self.now ≡ 4 }
        ensures bound { result ≤ 1 }
        ensures value { result ≡ still_there kind.Rif (option_map (λ f. f.flown) (flight_on self.now worker)) }
    {
        match self.get(worker) {
            Some(flight) => u64::from(flight.is_between()),
            None => 0,
        }
    }

    /// The worker whose operation has a key.
    pub fn worker_of(&self, key: &Key) -> Option<u32>
        requires four { length self.now ≡ 4 }
        ensures some { IfSome result (λ worker. HasKeyAt self.now key.now worker) }
        ensures none { IfNone result ((v : ℕ) → HasKeyAt self.now key.now v → ⊥) }
    {
        for worker in 0..4u32 {
            if self.has_key_at(key, worker) {
                return Some(worker);
            }
        }
        None
    }

    /// Whether a worker's operation has a key.
    fn has_key_at(&self, key: &Key, worker: u32) -> bool
        requires worker { worker < 4 }
        requires four { length self.now ≡ 4 }
        ensures { IsTrue result ↔ HasKeyAt self.now key.now worker }
    {
        match self.get(worker) {
            Some(flight) => flight.has_key(key),
            None => false,
        }
    }
}
