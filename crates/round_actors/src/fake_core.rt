// A core in memory.
ghost use Rattle.std.specs.Prelude.{◌≡◌, ◌+◌, ◌≤◌, ◌↔◌, [], length, IsTrue};

use crate::answers::Step;
use crate::round_core::{Refusal, RoundCore};
use std::alloc::Global;
use swss_types::OutOfMemory;
use table_schema::Sent;

/// A core with no tables: it keeps what it takes, in a log of so many places, and makes as many events as it was told to.
#[derive(Drop)]
pub struct FakeCore {
    /// The writes taken.
    pub taken: Vec<Sent>,
    /// The restarts marked.
    pub restarts: u64,
    /// How many writes and restarts have a place.
    pub places: u64,
    /// How many events are left to make.
    pub events: u64,
}

impl FakeCore {
    /// Nothing was taken.
    pub fn new(alloc: Global, places: u64, events: u64) -> FakeCore
        ensures { (result.taken.items ≡ []) × (result.restarts ≡ 0) × (result.places ≡ places) × (result.events ≡ events) }
    {
        FakeCore {
            taken: Vec::new(alloc),
            restarts: 0,
            places,
            events,
        }
    }

    /// Whether there is no place.
    fn is_full(&self) -> bool
        ensures { IsTrue result ↔ self.now.places ≤ length self.now.taken.items + self.now.restarts }
    {
        (self.taken.len() as u64).saturating_add(self.restarts) >= self.places
    }
}

impl RoundCore for FakeCore {
    ghost use Rattle.std.specs.Prelude.{◌+◌, ◌≤◌, length};
    ghost use Rattle.round_actors.specs.Trials.{MakesOneEvent};

    ghost workers = { 4 };

    ghost taken = { λ c. c.taken.items };

    ghost restarts = { λ c. c.restarts };

    ghost full = { λ c. c.places ≤ length c.taken.items + c.restarts };

    ghost makes = { λ old worker step new. MakesOneEvent old.events step new.events };

    fn take(&mut self, sent: Sent) -> Result<(), Refusal> {
        if self.is_full() {
            return Err(Refusal::LogFull);
        }
        match self.taken.push(sent) {
            Ok(()) => Ok(()),
            Err(_) => Err(Refusal::NoMemory),
        }
    }

    fn step(&mut self, _worker: u32) -> Result<Step, OutOfMemory> {
        if self.events == 0 {
            return Ok(Step::Idle);
        }
        self.events -= 1;
        Ok(Step::Did)
    }

    fn restart(&mut self) -> Result<(), Refusal> {
        if self.is_full() {
            return Err(Refusal::LogFull);
        }
        self.restarts += 1;
        Ok(())
    }
}
