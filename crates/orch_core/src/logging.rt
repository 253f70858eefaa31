// Places in the log, and marks.
ghost use Rattle.std.specs.Prelude.{◌≡◌, ◌↔◌, ◌<◌, ◌+◌, ◌^◌, length, IsTrue, IfOk, OnOk, OnErr};
ghost use Rattle.switch_model.specs.History.{no_history, with_mark};
ghost use Rattle.session_laws.specs.Core.{IsFullFor, mark_at};
ghost use Rattle.orch_core.specs.Marked.{with_settled};
ghost use Rattle.orch_core.specs.Outcomes.{with_fault};

use crate::Core;
use std::mem::replace;
use switch_model::{Log, Mark, MarkEvent, PlacedLog, Waits};
use swss_types::OutOfMemory;

impl Core {
    /// Whether the log is too full for an event that needs so many places beside so many effects.
    pub(crate) fn is_full(&self, effects: u64, need: u128) -> bool
        requires { need < 2 ^ 65 }
        ensures full { IsTrue result ↔ IsFullFor self.now effects need }
        ensures fits { self.now.limit < 2 ^ 64 }
    {
        let size = effects as u128
            + self.log.taken().len() as u128
            + self.log.marks().len() as u128
            + self.listed as u128;
        size + need > self.limit as u128
    }

    /// A mark of this moment.
    fn mark_of(&self, effects: u64, event: MarkEvent) -> Mark
        ensures { result ≡ mark_at self.now effects event }
    {
        Mark {
            taken: self.log.taken().len() as u64,
            effects,
            event,
        }
    }

    /// Takes the log out, with a place for a mark. The core has an empty one until it gets it back.
    pub(crate) fn keep_place(&mut self) -> Result<PlacedLog, OutOfMemory>
        ensures ok { IfOk result (λ log. (log ≡ self.old.log) × (self.new ≡ record self.old { log = no_history })) }
        ensures err { OnErr result (self.new ≡ self.old) }
    {
        match replace(&mut self.log, Log::new(self.alloc)).with_place() {
            Ok(log) => Ok(log),
            Err(log) => {
                self.log = log;
                Err(OutOfMemory)
            }
        }
    }

    /// Gives the core its log back.
    pub(crate) fn put_back(&mut self, log: Log)
        ensures { self.new ≡ record self.old { log = log } }
    {
        self.log = log;
    }

    /// Marks what happened, where the mark lists no key.
    pub(crate) fn mark(&mut self, effects: u64, event: MarkEvent) -> Result<(), OutOfMemory>
        ensures ok { OnOk result (self.new ≡ record self.old { log = with_mark self.old.log (mark_at self.old effects event) }) }
        ensures err { OnErr result (self.new ≡ self.old) }
    {
        let mark = self.mark_of(effects, event);
        self.log.mark(mark)
    }

    /// Marks the end of a settling: `count` keys are listed.
    pub(crate) fn mark_end(
        &mut self,
        effects: u64,
        turns: u64,
        waits: Waits,
        count: u64,
    ) -> Result<(), OutOfMemory>
        requires { self.old.listed + count < 2 ^ 64 }
        ensures ok { OnOk result (self.new ≡ with_settled self.old effects waits turns count) }
        ensures err { OnErr result (self.new ≡ self.old) }
    {
        let mark = self.mark_of(effects, MarkEvent::Settled { waits, turns });
        self.log.mark_end(mark)?;
        self.listed += count;
        Ok(())
    }
}

/// A mark of this moment, of a log with a place for it.
pub(crate) fn mark_in(log: &PlacedLog, effects: u64, event: MarkEvent) -> Mark
    ensures { result ≡ record { taken = length log.now.taken; effects = effects; event = event } }
{
    Mark {
        taken: log.taken().len() as u64,
        effects,
        event,
    }
}

/// Enters a mark in its place: `ends` tells whether the round ends at it.
pub(crate) fn entered(log: PlacedLog, mark: Mark, ends: bool) -> Log
    ensures { result ≡ with_fault ends log mark }
{
    if ends {
        log.mark_end(mark)
    } else {
        log.mark(mark)
    }
}
