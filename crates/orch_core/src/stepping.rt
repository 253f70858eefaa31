// One event.
ghost use Rattle.std.specs.Prelude.{◌≡◌, ◌<◌, ℕ, [], None};
ghost use Rattle.restart_laws.specs.Logged.{LoggedService};
ghost use Rattle.flight_board.specs.Board.{flown_at};
ghost use Rattle.warm_state.specs.declared.warm.Warm.TheVariants as warm;
ghost use Rattle.session_laws.specs.Standing.{IsSessionOf};
ghost use Rattle.sai_types.specs.ChipState.{ChipState};
ghost use Rattle.session_laws.specs.Service.Events.{MakesMore};
ghost use Rattle.session_laws.specs.Service.Standing.{IsServiceOf};
ghost use Rattle.round_laws.specs.Sessions.{InSession, InSteadySession};
ghost use Rattle.orch_core.specs.Outcomes.{IsInSession, StepsTo};
ghost use Rattle.orch_core.specs.Restarting.{IsInService, StepsFrom};

use crate::{Core, Step};
use sai_types::Chip;
use std::mem::{drop, replace};
use swss_types::OutOfMemory;
use table_schema::Key;
use warm_state::Warm;

impl Core {
    /// Makes the first event that applies to the worker: where a restart is unfinished the list of the chip, the restore, or the next
    /// call of the apply; else the call that is due for it; a pop, where a write waits; or the beginning of the first key to sync
    /// that has no reason to wait. While the core is suspect no event is made. Whatever it answers, whole steps of the service lead to
    /// a session for which core and chip stand then; so in a session that came about it leaves them in one, by any number of workers that
    /// this one is among.
    pub fn step<C: Chip>(&mut self, chip: &mut C, worker: u32) -> Result<Step, OutOfMemory>
        requires worker { worker < 4 }
        requires service { IsInService self.old (C.state chip.old) }
        ensures event { (s : LoggedService) → IsServiceOf self.old (C.state chip.old) s → StepsFrom self.old.warm worker s self.old (C.state chip.old) result self.new (C.state chip.new) }
        ensures goes_on { (s : LoggedService) → IsServiceOf self.old (C.state chip.old) s → MakesMore worker self.old s self.new (C.state chip.new) }
        ensures sessions { (workers : ℕ) → worker < workers → InSession workers self.old (C.state chip.old) → InSteadySession workers self.new (C.state chip.new) }
    {
        match self.state() {
            Warm::Initialized => self.list(chip, false),
            Warm::Restored => self.restore(chip),
            Warm::Applying => self.apply(chip, false),
            Warm::Reconciled => self.work(chip, worker),
            Warm::Suspect => Ok(Step::Suspect),
        }
    }

    /// Makes the first event that applies to the worker of a core that is reconciled.
    fn work<C: Chip>(&mut self, chip: &mut C, worker: u32) -> Result<Step, OutOfMemory>
        requires worker { worker < 4 }
        requires session { IsInSession self.old (C.state chip.old) }
        requires warm { self.old.warm ≡ warm.Reconciled }
        ensures { (s : LoggedService) → IsSessionOf self.old (C.state chip.old) s → StepsTo s worker self.old (C.state chip.old) result self.new (C.state chip.new) }
    {
        if self.is_flying(worker) {
            return self.answer(chip, worker, false);
        }
        if !self.is_popped() {
            self.pop()?;
            return Ok(Step::Did);
        }
        self.begin_first(worker)
    }

    /// Begins the operation of the first key that can start.
    fn begin_first(&mut self, worker: u32) -> Result<Step, OutOfMemory>
        requires worker { worker < 4 }
        requires session { (chip : ChipState) × IsInSession self.old chip }
        requires warm { self.old.warm ≡ warm.Reconciled }
        requires none { flown_at self.old.board worker ≡ None }
        requires popped { self.old.tables.waiting ≡ [] }
        ensures { (s : LoggedService) (chip : ChipState) → IsSessionOf self.old chip s → StepsTo s worker self.old chip result self.new chip }
    {
        let mut after: Option<Key> = None;
        while let Some(key) = self.key_behind(after.as_ref())? {
            if self.begins(worker, &key)? {
                return Ok(Step::Did);
            }
            drop(replace(&mut after, Some(key)));
        }
        Ok(Step::Idle)
    }
}
