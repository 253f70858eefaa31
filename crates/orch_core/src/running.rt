// What workers have under way, run to its end.
ghost use Rattle.std.specs.Prelude.{◌≡◌, ◌<◌};
ghost use Rattle.restart_laws.specs.Logged.{LoggedService};
ghost use Rattle.warm_state.specs.declared.warm.Warm.TheVariants as warm;
ghost use Rattle.session_laws.specs.Standing.{IsSessionOf};
ghost use Rattle.orch_core.specs.Outcomes.{IsInSession};
ghost use Rattle.orch_core.specs.Restarting.{PopsBare};
ghost use Rattle.orch_core.specs.Settled.{Pops, RunsAll, RunsOut};

use crate::answer::Ran;
use crate::{Core, Step};
use sai_types::Chip;
use swss_types::OutOfMemory;

impl Core {
    /// Runs what a worker has under way to its end.
    pub(crate) fn run<C: Chip>(&mut self, chip: &mut C, worker: u32) -> Result<Ran, OutOfMemory>
        requires worker { worker < 4 }
        requires session { IsInSession self.old (C.state chip.old) }
        requires warm { self.old.warm ≡ warm.Reconciled }
        ensures { (s : LoggedService) → IsSessionOf self.old (C.state chip.old) s → RunsOut s worker self.old (C.state chip.old) result self.new (C.state chip.new) }
    {
        while self.is_flying(worker) {
            match self.answer(chip, worker, true)? {
                Step::Faulted => return Ok(Ran::Faulted),
                Step::LogFull => return Ok(Ran::LogFull),
                _ => {}
            }
        }
        Ok(Ran::Whole)
    }

    /// Runs what workers left to its end, in the order of their numbers.
    pub(crate) fn run_all<C: Chip>(&mut self, chip: &mut C) -> Result<Ran, OutOfMemory>
        requires session { IsInSession self.old (C.state chip.old) }
        requires warm { self.old.warm ≡ warm.Reconciled }
        ensures { (s : LoggedService) → IsSessionOf self.old (C.state chip.old) s → RunsAll s self.old (C.state chip.old) result self.new (C.state chip.new) }
    {
        for worker in 0..4u32 {
            match self.run(chip, worker)? {
                Ran::Whole => {}
                stopped => return Ok(stopped),
            }
        }
        Ok(Ran::Whole)
    }

    /// Pops all that waits in the tables.
    pub(crate) fn pop_all(&mut self) -> Result<(), OutOfMemory>
        ensures pops { self.old.warm ≡ warm.Reconciled → Pops self.old result self.new }
        ensures restored { self.old.warm ≡ warm.Restored → PopsBare self.old result self.new }
    {
        while !self.is_popped() {
            self.pop()?;
        }
        Ok(())
    }
}
