// The apply after a restart: the calls of the plan that brings the chip to the view, one event each.
ghost use Rattle.std.specs.Prelude.{◌≡◌};
ghost use Rattle.restart_laws.specs.Logged.{LoggedService};
ghost use Rattle.warm_state.specs.declared.warm.Warm.TheVariants as warm;
ghost use Rattle.session_laws.specs.Service.Standing.{IsServiceOf};
ghost use Rattle.orch_core.specs.Restarting.{AppliesOut, HeedsApply, IsInService};

use crate::logging::{entered, mark_in};
use crate::{Core, Step};
use sai_types::Chip;
use switch_model::{Mark, MarkEvent, PlacedLog};
use swss_types::OutOfMemory;
use syncd_core::ApplyStep;
use warm_state::Warm;

impl Core {
    /// Makes the next call of the plan. The last one ends the apply, and where no call is left the end alone is marked. A call that
    /// fails is marked, and the round ends at the mark where `ends` says so.
    pub(crate) fn apply<C: Chip>(&mut self, chip: &mut C, ends: bool) -> Result<Step, OutOfMemory>
        requires service { IsInService self.old (C.state chip.old) }
        requires warm { self.old.warm ≡ warm.Applying }
        ensures { (s : LoggedService) → IsServiceOf self.old (C.state chip.old) s → AppliesOut ends s self.old (C.state chip.old) result self.new (C.state chip.new) }
    {
        if self.is_full(chip.effects(), self.places()) {
            return Ok(Step::LogFull);
        }
        let before = chip.faults();
        let log = self.keep_place()?;
        match self.apply_next(chip) {
            Ok(step) => {
                let after = chip.faults();
                let fault = mark_in(&log, chip.effects(), MarkEvent::Faulted { before, after });
                let end = mark_in(&log, chip.effects(), MarkEvent::ApplyEnded);
                Ok(self.heed_apply(step, log, fault, end, ends))
            }
            Err(error) => {
                self.put_back(log.give_up());
                Err(error)
            }
        }
    }

    /// The apply goes on, or the mark of its end or of the fault is entered; and the core gets its log back.
    fn heed_apply(
        &mut self,
        step: ApplyStep,
        log: PlacedLog,
        fault: Mark,
        end: Mark,
        ends: bool,
    ) -> Step
        ensures { HeedsApply step log fault end ends self.old result self.new }
    {
        match step {
            ApplyStep::More => {
                self.put_back(log.give_up());
                Step::Did
            }
            ApplyStep::Ended => {
                self.put_back(log.mark(end));
                self.enter(Warm::Reconciled);
                Step::Did
            }
            ApplyStep::Failed => {
                self.put_back(entered(log, fault, ends));
                self.suspect();
                Step::Faulted
            }
        }
    }
}
