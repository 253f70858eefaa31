// The list of the chip after a restart.
ghost use Rattle.std.specs.Prelude.{◌≡◌};
ghost use Rattle.restart_laws.specs.Logged.{LoggedService};
ghost use Rattle.warm_state.specs.declared.warm.Warm.TheVariants as warm;
ghost use Rattle.session_laws.specs.Service.Standing.{IsServiceOf};
ghost use Rattle.orch_core.specs.Restarting.{HeedsList, IsInService, ListsOut};

use crate::logging::{entered, mark_in};
use crate::{Core, Step};
use sai_types::Chip;
use switch_model::{Mark, MarkEvent, PlacedLog};
use swss_types::OutOfMemory;
use syncd_core::Listed;
use warm_state::Warm;

impl Core {
    /// Lists the chip. A list that fails is marked, and the round ends at the mark where `ends` says so.
    pub(crate) fn list<C: Chip>(&mut self, chip: &mut C, ends: bool) -> Result<Step, OutOfMemory>
        requires service { IsInService self.old (C.state chip.old) }
        requires warm { self.old.warm ≡ warm.Initialized }
        ensures { (s : LoggedService) → IsServiceOf self.old (C.state chip.old) s → ListsOut ends s self.old (C.state chip.old) result self.new (C.state chip.new) }
    {
        if self.is_full(chip.effects(), 1) {
            return Ok(Step::LogFull);
        }
        let before = chip.faults();
        let log = self.keep_place()?;
        match self.list_chip(chip) {
            Ok(listed) => {
                let after = chip.faults();
                let fault = mark_in(&log, chip.effects(), MarkEvent::Faulted { before, after });
                Ok(self.heed_list(listed, log, fault, ends))
            }
            Err(error) => {
                self.put_back(log.give_up());
                Err(error)
            }
        }
    }

    /// The list is there, or the mark that it failed is entered; and the core gets its log back.
    fn heed_list(&mut self, listed: Listed, log: PlacedLog, fault: Mark, ends: bool) -> Step
        ensures { HeedsList listed log fault ends self.old result self.new }
    {
        match listed {
            Listed::Done => {
                self.put_back(log.give_up());
                self.enter(Warm::Restored);
                Step::Did
            }
            Listed::Failed => {
                self.put_back(entered(log, fault, ends));
                self.suspect();
                Step::Faulted
            }
        }
    }
}
