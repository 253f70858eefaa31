// The restore after a restart: the rows come to be a view, and the way from the chip to it is planned.
ghost use Rattle.std.specs.Prelude.{◌≡◌, ◌<◌, ◌+◌, ◌^◌, [], length};
ghost use Rattle.restart_laws.specs.Logged.{LoggedService};
ghost use Rattle.sai_types.specs.ChipState.{ChipState};
ghost use Rattle.switch_model.specs.History.{with_mark};
ghost use Rattle.warm_state.specs.declared.warm.Warm.TheVariants as warm;
ghost use Rattle.session_laws.specs.Core.{CoreState};
ghost use Rattle.session_laws.specs.Service.Built.{IsBuilt};
ghost use Rattle.session_laws.specs.Service.Standing.{IsServiceOf};
ghost use Rattle.orch_core.specs.Restarting.{BeginsOut, BuildsOut, IsInService, RestoresOut};

use crate::logging::mark_in;
use crate::{Core, Step};
use sai_types::Chip;
use switch_model::{Mark, MarkEvent, PlacedLog};
use swss_types::OutOfMemory;
use warm_state::Warm;

impl Core {
    /// Pops all that waits, goes over all rows on a temporary view, and plans the way from the chip to that, with a mark that lists
    /// the keys that wait. Where the log has no place for a mark nothing is done; where it has none for the keys, or memory is refused,
    /// the view is given up, and what was popped stays.
    pub(crate) fn restore<C: Chip>(&mut self, chip: &mut C) -> Result<Step, OutOfMemory>
        requires service { IsInService self.old (C.state chip.old) }
        requires warm { self.old.warm ≡ warm.Restored }
        ensures { (s : LoggedService) → IsServiceOf self.old (C.state chip.old) s → RestoresOut s self.old (C.state chip.old) result self.new (C.state chip.new) }
    {
        if self.is_full(chip.effects(), 1) {
            return Ok(Step::LogFull);
        }
        self.pop_all()?;
        match self.build(chip) {
            Ok(Step::Did) => Ok(Step::Did),
            stopped => {
                self.give_up();
                stopped
            }
        }
    }

    /// Builds the view, and begins the apply.
    fn build<C: Chip>(&mut self, chip: &mut C) -> Result<Step, OutOfMemory>
        requires service { IsInService self.old (C.state chip.old) }
        requires warm { self.old.warm ≡ warm.Restored }
        requires popped { self.old.tables.waiting ≡ [] }
        ensures { (s : LoggedService) → IsServiceOf self.old (C.state chip.old) s → BuildsOut s self.old (C.state chip.old) result self.new (C.state chip.new) }
    {
        self.begin_view()?;
        self.go_over(chip)?;
        self.begin_apply(chip.effects())
    }

    /// Begins the apply, where the log has places for its mark and for each key that the mark lists.
    fn begin_apply(&mut self, effects: u64) -> Result<Step, OutOfMemory>
        requires built { (first : CoreState) × (chip : ChipState) × (s : LoggedService) × IsServiceOf first chip s × (first.warm ≡ warm.Restored) × (first.tables.waiting ≡ []) × IsBuilt first self.old [] }
        ensures { (first : CoreState) (chip : ChipState) (s : LoggedService) → IsServiceOf first chip s → first.warm ≡ warm.Restored → first.tables.waiting ≡ [] → effects ≡ length chip.effects → IsBuilt first self.old [] → BeginsOut s first chip result self.new }
    {
        let count = self.count() as u64;
        if self.is_full(effects, 1 + count as u128) {
            return Ok(Step::LogFull);
        }
        let waits = self.bare_list()?;
        let log = self.keep_place()?;
        match self.plan_apply() {
            Ok(mode) => {
                let mark = mark_in(&log, effects, MarkEvent::ApplyBegan { mode, waits });
                self.enter_apply(log, mark, count);
                Ok(Step::Did)
            }
            Err(error) => {
                self.put_back(log.give_up());
                Err(error)
            }
        }
    }

    /// The apply begins with its mark, which lists so many keys.
    fn enter_apply(&mut self, log: PlacedLog, mark: Mark, count: u64)
        requires { self.old.listed + count < 2 ^ 64 }
        ensures { self.new ≡ record self.old { log = with_mark log mark; listed = self.old.listed + count; warm = warm.Applying } }
    {
        self.log = log.mark(mark);
        self.listed += count;
        self.state = Warm::Applying;
    }
}
