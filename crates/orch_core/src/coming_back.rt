// What a settling does first: the core comes back from a fault and from an unfinished restart.
ghost use Rattle.std.specs.Prelude.{◌≡◌};
ghost use Rattle.restart_laws.specs.Logged.{LoggedService};
ghost use Rattle.warm_state.specs.declared.warm.Warm.TheVariants as warm;
ghost use Rattle.session_laws.specs.Service.Standing.{IsServiceOf};
ghost use Rattle.orch_core.specs.ComingBack.{ComesOut, ran_of};
ghost use Rattle.orch_core.specs.Restarting.{IsInService};

use crate::answer::Ran;
use crate::{Core, LogFull, Step};
use sai_types::Chip;
use swss_types::OutOfMemory;
use warm_state::Warm;

impl Core {
    /// Restarts where the core is suspect, and then lists, restores and applies, as far as a restart is unfinished.
    pub(crate) fn come_back<C: Chip>(&mut self, chip: &mut C) -> Result<Ran, OutOfMemory>
        requires service { IsInService self.old (C.state chip.old) }
        ensures { (s : LoggedService) → IsServiceOf self.old (C.state chip.old) s → ComesOut s self.old (C.state chip.old) result self.new (C.state chip.new) }
    {
        match self.state() {
            Warm::Suspect => self.restart_and_list(chip),
            Warm::Initialized => self.list_and_restore(chip),
            Warm::Restored => self.restore_and_apply(chip),
            Warm::Applying => self.apply_all(chip),
            Warm::Reconciled => Ok(Ran::Whole),
        }
    }

    /// Restarts, and goes on from there.
    fn restart_and_list<C: Chip>(&mut self, chip: &mut C) -> Result<Ran, OutOfMemory>
        requires service { IsInService self.old (C.state chip.old) }
        requires warm { self.old.warm ≡ warm.Suspect }
        ensures { (s : LoggedService) → IsServiceOf self.old (C.state chip.old) s → ComesOut s self.old (C.state chip.old) result self.new (C.state chip.new) }
    {
        match self.restart(chip.effects())? {
            Ok(()) => self.list_and_restore(chip),
            Err(LogFull) => Ok(Ran::LogFull),
        }
    }

    /// Lists the chip, and goes on from there.
    fn list_and_restore<C: Chip>(&mut self, chip: &mut C) -> Result<Ran, OutOfMemory>
        requires service { IsInService self.old (C.state chip.old) }
        requires warm { self.old.warm ≡ warm.Initialized }
        ensures { (s : LoggedService) → IsServiceOf self.old (C.state chip.old) s → ComesOut s self.old (C.state chip.old) result self.new (C.state chip.new) }
    {
        match ran(self.list(chip, true)?) {
            Ran::Whole => self.restore_and_apply(chip),
            stopped => Ok(stopped),
        }
    }

    /// Restores the rows, and goes on from there.
    fn restore_and_apply<C: Chip>(&mut self, chip: &mut C) -> Result<Ran, OutOfMemory>
        requires service { IsInService self.old (C.state chip.old) }
        requires warm { self.old.warm ≡ warm.Restored }
        ensures { (s : LoggedService) → IsServiceOf self.old (C.state chip.old) s → ComesOut s self.old (C.state chip.old) result self.new (C.state chip.new) }
    {
        match ran(self.restore(chip)?) {
            Ran::Whole => self.apply_all(chip),
            stopped => Ok(stopped),
        }
    }

    /// Makes the calls of the plan that are left.
    fn apply_all<C: Chip>(&mut self, chip: &mut C) -> Result<Ran, OutOfMemory>
        requires service { IsInService self.old (C.state chip.old) }
        requires warm { self.old.warm ≡ warm.Applying }
        ensures { (s : LoggedService) → IsServiceOf self.old (C.state chip.old) s → ComesOut s self.old (C.state chip.old) result self.new (C.state chip.new) }
    {
        while self.state() == Warm::Applying {
            match ran(self.apply(chip, true)?) {
                Ran::Whole => {}
                stopped => return Ok(stopped),
            }
        }
        Ok(Ran::Whole)
    }
}

/// What an event after a restart came to, for a settling.
fn ran(step: Step) -> Ran
    ensures { result ≡ ran_of step }
{
    match step {
        Step::Did => Ran::Whole,
        Step::Faulted => Ran::Faulted,
        Step::Idle | Step::Suspect | Step::LogFull => Ran::LogFull,
    }
}
