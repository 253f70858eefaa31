// Settling.
ghost use Rattle.std.specs.Prelude.{◌≡◌, ◌<◌, ℕ};
ghost use Rattle.restart_laws.specs.Logged.{LoggedService};
ghost use Rattle.warm_state.specs.declared.warm.Warm.TheVariants as warm;
ghost use Rattle.session_laws.specs.Standing.{IsSessionOf};
ghost use Rattle.session_laws.specs.Turning.{IsAtRest};
ghost use Rattle.session_laws.specs.Service.Events.{MakesMore};
ghost use Rattle.session_laws.specs.Service.Standing.{IsServiceOf};
ghost use Rattle.round_laws.specs.Sessions.{InSession, InSteadySession};
ghost use Rattle.orch_core.specs.ComingBack.{SettlesFrom};
ghost use Rattle.orch_core.specs.Outcomes.{IsInSession};
ghost use Rattle.orch_core.specs.Restarting.{IsInService};
ghost use Rattle.orch_core.specs.Settled.{Settles, SettlesKeys};

use crate::answer::{Ran, Turned};
use crate::{Core, Settled};
use sai_types::Chip;
use swss_types::OutOfMemory;

impl Core {
    /// Restarts where the core is suspect, and lists, restores and applies where a restart is unfinished; then runs what workers left,
    /// pops all that waits, makes turns until no key is left to sync or a turn took none away, and marks that with the keys that
    /// wait. Whatever it answers, whole steps of the service lead to a session for which core and chip stand then, and begin operations
    /// for the first worker alone; so in a session that came about it leaves them in one, by as many workers.
    pub fn settle<C: Chip>(&mut self, chip: &mut C) -> Result<Settled, OutOfMemory>
        requires service { IsInService self.old (C.state chip.old) }
        ensures settles { (s : LoggedService) → IsServiceOf self.old (C.state chip.old) s → SettlesFrom s self.old (C.state chip.old) result self.new (C.state chip.new) }
        ensures goes_on { (s : LoggedService) → IsServiceOf self.old (C.state chip.old) s → MakesMore 0 self.old s self.new (C.state chip.new) }
        ensures sessions { (workers : ℕ) → 0 < workers → InSession workers self.old (C.state chip.old) → InSteadySession workers self.new (C.state chip.new) }
    {
        match self.come_back(chip)? {
            Ran::Whole => self.settle_reconciled(chip),
            Ran::Faulted => Ok(Settled::Faulted),
            Ran::LogFull => Ok(Settled::LogFull),
        }
    }

    /// Settles a core that is reconciled.
    fn settle_reconciled<C: Chip>(&mut self, chip: &mut C) -> Result<Settled, OutOfMemory>
        requires session { IsInSession self.old (C.state chip.old) }
        requires warm { self.old.warm ≡ warm.Reconciled }
        ensures { (s : LoggedService) → IsSessionOf self.old (C.state chip.old) s → Settles s self.old (C.state chip.old) result self.new (C.state chip.new) }
    {
        match self.run_all(chip)? {
            Ran::Whole => {}
            Ran::Faulted => return Ok(Settled::Faulted),
            Ran::LogFull => return Ok(Settled::LogFull),
        }
        self.pop_all()?;
        self.settle_keys(chip)
    }

    /// Makes turns, and marks their end.
    fn settle_keys<C: Chip>(&mut self, chip: &mut C) -> Result<Settled, OutOfMemory>
        requires session { IsInSession self.old (C.state chip.old) }
        requires rest { IsAtRest self.old }
        ensures { (s : LoggedService) → IsSessionOf self.old (C.state chip.old) s → SettlesKeys s self.old (C.state chip.old) result self.new (C.state chip.new) }
    {
        match self.make_turns(chip)? {
            Turned::Whole(turns) => self.mark_settled(chip.effects(), turns),
            Turned::Faulted => Ok(Settled::Faulted),
            Turned::LogFull => Ok(Settled::LogFull),
        }
    }
}
