// Restarting.
ghost use Rattle.std.specs.Prelude.{◌≡◌, ℕ, length, IfOk, OnErr};
ghost use Rattle.sai_types.specs.ChipState.{ChipState};
ghost use Rattle.restart_laws.specs.Logged.{LoggedService};
ghost use Rattle.session_laws.specs.Core.{IsFullFor};
ghost use Rattle.session_laws.specs.Service.Standing.{IsServiceOf};
ghost use Rattle.round_laws.specs.Sessions.{InSession, InSteadySession};
ghost use Rattle.orch_core.specs.Restarting.{MarksRestart, RestartsStep};

use crate::{Core, LogFull};
use switch_model::MarkEvent;
use swss_types::OutOfMemory;

impl Core {
    /// Forgets all but the rows, the writes that wait to be popped and the log, and marks that; `effects` is the number of the
    /// chip's effects. LogFull comes exactly where the log has no place for the mark, and want of memory only where it has one; after
    /// either nothing has changed. In a session that came about it leaves core and chip in one.
    pub fn restart(&mut self, effects: u64) -> Result<Result<(), LogFull>, OutOfMemory>
        ensures ok { IfOk result (λ restarted. MarksRestart self.old effects restarted self.new) }
        ensures err { OnErr result (self.new ≡ self.old) }
        ensures room { OnErr result (IsFullFor self.old effects 1 → ⊥) }
        ensures steps { (chip : ChipState) (s : LoggedService) → IsServiceOf self.old chip s → effects ≡ length chip.effects → RestartsStep s self.old chip result self.new }
        ensures sessions { (workers : ℕ) (chip : ChipState) → InSession workers self.old chip → effects ≡ length chip.effects → InSteadySession workers self.new chip }
    {
        if self.is_full(effects, 1) {
            return Ok(Err(LogFull));
        }
        self.mark(effects, MarkEvent::Restarted)?;
        self.forget();
        Ok(Ok(()))
    }
}
