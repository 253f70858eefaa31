// Taking writes.
ghost use Rattle.std.specs.Prelude.{◌≡◌, ℕ, Ok, Err, IfOk, OnOk, OnErr};
ghost use Rattle.table_schema.specs.declared.write.Sent.{Sent};
ghost use Rattle.switch_model.specs.History.{History, with_write as with_taken_write};
ghost use Rattle.sync_tables.specs.Tables.{tables_with_write};
ghost use Rattle.session_laws.specs.Core.{IsFullFor, with_taken};
ghost use Rattle.sai_types.specs.ChipState.{ChipState};
ghost use Rattle.switch_model.specs.Marks.{written_key};
ghost use Rattle.machine_laws.specs.Reading.{IsOnSwitch};
ghost use Rattle.restart_laws.specs.Logged.{LoggedService};
ghost use Rattle.session_laws.specs.Standing.{IsSessionOf};
ghost use Rattle.session_laws.specs.Service.Standing.{IsServiceOf};
ghost use Rattle.round_laws.specs.Sessions.{InSession, InSteadySession};
ghost use Rattle.orch_core.specs.Taking.{TakesSent, TakesNext, TakesStep};

use crate::{Core, TakeFault};
use swss_types::OutOfMemory;
use table_schema::{Sent, Write};

impl Core {
    /// Takes a write; `effects` is the number of the chip's effects. LogFull gives the write back exactly where the log has no
    /// place for it; want of memory comes only where it has one. After either nothing has changed. In a session that came about it
    /// leaves core and chip in one.
    pub fn take(&mut self, sent: Sent, effects: u64) -> Result<Result<(), TakeFault>, OutOfMemory>
        ensures ok { IfOk result (λ taken. TakesSent self.old sent effects taken self.new) }
        ensures err { OnErr result (self.new ≡ self.old) }
        ensures room { OnErr result (IsFullFor self.old effects 1 → ⊥) }
        ensures steps { (chip : ChipState) (s : LoggedService) → IsSessionOf self.old chip s → IsOnSwitch (written_key sent.write) → TakesStep s self.old chip result self.new }
        ensures serves { (chip : ChipState) (s : LoggedService) → IsServiceOf self.old chip s → IsOnSwitch (written_key sent.write) → TakesNext s self.old chip result self.new }
        ensures sessions { (workers : ℕ) (chip : ChipState) → InSession workers self.old chip → IsOnSwitch (written_key sent.write) → InSteadySession workers self.new chip }
    {
        if self.is_full(effects, 1) {
            return Ok(Err(TakeFault::LogFull(sent)));
        }
        // It says that what waits is in order.
        let _order = self.is_popped();
        self.log.take(sent)?;
        if let Err(error) = self.let_wait() {
            self.log.take_back();
            return Err(error);
        }
        Ok(Ok(()))
    }

    /// Lets the write that was taken last wait in its table.
    fn let_wait(&mut self) -> Result<(), OutOfMemory>
        ensures ok { OnOk result ((h : History) (sent : Sent) → self.old.log ≡ with_taken_write h sent → self.new ≡ record self.old { tables = tables_with_write self.old.tables sent.write }) }
        ensures err { OnErr result (self.new ≡ self.old) }
    {
        match self.log.taken().last() {
            Some(sent) => match &sent.write {
                Write::Set(key, fields) => self.tables.set(key.copy()?, fields.copy()?),
                Write::Del(key) => self.tables.del(key.copy()?),
            },
            None => Ok(()),
        }
    }
}
