// What becomes of a key that is to sync.
ghost use Rattle.std.specs.Prelude.{◌≡◌, ◌<◌, ℕ, List, None};
ghost use Rattle.sai_types.specs.ChipState.{ChipState};
ghost use Rattle.consumer_table.specs.Ops.{AreOpsInOrder};
ghost use Rattle.ref_counts.specs.Room.{number_of_kind};
ghost use Rattle.orch_flight.specs.Sharing.{MayStart};
ghost use Rattle.restart_laws.specs.Logged.{LoggedService};
ghost use Rattle.sync_tables.specs.Tables.{IsToSync};
ghost use Rattle.flight_board.specs.Applied.{placed_at, placed_for};
ghost use Rattle.flight_board.specs.Board.{IsUnflown, MayEndAtOnce, flown_at};
ghost use Rattle.warm_state.specs.declared.warm.Warm.TheVariants as warm;
ghost use Rattle.session_laws.specs.Core.{good_in};
ghost use Rattle.session_laws.specs.Standing.{IsSessionOf};
ghost use Rattle.orch_core.specs.Outcomes.{AreKindsCounted, BeginsOrDrops, Begun, IsInSession, Tries};

use crate::Core;
use crate::answer::Tried;
use swss_types::OutOfMemory;
use table_schema::{Key, Row};

impl Core {
    /// Begins the operation of a key for a worker that has nothing under way, or takes it from those to sync where it has its
    /// good row; or tells why it has to wait.
    pub(crate) fn try_key(&mut self, worker: u32, key: &Key) -> Result<Tried, OutOfMemory>
        requires worker { worker < 4 }
        requires session { (chip : ChipState) × IsInSession self.old chip }
        requires warm { self.old.warm ≡ warm.Reconciled }
        requires none { flown_at self.old.board worker ≡ None }
        requires order { AreOpsInOrder self.old.tables.ops }
        requires key { IsToSync self.old.tables key.now }
        ensures { (s : LoggedService) (chip : ChipState) → IsSessionOf self.old chip s → Tries s worker key.now self.old chip result self.new }
    {
        let new = self.good_row(key)?;
        self.try_row(worker, key, new)
    }

    /// The same, where this is the good row of the key.
    fn try_row(&mut self, worker: u32, key: &Key, new: Option<Row>) -> Result<Tried, OutOfMemory>
        requires worker { worker < 4 }
        requires session { (chip : ChipState) × IsInSession self.old chip }
        requires warm { self.old.warm ≡ warm.Reconciled }
        requires none { flown_at self.old.board worker ≡ None }
        requires order { AreOpsInOrder self.old.tables.ops }
        requires key { IsToSync self.old.tables key.now }
        requires row { new ≡ good_in self.old key.now }
        ensures { (s : LoggedService) (chip : ChipState) → IsSessionOf self.old chip s → Tries s worker key.now self.old chip result self.new }
    {
        if self.is_there(key, new.as_ref()) {
            self.leave(key);
            return Ok(Tried::Dropped);
        }
        self.begin(worker, key, new)
    }

    /// The same, which tells only whether the key is no longer to sync.
    pub(crate) fn begins(&mut self, worker: u32, key: &Key) -> Result<bool, OutOfMemory>
        requires worker { worker < 4 }
        requires session { (chip : ChipState) × IsInSession self.old chip }
        requires warm { self.old.warm ≡ warm.Reconciled }
        requires none { flown_at self.old.board worker ≡ None }
        requires order { AreOpsInOrder self.old.tables.ops }
        requires key { IsToSync self.old.tables key.now }
        ensures { (s : LoggedService) (chip : ChipState) → IsSessionOf self.old chip s → BeginsOrDrops s worker key.now self.old chip result self.new }
    {
        match self.try_key(worker, key)? {
            Tried::Waits(_) => Ok(false),
            _ => Ok(true),
        }
    }

    /// Begins the operation of a key for a worker, or tells why it has to wait.
    fn begin(&mut self, worker: u32, key: &Key, new: Option<Row>) -> Result<Tried, OutOfMemory>
        requires worker { worker < 4 }
        requires none { flown_at self.old.board worker ≡ None }
        requires may { IsUnflown self.old.board key.now → MayStart self.old.board.plan self.old.board.names worker key.now (placed_at self.old.board.applied key.now) (placed_for self.old.board.applied key.now new) }
        requires ends { (used : List ℕ) → AreKindsCounted self.old.sync (number_of_kind used) → IsUnflown self.old.board key.now → MayEndAtOnce self.old.board used worker key.now new }
        ensures { Begun worker key.now new self.old result self.new }
    {
        let used = self.used();
        match self.start(&used, worker, key, new)? {
            Ok(()) => {
                self.leave(key);
                Ok(Tried::Begun)
            }
            Err(wait) => Ok(Tried::Waits(wait)),
        }
    }
}
