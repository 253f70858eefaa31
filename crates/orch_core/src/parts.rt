// What the core has its parts do: each call is one of the board, of syncd or of the tables, and the rest of the core stays.
ghost use Rattle.std.specs.Prelude.{◌≡◌, ◌<◌, ◌≤◌, ◌^◌, ◌↔◌, ◌⊎◌, [], length, None, Some, IsSome, IsTrue, IfOk, OnOk, OnErr, option_map};
ghost use Rattle.std.specs.Map.{keys_of};
ghost use Rattle.producer_table.specs.Pending.{ArePendingInOrder};
ghost use Rattle.consumer_table.specs.Ops.{AreOpsInOrder, first_in, keys_behind};
ghost use Rattle.retry_list.specs.Reasons.{reason_at, with_reason};
ghost use Rattle.sai_types.specs.declared.kind.Kind.TheVariants as kind;
ghost use Rattle.ref_counts.specs.Room.{number_of_kind};
ghost use Rattle.orch_flight.specs.Sharing.{MayStart};
ghost use Rattle.registry_laws.specs.Flown.{Flown};
ghost use Rattle.registry_laws.specs.Making.{IsNextCall, MayTakeFor};
ghost use Rattle.sync_tables.specs.Tables.{PopsBatch, PopsInPart, PopsKeys, PopsSome, TablesState};
ghost use Rattle.sync_tables.specs.declared.tables.TheConstants.{BATCH};
ghost use Rattle.syncd_core.specs.Synced.{Calls, CanCall, IsUnmade, SyncState};
ghost use Rattle.flight_board.specs.Applied.{placed_at, placed_for, row_at};
ghost use Rattle.flight_board.specs.Board.{BoardState, IsBegunFor, IsPrepared, IsCallReady, IsSameBoard, IsTakenFor, IsUnflown, MayEndAtOnce, MayEndThen, flown_at};
ghost use Rattle.session_laws.specs.Core.{good_in};
ghost use Rattle.orch_core.specs.Outcomes.{key_left};

use crate::Core;
use sai_types::{Call, Chip, KindCounts, SyncAnswer, Vid};
use switch_model::Wait;
use swss_types::OutOfMemory;
use table_schema::{Key, Row};

impl Core {
    /// Whether a worker has something under way.
    pub(crate) fn is_flying(&self, worker: u32) -> bool
        requires { worker < 4 }
        ensures { IsTrue result ↔ IsSome (flown_at self.now.board worker) }
    {
        self.board.is_flying(worker)
    }

    /// Begins the operation of a group that is due for a worker.
    pub(crate) fn prepare(&mut self, worker: u32) -> Result<(), OutOfMemory>
        requires { worker < 4 }
        ensures ok { OnOk result ((b : BoardState) × IsPrepared self.old.board worker b × (self.new ≡ record self.old { board = b })) }
        ensures err { OnErr result (self.new ≡ self.old) }
    {
        self.board.prepare(worker)
    }

    /// The call that is due for a worker.
    pub(crate) fn due_call(&self, worker: u32) -> Result<Call<Vid>, OutOfMemory>
        requires worker { worker < 4 }
        requires flying { (x : Flown) × (flown_at self.now.board worker ≡ Some x) × IsCallReady self.now.board.plan self.now.board.names x }
        ensures { IfOk result (λ call. (x : Flown) → flown_at self.now.board worker ≡ Some x → IsNextCall self.now.board.plan self.now.board.names x.operation x.group call) }
    {
        self.board.next(worker)
    }

    /// Has syncd make a call.
    pub(crate) fn call_chip<C: Chip>(
        &mut self,
        chip: &mut C,
        call: &Call<Vid>,
    ) -> Result<SyncAnswer, OutOfMemory>
        requires { CanCall self.old.sync self.old.sync.temporary (C.state chip.old) call.now }
        ensures ok { IfOk result (λ answer. (y : SyncState) × Calls self.old.sync self.old.sync.temporary (C.state chip.old) call.now answer y (C.state chip.new) × (self.new ≡ record self.old { sync = y })) }
        ensures err { OnErr result (self.new ≡ self.old) }
        ensures unmade { OnErr result (IsUnmade self.old.sync.temporary (C.state chip.old) (C.state chip.new)) }
    {
        self.syncd.call(chip, call)
    }

    /// Takes what the call made that was due for a worker.
    pub(crate) fn took(&mut self, worker: u32, made: Option<Vid>)
        requires worker { worker < 4 }
        requires may { (x : Flown) × (flown_at self.old.board worker ≡ Some x) × MayTakeFor x.operation x.group made self.old.board.names }
        requires ends { MayEndThen self.old.board worker made }
        ensures { (b : BoardState) × IsTakenFor self.old.board worker made b × (self.new ≡ record self.old { board = b }) }
    {
        self.board.took(worker, made);
    }

    /// Begins the operation of a key for a worker, or tells why it has to wait.
    pub(crate) fn start(
        &mut self,
        used: &KindCounts,
        worker: u32,
        key: &Key,
        new: Option<Row>,
    ) -> Result<Result<(), Wait>, OutOfMemory>
        requires worker { worker < 4 }
        requires none { flown_at self.old.board worker ≡ None }
        requires few { number_of_kind used.now kind.Rif ≤ 2 ^ 63 }
        requires may { IsUnflown self.old.board key.now → MayStart self.old.board.plan self.old.board.names worker key.now (placed_at self.old.board.applied key.now) (placed_for self.old.board.applied key.now new) }
        requires ends { IsUnflown self.old.board key.now → MayEndAtOnce self.old.board used.now worker key.now new }
        ensures begun { IfOk result (λ answer. (b : BoardState) × IsBegunFor self.old.board used.now worker key.now new answer b × (self.new ≡ record self.old { board = b })) }
        ensures err { OnErr result ((b : BoardState) × IsSameBoard self.old.board b × (self.new ≡ record self.old { board = b })) }
    {
        self.board.begin(used, worker, key, new)
    }

    /// Whether no worker has the key under way and this is its applied row.
    pub(crate) fn is_there(&self, key: &Key, new: Option<&Row>) -> bool
        ensures there { IsTrue result → IsUnflown self.now.board key.now × (row_at self.now.board.applied key.now ≡ option_map (λ row. row.now) new.entry) }
        ensures other { IsUnflown self.now.board key.now → row_at self.now.board.applied key.now ≡ option_map (λ row. row.now) new.entry → IsTrue result }
    {
        self.board.worker_of(key).is_none() && self.board.has_row(key, new)
    }

    /// The good row of a key.
    pub(crate) fn good_row(&mut self, key: &Key) -> Result<Option<Row>, OutOfMemory>
        ensures row { IfOk result (λ row. row ≡ good_in self.old key.now) }
        ensures same { self.new ≡ self.old }
    {
        self.tables.good_row(self.alloc, self.board.plan(), key)
    }

    /// Takes a key from those to sync, and from the list of those that wait.
    pub(crate) fn leave(&mut self, key: &Key)
        ensures { self.new ≡ key_left self.old key.now }
    {
        self.tables.done(key);
        self.waiting.forget(key);
    }

    /// Puts a key on the list of those that wait, with its reason.
    pub(crate) fn wait(&mut self, key: Key, wait: Wait) -> Result<(), OutOfMemory>
        ensures ok { OnOk result (self.new ≡ record self.old { waiting = with_reason self.old.waiting key wait }) }
        ensures err { OnErr result (self.new ≡ self.old) }
    {
        self.waiting.put(key, wait)
    }

    /// A copy of the first key to sync behind this one. The keys are in order.
    pub(crate) fn key_behind(&self, after: Option<&Key>) -> Result<Option<Key>, OutOfMemory>
        ensures next { IfOk result (λ next. next ≡ first_in (keys_behind (option_map (λ key. key.now) after.entry) (keys_of self.now.tables.ops))) }
        ensures order { AreOpsInOrder self.now.tables.ops }
    {
        match self.tables.next_key(after) {
            Some(key) => Ok(Some(key.copy()?)),
            None => Ok(None),
        }
    }

    /// Copies of the keys to sync, in order.
    pub(crate) fn keys(&self) -> Result<Vec<Key>, OutOfMemory>
        ensures keys { IfOk result (λ keys. keys.items ≡ keys_of self.now.tables.ops) }
        ensures order { AreOpsInOrder self.now.tables.ops }
    {
        self.tables.keys()
    }

    /// Whether no write waits in the tables. Those that wait are in order.
    pub fn is_popped(&self) -> bool
        ensures popped { IsTrue result ↔ (self.now.tables.waiting ≡ []) }
        ensures order { ArePendingInOrder self.now.tables.waiting }
    {
        self.tables.is_popped()
    }

    /// How many keys are to sync. They are in order.
    pub(crate) fn count(&self) -> usize
        ensures ops { result ≡ length self.now.tables.ops }
        ensures keys { result ≡ length (keys_of self.now.tables.ops) }
        ensures small { result < 2 ^ 63 }
        ensures order { AreOpsInOrder self.now.tables.ops }
    {
        self.tables.count()
    }

    /// Pops a batch of keys.
    pub(crate) fn pop(&mut self) -> Result<(), OutOfMemory>
        ensures keys { (t : TablesState) × PopsKeys self.old.tables t × (self.new ≡ record self.old { tables = t }) }
        ensures some { OnOk result ((self.old.tables.waiting ≡ []) ⊎ PopsSome self.old.tables self.new.tables) }
        ensures batch { OnOk result (PopsBatch BATCH self.old.tables self.new.tables) }
        ensures part { OnErr result (PopsInPart BATCH self.old.tables self.new.tables) }
        ensures fewer { OnOk result ((self.old.tables.waiting ≡ []) ⊎ (length self.new.tables.waiting < length self.old.tables.waiting)) }
    {
        self.tables.pop()
    }
}
