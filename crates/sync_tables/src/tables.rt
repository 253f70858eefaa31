// The tables.
ghost use Rattle.std.specs.Prelude.{◌≡◌, ◌⊎◌, ◌↔◌, ◌<◌, ◌^◌, [], length, Some, IsSome, IsTrue, IfOk, OnOk, OnErr, option_map};
ghost use Rattle.std.specs.Bool.{OnTrue, OnFalse};
ghost use Rattle.std.specs.Map.{keys_of};
ghost use Rattle.table_schema.specs.Rows.{fields_at};
ghost use Rattle.table_schema.specs.declared.key.Key.{Key};
ghost use Rattle.table_schema.specs.declared.write.Write.TheVariants as write;
ghost use Rattle.switch_model.specs.Good.{good_row};
ghost use Rattle.producer_table.specs.Pending.{ArePendingInOrder};
ghost use Rattle.consumer_table.specs.Ops.{AreOpsInOrder, first_in, keys_behind, without_op};
ghost use Rattle.sync_tables.specs.Tables.{IsToSync, PopsBatch, PopsInPart, PopsKeys, PopsNone, PopsSome, no_tables, tables_with_write};
ghost use Rattle.sync_tables.specs.declared.tables.TheConstants.{BATCH};

use crate::merging::take_in;
use crate::read_rows::ReadRows;
use crate::rows::keys_of_rows;
use consumer_table::ToSync;
use producer_table::Waiting;
use row_store::Rows;
use std::alloc::Global;
use std::marker::Model;
use swss_types::OutOfMemory;
use table_schema::{Fields, Key, PortPlan, Row};

/// How many keys one pop takes at most.
pub const BATCH: u64 = 128;

/// The rows of the application tables, the writes that wait to be popped, and the keys that are to be brought to the chip.
#[derive(Debug, Drop)]
pub struct Tables {
    rows: ReadRows,
    waiting: Waiting,
    to_sync: ToSync,
}

impl Model for Tables {
    ghost use Rattle.sync_tables.specs.Tables.{AllMatter, TablesState};

    ghost Value = { TablesState };

    ghost view = { λ t. record { rows = t.rows; waiting = t.waiting; ops = t.to_sync } };

    ghost invariant = { λ t. AllMatter t.waiting };
}

impl Tables {
    /// No row, no write and no key to sync.
    pub fn new(alloc: Global) -> Tables
        ensures { result ≡ no_tables }
    {
        Tables {
            rows: ReadRows::new(alloc),
            waiting: Waiting::new(alloc),
            to_sync: ToSync::new(alloc),
        }
    }

    /// Lets a Set wait.
    pub fn set(&mut self, key: Key, fields: Fields) -> Result<(), OutOfMemory>
        ensures ok { OnOk result (self.new ≡ tables_with_write self.old (write.Set key fields)) }
        ensures err { OnErr result (self.new ≡ self.old) }
    {
        self.waiting.set(key, fields)
    }

    /// Lets a Del wait.
    pub fn del(&mut self, key: Key) -> Result<(), OutOfMemory>
        ensures ok { OnOk result (self.new ≡ tables_with_write self.old (write.Del key)) }
        ensures err { OnErr result (self.new ≡ self.old) }
    {
        self.waiting.del(key)
    }

    /// Whether no write waits. What waits is in order, as `ArePendingInOrder` says.
    pub fn is_popped(&self) -> bool
        ensures popped { IsTrue result ↔ (self.now.waiting ≡ []) }
        ensures order { ArePendingInOrder self.now.waiting }
    {
        self.waiting.is_empty()
    }

    /// Pops a batch of keys: the first `BATCH` that wait, in key order, or all where no more wait. What waited of each is
    /// merged into its row, and added to its operation. After want of memory at one of these keys those before it are popped, and
    /// it waits with the others.
    pub fn pop(&mut self) -> Result<(), OutOfMemory>
        ensures batch { OnOk result (PopsBatch BATCH self.old self.new) }
        ensures part { OnErr result (PopsInPart BATCH self.old self.new) }
        ensures keys { PopsKeys self.old self.new }
        ensures some { OnOk result ((self.old.waiting ≡ []) ⊎ PopsSome self.old self.new) }
        ensures fewer { OnOk result ((self.old.waiting ≡ []) ⊎ (length self.new.waiting < length self.old.waiting)) }
    {
        if self.pop_first()? {
            self.pop_more(BATCH - 1)?;
        }
        Ok(())
    }

    /// Pops the first keys that wait, at most so many.
    fn pop_more(&mut self, count: u64) -> Result<(), OutOfMemory>
        ensures batch { OnOk result (PopsBatch count self.old self.new) }
        ensures part { OnErr result (PopsInPart count self.old self.new) }
        ensures keys { PopsKeys self.old self.new }
    {
        for _ in 0..count {
            if !self.pop_first()? {
                break;
            }
        }
        Ok(())
    }

    /// Pops the first key that waits: false exactly where none does.
    fn pop_first(&mut self) -> Result<bool, OutOfMemory>
        ensures batch { OnOk result (PopsBatch 1 self.old self.new) }
        ensures none { OnErr result (PopsNone self.old self.new) }
        ensures keys { PopsKeys self.old self.new }
        ensures some { IfOk result (λ popped. OnTrue popped (PopsSome self.old self.new)) }
        ensures empty { IfOk result (λ popped. OnFalse popped (self.old.waiting ≡ [])) }
    {
        let _order = self.waiting.is_empty();
        let Some((key, pending)) = self.waiting.first() else {
            return Ok(false);
        };
        take_in(&mut self.rows, &mut self.to_sync, key, pending)?;
        self.waiting.pop_first();
        Ok(true)
    }

    /// The key's row, where it reads. A row of a neighbour or a route is read once.
    pub fn good_row(
        &mut self,
        alloc: Global,
        plan: &PortPlan,
        key: &Key,
    ) -> Result<Option<Row>, OutOfMemory>
        ensures row { IfOk result (λ row. row ≡ good_row plan.now key.now (fields_at self.old.rows key.now)) }
        ensures same { self.new ≡ self.old }
    {
        self.rows.good_row(alloc, plan, key)
    }

    /// The first key to sync, in key order, behind this one, and the first of all where none is given. The keys are in order,
    /// as `AreOpsInOrder` says.
    pub fn next_key(&self, after: Option<&Key>) -> Option<&Key>
        ensures key { option_map (λ key. key.now) result ≡ first_in (keys_behind (option_map (λ key. key.now) after.entry) (keys_of self.now.ops)) }
        ensures order { AreOpsInOrder self.now.ops }
    {
        let _order = self.to_sync.len();
        self.to_sync.next_key(after)
    }

    /// The keys to sync, in key order, as `AreOpsInOrder` says.
    pub fn keys(&self) -> Result<Vec<Key>, OutOfMemory>
        ensures keys { IfOk result (λ keys. keys.items ≡ keys_of self.now.ops) }
        ensures order { AreOpsInOrder self.now.ops }
    {
        let _order = self.to_sync.len();
        self.to_sync.keys()
    }

    /// How many keys are to sync. They are in order, as `AreOpsInOrder` says.
    pub fn count(&self) -> usize
        ensures ops { result ≡ length self.now.ops }
        ensures keys { result ≡ length (keys_of self.now.ops) }
        ensures small { result < 2 ^ 63 }
        ensures order { AreOpsInOrder self.now.ops }
    {
        self.to_sync.len()
    }

    /// Takes a key from those to sync, if it is one.
    pub fn done(&mut self, key: &Key)
        ensures { self.new ≡ record self.old { ops = without_op self.old.ops key.now } }
    {
        self.to_sync.done(key);
    }

    /// Makes each key that has a row one to sync, and no other. After want of memory the keys to sync are as they were.
    pub fn sync_rows(&mut self) -> Result<(), OutOfMemory>
        ensures kept { self.new ≡ record self.old { ops = self.new.ops } }
        ensures keys { OnOk result ((key : Key) → IsToSync self.new key ↔ IsSome (fields_at self.new.rows key)) }
        ensures order { OnOk result (AreOpsInOrder self.new.ops) }
        ensures err { OnErr result (self.new ≡ self.old) }
    {
        let to_sync = keys_of_rows(self.rows.rows())?;
        let _order = to_sync.len();
        self.to_sync = to_sync;
        Ok(())
    }

    /// Takes all keys from those to sync.
    pub fn forget_ops(&mut self)
        ensures { self.new ≡ record self.old { ops = [] } }
    {
        self.to_sync.forget_all();
    }

    /// The rows.
    pub fn rows(&self) -> &Rows
        ensures { result.now ≡ self.now.rows }
    {
        self.rows.rows()
    }
}
