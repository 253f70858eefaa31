// The cache of a producer's rows over its restart.
ghost use Rattle.std.specs.Prelude.{◌≡◌, ◌++◌, List, IfOk, OnOk, OnErr};
ghost use Rattle.table_schema.specs.Rows.{rows_of};
ghost use Rattle.table_schema.specs.declared.write.Write.{Write};
ghost use Rattle.app_restart.specs.Cached.{cache_restored, cache_after, state_at};
ghost use Rattle.app_restart.specs.Reconcile.{AreOfOtherRows, IsReconciled, differences};
ghost use Rattle.app_restart.specs.TableName.{rows_of_table, table_name, key_of_write};
ghost use Rattle.app_restart.specs.Entry.{entries_after, entries_with, differences_of};

use crate::CacheState;
use crate::entry::Entry;
use crate::table::{key_of_write, table_of};
use late_maps::{Iter, LateMap};
use row_store::Rows;
use std::alloc::Global;
use std::marker::Model;
use swss_types::{OutOfMemory, Text};
use table_schema::{Fields, Key, Write};

/// The rows of one table as they were when its producer restarted, and what it sent since (SONiC's cache of an application's
/// restart).
#[derive(Debug, Drop)]
pub struct Cache {
    table: Text,
    entries: LateMap<Key, Entry>,
    alloc: Global,
}

impl Model for Cache {
    ghost use Rattle.app_restart.specs.Cached.{Cached};

    ghost Value = { Cached };

    ghost use Rattle.app_restart.specs.Entry.{IsCacheInOrder, cached_in};

    ghost view = { λ c. cached_in c.table c.entries };

    ghost invariant = { λ c. IsCacheInOrder c.table c.entries };
}

impl Cache {
    /// Keeps the rows of a table, which is named as `table_of` names it. Nothing was written since. It goes over all rows once;
    /// those that are kept share their fields.
    pub fn restore(alloc: Global, table: &Text, rows: &Rows) -> Result<Cache, OutOfMemory>
        ensures { IfOk result (λ cache. cache ≡ cache_restored table.now rows.now) }
    {
        let mut entries = LateMap::new(alloc);
        keep_each(&mut entries, table, rows.iter())?;
        Ok(Cache {
            table: table.copy()?,
            entries,
            alloc,
        })
    }

    /// The name of the table.
    pub fn table(&self) -> &Text
        ensures { result.now ≡ self.now.table }
    {
        &self.table
    }

    /// Takes a write of the table that the producer sent since. It takes a logarithm of the keys, and for each field of the
    /// write one of the fields of the key's row.
    pub fn write(&mut self, write: &Write) -> Result<(), OutOfMemory>
        requires { table_name (key_of_write write.now) ≡ self.old.table }
        ensures ok { OnOk result (self.new ≡ cache_after self.old write.now) }
        ensures err { OnErr result (self.new ≡ self.old) }
    {
        apply(&mut self.entries, write)
    }

    /// How a key stands: None exactly where it was neither kept nor written. It takes a logarithm of the keys; a key that was
    /// kept and has a row again has its two rows compared.
    pub fn state(&self, key: &Key) -> Option<CacheState>
        ensures { result ≡ state_at self.now key.now }
    {
        match self.entries.get(key) {
            Some(entry) => entry.state(),
            None => None,
        }
    }

    /// The writes that bring the table from the rows that were kept to those that were sent, in key order. It goes once over
    /// the keys that were kept or written, and the writes share the fields of the rows.
    pub fn finish(&self) -> Result<Vec<Write>, OutOfMemory>
        ensures exact { IfOk result (λ writes. writes.items ≡ differences self.now.kept self.now.sent) }

        // Behind any writes that leave the table the rows that were kept, they leave it those that were sent, and every other
        // table its rows.
        ensures reconciled { IfOk result (λ writes. (before : List Write) → rows_of_table self.now.table (rows_of before) ≡ self.now.kept → IsReconciled self.now.table (rows_of before) self.now.sent (rows_of (before ++ writes.items))) }
        ensures differ { IfOk result (λ writes. AreOfOtherRows self.now.kept self.now.sent writes.items) }
    {
        let mut writes = Vec::new(self.alloc);
        push_each(&mut writes, self.entries.iter())?;
        Ok(writes)
    }
}

/// Puts the rows of a table to the others that are kept.
fn keep_each(
    entries: &mut LateMap<Key, Entry>,
    table: &Text,
    rows: Iter<'_, Key, Fields>,
) -> Result<(), OutOfMemory>
    ensures { OnOk result (entries.new ≡ entries_with table.now entries.old rows.entry) }
{
    for (key, fields) in rows {
        if table_of(key) == table.bytes() {
            entries.insert(key.copy()?, Entry::keep(fields)?)?;
        }
    }
    Ok(())
}

/// Applies a write to what was sent of its key.
fn apply(entries: &mut LateMap<Key, Entry>, write: &Write) -> Result<(), OutOfMemory>
    ensures ok { OnOk result (entries.new ≡ entries_after entries.old write.now) }
    ensures err { OnErr result (entries.new ≡ entries.old) }
{
    let key = key_of_write(write);
    match entries.get_mut(key) {
        Some(entry) => entry.apply(write),
        None => {
            let mut entry = Entry::new();
            entry.apply(write)?;
            entries.insert(key.copy()?, entry)?;
            Ok(())
        }
    }
}

/// Appends the writes of each key.
fn push_each(writes: &mut Vec<Write>, entries: Iter<'_, Key, Entry>) -> Result<(), OutOfMemory>
    ensures { OnOk result (writes.new.items ≡ writes.old.items ++ differences_of entries.entry) }
{
    for (key, entry) in entries {
        entry.push_writes(key, writes)?;
    }
    Ok(())
}
