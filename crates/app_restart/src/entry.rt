// What a cache knows of one key.
ghost use Rattle.std.specs.Prelude.{◌≡◌, ◌++◌, Some, option_map, IfOk, OnOk, OnErr};
ghost use Rattle.app_restart.specs.Difference.{difference};
ghost use Rattle.app_restart.specs.Entry.{entry_after, entry_state, kept_entry, no_entry, row_since, since_after, since_with};

use crate::CacheState;
use crate::compare::{are_equal, has_name_beyond};
use swss_types::OutOfMemory;
use table_schema::{Fields, Key, Write};

/// What is known of a key.
#[derive(Debug, Drop)]
pub(crate) struct Entry {
    /// Its row that was kept.
    kept: Option<Fields>,
    /// What it was sent since.
    since: Since,
}

/// What a key was sent since the rows were kept.
#[derive(Debug, Drop)]
pub(crate) enum Since {
    /// It was not written.
    Nothing,
    /// It was written, and has no row.
    Deleted,
    /// The row that the writes come to.
    Row(Fields),
}

impl Entry {
    /// A key of which nothing is known.
    pub(crate) fn new() -> Entry
        ensures { result ≡ no_entry }
    {
        Entry {
            kept: None,
            since: Since::Nothing,
        }
    }

    /// A key whose row is kept.
    pub(crate) fn keep(fields: &Fields) -> Result<Entry, OutOfMemory>
        ensures { IfOk result (λ entry. entry ≡ kept_entry fields.now) }
    {
        Ok(Entry {
            kept: Some(fields.copy()?),
            since: Since::Nothing,
        })
    }

    /// Applies a write to what was sent: a Set lays its fields over the row, later values winning, and a Del takes it away.
    pub(crate) fn apply(&mut self, write: &Write) -> Result<(), OutOfMemory>
        ensures ok { OnOk result (self.new ≡ entry_after self.old write.now) }
        ensures err { OnErr result (self.new ≡ self.old) }
    {
        self.since.apply(write)
    }

    /// How the key stands: None exactly where nothing is known of it.
    pub(crate) fn state(&self) -> Option<CacheState>
        ensures { result ≡ entry_state self.now }
    {
        match (&self.kept, &self.since) {
            (None, Since::Nothing) => None,
            (Some(_), Since::Nothing) => Some(CacheState::Stale),
            (_, Since::Deleted) => Some(CacheState::Deleted),
            (Some(kept), Since::Row(sent)) if are_equal(kept, sent) => Some(CacheState::Same),
            (_, Since::Row(_)) => Some(CacheState::New),
        }
    }

    /// Appends the writes that bring the row that was kept to the one that was sent. An Err may leave some of them.
    pub(crate) fn push_writes(&self, key: &Key, writes: &mut Vec<Write>) -> Result<(), OutOfMemory>
        ensures { OnOk result (writes.new.items ≡ writes.old.items ++ difference key.now self.now.kept (row_since self.now.since)) }
    {
        match (&self.kept, self.since.row()) {
            (None, None) => {}
            (Some(_), None) => writes.push(Write::Del(key.copy()?))?,
            (None, Some(sent)) => writes.push(Write::Set(key.copy()?, sent.copy()?))?,
            (Some(kept), Some(sent)) => push_changes(key, kept, sent, writes)?,
        }
        Ok(())
    }
}

impl Since {
    /// Applies a write.
    fn apply(&mut self, write: &Write) -> Result<(), OutOfMemory>
        ensures ok { OnOk result (self.new ≡ since_after self.old write.now) }
        ensures err { OnErr result (self.new ≡ self.old) }
    {
        match write {
            Write::Set(_, fields) => self.set(fields),
            Write::Del(_) => {
                *self = Since::Deleted;
                Ok(())
            }
        }
    }

    /// Lays fields over the row, or makes them the row where there is none.
    fn set(&mut self, fields: &Fields) -> Result<(), OutOfMemory>
        ensures ok { OnOk result (self.new ≡ since_with self.old fields.now) }
        ensures err { OnErr result (self.new ≡ self.old) }
    {
        match self {
            Since::Row(row) => row.merge(fields),
            _ => {
                let row = fields.copy()?.laid_over_none();
                *self = Since::Row(row);
                Ok(())
            }
        }
    }

    /// The row that was sent.
    fn row(&self) -> Option<&Fields>
        ensures { option_map (λ fields. fields.now) result ≡ row_since self.now }
    {
        match self {
            Since::Row(row) => Some(row),
            Since::Nothing | Since::Deleted => None,
        }
    }
}

/// Appends the writes that bring a row to another one.
fn push_changes(
    key: &Key,
    kept: &Fields,
    sent: &Fields,
    writes: &mut Vec<Write>,
) -> Result<(), OutOfMemory>
    ensures { OnOk result (writes.new.items ≡ writes.old.items ++ difference key.now (Some kept.now) (Some sent.now)) }
{
    if are_equal(kept, sent) {
        return Ok(());
    }
    if has_name_beyond(kept, sent) {
        writes.push(Write::Del(key.copy()?))?;
    }
    writes.push(Write::Set(key.copy()?, sent.copy()?))?;
    Ok(())
}
