// The rows, and some of them as they were read.
ghost use Rattle.std.specs.Prelude.{◌≡◌, [], Some, IfOk, OnOk, OnErr};
ghost use Rattle.table_schema.specs.Plan.{Ports};
ghost use Rattle.table_schema.specs.Rows.{fields_at};
ghost use Rattle.switch_model.specs.Good.{good_row};
ghost use Rattle.sync_tables.specs.ReadRows.{IsKeyForgotten, is_plan_free};
ghost use Rattle.sync_tables.specs.Tables.{IsMerged};

use crate::merging::merge;
use late_maps::LateMap;
use producer_table::Pending;
use row_store::Rows;
use std::alloc::Global;
use std::marker::Model;
use swss_types::OutOfMemory;
use table_schema::{Key, PortPlan, Row, read_row};

/// The rows of the application tables, and those of neighbours and routes as they were read, so that a row is not read again
/// at each try, nor after a restart.
#[derive(Debug, Drop)]
pub(crate) struct ReadRows {
    rows: Rows,
    read: LateMap<Key, Row>,
}

impl Model for ReadRows {
    ghost use Rattle.table_schema.specs.Rows.{Rows};
    ghost use Rattle.sync_tables.specs.ReadRows.{AreRead};

    ghost Value = { Rows };

    ghost view = { λ r. r.rows };

    ghost invariant = { λ r. AreRead r.rows r.read };
}

impl ReadRows {
    /// No row.
    pub(crate) fn new(alloc: Global) -> ReadRows
        ensures { result ≡ [] }
    {
        ReadRows {
            rows: Rows::new(alloc),
            read: LateMap::new(alloc),
        }
    }

    /// The rows.
    pub(crate) fn rows(&self) -> &Rows
        ensures { result.now ≡ self.now }
    {
        &self.rows
    }

    /// Merges what waited of a key into the rows. After want of memory they are as they were.
    pub(crate) fn merge(&mut self, key: &Key, pending: &Pending) -> Result<(), OutOfMemory>
        ensures ok { OnOk result (IsMerged self.old key.now pending.now self.new) }
        ensures err { OnErr result (self.new ≡ self.old) }
    {
        forget(&mut self.read, key);
        merge(&mut self.rows, key, pending)
    }

    /// The key's row, where it reads. It is kept as it was read, if it does not depend on the port plan.
    pub(crate) fn good_row(
        &mut self,
        alloc: Global,
        plan: &PortPlan,
        key: &Key,
    ) -> Result<Option<Row>, OutOfMemory>
        ensures row { IfOk result (λ row. row ≡ good_row plan.now key.now (fields_at self.old key.now)) }
        ensures same { self.new ≡ self.old }
    {
        if let Some(row) = self.read.get(key) {
            return Ok(Some(row.copy()?));
        }
        let row = self.row(alloc, plan, key)?;
        if is_plan_free(key)
            && let Some(row) = &row
        {
            self.keep(key, row)?;
        }
        Ok(row)
    }

    /// The key's row, where it reads, read anew.
    fn row(&self, alloc: Global, plan: &PortPlan, key: &Key) -> Result<Option<Row>, OutOfMemory>
        ensures { IfOk result (λ row. row ≡ good_row plan.now key.now (fields_at self.now key.now)) }
    {
        match self.rows.get(key) {
            Some(fields) => Ok(read_row(alloc, plan, key, fields)?.ok()),
            None => Ok(None),
        }
    }

    /// Keeps a key's row, which it has under each port plan.
    fn keep(&mut self, key: &Key, row: &Row) -> Result<(), OutOfMemory>
        requires { (plan : Ports) → good_row plan key.now (fields_at self.old key.now) ≡ Some row.now }
        ensures { self.new ≡ self.old }
    {
        self.read.insert(key.copy()?, row.copy()?)?;
        Ok(())
    }
}

/// Takes a key's row out of those that were read.
fn forget(read: &mut LateMap<Key, Row>, key: &Key)
    ensures { IsKeyForgotten read.old key.now read.new }
{
    // It says that the keys are in order.
    let _order = read.len();
    read.remove(key);
}

/// Whether a key is of a table whose rows do not depend on the port plan.
fn is_plan_free(key: &Key) -> bool
    ensures { result ≡ is_plan_free key.now }
{
    matches!(key, Key::Neigh(..) | Key::Route(..))
}
