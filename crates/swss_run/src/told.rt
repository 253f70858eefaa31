// The rows of the writes taken, as far as a round asked for them.
ghost use Rattle.std.specs.Prelude.{◌≡◌, [], OnOk};
ghost use Rattle.table_schema.specs.Rows.{rows_of};
ghost use Rattle.switch_model.specs.Marks.{sent_writes};
ghost use Rattle.swss_run.specs.Told.{IsToldOf};

use row_store::Rows;
use std::alloc::Global;
use swss_types::OutOfMemory;
use table_schema::Sent;

/// The rows of the first of the writes taken, so many as `count` says. A round goes on from where an earlier one stopped, so
/// that all rounds together apply each write once.
#[derive(Drop)]
pub(crate) struct Told {
    rows: Rows,
    count: usize,
}

impl Told {
    /// The rows of no write.
    pub(crate) fn new(alloc: Global) -> Told
        ensures rows { result.rows ≡ [] }
        ensures count { result.count ≡ 0 }
    {
        Told {
            rows: Rows::new(alloc),
            count: 0,
        }
    }

    /// The rows.
    pub(crate) fn rows(&self) -> &Rows
        ensures { result.now ≡ self.now.rows }
    {
        &self.rows
    }

    /// Goes on to the rows of all writes taken. After want of memory they are those of some more of them.
    pub(crate) fn go_on(&mut self, taken: &[Sent]) -> Result<(), OutOfMemory>
        requires { IsToldOf self.old taken.now }
        ensures told { IsToldOf self.new taken.now }
        ensures all { OnOk result (self.new.rows ≡ rows_of (sent_writes taken.now)) }
    {
        for sent in &taken[self.count..] {
            self.rows.apply(&sent.write)?;
            self.count += 1;
        }
        Ok(())
    }
}
