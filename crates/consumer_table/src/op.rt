// What is to be done for a key.
ghost use Rattle.std.specs.Prelude.{◌≡◌, IfOk};

use swss_types::OutOfMemory;
use table_schema::Fields;

/// What was written to a key's row since the key was done.
#[derive(Debug, Drop)]
pub enum Op {
    /// Fields were merged into the row.
    Set(Fields),
    /// The row was deleted.
    Del,
    /// The row was deleted, and then made of these fields.
    Replace(Fields),
}

impl Op {
    /// The same operation once more.
    pub fn copy(&self) -> Result<Op, OutOfMemory>
        ensures { IfOk result (λ op. op ≡ self.now) }
    {
        Ok(match self {
            Op::Set(fields) => Op::Set(fields.copy()?),
            Op::Del => Op::Del,
            Op::Replace(fields) => Op::Replace(fields.copy()?),
        })
    }
}
