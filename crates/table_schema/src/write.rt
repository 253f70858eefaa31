// Writes to the application tables.
ghost use Rattle.std.specs.Prelude.{◌≡◌, IfOk};

use crate::{Fields, Key};
use swss_types::OutOfMemory;

/// A write to a table. A Set has at least one field.
#[derive(Debug, Drop)]
pub enum Write {
    /// Merges the fields into the key's row, later values winning.
    Set(Key, Fields),
    /// Removes the key's row.
    Del(Key),
}

/// A write as it was sent.
#[derive(Debug, Drop)]
pub struct Sent {
    /// Who sent it: a producer from 1 on, or 0 for the image.
    pub from: u32,
    /// Its number among this sender's writes, from 0 on.
    pub number: u64,
    /// The write.
    pub write: Write,
}

impl Write {
    /// The same write once more.
    pub fn copy(&self) -> Result<Write, OutOfMemory>
        ensures { IfOk result (λ write. write ≡ self.now) }
    {
        Ok(match self {
            Write::Set(key, fields) => Write::Set(key.copy()?, fields.copy()?),
            Write::Del(key) => Write::Del(key.copy()?),
        })
    }
}

impl Sent {
    /// The same write once more.
    pub fn copy(&self) -> Result<Sent, OutOfMemory>
        ensures { IfOk result (λ sent. sent ≡ self.now) }
    {
        Ok(Sent {
            from: self.from,
            number: self.number,
            write: self.write.copy()?,
        })
    }
}
