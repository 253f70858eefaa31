// Why a row waits.
ghost use Rattle.std.specs.Prelude.{◌≡◌, IfOk};

use sai_types::Kind;
use swss_types::OutOfMemory;
use table_schema::Key;

/// Why the row of a key is not brought to the chip yet.
#[derive(Debug, PartialEq, Eq, Drop)]
pub enum Wait {
    /// The row names this key, and no row of it is applied.
    Missing(Key),
    /// The row is gone, but the row of this key, which is applied, names it.
    Held(Key),
    /// There is no room on the chip for an object of this kind.
    NoRoom(Kind),
    /// The running operation of this worker stands in the way.
    Busy(u32),
}

impl Wait {
    /// The same reason once more.
    pub fn copy(&self) -> Result<Wait, OutOfMemory>
        ensures { IfOk result (λ wait. wait ≡ self.now) }
    {
        Ok(match self {
            Wait::Missing(key) => Wait::Missing(key.copy()?),
            Wait::Held(key) => Wait::Held(key.copy()?),
            Wait::NoRoom(kind) => Wait::NoRoom(*kind),
            Wait::Busy(worker) => Wait::Busy(*worker),
        })
    }
}
