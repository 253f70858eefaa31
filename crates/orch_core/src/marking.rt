// The mark at the end of a settling.
ghost use Rattle.std.specs.Prelude.{IsSome};
ghost use Rattle.std.specs.Map.{keys_of};
ghost use Rattle.table_schema.specs.declared.key.Key.{Key};
ghost use Rattle.sai_types.specs.Alike.{IsIn};
ghost use Rattle.retry_list.specs.Reasons.{reason_at};
ghost use Rattle.orch_core.specs.Marked.{Marks};

use crate::{Core, Settled};
use swss_types::OutOfMemory;

impl Core {
    /// Marks the end of a settling with the keys that are still to sync.
    pub(crate) fn mark_settled(&mut self, effects: u64, turns: u64) -> Result<Settled, OutOfMemory>
        requires listed { (k : Key) → IsIn k (keys_of self.old.tables.ops) → IsSome (reason_at self.old.waiting k) }
        ensures { Marks effects turns self.old result self.new }
    {
        let count = self.count() as u64;
        if self.is_full(effects, 1 + count as u128) {
            return Ok(Settled::LogFull);
        }
        let waits = self.waits()?;
        self.mark_end(effects, turns, waits, count)?;
        Ok(Settled::Settled)
    }
}
