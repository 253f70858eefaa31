// What a mark lists: the keys that are still to sync. Marks in a row that list the same share their list.
ghost use Rattle.std.specs.Prelude.{◌≡◌, Some, IsSome, IfOk};
ghost use Rattle.std.specs.Map.{keys_of};
ghost use Rattle.table_schema.specs.declared.key.Key.{Key};
ghost use Rattle.sai_types.specs.Alike.{IsIn};
ghost use Rattle.retry_list.specs.Reasons.{reason_at};
ghost use Rattle.session_laws.specs.Service.Built.{AreBareWaits};
ghost use Rattle.orch_core.specs.Marked.{AreListedFrom};

use crate::Core;
use mark_lists::{list_bare, list_waiting};
use switch_model::{MarkEvent, Waits};
use swss_types::OutOfMemory;

impl Core {
    /// The keys to sync, each with its reason and its applied row: the list of the last mark, where it is the same.
    pub(crate) fn waits(&self) -> Result<Waits, OutOfMemory>
        requires listed { (k : Key) → IsIn k (keys_of self.now.tables.ops) → IsSome (reason_at self.now.waiting k) }
        ensures { IfOk result (λ waits. AreListedFrom self.now (keys_of self.now.tables.ops) waits) }
    {
        let keys = self.keys()?;
        list_waiting(
            self.alloc,
            keys,
            &self.waiting,
            &self.board,
            self.last_list(),
        )
    }

    /// What the last mark lists, where it is that of a settling.
    fn last_list(&self) -> Option<&Waits> {
        match &self.log().marks().last()?.event {
            MarkEvent::Settled { waits, .. } => Some(waits),
            _ => None,
        }
    }

    /// The keys to sync, each with its reason and no row: what the mark of a restore lists.
    pub(crate) fn bare_list(&self) -> Result<Waits, OutOfMemory>
        requires listed { (k : Key) → IsIn k (keys_of self.now.tables.ops) → IsSome (reason_at self.now.waiting k) }
        ensures { IfOk result (λ waits. AreBareWaits self.now.waiting (keys_of self.now.tables.ops) waits) }
    {
        let keys = self.keys()?;
        list_bare(self.alloc, keys, &self.waiting)
    }
}
