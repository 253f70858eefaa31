// The tables beside the machine. Each function is a law: it does nothing, and its contract is proved.
ghost use Rattle.std.specs.Prelude.{◌≡◌, ◌<◌, ◌+◌, ◌++◌, ℕ, ◌∷◌, [], List, Option, None, Some, length};
ghost use Rattle.std.specs.Map.{keys_of};
ghost use Rattle.table_schema.specs.declared.key.Key.{Key};
ghost use Rattle.table_schema.specs.declared.write.Write.{Write};
ghost use Rattle.sai_types.specs.Alike.{IsIn};
ghost use Rattle.producer_table.specs.Pending.{ArePendingInOrder};
ghost use Rattle.consumer_table.specs.Ops.{Ops, AreOpsInOrder, first_in, keys_behind, without_op};
ghost use Rattle.switch_machine.specs.Events.{HasLeft, IsPop, SwitchState, no_writes};
ghost use Rattle.switch_machine.specs.Written.{HasNoWrite, IsAsBefore, IsPopped, IsTold, TakesWrite};
ghost use Rattle.sync_tables.specs.Tables.{IsBehind, IsNextKey, PopsBatch, PopsInPart, PopsKeys, TablesState, no_tables, tables_with_write, written_in};

/// A write that waits is a write taken.
pub fn writes_are_taken()
    ensures { (t : TablesState) (taken : List Write) (w : Write) → ArePendingInOrder t.waiting → TakesWrite w (written_in taken t) (written_in (taken ++ w ∷ []) (tables_with_write t w)) }
{}

/// Where no write waits in the tables none waits of any key.
pub fn popped_tables_wait_for_nothing()
    ensures { (t : TablesState) (taken : List Write) → t.waiting ≡ [] → IsPopped (written_in taken t) }
{}

/// No tables and no write go together: they are the machine's at its beginning.
pub fn no_tables_are_told()
    ensures told { IsTold (written_in [] no_tables) }
    ensures taken { (written_in [] no_tables).taken ≡ no_writes.taken }
    ensures none { (k : Key) → IsAsBefore no_writes (written_in [] no_tables) k }
{}

/// A pop is an event of the machine.
pub fn pops_are_events()
    ensures { (old new : TablesState) (taken : List Write) (s t : SwitchState) → PopsKeys old new → s.written ≡ written_in taken old → s.to_sync ≡ keys_of old.ops → t ≡ record s { written = written_in taken new; to_sync = keys_of new.ops } → IsPop s t }
{}

/// A pop that was refused for want of memory and is made again comes to what it would have come to at once: what was added to
/// an operation already is added twice, and that is as once.
pub fn refused_pops_are_made_again()
    ensures { (old mid new : TablesState) (most n : ℕ) → ArePendingInOrder old.waiting → (part : PopsInPart most old mid) → 0 < n → PopsBatch n mid new → PopsBatch (part.count + n) old new }
{}

/// A key of which a write waits still after a pop is as it was: its row, and what waits of it.
pub fn waiting_keys_are_as_before()
    ensures { (old new : TablesState) (taken : List Write) (k : Key) → PopsKeys old new → (HasNoWrite (written_in taken new) k → ⊥) → IsAsBefore (written_in taken old) (written_in taken new) k }
{}

/// A key that is done leaves the keys to sync: it is there no more, no other leaves with it, and the others stay in order.
pub fn keys_leave()
    ensures left { (ops : Ops) (k : Key) → AreOpsInOrder ops → IsIn k (keys_of ops) → HasLeft k (keys_of ops) (keys_of (without_op ops k)) }
    ensures order { (ops : Ops) (k : Key) → AreOpsInOrder ops → AreOpsInOrder (without_op ops k) }
{}

/// A key that leaves makes the keys to sync fewer, so that turns end.
pub fn left_keys_are_fewer()
    ensures { (ops : Ops) (k : Key) → IsIn k (keys_of ops) → length (keys_of (without_op ops k)) < length (keys_of ops) }
{}

/// A walk over the keys to sync goes in key order and passes none over: the next key is the first behind this one, and where
/// there is no next key none is behind it.
pub fn walks_pass_no_key()
    ensures next { (ops : Ops) (after : Option Key) (q : Key) → AreOpsInOrder ops → first_in (keys_behind after (keys_of ops)) ≡ Some q → IsNextKey after (keys_of ops) q }
    ensures last { (keys : List Key) (after : Option Key) (q : Key) → first_in (keys_behind after keys) ≡ None → IsIn q keys → IsBehind after q → ⊥ }
{}
