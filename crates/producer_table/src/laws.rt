// Laws of what waits. The functions do nothing; their contracts are the laws.
ghost use Rattle.std.specs.Prelude.{◌≡◌, ℕ, List, take, drop, is_some};
ghost use Rattle.std.specs.BTreeMap.{is_at};
ghost use Rattle.std.specs.Map.{lookup};
ghost use Rattle.table_schema.specs.Key.{key_cmp};
ghost use Rattle.table_schema.specs.Rows.{Rows, HasRisingRows, after_write, after_writes, fields_at};
ghost use Rattle.table_schema.specs.declared.key.Key.{Key};
ghost use Rattle.table_schema.specs.declared.write.Write.{Write};
ghost use Rattle.producer_table.specs.Pending.{PendingKeys, ArePendingInOrder, has_write, pending_after, pending_at, pending_of, row_with_pending, with_pending};

/// What waits of writes, laid over the rows, comes to the rows after the writes. So it is for one write more, whatever waits
/// before it.
pub fn pending_is_laid()
    ensures all { (rows : Rows) (writes : List Write) → HasRisingRows rows → with_pending rows (pending_of writes) ≡ after_writes rows writes }
    ensures more { (rows : Rows) (pending : PendingKeys) (write : Write) → HasRisingRows rows → ArePendingInOrder pending → with_pending rows (pending_after pending write) ≡ after_write (with_pending rows pending) write }
{}

/// The row of a key with all that waits laid over the rows is its row with what waits of it.
pub fn pending_is_laid_by_key()
    ensures { (rows : Rows) (pending : PendingKeys) (key : Key) → HasRisingRows rows → ArePendingInOrder pending → fields_at (with_pending rows pending) key ≡ row_with_pending (fields_at rows key) (pending_at pending key) }
{}

/// The first keys laid over the rows, and then the others, come to all of them. What is left is in order.
pub fn pops_leave_the_rest()
    ensures rest { (rows : Rows) (pending : PendingKeys) (m : ℕ) → with_pending (with_pending rows (take m pending)) (drop m pending) ≡ with_pending rows pending }
    ensures order { (pending : PendingKeys) (m : ℕ) → ArePendingInOrder pending → ArePendingInOrder (drop m pending) }
{}

/// Exactly the keys that were written wait, each once and in key order, each with rising fields.
pub fn written_keys_wait()
    ensures keys { (writes : List Write) (key : Key) → is_some (lookup (is_at (key_cmp key)) (pending_of writes)) ≡ has_write key writes }
    ensures order { (writes : List Write) → ArePendingInOrder (pending_of writes) }
    ensures more { (pending : PendingKeys) (write : Write) → ArePendingInOrder pending → ArePendingInOrder (pending_after pending write) }
{}
