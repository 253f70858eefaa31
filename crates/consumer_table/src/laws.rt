// Laws of operations. The functions do nothing; their contracts are the laws.
ghost use Rattle.std.specs.Prelude.{List};
ghost use Rattle.table_schema.specs.Rows.{Rows, HasRisingRows};
ghost use Rattle.table_schema.specs.declared.key.Key.{Key};
ghost use Rattle.producer_table.specs.declared.key_op.KeyOp.{KeyOp};
ghost use Rattle.consumer_table.specs.Ops.{Ops, AreOpsInOrder, ops_with, without_op};
ghost use Rattle.consumer_table.specs.Synced.{AreRowsNow, SyncStep, Synced, after_steps, all_done, with_added, with_finished};

/// Whatever was added and done: each key's row when it was last done, with its operation laid over it, is its row now.
pub fn op_is_row_now()
    ensures { (rows : Rows) (steps : List SyncStep) → HasRisingRows rows → AreRowsNow (after_steps (all_done rows) steps) }
{}

/// So it stays where what was popped of a key is merged into the rows and added to the operations.
pub fn added_rows_are_now()
    ensures { (s : Synced) (popped : KeyOp) → HasRisingRows s.rows → AreOpsInOrder s.ops → AreRowsNow s → AreRowsNow (with_added s popped) }
{}

/// So it stays where a key is done: its row is then the one now.
pub fn done_rows_are_now()
    ensures { (s : Synced) (key : Key) → AreOpsInOrder s.ops → AreRowsNow s → AreRowsNow (with_finished s key) }
{}

/// Operations stay in order: each key once, the keys rising, and the names of each operation's fields.
pub fn ops_stay_in_order()
    ensures added { (ops : Ops) (popped : KeyOp) → AreOpsInOrder ops → AreOpsInOrder (ops_with ops popped) }
    ensures done { (ops : Ops) (key : Key) → AreOpsInOrder ops → AreOpsInOrder (without_op ops key) }
{}
