// Laws of reconciliation. The functions do nothing; their contracts are the laws.
ghost use Rattle.std.specs.Prelude.{◌≡◌, ◌++◌, ◌↔◌, [], ◌∷◌, IsTrue, List, ℕ, if◌then◌else◌};
ghost use Rattle.table_schema.specs.Fields.{Pairs};
ghost use Rattle.table_schema.specs.Rows.{Rows, fields_at, rows_of};
ghost use Rattle.table_schema.specs.declared.key.Key.{Key};
ghost use Rattle.table_schema.specs.declared.write.Write.{Write};
ghost use Rattle.producer_table.specs.Pending.{has_write};
ghost use Rattle.app_restart.specs.Cached.{Cached, cache_after, cache_after_all, cache_restored, state_at, state_by};
ghost use Rattle.app_restart.specs.Difference.{are_equal};
ghost use Rattle.app_restart.specs.Reconcile.{AreOfOtherRows, IsReconciled, differences, reconcile};
ghost use Rattle.app_restart.specs.TableName.{AreOn, is_on, rows_of_table};

/// Writes that leave some rows, and behind them the reconciliation of these rows with writes of a table: the table has the
/// rows that these writes come to, and every other table the rows that it had. Only keys whose rows differ are written.
pub fn tables_are_reconciled()
    ensures rows { (rows : Rows) (table : List ℕ) (writes before : List Write) → AreOn table writes → rows_of before ≡ rows → IsReconciled table rows (rows_of writes) (rows_of (before ++ reconcile rows table writes)) }
    ensures by_key { (rows : Rows) (table : List ℕ) (writes before : List Write) (key : Key) → AreOn table writes → rows_of before ≡ rows → fields_at (rows_of (before ++ reconcile rows table writes)) key ≡ (if is_on table key then fields_at (rows_of writes) key else fields_at rows key) }
    ensures differ { (rows : Rows) (table : List ℕ) (writes : List Write) → AreOfOtherRows (rows_of_table table rows) (rows_of writes) (reconcile rows table writes) }
{}

/// After writes a cache has the rows of its table that were kept and those that the writes come to, so what differs between
/// these is their reconciliation. One write more is that of all.
pub fn caches_keep_and_fold()
    ensures kept { (table : List ℕ) (rows : Rows) (writes : List Write) → (cache_after_all (cache_restored table rows) writes).kept ≡ rows_of_table table rows }
    ensures sent { (table : List ℕ) (rows : Rows) (writes : List Write) → (cache_after_all (cache_restored table rows) writes).sent ≡ rows_of writes }
    ensures reconciled { (table : List ℕ) (rows : Rows) (writes : List Write) → differences (cache_after_all (cache_restored table rows) writes).kept (cache_after_all (cache_restored table rows) writes).sent ≡ reconcile rows table writes }
    ensures more { (c : Cached) (writes : List Write) (write : Write) → cache_after_all c (writes ++ write ∷ []) ≡ cache_after (cache_after_all c writes) write }
{}

/// How a key stands after writes: by the row of the table that was kept, by whether one of the writes is of the key, and by the
/// row that the writes come to. Rows are told to be equal exactly where they are.
pub fn states_are_of_writes()
    ensures state { (table : List ℕ) (rows : Rows) (writes : List Write) (key : Key) → state_at (cache_after_all (cache_restored table rows) writes) key ≡ state_by (fields_at (rows_of_table table rows) key) (has_write key writes) (fields_at (rows_of writes) key) }
    ensures equal { (row other : Pairs) → IsTrue (are_equal row other) ↔ (row ≡ other) }
{}
