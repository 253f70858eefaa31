// How the keys of all rows come to be to sync.
ghost use Rattle.std.specs.Prelude.{◌↔◌, IfOk, IsSome};
ghost use Rattle.std.specs.Map.{keys_of};
ghost use Rattle.sai_types.specs.Alike.{IsIn};
ghost use Rattle.table_schema.specs.Rows.{fields_at};
ghost use Rattle.table_schema.specs.declared.key.Key.{Key};

use consumer_table::ToSync;
use row_store::Rows;
use swss_types::OutOfMemory;

/// The keys to sync that rows come to: each with a Set of no field, since its row is read from the rows.
pub(crate) fn keys_of_rows(rows: &Rows) -> Result<ToSync, OutOfMemory>
    ensures { IfOk result (λ to_sync. (key : Key) → IsIn key (keys_of to_sync) ↔ IsSome (fields_at rows.now key)) }
{
    ToSync::of_keys(rows.keys()?)
}
