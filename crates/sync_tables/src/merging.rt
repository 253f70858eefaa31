// How what was popped of a key is merged into the rows, and the key comes to be one to sync.
ghost use Rattle.std.specs.Prelude.{◌≡◌, IfOk, OnOk, OnErr};
ghost use Rattle.producer_table.specs.Pending.{op_of};
ghost use Rattle.consumer_table.specs.Ops.{ops_with};
ghost use Rattle.sync_tables.specs.Tables.{IsKeptOrLaid, IsMerged};

use crate::read_rows::ReadRows;
use consumer_table::ToSync;
use producer_table::{KeyOp, Pending};
use row_store::Rows;
use swss_types::OutOfMemory;
use table_schema::Key;

/// Takes in what waited of a key: it is merged into its row, and added to the key's operation. After want of memory the rows
/// are as they were, and so are the operations, but that what waits may be added to one that was there.
pub(crate) fn take_in(
    rows: &mut ReadRows,
    to_sync: &mut ToSync,
    key: &Key,
    pending: &Pending,
) -> Result<(), OutOfMemory>
    ensures merged { OnOk result (IsMerged rows.old key.now pending.now rows.new) }
    ensures added { OnOk result (to_sync.new ≡ ops_with to_sync.old (op_of (key.now, pending.now))) }
    ensures err { OnErr result (rows.new ≡ rows.old) }
    ensures kept { OnErr result (IsKeptOrLaid to_sync.old (key.now, pending.now) to_sync.new) }
{
    let there = to_sync.put(op_of(key, pending)?)?;
    if let Err(error) = rows.merge(key, pending) {
        if !there {
            to_sync.done(key);
        }
        return Err(error);
    }
    Ok(())
}

/// Merges what waited of a key into the rows: first its row goes where there is the deletion mark, and then the fields are
/// merged in.
pub(crate) fn merge(rows: &mut Rows, key: &Key, pending: &Pending) -> Result<(), OutOfMemory>
    ensures ok { OnOk result (IsMerged rows.old key.now pending.now rows.new) }
    ensures err { OnErr result (rows.new ≡ rows.old) }
{
    let _rising = rows.len();
    match (pending.dropped, &pending.fields) {
        (true, Some(fields)) => {
            let _names = fields.items();
            rows.replace(key, fields)
        }
        (true, None) => {
            rows.remove(key);
            Ok(())
        }
        (false, Some(fields)) => rows.set(key, fields),
        (false, None) => Ok(()),
    }
}

/// What waited of a key, as it is added to the keys to sync.
fn op_of(key: &Key, pending: &Pending) -> Result<KeyOp, OutOfMemory>
    ensures { IfOk result (λ op. op ≡ op_of (key.now, pending.now)) }
{
    let fields = match &pending.fields {
        Some(fields) => Some(fields.copy()?),
        None => None,
    };
    Ok(KeyOp {
        key: key.copy()?,
        dropped: pending.dropped,
        fields,
    })
}
