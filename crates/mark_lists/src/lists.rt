// Lists of keys that are to sync. Marks in a row that list the same share their list.
ghost use Rattle.std.specs.Prelude.{◌≡◌, IsSome, IsTrue, IfOk, Some, option_map};
ghost use Rattle.table_schema.specs.declared.key.Key.{Key};
ghost use Rattle.sai_types.specs.Alike.{IsIn};
ghost use Rattle.retry_list.specs.Listed.{AreListedWith, IsListedWith, without_row};
ghost use Rattle.retry_list.specs.Reasons.{reason_at};
ghost use Rattle.flight_board.specs.Applied.{row_at};
ghost use Rattle.mark_lists.specs.Rows.{rows_on};

use flight_board::Board;
use retry_list::Retry;
use std::alloc::Global;
use switch_model::{Wait, Waits};
use swss_types::OutOfMemory;
use table_schema::{Key, Row};

/// The keys, each with its reason and its applied row. Where an earlier list says the same, it is shared; one of another length
/// is not looked at.
pub fn list_waiting(
    alloc: Global,
    keys: Vec<Key>,
    waiting: &Retry,
    board: &Board,
    earlier: Option<&Waits>,
) -> Result<Waits, OutOfMemory>
    requires listed { (k : Key) → IsIn k keys.items → IsSome (reason_at waiting.now k) }
    ensures { IfOk result (λ waits. AreListedWith waiting.now (row_at board.now.applied) keys.items waits) }
{
    match earlier {
        Some(list) if is_list(keys.as_slice(), list.items(), waiting, board) => list.share(),
        _ => listed(alloc, keys, waiting, Some(board)),
    }
}

/// The keys, each with its reason and no row.
pub fn list_bare(alloc: Global, keys: Vec<Key>, waiting: &Retry) -> Result<Waits, OutOfMemory>
    requires listed { (k : Key) → IsIn k keys.items → IsSome (reason_at waiting.now k) }
    ensures { IfOk result (λ waits. AreListedWith waiting.now without_row keys.items waits) }
{
    listed(alloc, keys, waiting, None)
}

/// Whether a list is that of these keys.
fn is_list(keys: &[Key], list: &[(Key, Wait, Option<Row>)], waiting: &Retry, board: &Board) -> bool
    ensures { IsTrue result → AreListedWith waiting.now (row_at board.now.applied) keys.now list.now }
{
    if list.len() != keys.len() {
        return false;
    }
    let mut left = list;
    for key in keys {
        let Some((listed, rest)) = left.split_first() else {
            return false;
        };
        if !is_listed(key, listed, waiting, board) {
            return false;
        }
        left = rest;
    }
    left.is_empty()
}

/// Whether this is listed for a key.
fn is_listed(key: &Key, listed: &(Key, Wait, Option<Row>), waiting: &Retry, board: &Board) -> bool
    ensures { IsTrue result → IsListedWith waiting.now (row_at board.now.applied) key.now listed.now }
{
    let (listed_key, wait, row) = listed;
    listed_key == key && has_reason(key, wait, waiting) && board.has_row(key, row.as_ref())
}

/// Whether a key waits for this reason.
fn has_reason(key: &Key, wait: &Wait, waiting: &Retry) -> bool
    ensures { IsTrue result → reason_at waiting.now key.now ≡ Some wait.now }
{
    match waiting.reason(key) {
        Some(reason) => reason == wait,
        None => false,
    }
}

/// Keys that wait, each with its reason and its row on a board, where there is one, in a list of its own.
fn listed(
    alloc: Global,
    keys: Vec<Key>,
    waiting: &Retry,
    board: Option<&Board>,
) -> Result<Waits, OutOfMemory>
    requires listed { (k : Key) → IsIn k keys.items → IsSome (reason_at waiting.now k) }
    ensures { IfOk result (λ waits. AreListedWith waiting.now (rows_on (option_map (λ b. b.now) board.entry)) keys.items waits) }
{
    let mut waits = Vec::with_capacity(alloc, keys.len())?;
    for key in keys {
        waits.push(listing(key, waiting, board)?)?;
    }
    Waits::from_vec(waits)
}

/// A key that waits, with its reason and its row.
fn listing(
    key: Key,
    waiting: &Retry,
    board: Option<&Board>,
) -> Result<(Key, Wait, Option<Row>), OutOfMemory>
    requires listed { IsSome (reason_at waiting.now key) }
    ensures { IfOk result (λ listed. IsListedWith waiting.now (rows_on (option_map (λ b. b.now) board.entry)) key listed) }
{
    let Some(wait) = waiting.reason(&key) else {
        unreachable!()
    };
    let wait = wait.copy()?;
    let row = match board {
        Some(board) => copied_row(board, &key)?,
        None => None,
    };
    Ok((key, wait, row))
}

/// A copy of the applied row of a key.
fn copied_row(board: &Board, key: &Key) -> Result<Option<Row>, OutOfMemory>
    ensures { IfOk result (λ row. row ≡ row_at board.now.applied key.now) }
{
    match board.row(key) {
        Some(row) => Ok(Some(row.copy()?)),
        None => Ok(None),
    }
}
