// Lists whose items rise.
ghost use Rattle.std.specs.Prelude.{◌≡◌, ◌<◌, length, OnOk, OnErr};
ghost use Rattle.std.specs.BTreeSet.{insert_key};

use crate::OutOfMemory;
use std::cmp::Ordering;

/// Puts an item into its place in a rising list, unless an equal one is there. The work is linear in the list, which is
/// for short lists.
pub fn insert_rising<T: Ord + Drop>(list: &mut Vec<T>, item: T) -> Result<(), OutOfMemory>
    ensures ok { OnOk result (list.new.items ≡ insert_key T.cmp list.old.items item) }
    ensures err { OnErr result (list.new.items ≡ list.old.items) }
{
    let mut at = 0;
    while at < list.len() {
        match item.cmp(&list[at]) {
            Ordering::Less => break,
            Ordering::Equal => return Ok(()),
            Ordering::Greater => at += 1,
        }
    }
    list.insert(at, item)?;
    Ok(())
}
