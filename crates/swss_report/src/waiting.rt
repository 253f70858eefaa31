// The keys that wait, as the report lists them, and what it says of the end of the round.
ghost use Rattle.std.specs.Prelude.{◌≡◌, ◌++◌, flat_map, option_copied, OnOk};
ghost use Rattle.table_schema.specs.KeyText.{key_text};
ghost use Rattle.swss_report.specs.Escaped.{escaped};
ghost use Rattle.swss_report.specs.Waiting.{ready_text, wait_text, waiting_line, waiting_text, warm_line};

use crate::counted::write_count;
use crate::kinds::kind_name;
use crate::tables::write_key;
use std::alloc::Global;
use switch_model::{Wait, Waits};
use swss_types::{OutOfMemory, write_number};
use table_schema::{Key, Row};

/// Appends how many keys wait, and their lines in key order; where the round ended with a fault, that it is not known.
/// An Err may leave a part of it.
pub(crate) fn write_waiting(
    alloc: Global,
    out: &mut Vec<u8>,
    waits: Option<&Waits>,
) -> Result<(), OutOfMemory>
    ensures { OnOk result (out.new.items ≡ out.old.items ++ waiting_text (option_copied waits.entry)) }
{
    match waits {
        Some(waits) => {
            write_count(out, b"waiting ", waits.items().len() as u64)?;
            write_waits(alloc, out, waits.items())
        }
        None => {
            out.extend_from_slice(b"waiting unknown\n")?;
            Ok(())
        }
    }
}

/// Appends the lines of keys that wait.
fn write_waits(
    alloc: Global,
    out: &mut Vec<u8>,
    waits: &[(Key, Wait, Option<Row>)],
) -> Result<(), OutOfMemory>
    ensures { OnOk result (out.new.items ≡ out.old.items ++ flat_map waiting_line waits.now) }
{
    for waiting in waits {
        write_waiting_key(alloc, out, waiting)?;
    }
    Ok(())
}

/// Appends the line of a key that waits: the key, and why.
fn write_waiting_key(
    alloc: Global,
    out: &mut Vec<u8>,
    waiting: &(Key, Wait, Option<Row>),
) -> Result<(), OutOfMemory>
    ensures { OnOk result (out.new.items ≡ out.old.items ++ waiting_line waiting.now) }
{
    let (key, wait, _) = waiting;
    write_key(alloc, out, key)?;
    write_wait(alloc, out, wait)?;
    out.push(b'\n')?;
    Ok(())
}

/// Appends why a row waits, behind a blank.
fn write_wait(alloc: Global, out: &mut Vec<u8>, wait: &Wait) -> Result<(), OutOfMemory>
    ensures { OnOk result (out.new.items ≡ out.old.items ++ wait_text wait.now) }
{
    match wait {
        Wait::Missing(name) => write_named(alloc, out, b" missing ", name),
        Wait::Held(holder) => write_named(alloc, out, b" held ", holder),
        Wait::NoRoom(kind) => {
            out.extend_from_slice(b" no-room ")?;
            out.extend_from_slice(kind_name(*kind))?;
            Ok(())
        }
        Wait::Busy(worker) => {
            out.extend_from_slice(b" busy ")?;
            write_number(out, u64::from(*worker))
        }
    }
}

/// Appends a word and a key.
fn write_named(alloc: Global, out: &mut Vec<u8>, word: &[u8], key: &Key) -> Result<(), OutOfMemory>
    ensures { OnOk result (out.new.items ≡ out.old.items ++ (word.now ++ escaped (key_text key.now))) }
{
    out.extend_from_slice(word)?;
    write_key(alloc, out, key)
}

/// Appends the state that the round ended in: reconciled where the mark of a settling ended it, and unknown where that of a
/// fault did. An Err may leave a part of it.
pub(crate) fn write_warm(out: &mut Vec<u8>, waits: Option<&Waits>) -> Result<(), OutOfMemory>
    ensures { OnOk result (out.new.items ≡ out.old.items ++ warm_line (option_copied waits.entry)) }
{
    out.extend_from_slice(match waits {
        Some(_) => b"warm reconciled\n",
        None => b"warm unknown\n",
    })?;
    Ok(())
}

/// Appends whether the round ended with the mark of a settling that lists no key. An Err may leave a part of it.
pub(crate) fn write_ready(out: &mut Vec<u8>, waits: Option<&Waits>) -> Result<(), OutOfMemory>
    ensures { OnOk result (out.new.items ≡ out.old.items ++ ready_text (option_copied waits.entry)) }
{
    out.extend_from_slice(match waits {
        Some(waits) if waits.items().is_empty() => b"READY\n",
        _ => b"NOT_READY\n",
    })?;
    Ok(())
}
