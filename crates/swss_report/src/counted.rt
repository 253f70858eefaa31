// Lines that end with a number.
ghost use Rattle.std.specs.Prelude.{◌≡◌, ◌++◌, OnOk};
ghost use Rattle.swss_report.specs.Counted.{count_line};

use swss_types::{OutOfMemory, write_number};

/// Appends words, a number and the end of the line. An Err may leave a part of it.
pub(crate) fn write_count(out: &mut Vec<u8>, words: &[u8], number: u64) -> Result<(), OutOfMemory>
    ensures { OnOk result (out.new.items ≡ out.old.items ++ count_line words.now number) }
{
    out.extend_from_slice(words)?;
    write_number(out, number)?;
    out.push(b'\n')?;
    Ok(())
}
