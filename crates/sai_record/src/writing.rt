// The text of a recording.
ghost use Rattle.std.specs.Prelude.{◌≡◌, ◌++◌, IfOk, OnOk, flat_map, map};
ghost use Rattle.std.specs.Fmt.{decimal};
ghost use Rattle.sai_record.specs.Line.{closed_call, head_line, recording_text, spaced};

use crate::line::{write_line, write_value};
use crate::{Recorded, Recording};
use sai_types::Caps;
use std::alloc::Global;
use swss_types::OutOfMemory;

/// The text of a recording: the line `recording 1` with the twelve capacities, and then a line for each call, every line
/// with a newline at its end. It reads as the recording again where the recording's values are in their ranges and no
/// identifier is 0.
pub fn write(alloc: Global, recording: &Recording) -> Result<Vec<u8>, OutOfMemory>
    ensures { IfOk result (λ text. text.items ≡ recording_text recording.now) }
{
    let mut out = Vec::new(alloc);
    write_head(&mut out, &recording.caps)?;
    out.push(b'\n')?;
    write_calls(&mut out, recording.calls.items())?;
    Ok(out)
}

/// Appends the first line, without its end.
pub(crate) fn write_head(out: &mut Vec<u8>, caps: &Caps) -> Result<(), OutOfMemory>
    ensures { OnOk result (out.new.items ≡ out.old.items ++ head_line caps.now) }
{
    out.extend_from_slice(b"recording 1")?;
    write_values(out, &caps.0)?;
    Ok(())
}

/// Appends numbers, each behind a space.
fn write_values(out: &mut Vec<u8>, numbers: &[u64]) -> Result<(), OutOfMemory>
    ensures { OnOk result (out.new.items ≡ out.old.items ++ spaced (map decimal numbers.now)) }
{
    for number in numbers {
        write_value(out, *number)?;
    }
    Ok(())
}

/// Appends a line for each call.
fn write_calls(out: &mut Vec<u8>, calls: &[Recorded]) -> Result<(), OutOfMemory>
    ensures { OnOk result (out.new.items ≡ out.old.items ++ flat_map closed_call calls.now) }
{
    for recorded in calls {
        write_line(out, recorded)?;
        out.push(b'\n')?;
    }
    Ok(())
}
