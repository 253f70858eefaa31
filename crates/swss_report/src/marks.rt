// The lines of the marks of a round.
ghost use Rattle.std.specs.Prelude.{◌≡◌, ◌++◌, OnOk};
ghost use Rattle.swss_report.specs.Marks.{event_line, marks_text, mode_name};

use crate::counted::write_count;
use sai_types::Mode;
use switch_model::{Mark, MarkEvent};
use swss_types::{OutOfMemory, write_number};

/// Appends the lines of the marks of a round with this number. An Err may leave a part of them.
pub(crate) fn write_marks(out: &mut Vec<u8>, number: u64, marks: &[Mark]) -> Result<(), OutOfMemory>
    ensures { OnOk result (out.new.items ≡ out.old.items ++ marks_text number marks.now) }
{
    for mark in marks {
        write_event(out, number, &mark.event)?;
    }
    Ok(())
}

/// Appends the line of a mark.
fn write_event(out: &mut Vec<u8>, number: u64, event: &MarkEvent) -> Result<(), OutOfMemory>
    ensures { OnOk result (out.new.items ≡ out.old.items ++ event_line number event.now) }
{
    match event {
        MarkEvent::Settled { waits, .. } => {
            out.extend_from_slice(b"settled ")?;
            write_number(out, number)?;
            write_count(out, b" waiting ", waits.items().len() as u64)
        }
        MarkEvent::Faulted { after, .. } => write_count(out, b"warm unknown faults ", *after),
        MarkEvent::Restarted => {
            out.extend_from_slice(b"warm initialized\n")?;
            Ok(())
        }
        MarkEvent::ApplyBegan { mode, .. } => {
            out.extend_from_slice(b"warm restored ")?;
            out.extend_from_slice(mode_name(*mode))?;
            out.push(b'\n')?;
            Ok(())
        }
        MarkEvent::ApplyEnded => {
            out.extend_from_slice(b"warm reconciled\n")?;
            Ok(())
        }
    }
}

/// The word for how a view is applied.
fn mode_name(mode: Mode) -> &'static [u8]
    ensures { result.now ≡ mode_name mode }
{
    match mode {
        Mode::Hitless => b"hitless",
        Mode::Cold => b"cold",
    }
}
