// What the shows of a round print.
ghost use Rattle.std.specs.Prelude.{OnOk};
ghost use Rattle.swss_report.specs.Ended.{ended_round};
ghost use Rattle.swss_report.specs.Shows.{Appends, AreShown, IsShown};

use crate::chip::{standing, write_chip};
use crate::counts::write_counts;
use crate::ending::waits_at_end;
use crate::ignored::write_ignored;
use crate::image::write_image;
use crate::round::RoundEnd;
use crate::tables::write_tables;
use crate::waiting::{write_ready, write_waiting, write_warm};
use crate::ways::write_forward;
use std::alloc::Global;
use swss_script::Show;
use swss_types::OutOfMemory;

/// Appends what the shows of a round print, one after the other; `calls` are the lines of the round's calls. An Err may
/// leave a part of it.
pub(crate) fn write_shows(
    alloc: Global,
    out: &mut Vec<u8>,
    end: &RoundEnd<'_>,
    calls: &[u8],
) -> Result<(), OutOfMemory>
    ensures { OnOk result (Appends out.old.items out.new.items (AreShown (ended_round end.now) calls.now end.now.shows.now)) }
{
    for show in end.shows {
        write_show(alloc, out, end, calls, show)?;
    }
    Ok(())
}

/// Appends what a show prints.
fn write_show(
    alloc: Global,
    out: &mut Vec<u8>,
    end: &RoundEnd<'_>,
    calls: &[u8],
    show: &Show,
) -> Result<(), OutOfMemory>
    ensures { OnOk result (Appends out.old.items out.new.items (IsShown (ended_round end.now) calls.now show.now)) }
{
    match show {
        Show::Chip => {
            let things = standing(alloc, end.chip)?;
            write_chip(out, end.plan, things.as_slice())
        }
        Show::Tables => write_tables(alloc, out, end.rows),
        Show::Ignored => write_ignored(alloc, out, end.plan, end.rows),
        Show::Waiting => write_waiting(alloc, out, waits_at_end(end.marks)),
        Show::Warm => write_warm(out, waits_at_end(end.marks)),
        Show::Ready => write_ready(out, waits_at_end(end.marks)),
        Show::Calls => {
            out.extend_from_slice(calls)?;
            Ok(())
        }
        Show::Counts => write_counts(out, end),
        Show::Forward(vrf, ip) => write_forward(alloc, out, end.plan, end.chip, vrf, ip),
        Show::Image => write_image(alloc, out, end.rows),
    }
}
