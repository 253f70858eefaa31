// The counts of the session, as the report lists them.
ghost use Rattle.std.specs.Prelude.{◌≡◌, ◌++◌, flat_map, OnOk};
ghost use Rattle.swss_report.specs.Counts.{counts_text, kind_line, totals_line, turns_text};
ghost use Rattle.swss_report.specs.Ended.{ended_round};

use crate::counted::write_count;
use crate::ending::turns_at_end;
use crate::kinds::kind_name;
use crate::round::RoundEnd;
use sai_chip::SimChip;
use sai_types::{Chip, Kind};
use swss_types::{OutOfMemory, write_number};

/// Appends the counts of a round that has ended: the writes and the calls so far, the turns of its settling, and for each
/// kind how many objects stand and how many have room. An Err may leave a part of it.
pub(crate) fn write_counts(out: &mut Vec<u8>, end: &RoundEnd<'_>) -> Result<(), OutOfMemory>
    ensures { OnOk result (out.new.items ≡ out.old.items ++ counts_text (ended_round end.now)) }
{
    let turns = turns_at_end(end.marks);
    write_totals(out, end.taken, end.chip.effects(), turns)?;
    write_kinds(out, end.chip, &Kind::ALL)
}

/// Appends the numbers of writes, of calls and of turns.
fn write_totals(
    out: &mut Vec<u8>,
    taken: u64,
    effects: u64,
    turns: Option<u64>,
) -> Result<(), OutOfMemory>
    ensures { OnOk result (out.new.items ≡ out.old.items ++ totals_line taken effects turns) }
{
    out.extend_from_slice(b"counts taken ")?;
    write_number(out, taken)?;
    out.extend_from_slice(b" effects ")?;
    write_number(out, effects)?;
    write_turns(out, turns)?;
    Ok(())
}

/// Appends a number of turns, or `-` for none, and the end of the line.
fn write_turns(out: &mut Vec<u8>, turns: Option<u64>) -> Result<(), OutOfMemory>
    ensures { OnOk result (out.new.items ≡ out.old.items ++ turns_text turns) }
{
    match turns {
        Some(turns) => write_count(out, b" turns ", turns),
        None => {
            out.extend_from_slice(b" turns -\n")?;
            Ok(())
        }
    }
}

/// Appends the lines of kinds.
fn write_kinds(out: &mut Vec<u8>, chip: &SimChip, kinds: &[Kind]) -> Result<(), OutOfMemory>
    ensures { OnOk result (out.new.items ≡ out.old.items ++ flat_map (kind_line chip.now.objects chip.now.capacities) kinds.now) }
{
    for kind in kinds {
        write_kind(out, chip, *kind)?;
    }
    Ok(())
}

/// Appends a kind, how many objects of it stand, and how many have room.
fn write_kind(out: &mut Vec<u8>, chip: &SimChip, kind: Kind) -> Result<(), OutOfMemory>
    ensures { OnOk result (out.new.items ≡ out.old.items ++ kind_line chip.now.objects chip.now.capacities kind) }
{
    out.extend_from_slice(kind_name(kind))?;
    out.push(b' ')?;
    write_number(out, chip.used(kind))?;
    out.push(b' ')?;
    write_number(out, chip.capacity(kind))?;
    out.push(b'\n')?;
    Ok(())
}
