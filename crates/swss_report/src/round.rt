// The lines of a round that has ended.
ghost use Rattle.std.specs.Prelude.{◌≡◌, true, length, IfOk};
ghost use Rattle.std.specs.List.{list_any};
ghost use Rattle.sai_chip.specs.Replay.{IsReplayOf};
ghost use Rattle.swss_report.specs.Calls.{calls_text};
ghost use Rattle.swss_report.specs.Ended.{ended_round};
ghost use Rattle.swss_report.specs.Round.{IsRoundText};
ghost use Rattle.swss_report.specs.Shows.{is_calls};

use crate::calls::{follow, follow_with_lines};
use crate::marks::write_marks;
use crate::shows::write_shows;
use row_store::Rows;
use sai_chip::{Replay, SimChip};
use std::alloc::Global;
use switch_model::Mark;
use swss_script::Show;
use swss_types::OutOfMemory;
use table_schema::PortPlan;

/// A round that has ended, as its lines tell of it.
#[derive(Clone, Copy, Drop)]
pub struct RoundEnd<'a> {
    /// The port plan.
    pub plan: &'a PortPlan,
    /// The number of the round, from 1.
    pub number: u64,
    /// The marks that were made in it.
    pub marks: &'a [Mark],
    /// How many writes were taken so far.
    pub taken: u64,
    /// The rows of these writes.
    pub rows: &'a Rows,
    /// The chip, as the round left it.
    pub chip: &'a SimChip,
    /// What is shown.
    pub shows: &'a [Show],
}

/// The lines of a round that has ended: those of its marks, and then of its shows. `replay` stands where the round before
/// ended: it follows the chip to its last effect.
pub fn round_lines(
    alloc: Global,
    end: &RoundEnd<'_>,
    replay: &mut Replay,
) -> Result<Vec<u8>, OutOfMemory>
    ensures text { IfOk result (λ lines. IsReplayOf replay.old (ended_round end.now).effects → IsRoundText (ended_round end.now) replay.old.at end.now.shows.now lines.items) }
    ensures replay { IfOk result (λ lines. IsReplayOf replay.old (ended_round end.now).effects → IsReplayOf replay.new (ended_round end.now).effects × (replay.new.at ≡ length (ended_round end.now).effects)) }
{
    let calls = lines_of_calls(alloc, end.plan, end.shows, end.chip, replay)?;
    let mut lines = Vec::new(alloc);
    write_marks(&mut lines, end.number, end.marks)?;
    write_shows(alloc, &mut lines, end, calls.as_slice())?;
    Ok(lines)
}

/// Follows the chip to its last effect, and gives the lines of the effects on the way where a show prints them.
fn lines_of_calls(
    alloc: Global,
    plan: &PortPlan,
    shows: &[Show],
    chip: &SimChip,
    replay: &mut Replay,
) -> Result<Vec<u8>, OutOfMemory>
    ensures lines { IfOk result (λ lines. IsReplayOf replay.old chip.now.effects → list_any is_calls shows.now ≡ true → lines.items ≡ calls_text plan.now replay.old.at chip.now.effects) }
    ensures followed { IfOk result (λ lines. IsReplayOf replay.old chip.now.effects → IsReplayOf replay.new chip.now.effects × (replay.new.at ≡ length chip.now.effects)) }
{
    if show_calls(shows) {
        return follow_with_lines(alloc, plan, chip, replay);
    }
    follow(chip, replay)?;
    Ok(Vec::new(alloc))
}

/// Whether one of the shows prints the calls of the round.
fn show_calls(shows: &[Show]) -> bool
    ensures { result ≡ list_any is_calls shows.now }
{
    shows.iter().any(|show| is_calls(*show))
}

/// Whether a show prints the calls of the round.
fn is_calls(show: Show) -> bool
    ensures { result ≡ is_calls show }
{
    matches!(show, Show::Calls)
}
