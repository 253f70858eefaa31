// The lines of a round that ended.
ghost use Rattle.std.specs.Prelude.{◌≡◌, ◌≤◌, length, IfOk, if◌then◌else◌};
ghost use Rattle.table_schema.specs.Rows.{HasRisingRows};
ghost use Rattle.producer_table.specs.Pending.{ArePendingInOrder};
ghost use Rattle.sai_chip.specs.Replay.{IsReplayOf};
ghost use Rattle.swss_report.specs.Ended.{ended_round};
ghost use Rattle.swss_run.specs.Running.{IsWritten, ended_now};
ghost use Rattle.swss_run.specs.Told.{AreRowsTaken, IsToldOf};

use crate::Status;
use crate::output::{Output, write_all};
use crate::told::Told;
use orch_core::Core;
use row_store::Rows;
use sai_chip::{Replay, SimChip};
use std::alloc::Global;
use swss_report::{RoundEnd, round_lines};
use swss_script::Show;
use swss_service::Locked;
use swss_types::{OutOfMemory, Sink};

/// Writes the lines of a round that ended with this status, before which there were so many marks.
pub(crate) fn report<K: Sink>(
    alloc: Global,
    locked: &Locked<SimChip>,
    replay: &mut Replay,
    told: &mut Told,
    number: u64,
    before: usize,
    shows: &[Show],
    ended: Status,
    sink: &mut K,
) -> Status
    requires follows { IsReplayOf replay.old locked.now.chip.effects }
    requires told { IsToldOf told.old locked.now.core.log.taken }
    requires marks { before ≤ length locked.now.core.log.marks }
    ensures told { IsToldOf told.new locked.now.core.log.taken }
    ensures order { ArePendingInOrder locked.now.core.tables.waiting }
    ensures counts { K.faults sink.old ≤ K.faults sink.new }
    ensures written { IsWritten (ended_now locked.now.core locked.now.chip number before) replay.old.at shows.now ended (K.holds sink.old) (K.faults sink.old) result replay.new (K.holds sink.new) (K.faults sink.new) }
{
    locked.stand_for_one_session();
    let core = locked.core();
    let chip = locked.chip();
    let Ok(behind) = is_behind(core, told) else {
        return Status::OutOfMemory;
    };
    let end = RoundEnd {
        plan: core.plan(),
        number,
        marks: &core.log().marks()[before..],
        taken: core.log().taken().len() as u64,
        rows: rows_shown(core, told, behind),
        chip,
        shows,
    };
    write_lines(alloc, &end, replay, ended, sink)
}

/// Whether the core's rows are behind those of the writes taken, since a write still waits after a list of the chip that
/// failed. The rows of all writes taken are then told.
fn is_behind(core: &Core, told: &mut Told) -> Result<bool, OutOfMemory>
    requires { IsToldOf told.old core.now.log.taken }
    ensures told { IsToldOf told.new core.now.log.taken }
    ensures rows { IfOk result (λ behind. AreRowsTaken core.now behind told.new.rows) }
    ensures order { ArePendingInOrder core.now.tables.waiting }
    ensures rising { HasRisingRows core.now.tables.rows }
{
    // The rows are in key order.
    let _count = core.rows().len();
    if core.is_popped() {
        return Ok(false);
    }
    told.go_on(core.log().taken())?;
    Ok(true)
}

/// The rows that are told where the core's are behind, and else those of the core.
fn rows_shown<'a>(core: &'a Core, told: &'a Told, behind: bool) -> &'a Rows
    ensures { result.now ≡ (if behind then told.now.rows else core.now.tables.rows) }
{
    if behind {
        return told.rows();
    }
    core.rows()
}

/// Gives the sink the lines of a round that ended with this status.
fn write_lines<K: Sink>(
    alloc: Global,
    end: &RoundEnd<'_>,
    replay: &mut Replay,
    ended: Status,
    sink: &mut K,
) -> Status
    requires follows { IsReplayOf replay.old (ended_round end.now).effects }
    ensures counts { K.faults sink.old ≤ K.faults sink.new }
    ensures written { IsWritten (ended_round end.now) replay.old.at end.now.shows.now ended (K.holds sink.old) (K.faults sink.old) result replay.new (K.holds sink.new) (K.faults sink.new) }
{
    match round_lines(alloc, end, replay) {
        Ok(lines) => match write_all(sink, &lines) {
            Output::Written => ended,
            Output::Failed => Status::WriteFault,
            Output::NoMemory => Status::OutOfMemory,
        },
        Err(OutOfMemory) => Status::OutOfMemory,
    }
}
