// A session with one worker: each round of a script is run through the service, and its lines are written.
ghost use Rattle.std.specs.Prelude.{◌≡◌, ◌<◌, ◌≤◌, false};
ghost use Rattle.std.specs.List.{AllByRecursion};
ghost use Rattle.swss_types.specs.Outside.{HasRisen};
ghost use Rattle.sai_types.specs.ChipState.{new_chip};
ghost use Rattle.table_schema.specs.Plan.{IsPlan};
ghost use Rattle.session_laws.specs.Core.{new_core};
ghost use Rattle.sai_chip.specs.Replay.{new_replay};
ghost use Rattle.swss_script.specs.Sent.{writes_in};
ghost use Rattle.swss_service.specs.Taking.{HaveReadKeys};
ghost use Rattle.swss_run.specs.Run.{ends_early};
ghost use Rattle.swss_run.specs.Running.{IsRunReady, IsRoundRun, round_ended};
ghost use Rattle.swss_run.specs.Session.{IsSession, log_limit};
ghost use Rattle.swss_run.specs.Told.{IsToldOf};

use crate::Status;
use crate::reporting::report;
use crate::told::Told;
use orch_core::{Core, Settled};
use sai_chip::{Replay, SimChip};
use std::alloc::Global;
use std::mem::drop;
use swss_script::{Round, RoundList};
use swss_service::{Locked, RoundEnd, round_alone};
use swss_types::Sink;

/// What a session leaves.
pub(crate) struct Left {
    /// The core.
    pub(crate) core: Core,
    /// The chip.
    pub(crate) chip: SimChip,
    /// How the last round ended.
    pub(crate) status: Status,
}

/// Runs rounds one after the other on a new core and a new chip, until all have ended or one can't go on.
pub(crate) fn run_rounds<K: Sink>(
    alloc: Global,
    locked: Locked<SimChip>,
    rounds: RoundList,
    sink: &mut K,
) -> Left
    requires new { locked.core ≡ new_core locked.core.board.plan locked.core.sync.capacities log_limit }
    requires chip { locked.chip ≡ new_chip locked.core.sync.capacities locked.chip.fails }
    requires plan { IsPlan locked.core.board.plan }
    requires read { AllByRecursion (λ r. HaveReadKeys (writes_in r.sections)) rounds }
    ensures ran { ends_early result.status ≡ false }
    ensures write_fault { result.status ≡ Status.WriteFault → HasRisen (K.faults sink.old) (K.faults sink.new) }
    ensures session { IsSession locked.core.board.plan locked.core.sync.capacities rounds result.status result.core.log result.chip (K.holds sink.old) (K.holds sink.new) }
    ensures fails { result.chip.fails ≡ locked.chip.fails }
{
    let mut locked = locked;
    let mut replay = Replay::new(alloc);
    let mut told = Told::new(alloc);
    let status = run_each(alloc, &mut locked, &mut replay, &mut told, rounds, sink);
    drop(replay);
    drop(told);
    let (core, chip) = locked.parts();
    Left { core, chip, status }
}

/// The same, with what is remembered from round to round.
fn run_each<K: Sink>(
    alloc: Global,
    locked: &mut Locked<SimChip>,
    replay: &mut Replay,
    told: &mut Told,
    rounds: RoundList,
    sink: &mut K,
) -> Status
    requires new { locked.old.core ≡ new_core locked.old.core.board.plan locked.old.core.sync.capacities log_limit }
    requires chip { locked.old.chip ≡ new_chip locked.old.core.sync.capacities locked.old.chip.fails }
    requires plan { IsPlan locked.old.core.board.plan }
    requires read { AllByRecursion (λ r. HaveReadKeys (writes_in r.sections)) rounds }
    requires replay { replay.old ≡ new_replay }
    requires told { IsToldOf told.old locked.old.core.log.taken }
    ensures ran { ends_early result ≡ false }
    ensures write_fault { result ≡ Status.WriteFault → HasRisen (K.faults sink.old) (K.faults sink.new) }
    ensures session { IsSession locked.old.core.board.plan locked.old.core.sync.capacities rounds result locked.new.core.log locked.new.chip (K.holds sink.old) (K.holds sink.new) }
    ensures fails { locked.new.chip.fails ≡ locked.old.chip.fails }
{
    let mut status = Status::Done;
    let mut number = 0u64;
    for round in rounds.into_vec() {
        number += 1;
        status = run_round(alloc, locked, replay, told, number, round, sink);
        match status {
            Status::Done => {}
            // The next round begins with a restart.
            Status::ChipFault => {}
            _ => return status,
        }
    }
    status
}

/// Runs a round through the service, and writes its lines.
fn run_round<K: Sink>(
    alloc: Global,
    locked: &mut Locked<SimChip>,
    replay: &mut Replay,
    told: &mut Told,
    number: u64,
    round: Round,
    sink: &mut K,
) -> Status
    requires ready { IsRunReady locked.old.core locked.old.chip replay.old }
    requires told { IsToldOf told.old locked.old.core.log.taken }
    requires counted { 0 < number }
    requires read { HaveReadKeys (writes_in round.sections) }
    ensures told { IsToldOf told.new locked.new.core.log.taken }
    ensures counts { K.faults sink.old ≤ K.faults sink.new }
    ensures fails { locked.new.chip.fails ≡ locked.old.chip.fails }
    ensures run { IsRoundRun number round locked.old.core locked.old.chip (K.holds sink.old) (K.faults sink.old) result locked.new.core locked.new.chip replay.new (K.holds sink.new) (K.faults sink.new) }
{
    let Round { sections, shows } = round;
    let before = locked.core().log().marks().len();
    let end = round_alone(alloc, locked, sections);
    match round_ended(end) {
        Ok(ended) => {
            let shows = shows.items();
            report(
                alloc, locked, replay, told, number, before, shows, ended, sink,
            )
        }
        Err(status) => status,
    }
}

/// How a round that ended so ends, or the run.
pub(crate) fn round_ended(end: RoundEnd) -> Result<Status, Status>
    ensures { result ≡ round_ended end }
{
    match end {
        RoundEnd::Ran(Settled::Settled) => Ok(Status::Done),
        RoundEnd::Ran(Settled::Faulted) => Ok(Status::ChipFault),
        RoundEnd::Ran(Settled::LogFull) | RoundEnd::LogFull => Err(Status::LogFull),
        RoundEnd::NoMemory => Err(Status::OutOfMemory),
    }
}
