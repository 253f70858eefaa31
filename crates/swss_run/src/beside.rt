// A session with several workers: the rows of the script's image are taken, each round of the script is run through the service,
// and its lines are written.
ghost use Rattle.std.specs.Prelude.{◌≡◌, ◌-◌, ◌<◌, ◌≤◌, ℕ, List, false, length, slice_get, Some, Ok};
ghost use Rattle.std.specs.List.{AllByRecursion};
ghost use Rattle.swss_types.specs.Outside.{HasRisen};
ghost use Rattle.sai_types.specs.ChipState.{new_chip};
ghost use Rattle.table_schema.specs.Plan.{IsPlan};
ghost use Rattle.session_laws.specs.Core.{new_core};
ghost use Rattle.sai_chip.specs.Replay.{new_replay};
ghost use Rattle.swss_script.specs.Behind.{image_sent, rounds_behind};
ghost use Rattle.swss_script.specs.Script.{script_of};
ghost use Rattle.swss_script.specs.Stage.{AreImageRows, AreOfProducers};
ghost use Rattle.swss_script.specs.declared.parts.Round.{Round};
ghost use Rattle.swss_service.specs.CoreAndChip.{beside};
ghost use Rattle.swss_run.specs.Beside.{BeginsWithRows, IsSessionBeside};
ghost use Rattle.swss_run.specs.Run.{ends_early};
ghost use Rattle.swss_run.specs.RunningBeside.{IsOpened, IsRoundRunBeside, IsRunReadyBeside};
ghost use Rattle.swss_run.specs.Script.{IsRun};
ghost use Rattle.swss_run.specs.Session.{log_limit};
ghost use Rattle.swss_run.specs.Told.{IsToldOf};

use crate::reporting::report;
use crate::run::{LOG_LIMIT, chip_fails};
use crate::session::{Left, round_ended};
use crate::told::Told;
use crate::{Outcome, Status};
use round_actors::Kept;
use row_store::Rows;
use sai_chip::{Replay, SimChip};
use sai_types::Chip;
use std::alloc::Global;
use std::mem::drop;
use std::sync::Wait;
use std::thread::Threads;
use swss_script::Script;
use swss_service::{Locked, Rounded, ScriptRounds, take_image};
use swss_types::{Gate, Sink};

/// How far a session came.
struct Came {
    /// The core and the chip.
    locked: Locked<SimChip>,
    /// How the last round ended.
    status: Status,
}

/// Runs a script that was read on a new chip with several workers, and writes its report.
pub(crate) fn run_beside<R: Threads + Wait + Sync, K: Sink, G: Gate + Sync>(
    rt: &R,
    alloc: Global,
    workers: u32,
    script: Script,
    sink: &mut K,
    gate: &G,
) -> Outcome
    requires workers { (1 < workers) × (workers ≤ 4) }
    requires read { (bytes : List ℕ) × (script_of bytes ≡ Ok script) }
    ensures ran { ends_early result.status ≡ false }
    ensures write_fault { result.status ≡ Status.WriteFault → HasRisen (K.faults sink.old) (K.faults sink.new) }
    ensures session { IsRun workers script result (K.holds sink.old) (K.holds sink.new) }
{
    let Script {
        plan,
        caps,
        fails,
        image,
        producers,
        rounds,
    } = script;
    let Ok(fails) = chip_fails(alloc, &fails) else {
        return Outcome::without_session(alloc, Status::OutOfMemory);
    };
    let rounds = ScriptRounds::of(&producers, rounds);
    let chip = SimChip::new(alloc, caps, fails);
    let locked = Locked::begin(alloc, plan, caps, LOG_LIMIT, chip);
    let Left { core, chip, status } = run_rounds_beside(
        rt, alloc, workers, locked, &image, &rounds, sink, gate,
    );
    drop(rounds);
    drop(image);
    // It failed at no more calls than the script lists.
    let _faults = chip.faults();
    Outcome {
        status,
        log: core.into_log(),
        chip: Some(chip),
    }
}

/// Takes the rows of an image on a new core and a new chip, and runs rounds behind them, one after the other, by so many workers,
/// until all have ended or one can't go on.
fn run_rounds_beside<R: Threads + Wait + Sync, K: Sink, G: Gate + Sync>(
    rt: &R,
    alloc: Global,
    workers: u32,
    locked: Locked<SimChip>,
    image: &Rows,
    rounds: &ScriptRounds,
    sink: &mut K,
    gate: &G,
) -> Left
    requires workers { (1 < workers) × (workers ≤ 4) }
    requires new { locked.core ≡ new_core locked.core.board.plan locked.core.sync.capacities log_limit }
    requires chip { locked.chip ≡ new_chip locked.core.sync.capacities locked.chip.fails }
    requires plan { IsPlan locked.core.board.plan }
    requires rows { AreImageRows image.now }
    requires several { 0 < length rounds.now }
    requires producers { (count : ℕ) × AllByRecursion (λ r. AreOfProducers count r.sections) rounds.now }
    ensures ran { ends_early result.status ≡ false }
    ensures write_fault { result.status ≡ Status.WriteFault → HasRisen (K.faults sink.old) (K.faults sink.new) }
    ensures session { IsSessionBeside workers locked.core.board.plan locked.core.sync.capacities (rounds_behind image.now rounds.now) result.status result.core.log result.chip (K.holds sink.old) (K.holds sink.new) }
    ensures image { BeginsWithRows (image_sent image.now) result.core.log result.chip.effects }
    ensures fails { result.chip.fails ≡ locked.chip.fails }
{
    let mut locked = locked;
    match take_image(&mut locked, image) {
        Kept::Nothing => run_behind(rt, alloc, workers, locked, image, rounds, sink, gate),
        Kept::LogFull => leave(locked, Status::LogFull),
        Kept::NoMemory => leave(locked, Status::OutOfMemory),
    }
}

/// The core and the chip, which are left with this status.
fn leave(locked: Locked<SimChip>, status: Status) -> Left
    ensures parts { beside result.core result.chip ≡ locked }
    ensures status { result.status ≡ status }
{
    let (core, chip) = locked.parts();
    Left { core, chip, status }
}

/// Runs the rounds behind an image whose rows were taken.
fn run_behind<R: Threads + Wait + Sync, K: Sink, G: Gate + Sync>(
    rt: &R,
    alloc: Global,
    workers: u32,
    locked: Locked<SimChip>,
    image: &Rows,
    rounds: &ScriptRounds,
    sink: &mut K,
    gate: &G,
) -> Left
    requires workers { (1 < workers) × (workers ≤ 4) }
    requires opened { IsOpened workers (image_sent image.now) locked.core locked.chip }
    requires producers { (count : ℕ) × AllByRecursion (λ r. AreOfProducers count r.sections) rounds.now }
    requires several { 0 < length rounds.now }
    ensures ran { ends_early result.status ≡ false }
    ensures write_fault { result.status ≡ Status.WriteFault → HasRisen (K.faults sink.old) (K.faults sink.new) }
    ensures session { IsSessionBeside workers locked.core.board.plan locked.core.sync.capacities (rounds_behind image.now rounds.now) result.status result.core.log result.chip (K.holds sink.old) (K.holds sink.new) }
    ensures image { BeginsWithRows (image_sent image.now) result.core.log result.chip.effects }
    ensures fails { result.chip.fails ≡ locked.chip.fails }
{
    let mut replay = Replay::new(alloc);
    let mut told = Told::new(alloc);
    let Came { locked, status } = run_each_beside(
        rt,
        alloc,
        workers,
        locked,
        &mut replay,
        &mut told,
        image,
        rounds,
        sink,
        gate,
    );
    drop(replay);
    drop(told);
    leave(locked, status)
}

/// The same, with what is remembered from round to round.
fn run_each_beside<R: Threads + Wait + Sync, K: Sink, G: Gate + Sync>(
    rt: &R,
    alloc: Global,
    workers: u32,
    locked: Locked<SimChip>,
    replay: &mut Replay,
    told: &mut Told,
    _image: &Rows,
    rounds: &ScriptRounds,
    sink: &mut K,
    gate: &G,
) -> Came
    requires workers { (1 < workers) × (workers ≤ 4) }
    requires opened { IsOpened workers (image_sent _image.now) locked.core locked.chip }
    requires producers { (count : ℕ) × AllByRecursion (λ r. AreOfProducers count r.sections) rounds.now }
    requires several { 0 < length rounds.now }
    requires replay { replay.old ≡ new_replay }
    requires told { IsToldOf told.old locked.core.log.taken }
    ensures ran { ends_early result.status ≡ false }
    ensures write_fault { result.status ≡ Status.WriteFault → HasRisen (K.faults sink.old) (K.faults sink.new) }
    ensures session { IsSessionBeside workers locked.core.board.plan locked.core.sync.capacities (rounds_behind _image.now rounds.now) result.status result.locked.core.log result.locked.chip (K.holds sink.old) (K.holds sink.new) }
    ensures image { BeginsWithRows (image_sent _image.now) result.locked.core.log result.locked.chip.effects }
    ensures fails { result.locked.chip.fails ≡ locked.chip.fails }
{
    let mut locked = locked;
    let mut status = Status::Done;
    let mut number = 0;
    while number < rounds.len() {
        number += 1;
        let Came {
            locked: left,
            status: ended,
        } = run_round_beside(
            rt, alloc, workers, locked, replay, told, number, rounds, sink, gate,
        );
        locked = left;
        status = ended;
        match status {
            Status::Done => {}
            // The next round begins with a restart.
            Status::ChipFault => {}
            _ => return Came { locked, status },
        }
    }
    Came { locked, status }
}

/// Runs the round with this number, counted from 1, through the service, and writes its lines.
fn run_round_beside<R: Threads + Wait + Sync, K: Sink, G: Gate + Sync>(
    rt: &R,
    alloc: Global,
    workers: u32,
    locked: Locked<SimChip>,
    replay: &mut Replay,
    told: &mut Told,
    number: usize,
    rounds: &ScriptRounds,
    sink: &mut K,
    gate: &G,
) -> Came
    requires workers { (1 < workers) × (workers ≤ 4) }
    requires number { (0 < number) × (number ≤ length rounds.now) }
    requires ready { IsRunReadyBeside workers locked.core locked.chip replay.old }
    requires told { IsToldOf told.old locked.core.log.taken }
    ensures told { IsToldOf told.new result.locked.core.log.taken }
    ensures counts { K.faults sink.old ≤ K.faults sink.new }
    ensures fails { result.locked.chip.fails ≡ locked.chip.fails }
    ensures run { (round : Round) → slice_get rounds.now (number - 1) ≡ Some round → IsRoundRunBeside workers number round locked.core locked.chip (K.holds sink.old) (K.faults sink.old) result.status result.locked.core result.locked.chip replay.new (K.holds sink.new) (K.faults sink.new) }
{
    let before = locked.core().log().marks().len();
    let Rounded { locked, end } = rounds.run(rt, alloc, locked, number - 1, workers, gate);
    match round_ended(end) {
        Ok(ended) => {
            let shows = rounds.shows(number - 1);
            let number = number as u64;
            let status = report(
                alloc, &locked, replay, told, number, before, shows, ended, sink,
            );
            Came { locked, status }
        }
        Err(status) => Came { locked, status },
    }
}
