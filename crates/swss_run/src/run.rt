// The top call.
ghost use Rattle.std.specs.Prelude.{◌≡◌, ◌<◌, ◌≤◌, ◌↔◌, ℕ, List, false, None, Some, Ok, map, IfOk};
ghost use Rattle.std.specs.List.{AllByRecursion};
ghost use Rattle.std.specs.String.{string_bytes};
ghost use Rattle.swss_types.specs.Outside.{HasRisen};
ghost use Rattle.table_schema.specs.Plan.{IsPlan};
ghost use Rattle.swss_script.specs.Generated.{generated};
ghost use Rattle.swss_script.specs.Script.{script_of};
ghost use Rattle.swss_script.specs.Sent.{writes_in};
ghost use Rattle.swss_script.specs.Stage.{AreImageRows};
ghost use Rattle.swss_service.specs.Taking.{HaveReadKeys};
ghost use Rattle.swss_words.specs.Laws.{IsProper};
ghost use Rattle.swss_words.specs.Words.{command};
ghost use Rattle.swss_script.specs.declared.refused.Refused.{Refused};
ghost use Rattle.swss_words.specs.declared.command.Command.{Command};
ghost use Rattle.swss_run.specs.Complete.{ComesToEnd, IsUnhinderedBy};
ghost use Rattle.swss_run.specs.Input.{GaveFew};
ghost use Rattle.swss_run.specs.Read.{WasRefused};
ghost use Rattle.swss_run.specs.Run.{SaysOfSource, chip_fail, ends_early};
ghost use Rattle.swss_run.specs.Script.{IsRun, TellsOfSession};
ghost use Rattle.swss_run.specs.Tells.{TellsByCommand};

use crate::beside::run_beside;
use crate::reading::read_input;
use crate::session::{Left, run_rounds};
use crate::view::view_source;
use crate::{Outcome, Status};
use sai_chip::{Fail, SimChip};
use sai_types::Chip;
use std::alloc::Global;
use std::mem::drop;
use std::sync::Wait;
use std::thread::Threads;
use swss_script::{Fails, Script, generate, rounds_behind};
use swss_service::Locked;
use swss_types::{Gate, OutOfMemory, Sink, Source};
use swss_words::Command;

/// How many places the log has.
pub const LOG_LIMIT: u64 = 4_194_304;

/// Does all that the program does. `run` reads the script from the source, brings the chip to what it says with so many workers,
/// and gives the sink the report; `view` gives the sink what is to stand for the script's writes; `load` runs a generated script.
/// `words` are those behind the program's name.
pub fn swss_main<R: Threads + Wait + Sync, S: Source, K: Sink, G: Gate + Sync>(
    rt: &R,
    alloc: Global,
    words: &[String],
    source: &mut S,
    sink: &mut K,
    gate: &G,
) -> Outcome
    // The words are refused exactly where they are no command of the program.
    ensures usage { (result.status ≡ Status.Usage) ↔ (command (map (λ w. string_bytes w) words.now) ≡ None) }

    // On wrong words nothing is read; a script is refused only for what the bytes are that the source gave. However the run
    // ends, these are at most 67,108,865: one more than a script may have.
    ensures refusal { SaysOfSource result.status (S.left source.old) (S.left source.new) }
    ensures few { GaveFew (S.left source.old) (S.left source.new) }

    // A fault of reading or of writing comes only where the source's or the sink's count of faults rose in this call.
    ensures read_fault { result.status ≡ Status.ReadFault → HasRisen (S.faults source.old) (S.faults source.new) }
    ensures write_fault { result.status ≡ Status.WriteFault → HasRisen (K.faults sink.old) (K.faults sink.new) }

    // On wrong words, a refused script and a fault of reading no session begins and nothing is written.
    //
    // Else the session of `run` is that of the script that the source gave, and that of `load` is that of the generated
    // script, by one worker, and nothing is read. The rows of the script's image are the first writes that are taken, from the
    // sender 0, numbered from 0 in key order, and the rounds follow, the first right behind them.
    //
    // For one to four workers: every chip call was legal, and outside applies they are few by the writes taken and the keys
    // listed; every mark is true; the writes taken are those of the image and of the script, round by round, of each producer
    // in order and each once; the ends of the rounds rise; the log is full only where it has fewer places left than any event
    // can need; and the sink took the report as the status says. The chip has the script's failing calls and failed at no more
    // than these, so a chip fault comes only where the script has one.
    //
    // For one worker moreover: the writes come in the order of the script; the calls of a round are those of its turns, which
    // leave quiet rows alone and drain; and the log is full exactly where an event needs more places than are left.
    //
    // `view` begins no session and makes no chip. The sink took, as the status says, the text of the things that are to
    // stand for the ready rows of all writes of the script that the source gave.
    ensures session { TellsByCommand (command (map (λ w. string_bytes w) words.now)) result (S.left source.old) (S.left source.new) (K.holds sink.old) (K.holds sink.new) }

    // Words that are a command, with a script that is accepted: where no count of faults of source and sink rose in this call, no
    // call of the chip failed, and the log has as many places left as any event can need, the run came to its end or memory was
    // refused, and each round that ended did so at the mark of its settling.
    ensures complete { (c : Command) → command (map (λ w. string_bytes w) words.now) ≡ Some c → ((refusal : Refused) → WasRefused (S.left source.old) refusal (S.left source.new) → ⊥) → (HasRisen (S.faults source.old) (S.faults source.new) → ⊥) → (HasRisen (K.faults sink.old) (K.faults sink.new) → ⊥) → IsUnhinderedBy result.log result.chip → ComesToEnd result }
{
    match Command::read(alloc, words) {
        Ok(Some(command)) => carry_out(rt, alloc, command, source, sink, gate),
        Ok(None) => Outcome::without_session(alloc, Status::Usage),
        Err(OutOfMemory) => Outcome::without_session(alloc, Status::OutOfMemory),
    }
}

/// Does what a command says.
fn carry_out<R: Threads + Wait + Sync, S: Source, K: Sink, G: Gate + Sync>(
    rt: &R,
    alloc: Global,
    command: Command,
    source: &mut S,
    sink: &mut K,
    gate: &G,
) -> Outcome
    requires { IsProper command }
    ensures ran { result.status ≡ Status.Usage → ⊥ }
    ensures refusal { SaysOfSource result.status (S.left source.old) (S.left source.new) }
    ensures few { GaveFew (S.left source.old) (S.left source.new) }
    ensures read_fault { result.status ≡ Status.ReadFault → HasRisen (S.faults source.old) (S.faults source.new) }
    ensures write_fault { result.status ≡ Status.WriteFault → HasRisen (K.faults sink.old) (K.faults sink.new) }
    ensures session { TellsByCommand (Some command) result (S.left source.old) (S.left source.new) (K.holds sink.old) (K.holds sink.new) }
{
    match command {
        Command::Run { workers } => run_source(rt, alloc, workers, source, sink, gate),
        Command::View => view_source(alloc, source, sink),
        Command::Load { count, seed } => run_generated(alloc, count, seed, sink),
    }
}

/// Runs the script that the source gives, with so many workers.
fn run_source<R: Threads + Wait + Sync, S: Source, K: Sink, G: Gate + Sync>(
    rt: &R,
    alloc: Global,
    workers: u32,
    source: &mut S,
    sink: &mut K,
    gate: &G,
) -> Outcome
    requires workers { (0 < workers) × (workers ≤ 4) }
    ensures ran { result.status ≡ Status.Usage → ⊥ }
    ensures refusal { SaysOfSource result.status (S.left source.old) (S.left source.new) }
    ensures few { GaveFew (S.left source.old) (S.left source.new) }
    ensures read_fault { result.status ≡ Status.ReadFault → HasRisen (S.faults source.old) (S.faults source.new) }
    ensures write_fault { result.status ≡ Status.WriteFault → HasRisen (K.faults sink.old) (K.faults sink.new) }
    ensures session { TellsOfSession workers result.status result (S.left source.old) (S.left source.new) (K.holds sink.old) (K.holds sink.new) }
{
    match read_input(alloc, source) {
        Ok(script) => run_read(rt, alloc, workers, script, sink, gate),
        Err(status) => Outcome::without_session(alloc, status),
    }
}

/// Runs a script that was read, with so many workers.
fn run_read<R: Threads + Wait + Sync, K: Sink, G: Gate + Sync>(
    rt: &R,
    alloc: Global,
    workers: u32,
    script: Script,
    sink: &mut K,
    gate: &G,
) -> Outcome
    requires workers { (0 < workers) × (workers ≤ 4) }
    requires read { (bytes : List ℕ) × (script_of bytes ≡ Ok script) }
    ensures ran { ends_early result.status ≡ false }
    ensures write_fault { result.status ≡ Status.WriteFault → HasRisen (K.faults sink.old) (K.faults sink.new) }
    ensures session { IsRun workers script result (K.holds sink.old) (K.holds sink.new) }
{
    if workers == 1 {
        return run_script(alloc, script, sink);
    }
    run_beside(rt, alloc, workers, script, sink, gate)
}

/// Runs the generated script of this size and seed.
fn run_generated<K: Sink>(alloc: Global, count: u64, seed: u64, sink: &mut K) -> Outcome
    requires few { count ≤ 60000 }
    ensures ran { ends_early result.status ≡ false }
    ensures write_fault { result.status ≡ Status.WriteFault → HasRisen (K.faults sink.old) (K.faults sink.new) }
    ensures session { IsRun 1 (generated count seed) result (K.holds sink.old) (K.holds sink.new) }
{
    let Ok(script) = generate(alloc, count, seed) else {
        return Outcome::without_session(alloc, Status::OutOfMemory);
    };
    run_script(alloc, script, sink)
}

/// Runs a script on a new chip with one worker, and writes its report.
fn run_script<K: Sink>(alloc: Global, script: Script, sink: &mut K) -> Outcome
    requires plan { IsPlan script.plan }
    requires image { AreImageRows script.image }
    requires read { AllByRecursion (λ r. HaveReadKeys (writes_in r.sections)) script.rounds }
    ensures ran { ends_early result.status ≡ false }
    ensures write_fault { result.status ≡ Status.WriteFault → HasRisen (K.faults sink.old) (K.faults sink.new) }
    ensures session { IsRun 1 script result (K.holds sink.old) (K.holds sink.new) }
{
    let Script {
        plan,
        caps,
        fails,
        image,
        rounds,
        ..
    } = script;
    let Ok(fails) = chip_fails(alloc, &fails) else {
        return Outcome::without_session(alloc, Status::OutOfMemory);
    };
    let Ok(rounds) = rounds_behind(alloc, &image, rounds) else {
        return Outcome::without_session(alloc, Status::OutOfMemory);
    };
    drop(image);
    let chip = SimChip::new(alloc, caps, fails);
    let locked = Locked::begin(alloc, plan, caps, LOG_LIMIT, chip);
    let Left { core, chip, status } = run_rounds(alloc, locked, rounds, sink);
    // It failed at no more calls than the script lists.
    let _faults = chip.faults();
    Outcome {
        status,
        log: core.into_log(),
        chip: Some(chip),
    }
}

/// The calls at which a script's chip fails.
pub(crate) fn chip_fails(alloc: Global, fails: &Fails) -> Result<Vec<Fail>, OutOfMemory>
    ensures { IfOk result (λ chip_fails. chip_fails.items ≡ map chip_fail fails.now) }
{
    let mut chip_fails = Vec::new(alloc);
    for fail in fails.items() {
        chip_fails.push(Fail {
            at: fail.at,
            after: fail.after,
        })?;
    }
    Ok(chip_fails)
}
