// Cases of the kind `rounds`: rounds that are drawn by a seed, run by several workers as threads beside each other, and by one
// alone. A case is a line:
//
// ```text
// SEED COUNT WORKERS    a session of COUNT rounds, run by WORKERS workers, one to four
// ```
//
// The seed draws one to four producers, each with tables of its own, and round by round which rows are to stand in the end; a
// row stands only beside those that it names. The producers write what differs from the round before, and other writes before
// these; restarts are drawn among them, and up to three calls of the session at which the chip fails. While the producers
// write, the workers step: a gate holds a producer behind acts that are drawn until workers made some more steps.
//
// What is wanted: each round ends by settling, where behind a failed call one more is asked for, and no key waits then; and
// what stands on the chip is, up to identifiers, what stands there in a session of the same writes that has one worker and no
// failed call. What differs is printed by its case.
ghost use Rattle.std.specs.Prelude.{◌<◌, ◌≤◌};

mod case;
mod drawn;
mod network;
mod paced;
mod session;

use anyhow::{Context, Result, ensure};
use case::RoundsCase;
use drawn::{Drawn, draw_session};
use paced::Paced;
use part_cases::tally::Tally;
use session::run_session;
use std::alloc::Global;
use std::sync::Wait;
use std::thread::Threads;
use swss_types::Open;

/// Runs the cases of these lines.
pub fn run(
    rt: &(impl Threads + Wait + Sync + Print),
    alloc: Global,
    lines: &[String],
) -> Result<Tally> {
    let mut tally = Tally::default();
    for line in lines {
        tally.count(passes(rt, alloc, line.as_str())?);
    }
    Ok(tally)
}

/// Whether a case comes to what is wanted. What differs is printed.
fn passes(rt: &(impl Threads + Wait + Sync + Print), alloc: Global, line: &str) -> Result<bool> {
    let case = RoundsCase::read(alloc, line).context(line)?;
    match run_case(rt, alloc, &case) {
        Ok(()) => Ok(true),
        Err(error) => {
            println!(rt; "{line}: {error:?}")?;
            Ok(false)
        }
    }
}

/// Runs a case. It fails where something is found that is not wanted.
fn run_case(rt: &(impl Threads + Wait + Sync), alloc: Global, case: &RoundsCase) -> Result<()>
    requires { (0 < case.now.workers) × (case.now.workers ≤ 4) }
{
    let drawn = draw_session(alloc, case.seed, case.count)?;
    let none = Vec::new(alloc);
    let wanted = run_session(rt, alloc, &drawn.text, none, 1, &Open).context(
        "one worker, no failed call",
    )?;
    let gate = Paced::new(case.seed);
    let Drawn { text, fails } = drawn;
    let found = run_session(rt, alloc, &text, fails, case.workers, &gate)?;
    ensure!(found.len() == wanted.len(), "another number of rounds");
    let pairs = found.iter().zip(wanted.iter());
    for (number, (found, wanted)) in pairs.enumerate() {
        ensure!(found == wanted, "round {number}: other things stand");
    }
    Ok(())
}
