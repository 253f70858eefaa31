// A session whose rounds are run one after the other.
ghost use Rattle.std.specs.Prelude.{◌≡◌, ◌<◌, ◌≤◌, List, ℕ, Ok, length};
ghost use Rattle.swss_script.specs.Script.{script_of};

use anyhow::{Result, bail, ensure};
use orch_core::Settled;
use sai_chip::{Fail, SimChip, named};
use sai_types::Thing;
use std::alloc::Global;
use std::mem::drop;
use std::sync::Wait;
use std::thread::Threads;
use switch_model::MarkEvent;
use swss_script::Script;
use swss_service::{Locked, RoundEnd, Rounded, ScriptRounds, round};
use swss_types::Gate;

/// How many places the log has.
const PLACES: u64 = 4_194_304;

/// A session that is yet to run.
#[derive(Drop)]
struct Session {
    locked: Locked<SimChip>,
    rounds: ScriptRounds,
}

/// Runs the rounds of a script on a new core and a new chip, which fails at these calls. It tells what stands at the end of each.
pub fn run_session<R: Threads + Wait + Sync, G: Gate + Sync>(
    rt: &R,
    alloc: Global,
    text: &[u8],
    fails: Vec<Fail>,
    workers: u32,
    gate: &G,
) -> Result<Vec<Vec<Thing>>>
    requires { (0 < workers) × (workers ≤ 4) }
{
    let most = fails.len();
    let session = read_session(alloc, text, fails)?;
    let mut ends = Vec::new(alloc);
    run_rounds(rt, alloc, session, workers, gate, most, &mut ends)?;
    Ok(ends)
}

/// The session of a script.
fn read_session(alloc: Global, text: &[u8], fails: Vec<Fail>) -> Result<Session> {
    match Script::read(alloc, text)? {
        Ok(script) => Ok(begin(alloc, script, fails)),
        Err(refused) => bail!("the script is refused: {refused:?}"),
    }
}

/// The session of a script that was read.
fn begin(alloc: Global, script: Script, fails: Vec<Fail>) -> Session
    requires read { (bytes : List ℕ) × (script_of bytes ≡ Ok script) }
{
    let Script {
        plan,
        caps,
        producers,
        rounds,
        ..
    } = script;
    let chip = SimChip::new(alloc, caps, fails);
    Session {
        locked: Locked::begin(alloc, plan, caps, PLACES, chip),
        rounds: ScriptRounds::of(&producers, rounds),
    }
}

/// Runs the rounds of a session, and adds what stands at the end of each.
fn run_rounds<R: Threads + Wait + Sync, G: Gate + Sync>(
    rt: &R,
    alloc: Global,
    session: Session,
    workers: u32,
    gate: &G,
    most: usize,
    ends: &mut Vec<Vec<Thing>>,
) -> Result<()>
    requires { (0 < workers) × (workers ≤ 4) }
{
    let Session { mut locked, rounds } = session;
    let mut told = Ok(());
    for at in 0..rounds.len() {
        if told.is_err() {
            break;
        }
        let rounded = rounds.run(rt, alloc, locked, at, workers, gate);
        let Rounded { locked: next, end } = mend(rt, alloc, rounded, workers, gate, most);
        locked = next;
        told = add_end(alloc, &locked, end, ends);
    }
    // so its destructor is proved once
    drop(locked);
    told
}

/// Runs a round of no writes behind each settling that met a call that fails, which are so many at most.
fn mend<R: Threads + Wait + Sync, G: Gate + Sync>(
    rt: &R,
    alloc: Global,
    rounded: Rounded<SimChip>,
    workers: u32,
    gate: &G,
    most: usize,
) -> Rounded<SimChip>
    requires few { (0 < workers) × (workers ≤ 4) }
{
    let Rounded {
        mut locked,
        mut end,
    } = rounded;
    for _ in 0..most {
        if end != RoundEnd::Ran(Settled::Faulted) {
            break;
        }
        let Rounded {
            locked: next,
            end: ended,
        } = round(rt, alloc, locked, &[], 1, workers, gate);
        locked = next;
        end = ended;
    }
    Rounded { locked, end }
}

/// Adds what stands behind a settling at which nothing waits.
fn add_end(
    alloc: Global,
    locked: &Locked<SimChip>,
    end: RoundEnd,
    ends: &mut Vec<Vec<Thing>>,
) -> Result<()> {
    ensure!(
        end == RoundEnd::Ran(Settled::Settled),
        "a round ends by {end:?}"
    );
    match locked.core().log().marks().last().map(|mark| &mark.event) {
        Some(MarkEvent::Settled { waits, .. }) => {
            let count = waits.items().len();
            ensure!(count == 0, "{count} keys wait");
        }
        _ => bail!("the last mark is none of a settling"),
    }
    let things = named(alloc, &locked.chip().objects(alloc)?)?;
    ends.push(things)?;
    Ok(())
}
