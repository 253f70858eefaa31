// A round of routes, by one to four workers.
ghost use Rattle.std.specs.Prelude.{◌≡◌, ◌<◌, ◌≤◌, List, ℕ, IfOk, Ok, length};
ghost use Rattle.sai_types.specs.ChipState.{new_chip};
ghost use Rattle.swss_script.specs.Script.{script_of};

use crate::service::PLACES;
use crate::service::network::network_script;
use crate::service::slow::SlowChip;
use crate::timing::print_each;
use anyhow::{Result, bail, ensure};
use orch_core::Settled;
use sai_chip::SimChip;
use sai_types::{Chip, Kind};
use std::alloc::Global;
use std::io;
use std::mem::drop;
use std::sync::Wait;
use std::thread::Threads;
use std::time::{Clock, Duration, Instant};
use swss_script::Script;
use swss_service::{Locked, RoundEnd, Rounded, ScriptRounds};
use swss_types::Open;

/// How many microseconds the slow chip sleeps before a call.
const SLEEP: u64 = 100;

/// A round of so many routes on a chip that answers at once, by one worker and up to four.
pub fn time_routes(
    rt: &(impl Threads + Wait + Sync + Print + Eprint + Clock),
    alloc: Global,
    routes: u32,
) -> Result<()> {
    for workers in 1..5u32 {
        let script = read(alloc, routes)?;
        let chip = SimChip::new(alloc, script.caps, Vec::new(alloc));
        time_script(rt, alloc, "routes", script, chip, routes, workers)?;
    }
    Ok(())
}

/// The same on a chip that sleeps before each call.
pub fn time_slow(
    rt: &(impl Threads + Wait + Sync + Print + Eprint + Clock),
    alloc: Global,
    routes: u32,
) -> Result<()> {
    for workers in 1..5u32 {
        let script = read(alloc, routes)?;
        let chip = SimChip::new(alloc, script.caps, Vec::new(alloc));
        let chip = SlowChip::new(chip, rt, Duration::from_micros(SLEEP));
        time_script(rt, alloc, "slow", script, chip, routes, workers)?;
    }
    Ok(())
}

/// The script of two rounds, of which the second has so many routes.
fn read(alloc: Global, routes: u32) -> Result<Script>
    ensures { IfOk result (λ script. (bytes : List ℕ) × (script_of bytes ≡ Ok script)) }
{
    let text = network_script(alloc, routes)?;
    match Script::read(alloc, &text)? {
        Ok(script) => Ok(script),
        Err(refused) => bail!("the script is refused: {refused:?}"),
    }
}

/// Runs the two rounds of a script on a new core and this chip, and tells the time of the second for each of its routes.
fn time_script<C: Chip + Send + Drop>(
    rt: &(impl Threads + Wait + Sync + Print + Eprint + Clock),
    alloc: Global,
    name: &str,
    script: Script,
    chip: C,
    routes: u32,
    workers: u32,
) -> Result<()>
    requires workers { (0 < workers) × (workers ≤ 4) }
    requires read { (bytes : List ℕ) × (script_of bytes ≡ Ok script) }
    requires chip { C.state chip ≡ new_chip script.caps.0 (C.state chip).fails }
{
    let Script {
        plan,
        caps,
        producers,
        rounds,
        ..
    } = script;
    let rounds = ScriptRounds::of(&producers, rounds);
    ensure!(rounds.len() == 2, "two rounds");
    let locked = Locked::begin(alloc, plan, caps, PLACES, chip);
    let Ran {
        settle,
        elapsed,
        writes,
        made,
    } = run_both(rt, alloc, &rounds, locked, workers);
    ensure!(settle, "a round does not settle");
    print_each(rt, elapsed?, routes, name)?;
    println!(rt; "{routes} {name}: {workers} workers, {writes} writes, {made} made")?;
    Ok(())
}

/// What two rounds came to.
struct Ran {
    /// Whether both settled all.
    settle: bool,
    /// How long the second took.
    elapsed: io::Result<Duration>,
    /// How many writes were taken in both.
    writes: usize,
    /// How many routes stand.
    made: u64,
}

/// Runs two rounds: the first by one worker, and the second by so many.
fn run_both<C: Chip + Send + Drop>(
    rt: &(impl Threads + Wait + Sync + Clock),
    alloc: Global,
    rounds: &ScriptRounds,
    locked: Locked<C>,
    workers: u32,
) -> Ran
    requires rounds { length rounds.now ≡ 2 }
    requires workers { (0 < workers) × (workers ≤ 4) }
{
    let Rounded { locked, end: first } = rounds.run(rt, alloc, locked, 0, 1, &Open);
    let start = Instant::now(rt);
    let Rounded {
        locked,
        end: second,
    } = rounds.run(rt, alloc, locked, 1, workers, &Open);
    let elapsed = match start {
        Ok(start) => start.elapsed(rt),
        Err(error) => Err(error),
    };
    let settled = RoundEnd::Ran(Settled::Settled);
    let ran = Ran {
        settle: first == settled && second == settled,
        elapsed,
        writes: locked.core().log().taken().len(),
        made: locked.chip().used(Kind::Route),
    };
    // so its destructor is proved once
    drop(locked);
    ran
}
