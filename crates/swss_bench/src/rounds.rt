// The service: scripts that are read and run by one worker.
ghost use Rattle.std.specs.Prelude.{◌≡◌, List, ℕ, Ok};
ghost use Rattle.swss_script.specs.Script.{script_of};

mod scripts;

use crate::service::PLACES;
use crate::timing::print_time;
use anyhow::{Result, bail};
use orch_core::Settled;
use sai_chip::SimChip;
pub use scripts::{fields_script, rounds_script, waiting_script, writes_script};
use std::alloc::Global;
use std::mem::drop;
use std::sync::Wait;
use std::thread::Threads;
use std::time::{Clock, Instant};
use swss_script::Script;
use swss_service::{Locked, RoundEnd, Rounded, ScriptRounds};
use swss_types::Open;

/// Reads and runs a script of so many rounds or writes, and tells the time of each of them.
pub fn time_script(
    rt: &(impl Threads + Wait + Sync + Print + Eprint + Clock),
    alloc: Global,
    name: &str,
    number: u32,
    text: Vec<u8>,
) -> Result<()> {
    let start = Instant::now(rt)?;
    let script = match Script::read(alloc, &text)? {
        Ok(script) => script,
        Err(refused) => bail!("the script is refused: {refused:?}"),
    };
    let (writes, rounds) = run(rt, alloc, script);
    print_time(rt, start, number, name)?;
    println!(rt; "{number} {name}: {writes} writes, {rounds} rounds settled")?;
    Ok(())
}

/// Runs the rounds of a script up to the first that does not settle, and tells how many writes were taken and how many rounds
/// settled.
fn run(rt: &(impl Threads + Wait + Sync), alloc: Global, script: Script) -> (usize, usize)
    requires { (bytes : List ℕ) × (script_of bytes ≡ Ok script) }
{
    let chip = SimChip::new(alloc, script.caps, Vec::new(alloc));
    let Script {
        plan,
        caps,
        producers,
        rounds,
        ..
    } = script;
    let rounds = ScriptRounds::of(&producers, rounds);
    let mut locked = Locked::begin(alloc, plan, caps, PLACES, chip);
    let mut settled = 0;
    for at in 0..rounds.len() {
        let Rounded { locked: next, end } = rounds.run(rt, alloc, locked, at, 1, &Open);
        locked = next;
        if end != RoundEnd::Ran(Settled::Settled) {
            break;
        }
        settled = at + 1;
    }
    let writes = locked.core().log().taken().len();
    // so its destructor is proved once
    drop(locked);
    (writes, settled)
}
