// Rounds in which the queue is full.
ghost use Rattle.std.specs.Prelude.{◌<◌, ◌≤◌};
ghost use Rattle.round_actors.specs.Round.{AreSectionsOf};

use crate::service::PLACES;
use crate::service::held::Held;
use crate::timing::print_time;
use anyhow::{Result, ensure};
use orch_core::Settled;
use round_actors::trial_sections;
use sai_chip::SimChip;
use std::alloc::Global;
use std::mem::drop;
use std::sync::Wait;
use std::thread::Threads;
use std::time::{Clock, Instant};
use swss_script::{DEFAULT_CAPS, Section};
use swss_service::{Locked, RoundEnd, Rounded, round};
use swss_types::Gate;
use table_schema::PortPlan;

/// How many writes a producer makes in each of its two sections.
const WRITES: u32 = 600;

/// How many acts of the first producer fill the queue, since workers took at most one message each.
const ACTS: u64 = 1100;

/// So many rounds, each of a new service, in which one to four producers each send more than the queue holds, while two to four
/// workers are held.
pub fn time_full(
    rt: &(impl Threads + Wait + Sync + Print + Eprint + Clock),
    alloc: Global,
    number: u32,
) -> Result<()> {
    let start = Instant::now(rt)?;
    let (mut writes, mut met) = (0u64, 0u64);
    for count in 0..number {
        let (more, workers) = run_full(rt, alloc, count % 4 + 1, count % 3 + 2)?;
        writes = writes.saturating_add(more);
        met = met.saturating_add(workers);
    }
    print_time(rt, start, number, "full rounds")?;
    println!(rt; "{number} full: {writes} writes, {met} workers held")?;
    Ok(())
}

/// Such a round, with so many producers and workers. It tells how many writes were taken, and how many workers were held until the queue was
/// full.
fn run_full(
    rt: &(impl Threads + Wait + Sync + Clock),
    alloc: Global,
    producers: u32,
    workers: u32,
) -> Result<(u64, u64)>
    requires { (0 < producers) × (producers ≤ 4) × (0 < workers) × (workers ≤ 4) }
{
    let sections = trial_sections(alloc, producers, WRITES)?;
    let plan = PortPlan::new(alloc)?;
    let gate = Held::new(rt, ACTS);
    let (taken, end) = taken_by(rt, alloc, plan, sections.items(), producers, workers, &gate);
    ensure!(
        end == RoundEnd::Ran(Settled::Settled),
        "a round ends by {end:?}"
    );
    ensure!(
        taken == u64::from(producers) * 2 * u64::from(WRITES),
        "{taken} writes"
    );
    Ok((taken, gate.met()))
}

/// How many writes a new core takes in a round, and how that ends.
fn taken_by(
    rt: &(impl Threads + Wait + Sync),
    alloc: Global,
    plan: PortPlan,
    sections: &[Section],
    producers: u32,
    workers: u32,
    gate: &(impl Gate + Sync),
) -> (u64, RoundEnd)
    requires few { (producers ≤ 4) × (0 < workers) × (workers ≤ 4) }
    requires sections { AreSectionsOf producers sections.now }
{
    let chip = SimChip::new(alloc, DEFAULT_CAPS, Vec::new(alloc));
    let locked = Locked::begin(alloc, plan, DEFAULT_CAPS, PLACES, chip);
    let Rounded { locked, end } = round(rt, alloc, locked, sections, producers, workers, gate);
    let taken = locked.core().log().taken().len() as u64;
    // so its destructor is proved once
    drop(locked);
    (taken, end)
}
