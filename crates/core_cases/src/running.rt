// A case, run without workers and by workers.
ghost use Rattle.std.specs.Prelude.{◌<◌};

use crate::bench::Bench;
use crate::case::{Case, CaseRound};
use crate::words::read_write;
use crate::workers::{CaseWorkers, Order};
use anyhow::{Context, Result, bail, ensure};
use orch_core::{Settled, Step};
use part_cases::chip::way::other_way;
use part_cases::draw::Draw;
use part_cases::words::{key, wait};
use sai_chip::named;
use sai_types::Thing;
use std::alloc::Global;
use switch_model::Wait;
use table_schema::{Key, PortPlan};

/// Runs a case without workers, and then by each of its workers. It fails where something is found that is not wanted.
pub fn run_case(alloc: Global, case: &Case) -> Result<()> {
    let alone = CaseWorkers::none(alloc)?;
    let wanted = run(alloc, case, &alone).context("without workers")?;
    for workers in case.workers.as_slice() {
        let ends = run(alloc, case, workers).context(workers.line())?;
        ensure!(ends == wanted, "{}: other things stand", workers.line());
    }
    Ok(())
}

/// Runs a case on a new core and chip. It tells what stands at the end of each round.
fn run(alloc: Global, case: &Case, workers: &CaseWorkers) -> Result<Vec<Vec<Thing>>> {
    let plan = plan_of(alloc, case.ports.as_slice())?;
    let mut bench = Bench::new(alloc, plan, case.room);
    let ends = run_rounds(alloc, &mut bench, case.rounds.as_slice(), workers);
    bench.end();
    ends
}

/// The same on this core and chip.
fn run_rounds(
    alloc: Global,
    bench: &mut Bench,
    rounds: &[CaseRound],
    workers: &CaseWorkers,
) -> Result<Vec<Vec<Thing>>> {
    let mut draw = Draw::new(workers.seed());
    let mut ends = Vec::new(alloc);
    for round in rounds {
        run_round(alloc, bench, round, workers, &mut draw)?;
        ends.push(settle(alloc, bench, round)?)?;
    }
    Ok(ends)
}

/// Takes the writes of a round, and lets workers step.
fn run_round(
    alloc: Global,
    bench: &mut Bench,
    round: &CaseRound,
    workers: &CaseWorkers,
    draw: &mut Draw,
) -> Result<()> {
    match workers.order {
        Order::Turn(idle) => step_in_turn(alloc, bench, round, workers, idle),
        Order::Restarts => {
            step_in_turn(alloc, bench, round, workers, false)?;
            if bench.restart()?.is_err() {
                bail!("the log is full");
            }
            Ok(())
        }
        Order::Drawn(_) => step_as_drawn(alloc, bench, round, workers, draw),
    }
}

/// The plan of these ports.
fn plan_of(alloc: Global, ports: &[String]) -> Result<PortPlan> {
    let mut plan = PortPlan::new(alloc)?;
    for line in ports {
        if plan.put(line.as_str().as_bytes())?.is_err() {
            bail!("the port {}", line.as_str());
        }
    }
    Ok(plan)
}

/// Takes all writes of a round, and then lets workers step one after the other.
fn step_in_turn(
    alloc: Global,
    bench: &mut Bench,
    round: &CaseRound,
    workers: &CaseWorkers,
    idle: bool,
) -> Result<()> {
    take_all(alloc, bench, round.writes.as_slice())?;
    let mut idles = 0u64;
    for number in 0..workers.steps {
        idles = match step(bench, workers.at(number))? {
            Step::Idle => idles.saturating_add(1),
            _ => 0,
        };
    }
    ensure!(!idle || idles >= workers.count(), "a worker is not idle");
    Ok(())
}

/// Takes writes of a round and lets workers step, as it is drawn; then takes what is left of the writes.
fn step_as_drawn(
    alloc: Global,
    bench: &mut Bench,
    round: &CaseRound,
    workers: &CaseWorkers,
    draw: &mut Draw,
) -> Result<()> {
    // So many steps of each worker come to a write.
    let each = draw.pick(8).saturating_add(1);
    let lots = workers.count().saturating_mul(each).saturating_add(1);
    let mut taken = 0usize;
    for _ in 0..workers.steps {
        let lot = draw.pick(lots);
        match round.writes.get(taken) {
            Some(line) if lot == 0 => {
                take(alloc, bench, line.as_str())?;
                taken = taken.saturating_add(1);
            }
            _ => {
                step(bench, workers.at(lot))?;
            }
        }
    }
    let (_, left) = round.writes.split_at(taken.min(round.writes.len()));
    take_all(alloc, bench, left)
}

/// Takes these writes.
fn take_all(alloc: Global, bench: &mut Bench, lines: &[String]) -> Result<()> {
    for line in lines {
        take(alloc, bench, line.as_str())?;
    }
    Ok(())
}

/// Takes the write of a line.
fn take(alloc: Global, bench: &mut Bench, line: &str) -> Result<()> {
    let write = read_write(alloc, line).context(line)?;
    if bench.take(write)?.is_err() {
        bail!("the log is full");
    }
    Ok(())
}

/// Makes a step of a worker, which is an event or finds none that applies.
fn step(bench: &mut Bench, worker: u32) -> Result<Step>
    requires { worker < 4 }
{
    match bench.step(worker)? {
        Step::Did => Ok(Step::Did),
        Step::Idle => Ok(Step::Idle),
        other => bail!("a step answers {other:?}"),
    }
}

/// Settles, and looks at what the round is to come to. It tells what stands.
fn settle(alloc: Global, bench: &mut Bench, round: &CaseRound) -> Result<Vec<Thing>> {
    let settled = bench.settle()?;
    ensure!(settled == Settled::Settled, "{settled:?}");
    let waits = bench.waits().context("a mark of a settling")?;
    let waits = waits.items().len() as u64;
    ensure!(
        waits == round.waits,
        "{waits} keys wait for {}",
        round.waits
    );
    for line in round.facts.as_slice() {
        find(alloc, bench, line.as_str()).context(line.as_str())?;
    }
    look(alloc, bench, round)
}

/// Looks at how many objects stand. It tells what stands.
fn look(alloc: Global, bench: &Bench, round: &CaseRound) -> Result<Vec<Thing>> {
    let objects = bench.objects(alloc)?;
    let count = objects.len() as u64;
    ensure!(
        count == round.objects,
        "{count} objects for {}",
        round.objects
    );
    Ok(named(alloc, objects.as_slice())?)
}

/// Finds what a line wants at the end of a round.
fn find(alloc: Global, bench: &Bench, line: &str) -> Result<()> {
    let words = line.split_whitespace().collect::<Vec<&str>>(alloc)?;
    match words.as_slice() {
        ["waits", name, why @ ..] => {
            let why = wait(alloc, why)?;
            find_wait(bench, &key(alloc, name)?, &why)
        }
        ["goes", way @ ..] => find_way(alloc, bench, way),
        _ => bail!("no line of a case"),
    }
}

/// Finds that a key waits for this reason.
fn find_wait(bench: &Bench, key: &Key, why: &Wait) -> Result<()> {
    let waits = bench.waits().context("a mark of a settling")?;
    for (waiting, reason, _) in waits.items() {
        if waiting == key {
            ensure!(reason == why, "{reason:?}");
            return Ok(());
        }
    }
    bail!("it doesn't wait")
}

/// Finds that packets go as the words say.
fn find_way(alloc: Global, bench: &Bench, words: &[&str]) -> Result<()> {
    match other_way(alloc, bench.chip(), words)? {
        Some(found) => bail!("{}", found.as_str()),
        None => Ok(()),
    }
}
