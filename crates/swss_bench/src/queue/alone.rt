// One thread.
ghost use Rattle.std.specs.Prelude.{◌≡◌, ◌+◌, ◌<◌};
ghost use Rattle.swss_bench.specs.Ready.{IsQueueReady};

use crate::queue::PORTS;
use crate::timing::print_time;
use anyhow::Result;
use intake_queue::{Full, Intake, Made, Pass, Taker};
use std::alloc::Global;
use std::sync::Wait;
use std::time::{Clock, Instant};
use table_schema::{Key, Write};

/// One thread sends and takes so many writes, in tenths.
#[tactic(auto, using(crate::proofs::Readies::new_ready))]
pub fn time_alone<R: Wait + Print + Eprint + Clock>(
    rt: &R,
    alloc: Global,
    number: u32,
) -> Result<()> {
    let Made {
        intake,
        mut passes,
        mut taker,
    } = Intake::new(alloc, 1)?;
    send_tenths(rt, &intake, &mut passes[0], &mut taker, number)
}

/// Sends and takes so many writes, a tenth after the other.
fn send_tenths<R: Wait + Print + Eprint + Clock>(
    rt: &R,
    intake: &Intake,
    pass: &mut Pass,
    taker: &mut Taker,
    number: u32,
) -> Result<()>
    requires taker { taker.old.intake ≡ intake.now }
    requires ready { IsQueueReady intake.now 0 pass.old }
{
    let each = number / 10;
    let mut taken = 0u64;
    for tenth in 0..10u64 {
        let start = Instant::now(rt)?;
        let more = send_and_take(rt, intake, pass, taker, tenth, each);
        taken = taken.saturating_add(more);
        print_time(rt, start, each, "writes alone")?;
    }
    println!(rt; "{number} alone: {taken} taken")?;
    Ok(())
}

/// Sends so many writes, and takes all whenever the queue is full and at the end. It tells how many it took.
#[tactic(auto, using(crate::proofs::Readies::port_deletion_read))]
fn send_and_take<R: Wait>(
    rt: &R,
    intake: &Intake,
    pass: &mut Pass,
    taker: &mut Taker,
    tenth: u64,
    each: u32,
) -> u64
    requires taker { taker.old.intake ≡ intake.now }
    requires tenth { tenth < 10 }
    requires ready { IsQueueReady intake.now tenth pass.old }
    ensures taker { taker.new.intake ≡ intake.now }
    ensures ready { IsQueueReady intake.now (tenth + 1) pass.new }
{
    let mut taken = 0u64;
    for number in 0..each {
        let write = Write::Del(Key::Port(number % PORTS));
        if let Err(Full(back)) = pass.send(rt, intake, write) {
            taken = taken.saturating_add(take_all(rt, intake, taker));
            let _ = pass.send(rt, intake, back);
        }
    }
    taken.saturating_add(take_all(rt, intake, taker))
}

/// Takes what is there. It tells how many it took.
fn take_all<R: Wait>(rt: &R, intake: &Intake, taker: &mut Taker) -> u64
    requires { taker.old.intake ≡ intake.now }
    ensures { taker.new.intake ≡ intake.now }
{
    for taken in 0..1024u64 {
        if taker.take(rt, intake).is_none() {
            return taken;
        }
    }
    1024
}
