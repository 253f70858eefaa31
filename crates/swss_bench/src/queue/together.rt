// Four producers beside each other.
ghost use Rattle.std.specs.Prelude.{◌≡◌, ◌+◌, ◌<◌, All};
ghost use Rattle.intake_queue.specs.ReadWrites.{IsReadWrite};
ghost use Rattle.swss_bench.specs.Ready.{CanSend, IsQueueReady, SentOne};

use crate::queue::PORTS;
use crate::queue::locked::Locked;
use crate::queue::name::IntakeName;
use crate::timing::print_time;
use anyhow::Result;
use intake_queue::{Full, Intake, Made, Pass};
use std::alloc::Global;
use std::marker::Brand;
use std::sync::{Mutex, Wait};
use std::thread;
use std::thread::Threads;
use std::time::{Clock, Instant};
use table_schema::{Key, Write};

/// How many writes a producer takes that finds the queue full.
const BATCH: u64 = 128;

/// Four producers send so many writes, in tenths.
#[tactic(auto, using(crate::proofs::Readies::new_ready))]
pub fn time_together<R: Threads + Wait + Sync + Print + Eprint + Clock>(
    rt: &R,
    alloc: Global,
    number: u32,
) -> Result<()> {
    let made = Intake::new(alloc, 4)?;
    let taken = send_all::<R, Brand>(rt, made, number)?;
    println!(rt; "{number} together: {taken} taken")?;
    Ok(())
}

/// Sends them by the passes of a new intake. It tells how many were taken.
fn send_all<R: Threads + Wait + Sync + Eprint + Clock, J: IntakeName + Send + Sync>(
    rt: &R,
    made: Made,
    number: u32,
) -> Result<u64>
    requires name { (made.intake ≡ J.intake) × (made.taker.intake ≡ J.intake) }
    requires ready { All (λ s. IsQueueReady made.intake 0 s) made.passes.items }
{
    let Made {
        intake,
        mut passes,
        taker,
    } = made;
    let locked = Mutex::new(Locked::<J>::new(taker));
    let sent = send_tenths(rt, &intake, &locked, passes.as_mut_slice(), number / 40);
    let mut locked = locked.into_inner();
    locked.take_some(rt, &intake, 1024);
    sent.and(Ok(locked.taken()))
}

/// Each producer sends so many writes ten times over.
fn send_tenths<R: Threads + Wait + Sync + Eprint + Clock, J: IntakeName + Send + Sync>(
    rt: &R,
    intake: &Intake,
    locked: &Mutex<Locked<J>>,
    passes: &mut [Pass],
    each: u32,
) -> Result<()>
    requires name { intake.now ≡ J.intake }
    requires ready { All (λ s. IsQueueReady intake.now 0 s) passes.old }
{
    for tenth in 0..10u64 {
        let start = Instant::now(rt)?;
        send_tenth(rt, intake, locked, passes, tenth, each);
        print_time(rt, start, each.saturating_mul(4), "writes together")?;
    }
    Ok(())
}

/// Each producer sends so many writes, beside the others.
fn send_tenth<R: Threads + Wait + Sync, J: IntakeName + Send + Sync>(
    rt: &R,
    intake: &Intake,
    locked: &Mutex<Locked<J>>,
    passes: &mut [Pass],
    tenth: u64,
    each: u32,
)
    requires name { intake.now ≡ J.intake }
    requires tenth { tenth < 10 }
    requires ready { All (λ s. IsQueueReady intake.now tenth s) passes.old }
    ensures { All (λ s. IsQueueReady intake.now (tenth + 1) s) passes.new }
{
    thread::for_each_mut(
        rt,
        passes,
        4,
        &|_, pass| { send_some(rt, intake, locked, pass, tenth, each) },
    );
}

/// Sends so many writes.
#[tactic(auto, using(crate::proofs::Readies::port_deletion_read))]
fn send_some<R: Wait, J: IntakeName>(
    rt: &R,
    intake: &Intake,
    locked: &Mutex<Locked<J>>,
    pass: &mut Pass,
    tenth: u64,
    each: u32,
)
    requires name { intake.now ≡ J.intake }
    requires tenth { tenth < 10 }
    requires ready { IsQueueReady intake.now tenth pass.old }
    ensures { IsQueueReady intake.now (tenth + 1) pass.new }
{
    for number in 0..each {
        send_one(
            rt,
            intake,
            locked,
            pass,
            Write::Del(Key::Port(number % PORTS)),
        );
    }
}

/// Sends a write. While the queue is full, it takes some under the lock.
fn send_one<R: Wait, J: IntakeName>(
    rt: &R,
    intake: &Intake,
    locked: &Mutex<Locked<J>>,
    pass: &mut Pass,
    mut write: Write,
)
    requires name { intake.now ≡ J.intake }
    requires ready { CanSend intake.now pass.old }
    requires read { IsReadWrite write }
    ensures { SentOne pass.old pass.new }
{
    for _ in rt.forever() {
        match pass.send(rt, intake, write) {
            Ok(()) => return,
            Err(Full(back)) => write = back,
        }
        locked.lock(rt).take_some(rt, intake, BATCH);
    }
    unreachable!()
}
