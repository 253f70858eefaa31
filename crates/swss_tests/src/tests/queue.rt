// What no clause says: a queue with room takes a write, one that holds writes gives one, and a full one refuses.
ghost use Rattle.std.specs.Prelude.{◌≡◌, ℕ, ◌+◌, ◌<◌, ◌≤◌, length, slice_index_or};
ghost use Rattle.swss_types.specs.declared.interface.TheConstants.{MOST_PORT};
ghost use Rattle.intake_queue.specs.Values.{Sender, AreAllPasses, AreNew};

use intake_queue::{Full, Intake, Made, Pass, Taker, close};
use std::alloc::Global;
use std::process::Abort;
use std::sync::Wait;
use swss_types::OutOfMemory;
use table_schema::{Key, Write};

/// Sends the write of a number by one of all passes, each of which sent at most so many.
fn send_by<R: Wait>(
    rt: &R,
    intake: &Intake,
    passes: &mut Vec<Pass>,
    at: usize,
    number: u32,
) -> Result<(), Full>
    requires at { at < length passes.old.items }
    requires all { AreAllPasses intake.now passes.old.items }
    requires few { (i : ℕ) (d : Sender) → i < length passes.old.items → length (slice_index_or passes.old.items i d).sent ≤ number }
    requires port { number ≤ MOST_PORT }
    ensures all { AreAllPasses intake.now passes.new.items }
    ensures few { (i : ℕ) (d : Sender) → i < length passes.new.items → length (slice_index_or passes.new.items i d).sent ≤ number + 1 }
{
    passes[at].send(rt, intake, Write::Del(Key::Port(number)))
}

/// The producers send by turns until the queue is full.
fn fill(rt: &(impl Wait + Abort), intake: &Intake, passes: &mut Vec<Pass>, producers: u32)
    requires producers { (0 < producers) × (intake.now.producers ≡ producers) }
    requires new { AreNew intake.now passes.old.items }
    ensures all { AreAllPasses intake.now passes.new.items }
    ensures few { (i : ℕ) (d : Sender) → i < length passes.new.items → length (slice_index_or passes.new.items i d).sent ≤ 1024 }
{
    for number in 0..1024u32 {
        let at = (number % producers) as usize;
        let sent = send_by(rt, intake, passes, at, number);
        assert!(rt; sent.is_ok(), "there is a place");
    }
}

/// Each producer finds the queue full, and has its write back.
fn find_full(rt: &(impl Wait + Abort), intake: &Intake, passes: &mut Vec<Pass>, producers: u32)
    requires producers { (producers ≤ 4) × (intake.now.producers ≡ producers) }
    requires all { AreAllPasses intake.now passes.old.items }
    requires few { (i : ℕ) (d : Sender) → i < length passes.old.items → length (slice_index_or passes.old.items i d).sent ≤ 1024 }
    ensures { AreAllPasses intake.now passes.new.items }
{
    for at in 0..producers {
        match send_by(rt, intake, passes, at as usize, 1024 + at) {
            Err(Full(Write::Del(Key::Port(number)))) => {
                assert!(rt; number == 1024 + at, "the write comes back")
            }
            _ => assert!(rt; false, "the queue is full"),
        }
    }
}

/// All is taken, in the order in which it was sent.
fn empty(rt: &(impl Wait + Abort), intake: &Intake, taker: &mut Taker, producers: u32)
    requires producers { (0 < producers) × (producers ≤ 4) }
    requires intake { taker.old.intake ≡ intake.now }
    ensures { taker.new.intake ≡ intake.now }
{
    for number in 0..1024u32 {
        match taker.take(rt, intake) {
            Some(sent) => assert!(rt;
                sent.from == number % producers + 1 && sent.number == u64::from(number / producers),
                "the order stays"
            ),
            None => assert!(rt; false, "there is a write"),
        }
    }
    assert!(rt; taker.take(rt, intake).is_none(), "nothing is left");
}

/// So many producers fill the queue, and all is taken.
fn fill_and_empty(
    rt: &(impl Wait + Abort),
    alloc: Global,
    producers: u32,
) -> Result<(), OutOfMemory>
    requires { (0 < producers) × (producers ≤ 4) }
{
    let Made {
        intake,
        mut passes,
        mut taker,
    } = Intake::new(alloc, producers)?;
    fill(rt, &intake, &mut passes, producers);
    find_full(rt, &intake, &mut passes, producers);
    empty(rt, &intake, &mut taker, producers);
    match taker.last(rt, &intake, &mut passes) {
        Some(_) => assert!(rt; false, "nothing is left at the end"),
        None => match close(alloc, intake, passes, taker) {
            Ok(closed) => {
                for (at, number) in closed.sent.items().iter().enumerate() {
                    let before = u64::from(producers).saturating_sub(1 + at as u64);
                    assert!(rt;
                        *number == (1024 + before) / u64::from(producers),
                        "the numbers sent"
                    );
                }
            }
            Err(_) => return Err(OutOfMemory),
        },
    }
    Ok(())
}

#[test]
fn a_full_queue_refuses(rt: HostRuntime) -> Result<(), OutOfMemory> {
    for producers in 1..5u32 {
        fill_and_empty(&rt, rt.alloc(), producers)?;
    }
    Ok(())
}
