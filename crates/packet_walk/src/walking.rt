// Packets walked by workers beside each other.
ghost use Rattle.std.specs.Prelude.{◌≡◌, ◌≤◌, ◌<◌, List, IfOk, map};
ghost use Rattle.std.specs.List.{AllByRecursion};
ghost use Rattle.sai_types.specs.Forwarding.{forward};
ghost use Rattle.sai_types.specs.declared.thing.Thing.{Thing};
ghost use Rattle.sai_chip.specs.Forward.{answer_of};
ghost use Rattle.packet_walk.specs.Tables.{AreTablesOf, answer};
ghost use Rattle.packet_walk.specs.Walk.{HasAnswers, joined_parts, part_of, part_start};

use crate::fib::Fib;
use sai_chip::Forward;
use std::alloc::Global;
use std::thread;
use std::thread::Threads;
use swss_types::{Gate, OutOfMemory, Packet};

/// The number of the first worker as an actor of the gate.
const FIRST_WALKER: u32 = 32;

/// Where each packet goes, in the order of the packets, walked over the table by so many workers beside each other, 1 to 4.
/// Each has a part of them that follows that of the worker before it; the sizes of the parts differ by at most one, larger ones
/// first. A worker w pauses at the gate as actor 32 + w after each of its packets, which are numbered from 0. Where no thread
/// can be made the parts are walked one after another.
pub fn walk<R: Threads + Sync, G: Gate + Sync>(
    rt: &R,
    alloc: Global,
    fib: &Fib,
    packets: &[Packet],
    workers: u32,
    gate: &G,
) -> Result<Vec<Forward>, OutOfMemory>
    requires workers { (1 ≤ workers) × (workers ≤ 4) }
    ensures { IfOk result (λ answers. (things : List Thing) → AreTablesOf things fib.now → answers.items ≡ map (λ a. answer_of (forward things a)) packets.now) }
{
    let count = workers as usize;
    let part = |worker: usize| -> Result<Vec<Forward>, OutOfMemory>
        requires { (worker < count) × (count ≤ 4) }
        ensures { IfOk result (λ answers. answers.items ≡ map (answer fib.entry.now) (part_of packets.entry.now count worker)) }
    { walk_part(alloc, fib, packets, count, worker, gate) };
    let parts = thread::map_indices(rt, alloc, count, &part)?;
    joined_parts(alloc, parts)
}

/// Where the packets of a worker's part go, in order.
fn walk_part<G: Gate + Sync>(
    alloc: Global,
    fib: &Fib,
    packets: &[Packet],
    workers: usize,
    worker: usize,
    gate: &G,
) -> Result<Vec<Forward>, OutOfMemory>
    requires worker { (worker < workers) × (workers ≤ 4) }
    ensures { IfOk result (λ answers. answers.items ≡ map (answer fib.now) (part_of packets.now workers worker)) }
{
    let start = part_start(packets.len(), workers, worker);
    let end = part_start(packets.len(), workers, worker + 1);
    let actor = FIRST_WALKER + worker as u32;
    let mut answers = Vec::new(alloc);
    for (step, packet) in packets[start..end].iter().enumerate() {
        answers.push(fib.answer(packet)?)?;
        gate.pause(actor, step as u64);
    }
    Ok(answers)
}

/// Where the part of a worker begins among this many packets.
fn part_start(count: usize, workers: usize, worker: usize) -> usize
    requires { (worker ≤ workers) × (0 < workers) }
    ensures { result ≡ part_start count workers worker }
{
    worker * (count / workers) + worker.min(count % workers)
}

/// The answers of the parts, one part behind the other.
fn joined_parts(
    alloc: Global,
    parts: Vec<Result<Vec<Forward>, OutOfMemory>>,
) -> Result<Vec<Forward>, OutOfMemory>
    ensures { IfOk result (λ all. (all.items ≡ joined_parts parts.items) × AllByRecursion HasAnswers parts.items) }
{
    let mut all = Vec::new(alloc);
    for part in parts {
        all.append(&mut part?)?;
    }
    Ok(all)
}
