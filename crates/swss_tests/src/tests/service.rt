// A service that runs the rounds of a script.
ghost use Rattle.std.specs.Prelude.{◌<◌, ◌≤◌};

use orch_core::Settled;
use sai_chip::{Replay, SimChip, named};
use sai_types::Thing;
use std::alloc::Global;
use std::mem::drop;
use std::process::Abort;
use std::sync::Wait;
use std::thread::Threads;
use swss_report::{RoundEnd as EndedRound, round_lines};
use swss_script::{Script, Show};
use swss_service::{Locked, RoundEnd, Rounded, ScriptRounds};
use swss_types::Gate;

/// What a round leaves that settled all.
#[derive(Drop)]
pub struct Left {
    /// How many writes were taken.
    pub writes: usize,
    /// How many rows the tables have.
    pub rows: usize,
    /// What stands on the chip.
    pub things: Vec<Thing>,
    /// The round's lines, with the chip and the tables.
    pub lines: Vec<u8>,
}

/// Runs the rounds of a script on a new core and a new chip, by so many workers.
pub fn run_rounds<R: Threads + Wait + Sync + Abort, G: Gate + Sync>(
    rt: &R,
    alloc: Global,
    text: &[u8],
    workers: u32,
    gate: &G,
) -> Rounded<SimChip>
    requires { (0 < workers) × (workers ≤ 4) }
{
    let Script {
        plan,
        caps,
        producers,
        rounds,
        ..
    } = Script::read(alloc, text)
        .expect(rt, "memory")
        .expect(rt, "a script");
    let rounds = ScriptRounds::of(&producers, rounds);
    let chip = SimChip::new(alloc, caps, Vec::new(alloc));
    let mut rounded = Rounded {
        locked: Locked::begin(alloc, plan, caps, 1000, chip),
        end: RoundEnd::Ran(Settled::Settled),
    };
    for at in 0..rounds.len() {
        let Rounded { locked, end: _ } = rounded;
        rounded = rounds.run(rt, alloc, locked, at, workers, gate);
    }
    rounded
}

/// What the round of a script leaves, run by so many workers. It settles all.
pub fn settle_round<R: Threads + Wait + Sync + Abort, G: Gate + Sync>(
    rt: &R,
    alloc: Global,
    text: &[u8],
    workers: u32,
    gate: &G,
) -> Left
    requires { (0 < workers) × (workers ≤ 4) }
{
    let Rounded { locked, end } = run_rounds(rt, alloc, text, workers, gate);
    assert!(rt; end == RoundEnd::Ran(Settled::Settled), "{end:?}");
    let left = look(rt, alloc, &locked);
    drop(locked);
    left
}

/// What there is behind a round.
fn look<R: Abort>(rt: &R, alloc: Global, locked: &Locked<SimChip>) -> Left {
    let core = locked.core();
    let end = EndedRound {
        plan: core.plan(),
        number: 1,
        marks: core.log().marks(),
        taken: core.log().taken().len() as u64,
        rows: core.rows(),
        chip: locked.chip(),
        shows: &[Show::Chip, Show::Tables],
    };
    let objects = locked.chip().objects(alloc).expect(rt, "memory");
    Left {
        writes: core.log().taken().len(),
        rows: core.rows().len(),
        things: named(alloc, &objects).expect(rt, "memory"),
        lines: round_lines(alloc, &end, &mut Replay::new(alloc)).expect(rt, "memory"),
    }
}
