// What a worker does, and an actor.
ghost use Rattle.std.specs.Prelude.{◌≡◌, ◌<◌, false};
ghost use Rattle.round_actors.specs.Actors.{HasRun, MayRun};
ghost use Rattle.round_actors.specs.declared.answers.Kept.TheVariants as keeps;
ghost use Rattle.round_actors.specs.Workers.{goes_on_behind};

use crate::actor::Actor;
use crate::answers::Step;
use crate::name::RoundName;
use crate::producer::produce;
use crate::round_value::RoundValue;
use intake_queue::Intake;
use std::sync::{Mutex, Wait};
use std::thread;
use swss_script::Section;
use swss_types::{Gate, OutOfMemory};

/// Whether a worker goes on behind a step: something was done, or there was nothing to do and some producer has not ended.
fn goes_on(answer: Result<Step, OutOfMemory>, ended: u64, producers: u64) -> bool
    ensures { result ≡ goes_on_behind answer ended producers }
{
    match answer {
        Ok(Step::Did) => true,
        Ok(Step::Idle) => ended < producers,
        _ => false,
    }
}

/// A step, by who holds the lock. False where the worker ends with it, as it does where a refusal is kept.
#[tactic(auto, using(crate::proofs::Workers::ends_full, crate::proofs::Workers::ends_unfit))]
fn step<R: Wait, J: RoundName, V: RoundValue<J>>(
    rt: &R,
    intake: &Intake,
    value: &mut V,
    producers: u64,
    worker: u32,
) -> bool
    requires name { intake.now ≡ J.intake }
    requires worker { worker < V.workers }
    ensures full { V.refusal value.new ≡ keeps.LogFull → result ≡ false }
    ensures memory { V.refusal value.new ≡ keeps.NoMemory → result ≡ false }
{
    let answer = value.step(rt, intake, worker);
    goes_on(answer, value.ended(), producers)
}

/// A step in one hold of the lock.
fn step_locked<R: Wait, J: RoundName, V: RoundValue<J>>(
    rt: &R,
    intake: &Intake,
    shared: &Mutex<V>,
    producers: u64,
    worker: u32,
) -> bool
    requires name { intake.now ≡ J.intake }
    requires worker { worker < V.workers }
{
    let mut value = shared.lock(rt);
    step::<R, J, V>(rt, intake, &mut value, producers, worker)
}

/// A worker makes steps until it finds nothing to do while all producers ended, or must not go on.
fn work<R: Wait, J: RoundName, V: RoundValue<J>, G: Gate>(
    rt: &R,
    intake: &Intake,
    shared: &Mutex<V>,
    gate: &G,
    producers: u64,
    worker: u32,
)
    requires name { intake.now ≡ J.intake }
    requires worker { worker < V.workers }
{
    let mut number = 0u64;
    for _ in rt.forever() {
        let more = step_locked::<R, J, V>(rt, intake, shared, producers, worker);
        gate.pause(worker, number);
        number = number.saturating_add(1);
        if !more {
            break;
        }
        thread::yield_now();
    }
}

/// An actor runs to its end.
pub fn run_actor<R: Wait, J: RoundName, V: RoundValue<J>, G: Gate>(
    rt: &R,
    intake: &Intake,
    shared: &Mutex<V>,
    gate: &G,
    producers: u64,
    sections: &[Section],
    actor: &mut Actor<J>,
)
    requires name { intake.now ≡ J.intake }
    requires may { MayRun intake.now sections.now V.workers actor.old }
    ensures { HasRun sections.now actor.old actor.new }
{
    match actor {
        Actor::Producer(me) => produce::<R, J, V, G>(rt, intake, shared, gate, me, sections),
        Actor::Worker(worker) => work::<R, J, V, G>(rt, intake, shared, gate, producers, *worker),
    }
}
