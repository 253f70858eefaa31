// The actors of a round, run beside each other.
ghost use Rattle.std.specs.Prelude.{◌≡◌, ◌≢◌, ℕ, ◌+◌, ◌<◌, ◌≤◌, [], ◌∷◌, ◌++◌, length, slice_index_or, All, IfOk, vec_capacity};
ghost use Rattle.intake_queue.specs.Values.{AreAllPasses, AreNew, IsMet};
ghost use Rattle.round_actors.specs.declared.answers.Kept.TheVariants as keeps;
ghost use Rattle.round_actors.specs.Actors.{HasRun, HaveRun, MayRun, pass_of, passes_of, parts_of, parts_in, restarts_by, restarts_by_all, stops_by, stops_by_all};
ghost use Rattle.round_actors.specs.Round.{ActorsRan, AreSectionsOf};

use crate::actor::{Actor, Producer};
use crate::name::{RoundName, Stops};
use crate::round_value::RoundValue;
use crate::worker::run_actor;
use intake_queue::{Intake, Pass};
use std::alloc::Global;
use std::sync::ledger::Share;
use std::sync::{Mutex, Wait};
use std::thread;
use std::thread::Threads;
use swss_script::Section;
use swss_types::{Gate, OutOfMemory};

/// What came of a round's actors: the value, all passes, and the whole share of the restarts.
pub struct Ran<J: RoundName, V> {
    /// The value.
    pub value: V,
    /// All passes.
    pub passes: Vec<Pass>,
    /// The whole share of the restarts.
    pub restarts: Share<J>,
}

/// Room for the actors, and for their passes when they end.
fn room<J: RoundName>(
    alloc: Global,
    producers: usize,
    workers: u32,
) -> Result<(Vec<Actor<J>>, Vec<Pass>), OutOfMemory>
    requires { (producers ≤ 4) × (workers ≤ 4) }
    ensures actors { IfOk result (λ r. (r.0.items ≡ []) × (producers + workers ≤ vec_capacity r.0)) }
    ensures passes { IfOk result (λ r. (r.1.items ≡ []) × (producers ≤ vec_capacity r.1)) }
{
    let actors = Vec::with_capacity(alloc, producers + workers as usize)?;
    let passes = Vec::with_capacity(alloc, producers)?;
    Ok((actors, passes))
}

/// Lines the producers up, each with its pass and a part of each ledger, and the workers behind them.
fn line_up<J: RoundName>(
    _intake: &Intake,
    _sections: &[Section],
    actors: &mut Vec<Actor<J>>,
    passes: Vec<Pass>,
    restarts: &mut Share<J>,
    stops: &mut Share<Stops<J>>,
    workers: u32,
)
    requires room { (actors.old.items ≡ []) × (length passes.items + workers ≤ vec_capacity actors.old) }
    requires passes { AreNew _intake.now passes.items }
    requires few { (_intake.now.producers ≤ 4) × (workers ≤ 4) }
    requires sections { AreSectionsOf _intake.now.producers _sections.now }
    requires restarts { (_intake.now.producers ≤ restarts.old.parts) × (restarts.old.amount ≡ 0) }
    requires stops { (_intake.now.producers ≤ stops.old.parts) × (stops.old.amount ≡ 0) }
    ensures passes { passes_of actors.new.items ≡ passes.items }
    ensures may { All (λ a. MayRun _intake.now _sections.now workers a) actors.new.items }
    ensures restarts { (restarts.new.parts + parts_in actors.new.items ≡ restarts.old.parts) × (restarts.new.amount ≡ 0) }
    ensures stops { stops.new.amount ≡ 0 }
{
    let mut number = 0;
    for pass in passes {
        number += 1;
        let own_restarts = restarts.split_off(1, 0);
        let own_stops = stops.split_off(1, 0);
        actors.push_reserved(Actor::Producer(Producer {
            number,
            pass,
            restarts: own_restarts,
            stops: own_stops,
        }));
    }
    for worker in 0..workers {
        actors.push_reserved(Actor::Worker(worker));
    }
}

/// Runs all actors, beside each other where threads can be made.
fn run_each<
    R: Threads + Wait + Sync,
    J: RoundName + Send + Sync,
    V: RoundValue<J> + Send,
    G: Gate + Sync,
>(
    rt: &R,
    intake: &Intake,
    shared: &Mutex<V>,
    gate: &G,
    producers: u64,
    sections: &[Section],
    actors: &mut [Actor<J>],
)
    requires name { intake.now ≡ J.intake }
    requires may { All (λ a. MayRun intake.now sections.now V.workers a) actors.old }
    ensures { (i : ℕ) (d : _) → i < length actors.old → HasRun sections.now (slice_index_or actors.old i d) (slice_index_or actors.new i d) }
{
    let count = actors.len().max(1);
    thread::for_each_mut(
        rt,
        actors,
        count,
        &|_, actor| {
            run_actor::<R, J, V, G>(rt, intake, shared, gate, producers, sections, actor)
        },
    );
}

/// The same of a list of actors.
fn run_list<
    R: Threads + Wait + Sync,
    J: RoundName + Send + Sync,
    V: RoundValue<J> + Send,
    G: Gate + Sync,
>(
    rt: &R,
    intake: &Intake,
    shared: &Mutex<V>,
    gate: &G,
    producers: u64,
    sections: &[Section],
    actors: &mut Vec<Actor<J>>,
)
    requires name { intake.now ≡ J.intake }
    requires may { All (λ a. MayRun intake.now sections.now V.workers a) actors.old.items }
    ensures { HaveRun sections.now actors.old.items actors.new.items }
{
    run_each::<R, J, V, G>(
        rt,
        intake,
        shared,
        gate,
        producers,
        sections,
        actors.as_mut_slice(),
    );
}

/// Takes the pass and the shares of an actor back.
fn take_back<J: RoundName>(
    actor: Actor<J>,
    passes: &mut Vec<Pass>,
    restarts: &mut Share<J>,
    stops: &mut Share<Stops<J>>,
)
    requires room { length passes.old.items + length (pass_of actor) ≤ vec_capacity passes.old }
    ensures passes { passes.new.items ≡ passes.old.items ++ pass_of actor }
    ensures room { vec_capacity passes.new ≡ vec_capacity passes.old }
    ensures restarts { (restarts.new.parts ≡ restarts.old.parts + parts_of actor) × (restarts.new.amount ≡ restarts.old.amount + restarts_by actor) }
    ensures stops { stops.new.amount ≡ stops.old.amount + stops_by actor }
{
    match actor {
        Actor::Producer(producer) => {
            passes.push_reserved(producer.pass);
            restarts.merge(producer.restarts);
            stops.merge(producer.stops);
        }
        Actor::Worker(_) => {}
    }
}

/// Takes all passes and shares back.
fn take_all_back<J: RoundName>(
    actors: Vec<Actor<J>>,
    passes: &mut Vec<Pass>,
    restarts: &mut Share<J>,
    stops: &mut Share<Stops<J>>,
)
    requires room { (passes.old.items ≡ []) × (length (passes_of actors.items) ≤ vec_capacity passes.old) }
    ensures passes { passes.new.items ≡ passes_of actors.items }
    ensures restarts { (restarts.new.parts ≡ restarts.old.parts + parts_in actors.items) × (restarts.new.amount ≡ restarts.old.amount + restarts_by_all actors.items) }
    ensures stops { stops.new.amount ≡ stops.old.amount + stops_by_all actors.items }
{
    for actor in actors {
        take_back(actor, passes, restarts, stops);
    }
}

/// Learns from all passes and all shares what the producers sent, restarted and left.
fn learn<J: RoundName, V: RoundValue<J>>(
    intake: &Intake,
    value: &mut V,
    passes: &mut Vec<Pass>,
    restarts: &mut Share<J>,
    stops: &mut Share<Stops<J>>,
)
    requires name { intake.now ≡ J.intake }
    requires all { AreAllPasses intake.now passes.old.items }
    requires parts { restarts.old.parts ≡ J.parts }
    ensures stays { (value.new ≡ value.old) × (passes.new.items ≡ passes.old.items) }
    ensures met { IsMet (V.taker value.new) passes.old.items }
    ensures restarts { (restarts.new.parts ≡ J.parts) × (restarts.new.amount ≡ restarts.old.amount) × (V.restarts value.new ≡ restarts.old.amount) }
    ensures stops { V.refusal value.new ≡ keeps.Nothing → stops.old.amount ≡ 0 }
{
    value.audit_stops(stops);
    value.audit_restarts(restarts);
    value.meet(intake, passes);
}

/// Keeps want of memory.
fn refuse<J: RoundName, V: RoundValue<J>>(value: &mut V)
    ensures { V.refusal value.new ≢ keeps.Nothing }
{
    value.no_memory();
}

/// The producers make the acts of their sections, and the workers step, beside each other; then the value, all passes and all
/// shares are taken back.
pub fn run_actors<
    R: Threads + Wait + Sync,
    J: RoundName + Send + Sync,
    V: RoundValue<J> + Send,
    G: Gate + Sync,
>(
    rt: &R,
    alloc: Global,
    intake: &Intake,
    mut value: V,
    mut passes: Vec<Pass>,
    mut restarts: Share<J>,
    mut stops: Share<Stops<J>>,
    sections: &[Section],
    workers: u32,
    gate: &G,
) -> Ran<J, V>
    requires name { intake.now ≡ J.intake }
    requires passes { AreNew intake.now passes.items }
    requires few { (intake.now.producers ≤ 4) × (workers ≤ 4) × (workers ≤ V.workers) }
    requires sections { AreSectionsOf intake.now.producers sections.now }
    requires restarts { (restarts.parts ≡ J.parts) × (intake.now.producers ≤ J.parts) × (restarts.amount ≡ 0) }
    requires stops { (intake.now.producers ≤ stops.parts) × (stops.amount ≡ 0) }
    ensures ran { ActorsRan intake.now sections.now result.passes.items (V.taker result.value) (V.refusal result.value) (V.restarts result.value) }
    ensures restarts { (result.restarts.parts ≡ J.parts) × (result.restarts.amount ≡ V.restarts result.value) }
{
    match room::<J>(alloc, passes.len(), workers) {
        Ok((actors, back)) => run_with_room::<R, J, V, G>(
            rt, intake, value, passes, restarts, stops, sections, workers, gate, actors, back,
        ),
        Err(_) => {
            refuse::<J, V>(&mut value);
            learn::<J, V>(intake, &mut value, &mut passes, &mut restarts, &mut stops);
            Ran {
                value,
                passes,
                restarts,
            }
        }
    }
}

/// The same with room for the actors and the passes.
fn run_with_room<
    R: Threads + Wait + Sync,
    J: RoundName + Send + Sync,
    V: RoundValue<J> + Send,
    G: Gate + Sync,
>(
    rt: &R,
    intake: &Intake,
    value: V,
    passes: Vec<Pass>,
    mut restarts: Share<J>,
    mut stops: Share<Stops<J>>,
    sections: &[Section],
    workers: u32,
    gate: &G,
    mut actors: Vec<Actor<J>>,
    mut back: Vec<Pass>,
) -> Ran<J, V>
    requires name { intake.now ≡ J.intake }
    requires passes { AreNew intake.now passes.items }
    requires few { (intake.now.producers ≤ 4) × (workers ≤ 4) × (workers ≤ V.workers) }
    requires sections { AreSectionsOf intake.now.producers sections.now }
    requires restarts { (restarts.parts ≡ J.parts) × (intake.now.producers ≤ J.parts) × (restarts.amount ≡ 0) }
    requires stops { (intake.now.producers ≤ stops.parts) × (stops.amount ≡ 0) }
    requires actors { (actors.items ≡ []) × (length passes.items + workers ≤ vec_capacity actors) }
    requires back { (back.items ≡ []) × (length passes.items ≤ vec_capacity back) }
    ensures ran { ActorsRan intake.now sections.now result.passes.items (V.taker result.value) (V.refusal result.value) (V.restarts result.value) }
    ensures restarts { (result.restarts.parts ≡ J.parts) × (result.restarts.amount ≡ V.restarts result.value) }
{
    let producers = passes.len() as u64;
    line_up(
        intake,
        sections,
        &mut actors,
        passes,
        &mut restarts,
        &mut stops,
        workers,
    );
    let shared = Mutex::new(value);
    run_list::<R, J, V, G>(rt, intake, &shared, gate, producers, sections, &mut actors);
    let mut value = shared.into_inner();
    take_all_back(actors, &mut back, &mut restarts, &mut stops);
    learn::<J, V>(intake, &mut value, &mut back, &mut restarts, &mut stops);
    Ran {
        value,
        passes: back,
        restarts,
    }
}
