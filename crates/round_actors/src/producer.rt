// What a producer does.
ghost use Rattle.std.specs.Prelude.{◌≡◌, ◌+◌, ◌<◌, ◌^◌, [], ◌∷◌, length, false, MatchBool};
ghost use Rattle.intake_queue.specs.ReadWrites.{IsReadWrite};
ghost use Rattle.intake_queue.specs.Values.{with_sent};
ghost use Rattle.round_actors.specs.Acts.{CanAct, HasActed, HasStopped, HasProduced, IsReadyProducer, own_acts, section_acts};

use crate::actor::Producer;
use crate::answers::Kept;
use crate::name::{RoundName, Stops};
use crate::round_value::RoundValue;
use intake_queue::{Full, Intake, Pass};
use std::sync::ledger::Share;
use std::sync::{Mutex, Wait};
use swss_script::{Act, Section};
use swss_types::Gate;
use table_schema::Write;

/// How many messages a producer takes that finds the queue full.
const BATCH: u64 = 128;

/// The gate's number of producer 0.
const FIRST_PRODUCER: u32 = 16;

/// Takes some messages, by who holds the lock. False where a refusal is kept: then a stop is booked.
fn drain<R: Wait, J: RoundName, V: RoundValue<J>>(
    rt: &R,
    intake: &Intake,
    value: &mut V,
    stops: &mut Share<Stops<J>>,
) -> bool
    requires name { intake.now ≡ J.intake }
    requires part { 0 < stops.old.parts }
    ensures parts { stops.new.parts ≡ stops.old.parts }
    ensures stops { result ≡ false → 0 < stops.new.amount }
{
    match value.drain(rt, intake, BATCH) {
        Kept::Nothing => true,
        _ => {
            value.book_stop(stops);
            false
        }
    }
}

/// Sends a write. While the queue is full, it takes some under the lock. False where a refusal is kept: then the write was not
/// sent, and a stop is booked.
fn send<R: Wait, J: RoundName, V: RoundValue<J>>(
    rt: &R,
    intake: &Intake,
    shared: &Mutex<V>,
    pass: &mut Pass,
    stops: &mut Share<Stops<J>>,
    mut write: Write,
) -> bool
    requires name { intake.now ≡ J.intake }
    requires here { pass.old.queue ≡ intake.now.queue }
    requires few { length pass.old.sent < 2 ^ 62 }
    requires read { IsReadWrite write }
    requires part { 0 < stops.old.parts }
    ensures sent { MatchBool result (pass.new ≡ with_sent pass.old write) (pass.new ≡ pass.old) }
    ensures parts { stops.new.parts ≡ stops.old.parts }
    ensures stops { result ≡ false → 0 < stops.new.amount }
{
    for _ in rt.forever() {
        match pass.send(rt, intake, write) {
            Ok(()) => return true,
            Err(Full(back)) => write = back,
        }
        let mut value = shared.lock(rt);
        if !drain::<R, J, V>(rt, intake, &mut value, stops) {
            return false;
        }
    }
    unreachable!()
}

/// Keeps want of memory and books a stop, by who holds the lock.
fn no_memory<J: RoundName, V: RoundValue<J>>(value: &mut V, stops: &mut Share<Stops<J>>)
    requires part { 0 < stops.old.parts }
    ensures parts { stops.new.parts ≡ stops.old.parts }
    ensures stops { 0 < stops.new.amount }
{
    value.no_memory();
    value.book_stop(stops);
}

/// Sends a copy of a write. False where a refusal is kept: then it was not sent, and a stop is booked.
fn send_copy<R: Wait, J: RoundName, V: RoundValue<J>>(
    rt: &R,
    intake: &Intake,
    shared: &Mutex<V>,
    pass: &mut Pass,
    stops: &mut Share<Stops<J>>,
    write: &Write,
) -> bool
    requires name { intake.now ≡ J.intake }
    requires here { pass.old.queue ≡ intake.now.queue }
    requires few { length pass.old.sent < 2 ^ 62 }
    requires read { IsReadWrite write.now }
    requires part { 0 < stops.old.parts }
    ensures sent { MatchBool result (pass.new ≡ with_sent pass.old write.now) (pass.new ≡ pass.old) }
    ensures parts { stops.new.parts ≡ stops.old.parts }
    ensures stops { result ≡ false → 0 < stops.new.amount }
{
    match write.copy() {
        Ok(copy) => send::<R, J, V>(rt, intake, shared, pass, stops, copy),
        Err(_) => {
            let mut value = shared.lock(rt);
            no_memory::<J, V>(&mut value, stops);
            false
        }
    }
}

/// Restarts, by who holds the lock. False where a refusal is kept: then no restart was made, and a stop is booked.
fn restart<J: RoundName, V: RoundValue<J>>(
    value: &mut V,
    restarts: &mut Share<J>,
    stops: &mut Share<Stops<J>>,
) -> bool
    requires part { (0 < restarts.old.parts) × (0 < stops.old.parts) }
    ensures parts { (restarts.new.parts ≡ restarts.old.parts) × (stops.new.parts ≡ stops.old.parts) }
    ensures made { MatchBool result (restarts.new.amount ≡ restarts.old.amount + 1) (restarts.new.amount ≡ restarts.old.amount) }
    ensures stops { result ≡ false → 0 < stops.new.amount }
{
    match value.restart(restarts) {
        Kept::Nothing => true,
        _ => {
            value.book_stop(stops);
            false
        }
    }
}

/// Makes an act. False where a refusal is kept: then it was not made, and a stop is booked.
fn act<R: Wait, J: RoundName, V: RoundValue<J>>(
    rt: &R,
    intake: &Intake,
    shared: &Mutex<V>,
    me: &mut Producer<J>,
    act: &Act,
) -> bool
    requires name { intake.now ≡ J.intake }
    requires may { CanAct intake.now (act.now ∷ []) me.old }
    ensures made { MatchBool result (HasActed (act.now ∷ []) me.old me.new) (HasActed [] me.old me.new) }
    ensures stops { result ≡ false → 0 < me.new.stops.amount }
{
    match act {
        Act::Write(write) => send_copy::<R, J, V>(
            rt,
            intake,
            shared,
            &mut me.pass,
            &mut me.stops,
            write,
        ),
        Act::Restart => {
            let mut value = shared.lock(rt);
            restart::<J, V>(&mut value, &mut me.restarts, &mut me.stops)
        }
    }
}

/// Makes acts, and pauses after each. False where a refusal is kept: then a front of them was made, and a stop is booked.
fn act_all<R: Wait, J: RoundName, V: RoundValue<J>, G: Gate>(
    rt: &R,
    intake: &Intake,
    shared: &Mutex<V>,
    gate: &G,
    me: &mut Producer<J>,
    acts: &[Act],
    step: &mut u64,
) -> bool
    requires name { intake.now ≡ J.intake }
    requires may { CanAct intake.now acts.now me.old }
    ensures { MatchBool result (HasActed acts.now me.old me.new) (HasStopped acts.now me.old me.new) }
{
    for one in acts {
        let made = act::<R, J, V>(rt, intake, shared, me, one);
        gate.pause(FIRST_PRODUCER + me.number, *step);
        *step = step.saturating_add(1);
        if !made {
            return false;
        }
    }
    true
}

/// Makes the acts of a section, where it is its own. False where a refusal is kept: then a front of them was made, and a stop is
/// booked.
fn act_section<R: Wait, J: RoundName, V: RoundValue<J>, G: Gate>(
    rt: &R,
    intake: &Intake,
    shared: &Mutex<V>,
    gate: &G,
    me: &mut Producer<J>,
    section: &Section,
    step: &mut u64,
) -> bool
    requires name { intake.now ≡ J.intake }
    requires may { CanAct intake.now (section_acts me.old.number section.now) me.old }
    ensures { MatchBool result (HasActed (section_acts me.old.number section.now) me.old me.new) (HasStopped (section_acts me.old.number section.now) me.old me.new) }
{
    if section.producer != me.number {
        return true;
    }
    act_all::<R, J, V, G>(rt, intake, shared, gate, me, section.acts.items(), step)
}

/// Makes the acts of its sections, in order. False where a refusal is kept: then a front of them was made, and a stop is booked.
fn act_sections<R: Wait, J: RoundName, V: RoundValue<J>, G: Gate>(
    rt: &R,
    intake: &Intake,
    shared: &Mutex<V>,
    gate: &G,
    me: &mut Producer<J>,
    sections: &[Section],
) -> bool
    requires name { intake.now ≡ J.intake }
    requires may { CanAct intake.now (own_acts me.old.number sections.now) me.old }
    ensures { MatchBool result (HasActed (own_acts me.old.number sections.now) me.old me.new) (HasStopped (own_acts me.old.number sections.now) me.old me.new) }
{
    let mut step = 0;
    for section in sections {
        let made = act_section::<R, J, V, G>(rt, intake, shared, gate, me, section, &mut step);
        if !made {
            return false;
        }
    }
    true
}

/// A producer makes the acts of its sections, or a front of them where a refusal is kept, and ends.
pub fn produce<R: Wait, J: RoundName, V: RoundValue<J>, G: Gate>(
    rt: &R,
    intake: &Intake,
    shared: &Mutex<V>,
    gate: &G,
    me: &mut Producer<J>,
    sections: &[Section],
)
    requires name { intake.now ≡ J.intake }
    requires ready { IsReadyProducer intake.now sections.now me.old }
    ensures { HasProduced sections.now me.old me.new }
{
    act_sections::<R, J, V, G>(rt, intake, shared, gate, me, sections);
    shared.lock(rt).producer_ended();
}
