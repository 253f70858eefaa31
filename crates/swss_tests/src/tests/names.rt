// The registry and the room, call by call, as tables of steps and what they come to. `rt try --test --fail-alloc N` refuses
// the Nth allocation of the tests: a call that is refused memory says so and changes nothing, and the next try does it.
// Without the flag no allocation is refused.
ghost use Rattle.ref_counts.specs.Registered.{IsReadable};

use super::common::assert_shown;
use ref_counts::{Missing, Name, NameState, Registry, Room, put_names_are_found};
use sai_types::{Caps, Hops, KINDS, Kind, KindCounts, Vid};
use std::alloc::Global;
use std::process::Abort;
use switch_model::Wait;
use swss_types::OutOfMemory;
use table_schema::Key;

/// A call on the registry. Names and keys are known by their numbers.
#[derive(Clone, Copy)]
enum Step {
    /// The worker begins to build a name.
    Begin(u32, u16),
    /// The worker builds a name with so many identifiers, and makes it live.
    Build(u32, u16, usize),
    /// The worker pins two rows for a key.
    Pin(u32, u16, u16, u16),
    /// The worker gives up its pins: used or not.
    Release(u32, bool),
    /// A name gets a user.
    Add(u16, u16),
    /// A name loses a user.
    Take(u16, u16),
    /// The worker tries to retire a name.
    Retire(u32, u16),
    /// A name is gone.
    Gone(u16),
}

/// Identifiers of what is built.
const VIDS: [Vid; 3] = [Vid(1), Vid(2), Vid(3)];

/// Steps, each with why it is refused, if it is, and how the five names then stand: absent, building, live or retiring, by
/// which worker, with how many identifiers, and the least user.
const STEPS: [(Step, &str, &str); 27] = [
    (Step::Begin(1, 1), "None", "b1 - - - -"),
    (Step::Begin(2, 1), "Some(Busy(1))", "b1 - - - -"),
    (Step::Add(1, 9), "None", "b1:9 - - - -"),
    (Step::Build(0, 2, 3), "None", "b1:9 l#3 - - -"),
    (
        Step::Pin(1, 7, 2, 1),
        "Some(Missing(Vlan(1)))",
        "b1:9 l#3 - - -",
    ),
    (
        Step::Pin(1, 7, 3, 1),
        "Some(Missing(Vlan(3)))",
        "b1:9 l#3 - - -",
    ),
    (Step::Build(3, 3, 0), "None", "b1:9 l#3 l - -"),
    (Step::Build(3, 4, 1), "None", "b1:9 l#3 l l#1 -"),
    (Step::Build(3, 5, 2), "None", "b1:9 l#3 l l#1 l#2"),
    (Step::Pin(2, 7, 2, 3), "None", "b1:9 l#3 l l#1 l#2"),
    (Step::Pin(1, 8, 3, 3), "None", "b1:9 l#3 l l#1 l#2"),
    (Step::Retire(2, 3), "Some(Busy(1))", "b1:9 l#3 l l#1 l#2"),
    (Step::Retire(0, 3), "Some(Busy(1))", "b1:9 l#3 l l#1 l#2"),
    (Step::Retire(1, 2), "Some(Busy(2))", "b1:9 l#3 l l#1 l#2"),
    (Step::Add(2, 9), "None", "b1:9 l#3:9 l l#1 l#2"),
    (Step::Add(2, 6), "None", "b1:9 l#3:6 l l#1 l#2"),
    (
        Step::Retire(1, 2),
        "Some(Held(Vlan(6)))",
        "b1:9 l#3:6 l l#1 l#2",
    ),
    (Step::Release(2, true), "None", "b1:9 l#3:6 l:7 l#1 l#2"),
    (Step::Release(1, false), "None", "b1:9 l#3:6 l:7 l#1 l#2"),
    (Step::Take(2, 6), "None", "b1:9 l#3:7 l:7 l#1 l#2"),
    (Step::Take(2, 7), "None", "b1:9 l#3:9 l:7 l#1 l#2"),
    (Step::Take(2, 9), "None", "b1:9 l#3 l:7 l#1 l#2"),
    (Step::Retire(1, 2), "None", "b1:9 r1#3 l:7 l#1 l#2"),
    (Step::Begin(0, 2), "Some(Busy(1))", "b1:9 r1#3 l:7 l#1 l#2"),
    (
        Step::Pin(1, 7, 3, 2),
        "Some(Missing(Vlan(2)))",
        "b1:9 r1#3 l:7 l#1 l#2",
    ),
    (Step::Gone(2), "None", "b1:9 - l:7 l#1 l#2"),
    (Step::Gone(3), "None", "b1:9 - l:7 l#1 l#2"),
];

/// The name of a number.
fn name_of(alloc: Global, number: u16) -> Name {
    match number {
        4 => Name::BridgePort(4),
        5 => Name::Group(Hops::new(alloc)),
        _ => Name::Row(Key::Vlan(number)),
    }
}

/// The key of a number.
fn key(number: u16) -> Key
    ensures { IsReadable result }
{
    Key::Vlan(number)
}

/// The number of the name that a step is about, if it is about one.
fn number_of(step: Step) -> u16 {
    match step {
        Step::Begin(_, number) | Step::Build(_, number, _) | Step::Retire(_, number) => number,
        Step::Add(number, _) | Step::Take(number, _) | Step::Gone(number) => number,
        Step::Pin(..) | Step::Release(..) => 0,
    }
}

/// What an answer of the registry refuses.
fn refused(answer: Result<Result<(), Wait>, OutOfMemory>) -> Result<Option<Wait>, OutOfMemory> {
    match answer {
        Ok(Ok(())) => Ok(None),
        Ok(Err(wait)) => Ok(Some(wait)),
        Err(OutOfMemory) => Err(OutOfMemory),
    }
}

/// Begins to build a name, and makes it live with these identifiers.
fn build(
    registry: &mut Registry,
    worker: u32,
    name: &Name,
    vids: &[Vid],
) -> Result<Option<Wait>, OutOfMemory> {
    put_names_are_found();
    let copy = name.copy()?;
    if registry.live(&copy) {
        return Ok(None);
    }
    let answer = registry.start_build(worker, copy, vids.len() as u64);
    if let Ok(Ok(())) = answer {
        registry.built(worker, name, vids);
    }
    refused(answer)
}

/// Pins two rows for a key.
fn pin(
    registry: &mut Registry,
    worker: u32,
    user: u16,
    first: u16,
    second: u16,
) -> Result<Option<Wait>, OutOfMemory> {
    match registry.pin(worker, &key(user), &[key(first), key(second)]) {
        Ok(Ok(())) => Ok(None),
        Ok(Err(Missing(key))) => Ok(Some(Wait::Missing(key))),
        Err(OutOfMemory) => Err(OutOfMemory),
    }
}

/// Makes a step that is about a name or none, where its conditions hold.
fn take(registry: &mut Registry, step: Step, name: &Name) -> Result<Option<Wait>, OutOfMemory> {
    match step {
        Step::Begin(worker, _) => {
            let copy = name.copy()?;
            if !registry.live(&copy) {
                return refused(registry.start_build(worker, copy, 5));
            }
        }
        Step::Build(worker, _, ids) => {
            return build(registry, worker, name, VIDS.get(..ids).unwrap_or(&VIDS));
        }
        Step::Pin(worker, user, first, second) => return pin(registry, worker, user, first, second),
        Step::Release(worker, used) => registry.release(worker, used),
        Step::Add(_, user) => match registry.state(name) {
            NameState::Live | NameState::Building(_) => registry.add_user(name, key(user))?,
            _ => {}
        },
        Step::Take(_, user) => registry.drop_user(name, &key(user)),
        Step::Retire(worker, _) => {
            if registry.live(name) {
                return refused(Ok(registry.try_retire(worker, name)));
            }
        }
        Step::Gone(_) => registry.gone(name),
    }
    Ok(None)
}

/// Whether a name stands as it is told.
fn stands_as(registry: &Registry, name: &Name, told: &str) -> bool {
    let (front, user) = told.split_once(':').unwrap_or((told, ""));
    let (state, count) = front.split_once('#').unwrap_or((front, "0"));
    let is_state = match registry.state(name) {
        NameState::Absent => state == "-",
        NameState::Building(1) => state == "b1",
        NameState::Live => state == "l",
        NameState::Retiring(1) => state == "r1",
        _ => false,
    };
    let is_user = match registry.least_user(name) {
        Some(Key::Vlan(least)) => user.parse() == Ok(least),
        Some(_) => false,
        None => user.is_empty(),
    };
    is_state && is_user && count.parse() == Ok(registry.vids_of(name).len())
}

/// Whether the five names stand as it is told.
fn stand_as(alloc: Global, registry: &Registry, told: &str) -> bool {
    let mut number = 0u16;
    for word in told.split(' ') {
        number = number.saturating_add(1);
        if !stands_as(registry, &name_of(alloc, number), word) {
            return false;
        }
    }
    number == 5
}

/// Makes a step, and gives what it is refused. One that is refused memory changes nothing, and is made again.
fn take_at_last(
    rt: &impl Abort,
    alloc: Global,
    registry: &mut Registry,
    step: Step,
    name: &Name,
    before: &str,
) -> Option<Wait> {
    match take(registry, step, name) {
        Ok(refusal) => refusal,
        Err(_) => {
            assert!(rt; stand_as(alloc, registry, before), "still {before}");
            take(registry, step, name).expect(rt, "the next try")
        }
    }
}

/// Makes each step, and looks at the names behind it.
fn take_each(rt: &impl Abort, alloc: Global, registry: &mut Registry) {
    let mut before = "- - - - -";
    for (step, answer, after) in STEPS {
        let name = name_of(alloc, number_of(step));
        let refusal = take_at_last(rt, alloc, registry, step, &name, before);
        assert_shown(rt, alloc, answer, &refusal);
        assert!(rt; stand_as(alloc, registry, after), "{after}");
        before = after;
    }
}

#[test]
fn names_stand_as_the_steps_made_them(rt: HostRuntime) {
    let mut registry = Registry::new(rt.alloc());
    take_each(&rt, rt.alloc(), &mut registry);
}

/// A need of so many VLANs and routes.
fn need(vlans: u64, routes: u64) -> KindCounts {
    let mut need = [0; KINDS];
    need[Kind::Vlan.index()] = vlans;
    need[Kind::Route.index()] = routes;
    need
}

#[test]
fn room_is_reserved_by_worker(rt: HostRuntime) {
    let mut caps = [1_000; KINDS];
    caps[Kind::Vlan.index()] = 10;
    caps[Kind::Route.index()] = 4;
    let mut room = Room::new(Caps(caps));
    // The worker, what it needs and what is used, of VLANs and of routes, and the answer.
    let tries: [(u32, (u64, u64), (u64, u64), Option<Kind>); 7] = [
        (0, (4, 1), (3, 1), None),
        (1, (4, 1), (3, 1), Some(Kind::Vlan)),
        (1, (3, 1), (3, 1), None),
        (2, (0, 2), (90, 1), Some(Kind::Route)),
        (2, (0, 1), (90, 1), None),
        (3, (1, 1), (3, 1), Some(Kind::Vlan)),
        (0, (0, 0), (99, 99), None),
    ];
    for (worker, needed, used, answer) in tries {
        if worker < 4 {
            let told = room.reserve(worker, &need(needed.0, needed.1), &need(used.0, used.1));
            assert!(rt; told == answer, "the first kind that lacks room");
        }
    }
    room.give_back(0);
    assert!(rt;
        room.reserve(3, &need(4, 1), &need(3, 1)).is_none(),
        "what was given back"
    );
    assert!(rt;
        room.reserve(3, &need(1, 0), &need(3, 1)).is_some(),
        "and no more"
    );
}
