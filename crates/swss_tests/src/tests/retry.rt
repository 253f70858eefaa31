// What waits with its reason, act by act, as a table. `rt try --test --fail-alloc N` refuses the Nth allocation of the tests:
// a call that is refused memory leaves the list as it was, and the next try does it. Without the flag no allocation is refused.
use super::common::is_vlan;
use retry_list::{Event, Retry};
use sai_types::Kind;
use std::alloc::Global;
use std::process::Abort;
use switch_model::Wait;
use swss_types::OutOfMemory;
use table_schema::{Key, has_colon, read_key};

/// A key that holds memory.
const OTHER: &str = "OTHER_TABLE:a-key-of-more-than-thirty-bytes";

/// A reason, and the event that it is about; None is an event that no key waits for.
#[derive(Clone, Copy)]
enum Why {
    None,
    Missing,
    Held,
    NoRoom,
    Busy,
    Other,
}

/// What is done to the VLAN of a number, or happens.
#[derive(Clone, Copy)]
enum Act {
    Put(u16, Why),
    Forget(u16),
    Woken(Why),
}

/// The keys that are woken or listed are VLANs, known by their numbers.
type Listed = &'static [(u16, Why)];

/// What is on the list in the middle of the acts.
const THREE: [(u16, Why); 3] = [(1, Why::Missing), (2, Why::Missing), (3, Why::Missing)];

const FOUR: [(u16, Why); 4] = [
    (0, Why::Busy),
    (1, Why::Missing),
    (2, Why::Missing),
    (3, Why::Missing),
];

const OTHERS: [(u16, Why); 4] = [
    (0, Why::NoRoom),
    (1, Why::Other),
    (4, Why::NoRoom),
    (5, Why::Other),
];

/// Acts, each with the keys that it wakes, and what is then on the list.
const ACTS: [(Act, &[u16], Listed); 23] = [
    (Act::Woken(Why::None), &[], &[]),
    (Act::Woken(Why::Missing), &[], &[]),
    (Act::Put(3, Why::Missing), &[], &[(3, Why::Missing)]),
    (
        Act::Put(1, Why::Missing),
        &[],
        &[(1, Why::Missing), (3, Why::Missing)],
    ),
    (
        Act::Put(2, Why::Held),
        &[],
        &[(1, Why::Missing), (2, Why::Held), (3, Why::Missing)],
    ),
    (
        Act::Put(3, Why::Missing),
        &[],
        &[(1, Why::Missing), (2, Why::Held), (3, Why::Missing)],
    ),
    (Act::Put(2, Why::Missing), &[], &THREE),
    (Act::Put(0, Why::Busy), &[], &FOUR),
    (Act::Woken(Why::Held), &[], &FOUR),
    (
        Act::Forget(3),
        &[],
        &[(0, Why::Busy), (1, Why::Missing), (2, Why::Missing)],
    ),
    (
        Act::Forget(3),
        &[],
        &[(0, Why::Busy), (1, Why::Missing), (2, Why::Missing)],
    ),
    (Act::Woken(Why::Missing), &[1, 2], &[(0, Why::Busy)]),
    (Act::Woken(Why::Missing), &[], &[(0, Why::Busy)]),
    (
        Act::Put(5, Why::Other),
        &[],
        &[(0, Why::Busy), (5, Why::Other)],
    ),
    (
        Act::Put(4, Why::NoRoom),
        &[],
        &[(0, Why::Busy), (4, Why::NoRoom), (5, Why::Other)],
    ),
    (
        Act::Put(1, Why::Other),
        &[],
        &[
            (0, Why::Busy),
            (1, Why::Other),
            (4, Why::NoRoom),
            (5, Why::Other),
        ],
    ),
    (Act::Put(0, Why::NoRoom), &[], &OTHERS),
    (Act::Woken(Why::Busy), &[], &OTHERS),
    (Act::Woken(Why::None), &[], &OTHERS),
    (
        Act::Woken(Why::NoRoom),
        &[0, 4],
        &[(1, Why::Other), (5, Why::Other)],
    ),
    (
        Act::Put(5, Why::Held),
        &[],
        &[(1, Why::Other), (5, Why::Held)],
    ),
    (Act::Woken(Why::Other), &[1], &[(5, Why::Held)]),
    (Act::Woken(Why::Held), &[5], &[]),
];

/// A key that holds memory.
fn other(rt: &impl Abort, alloc: Global) -> Key {
    assert!(rt; has_colon(OTHER.as_bytes()), "a colon");
    match read_key(alloc, OTHER.as_bytes()) {
        Ok(key) => key,
        Err(_) => read_key(alloc, OTHER.as_bytes()).expect(rt, "the next try"),
    }
}

fn wait_of(rt: &impl Abort, alloc: Global, why: Why) -> Wait {
    match why {
        Why::Held => Wait::Held(Key::Vlan(1)),
        Why::NoRoom => Wait::NoRoom(Kind::Group),
        Why::Busy => Wait::Busy(2),
        Why::Other => Wait::Missing(other(rt, alloc)),
        Why::None | Why::Missing => Wait::Missing(Key::Vlan(1)),
    }
}

fn event_of(rt: &impl Abort, alloc: Global, why: Why) -> Event {
    match why {
        Why::None => Event::Gone(other(rt, alloc)),
        Why::Missing => Event::Applied(Key::Vlan(1)),
        Why::Held => Event::Gone(Key::Vlan(1)),
        Why::NoRoom => Event::Freed(Kind::Group),
        Why::Busy => Event::Ended(2),
        Why::Other => Event::Applied(other(rt, alloc)),
    }
}

/// Whether the keys are the VLANs of these numbers.
fn are_vlans(keys: &[Key], wanted: &[u16]) -> bool {
    for (key, vlan) in keys.iter().zip(wanted) {
        if !is_vlan(key, *vlan) {
            return false;
        }
    }
    keys.len() == wanted.len()
}

/// Whether a reason is this one.
fn is_why(wait: &Wait, why: Why) -> bool {
    match (wait, why) {
        (Wait::Missing(Key::Vlan(vlan)), Why::Missing) => *vlan == 1,
        (Wait::Held(Key::Vlan(vlan)), Why::Held) => *vlan == 1,
        (Wait::NoRoom(Kind::Group), Why::NoRoom) => true,
        (Wait::Busy(worker), Why::Busy) => *worker == 2,
        (Wait::Missing(Key::Other(text)), Why::Other) => text.bytes() == OTHER.as_bytes(),
        _ => false,
    }
}

/// One act, which wakes these keys.
fn act_once(
    rt: &impl Abort,
    alloc: Global,
    retry: &mut Retry,
    act: Act,
    wakes: &[u16],
) -> Result<(), OutOfMemory> {
    match act {
        Act::Put(number, why) => retry.put(Key::Vlan(number), wait_of(rt, alloc, why)),
        Act::Forget(number) => {
            retry.forget(&Key::Vlan(number));
            Ok(())
        }
        Act::Woken(why) => {
            let woken = retry.woken(&event_of(rt, alloc, why))?;
            assert!(rt;
                are_vlans(woken.as_slice(), wakes),
                "{woken:?} and {wakes:?}"
            );
            Ok(())
        }
    }
}

/// Looks at the list.
fn look(rt: &impl Abort, retry: &Retry, listed: Listed) {
    let mut list = retry.list();
    for (vlan, why) in listed {
        let (key, wait) = list.next().expect(rt, "a key");
        assert!(rt; is_vlan(key, *vlan), "{key:?} and {vlan}");
        assert!(rt; is_why(wait, *why), "{vlan} {wait:?}");
    }
    assert!(rt; list.next().is_none(), "no more");
}

/// Each act: where it is refused memory the list stays, and the next try does it.
fn act_each(rt: &impl Abort, alloc: Global, retry: &mut Retry) {
    let mut before: Listed = &[];
    for (act, wakes, after) in ACTS {
        if act_once(rt, alloc, retry, act, wakes).is_err() {
            look(rt, retry, before);
            let next = act_once(rt, alloc, retry, act, wakes);
            assert!(rt; next.is_ok(), "the next try");
        }
        look(rt, retry, after);
        before = after;
    }
}

#[test]
fn reasons_stay_where_memory_is_refused(rt: HostRuntime) {
    let mut retry = Retry::new(rt.alloc());
    act_each(&rt, rt.alloc(), &mut retry);
}
