// What a log holds.
use super::service::run_rounds;
use sai_types::{Kind, Mode};
use std::alloc::Global;
use std::mem::drop;
use std::process::Abort;
use std::sync::Wait as Waiting;
use std::thread::Threads;
use switch_model::{Log, Mark, MarkEvent, PlacedLog, Wait, Waits};
use swss_service::Rounded;
use swss_types::{IfName, Open, Tagging, Vrf};
use table_schema::{Key, Row, Sent, Write};

/// A port whose row is deleted under an interface.
const HELD: &[u8] =
    b"port Ethernet0 0\nproducer a\nset PORT_TABLE:Ethernet0 lanes=0\nset INTF_TABLE:Ethernet0\nsettle\nproducer a\ndel PORT_TABLE:Ethernet0\nsettle\n";

/// An interface without the row of its port.
const MISSING: &[u8] = b"port Ethernet0 0\nproducer a\nset INTF_TABLE:Ethernet0\nsettle\n";

/// What waits: a key, why, and the row that is applied for it.
type Waiter = (Key, Wait, Option<Row>);

/// Looks at the last mark of the log of a script: a settling of one turn, at which this key waits.
fn look_at_end(rt: &impl Abort, log: &Log, key: &Key, wait: &Wait, has_row: bool) {
    let mark = log.marks().last().expect(rt, "a mark");
    match &mark.event {
        MarkEvent::Settled { waits, turns: 1 } => match waits.items() {
            [(found, why, row)] => assert!(rt;
                found == key && why == wait && row.is_some() == has_row,
                "{found:?} waits, {why:?}"
            ),
            _ => assert!(rt; false, "one key waits"),
        },
        _ => assert!(rt; false, "a settling of one turn"),
    }
}

/// Runs a script, and looks at what waits at its end.
fn look_at_run<R: Threads + Waiting + Sync + Abort>(
    rt: &R,
    alloc: Global,
    script: &[u8],
    key: &Key,
    wait: &Wait,
    has_row: bool,
) {
    let Rounded { locked, end: _ } = run_rounds(rt, alloc, script, 1, &Open);
    look_at_end(rt, locked.core().log(), key, wait, has_row);
    drop(locked);
}

#[test]
fn marks_tell_why_keys_wait(rt: HostRuntime) {
    let alloc = rt.alloc();
    let interface = Key::Intf(IfName::Ethernet(0));
    let missing = Wait::Missing(Key::Port(0));
    look_at_run(&rt, alloc, MISSING, &interface, &missing, false);
    let held = Wait::Held(interface);
    look_at_run(&rt, alloc, HELD, &Key::Port(0), &held, true);
}

/// The write of this number, a deletion of the VLAN of this number.
fn sent(number: u16) -> Sent {
    Sent {
        from: 1,
        number: u64::from(number),
        write: Write::Del(Key::Vlan(number)),
    }
}

/// A mark of an event after two writes and so many effects.
fn mark(effects: u64, event: MarkEvent) -> Mark {
    Mark {
        taken: 2,
        effects,
        event,
    }
}

/// Enters three writes, takes the last back, and enters the marks that ask for memory.
fn enter(rt: &impl Abort, alloc: Global, log: &mut Log) {
    for number in [10, 20, 30] {
        log.take(sent(number)).expect(rt, "memory");
    }
    log.take_back();
    let waits = Waits::from_vec(Vec::new(alloc)).expect(rt, "memory");
    let again = waits.share().expect(rt, "memory");
    let settled = MarkEvent::Settled { waits, turns: 1 };
    log.mark_end(mark(4, settled)).expect(rt, "memory");
    log.mark(mark(4, MarkEvent::Restarted)).expect(rt, "memory");
    let (mode, waits) = (Mode::Hitless, again);
    let began = MarkEvent::ApplyBegan { mode, waits };
    log.mark(mark(4, began)).expect(rt, "memory");
}

/// The log with a place for a mark.
fn with_place(rt: &impl Abort, log: Log) -> PlacedLog {
    log.with_place().ok().expect(rt, "a place")
}

/// Enters two marks in places, and gives up a place between them.
fn enter_in_places(rt: &impl Abort, log: Log) -> Log {
    let log = with_place(rt, log).mark(mark(6, MarkEvent::ApplyEnded));
    let log = with_place(rt, log).give_up();
    let (before, after) = (0, 1);
    with_place(rt, log).mark_end(mark(7, MarkEvent::Faulted { before, after }))
}

/// Looks at the log that was entered.
fn look_at_log(rt: &impl Abort, log: &Log) {
    let numbers = log.taken().iter().map(|sent| sent.number);
    assert!(rt; numbers.eq([10, 20]), "the writes taken");
    let effects = log.marks().iter().map(|mark| mark.effects);
    assert!(rt; effects.eq([4, 4, 4, 6, 7]), "the marks");
    assert!(rt; log.ends() == [1, 5].as_slice(), "the ends");
}

#[test]
fn a_log_has_its_writes_marks_and_ends(rt: HostRuntime) {
    let mut log = Log::new(rt.alloc());
    assert!(rt; log.taken().is_empty() && log.marks().is_empty() && log.ends().is_empty());
    enter(&rt, rt.alloc(), &mut log);
    let log = enter_in_places(&rt, log);
    look_at_log(&rt, &log);
    look_at_log(&rt, &log.copy().expect(&rt, "memory"));
}

/// Four keys, why they wait, and the rows that are applied for them.
fn four() -> [Waiter; 4] {
    [
        (Key::Port(0), Wait::Missing(Key::Port(4)), None),
        (
            Key::Member(10, 4),
            Wait::Held(Key::Vlan(10)),
            Some(Row::Member(Tagging::Tagged)),
        ),
        (Key::Vlan(20), Wait::NoRoom(Kind::Vlan), None),
        (
            Key::Intf(IfName::Vlan(20)),
            Wait::Busy(3),
            Some(Row::Intf(Vrf::Default)),
        ),
    ]
}

#[test]
fn keys_wait_in_the_order_of_their_list(rt: HostRuntime) {
    let list = Vec::from_array(rt.alloc(), four()).expect(&rt, "memory");
    let waits = Waits::from_vec(list).expect(&rt, "memory");
    let shared = waits.share().expect(&rt, "memory");
    assert!(rt; waits.items() == four().as_slice(), "the list");
    assert!(rt;
        shared.items() == four().as_slice(),
        "the list that is shared"
    );
}
