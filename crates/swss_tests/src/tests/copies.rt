// Lists that are copied: of scripts, of rows, and of numbers. That a copy is the same is proved; here it is made once, of
// lists of every kind.
use super::common::{are_of, fields_of, text};
use intake_queue::Numbers;
use row_store::Rows;
use std::alloc::Global;
use std::process::Abort;
use swss_script::{
    Act, Acts, Fail2, Fails, Producers, Round, RoundList, Section, Sections, Show, Shows, Writes,
};
use swss_types::{Bits, Family, Ip, Text, Vrf};
use table_schema::{Key, Write};

/// Calls that fail.
const FAILS: [Fail2; 3] = [
    Fail2 {
        at: 7,
        after: false,
    },
    Fail2 { at: 2, after: true },
    Fail2 { at: 7, after: true },
];

/// What is shown behind a round.
fn each_show() -> [Show; 2] {
    let ip = Ip {
        family: Family::V4,
        bits: Bits::new(0x0A00_0001),
    };
    [Show::Chip, Show::Forward(Vrf::Default, ip)]
}

/// Names of producers, short and long.
const NAMES: [&str; 3] = ["a", "Zürich Flughafen Terminal A und B", "b"];

/// The write of fields to a port's row, or the deletion of the row of a text that is no key.
fn write(rt: &impl Abort, alloc: Global, port: u32) -> Write {
    if port == 0 {
        return Write::Del(Key::Other(text(rt, alloc, b"LAG_TABLE:PortChannel1")));
    }
    Write::Set(Key::Port(port), fields_of(rt, alloc, (0, 3, 1)))
}

/// Two writes with a restart between them.
fn acts(rt: &impl Abort, alloc: Global) -> Acts {
    let mut acts = Acts::new(alloc);
    let first = Act::Write(write(rt, alloc, 4));
    acts.push(first).expect(rt, "memory");
    acts.push(Act::Restart).expect(rt, "memory");
    let last = Act::Write(write(rt, alloc, 0));
    acts.push(last).expect(rt, "memory");
    acts
}

/// Three sections.
fn sections(rt: &impl Abort, alloc: Global) -> Sections {
    let mut sections = Sections::new(alloc);
    for producer in [2, 1, 2] {
        let acts = acts(rt, alloc);
        let section = Section { producer, acts };
        sections.push(section).expect(rt, "memory");
    }
    sections
}

/// Two shows.
fn shows(rt: &impl Abort, alloc: Global) -> Shows {
    let mut shows = Shows::new(alloc);
    for show in each_show() {
        shows.push(show).expect(rt, "memory");
    }
    shows
}

/// Copies calls that fail.
fn copy_fails(rt: &impl Abort, alloc: Global) {
    let mut fails = Fails::new(alloc);
    for fail in FAILS {
        fails.push(fail).expect(rt, "memory");
    }
    let copy = fails.copy().expect(rt, "memory");
    assert!(rt; copy.items() == FAILS.as_slice(), "{copy:?}");
    for at in 0..9u64 {
        assert!(rt; copy.has(at) == (at == 2 || at == 7), "{at}");
    }
}

/// Copies names.
fn copy_producers(rt: &impl Abort, alloc: Global) {
    let mut producers = Producers::new(alloc);
    for name in NAMES {
        let name = Text::from_str(alloc, name).expect(rt, "memory");
        producers.push(name).expect(rt, "memory");
    }
    let copy = producers.copy().expect(rt, "memory");
    assert!(rt; copy.items() == producers.items(), "{copy:?}");
}

/// Copies two rounds.
fn copy_rounds(rt: &impl Abort, alloc: Global) {
    let mut rounds = RoundList::new(alloc);
    let first = Round {
        sections: sections(rt, alloc),
        shows: shows(rt, alloc),
    };
    rounds.push(first).expect(rt, "memory");
    let last = Round {
        sections: Sections::new(alloc),
        shows: Shows::new(alloc),
    };
    rounds.push(last).expect(rt, "memory");
    let copy = rounds.copy().expect(rt, "memory");
    assert!(rt; copy.items().len() == 2, "two rounds");
}

/// Copies sections, and the acts of each.
fn copy_sections(rt: &impl Abort, alloc: Global) {
    let sections = sections(rt, alloc);
    let copy = sections.copy().expect(rt, "memory");
    assert!(rt; copy.items().len() == 3, "three sections");
    for section in copy.items() {
        let acts = section.acts.copy().expect(rt, "memory");
        assert!(rt; acts.items().len() == 3, "three acts");
    }
}

/// Copies shows.
fn copy_shows(rt: &impl Abort, alloc: Global) {
    let copy = shows(rt, alloc).copy().expect(rt, "memory");
    assert!(rt; copy.items() == each_show().as_slice(), "{copy:?}");
}

/// Copies writes.
fn copy_writes(rt: &impl Abort, alloc: Global) {
    let mut writes = Writes::new(alloc);
    for port in [4, 0, 8] {
        let write = write(rt, alloc, port);
        writes.push(write).expect(rt, "memory");
    }
    let copy = writes.copy().expect(rt, "memory");
    assert!(rt; copy.items().len() == 3, "three writes");
}

#[test]
fn lists_of_scripts_are_copied(rt: HostRuntime) {
    copy_fails(&rt, rt.alloc());
    copy_producers(&rt, rt.alloc());
    copy_rounds(&rt, rt.alloc());
    copy_sections(&rt, rt.alloc());
    copy_shows(&rt, rt.alloc());
    copy_writes(&rt, rt.alloc());
}

/// Lays fields over the row of each of these keys.
fn set_each(rt: &impl Abort, alloc: Global, rows: &mut Rows, keys: &[Key], value: u8) {
    for key in keys {
        let fields = fields_of(rt, alloc, (0, 3, value));
        rows.set(key, &fields).expect(rt, "memory");
    }
}

/// Whether rows have these keys alone, each with the fields of a value.
fn are_rows(rt: &impl Abort, rows: &Rows, keys: &[Key], value: u8) -> bool {
    if rows.keys().expect(rt, "memory").as_slice() != keys {
        return false;
    }
    for (_, fields) in rows.iter() {
        if !are_of(fields, &[(0, 3, value)]) {
            return false;
        }
    }
    true
}

#[test]
fn rows_are_copied(rt: HostRuntime) {
    let keys = [
        Key::Port(4),
        Key::Vlan(7),
        Key::Member(7, 4),
        Key::Other(text(&rt, rt.alloc(), b"LAG_TABLE:PortChannel1")),
    ];
    let mut rows = Rows::new(rt.alloc());
    let none = rows.copy().expect(&rt, "memory");
    set_each(&rt, rt.alloc(), &mut rows, keys.as_slice(), 1);
    let copy = rows.copy().expect(&rt, "memory");
    // What is laid over one of them afterwards leaves the others.
    set_each(&rt, rt.alloc(), &mut rows, keys.as_slice(), 2);
    assert!(rt; none.len() == 0, "{none:?}");
    assert!(rt; are_rows(&rt, &copy, keys.as_slice(), 1), "{copy:?}");
    assert!(rt; are_rows(&rt, &rows, keys.as_slice(), 2), "{rows:?}");
}

#[test]
fn numbers_are_copied(rt: HostRuntime) {
    let mut numbers = Numbers::new(rt.alloc());
    for number in [3, 0, u64::MAX] {
        numbers.push(number).expect(&rt, "memory");
    }
    let copy = numbers.copy().expect(&rt, "memory");
    assert!(rt; copy.items() == [3, 0, u64::MAX].as_slice(), "{copy:?}");
}
