// Values that are copied, and how the want of memory and a full log read.
use orch_core::LogFull;
use sai_types::{Base, Body, Entry, Goal, Hop, Hops, Object, PortThing, Rid, Thing, WHop, Weight};
use std::alloc::Global;
use std::process::Abort;
use switch_model::Wait;
use swss_types::{Bits, Family, Ip, Lanes, OutOfMemory, Prefix, Text, Vrf};
use table_schema::Key;

/// The address 10.0.0.1.
fn ten() -> Ip {
    Ip {
        family: Family::V4,
        bits: Bits::new(0x0A00_0001),
    }
}

/// The lanes 0 and 1.
fn lanes(rt: &impl Abort, alloc: Global) -> Lanes {
    let lanes = Lanes::read(alloc, b"0,1").expect(rt, "memory");
    lanes.expect(rt, "lanes")
}

/// The hop on the port whose first lane this is, with the weight 1.
fn hop(lane: u16) -> WHop {
    WHop {
        hop: Hop {
            on: Base::Port(lane),
            ip: ten(),
        },
        weight: Weight::one(),
    }
}

/// Two hops, put in falling order.
fn hops(rt: &impl Abort, alloc: Global) -> Hops {
    let mut hops = Hops::new(alloc);
    for lane in [4, 0] {
        hops.put(hop(lane)).expect(rt, "memory");
    }
    hops
}

/// Compares a thing with its copy.
fn copy_thing(rt: &impl Abort, thing: &Thing) {
    let copy = thing.copy().expect(rt, "memory");
    assert!(rt; copy == *thing, "{thing:?}");
}

#[test]
fn objects_and_things_are_copied(rt: HostRuntime) {
    let alloc = rt.alloc();
    copy_thing(
        &rt,
        &Thing::Port(PortThing {
            lanes: lanes(&rt, alloc),
            speed: 100_000,
            mtu: 9100,
            up: true,
        }),
    );
    let prefix = Prefix::new(ten(), 32).expect(&rt, "a host");
    let hops = hops(&rt, alloc);
    assert!(rt; hops.items() == [hop(0), hop(4)].as_slice(), "in order");
    copy_thing(&rt, &Thing::Route(Vrf::Default, prefix, Goal::Group(hops)));
}

#[test]
fn an_object_is_copied(rt: HostRuntime) {
    let object = Object {
        entry: Entry::Oid(Rid(1)),
        body: Body::Port {
            lanes: lanes(&rt, rt.alloc()),
            speed: 100_000,
            mtu: 9100,
            up: true,
        },
    };
    let copy = object.copy().expect(&rt, "memory");
    assert!(rt; copy == object, "{copy:?}");
}

#[test]
fn texts_and_reasons_are_copied(rt: HostRuntime) {
    let alloc = rt.alloc();
    // A short text stands in the value itself, one of more than 30 bytes has memory of its own.
    for text in ["Zürich", "Zürich Flughafen Terminal A und B"] {
        let long = Text::from_str(alloc, text).expect(&rt, "memory");
        let copy = long.copy().expect(&rt, "memory");
        assert!(rt; copy.bytes() == text.as_bytes(), "{text}");
    }
    assert!(rt;
        Text::new(alloc, b"\xff\xfe")
            .expect(&rt, "memory")
            .is_none()
    );
    let wait = Wait::Missing(Key::Port(4));
    assert!(rt; wait.copy().expect(&rt, "memory") == wait);
    let text = format!(in alloc; "{OutOfMemory}").expect(&rt, "memory");
    assert!(rt; text.as_str() == "out of memory");
    let text = format!(in alloc; "{LogFull}").expect(&rt, "memory");
    assert!(rt; text.as_str() == "log full");
}
