// Plans, pairings and ways of packets that are copied.
use sai_chip::Ways;
use sai_types::{
    Base, Body, Call, Entry, Hop, Pairing, PlanCall, PlanCalls, PlanId, Rid, Vid, WHop, Weight,
};
use swss_types::{Bits, Family, Ip, Mac};

#[test]
fn the_calls_of_a_plan_are_copied(rt: HostRuntime) {
    let mut calls = PlanCalls::new(rt.alloc());
    let make = PlanCall {
        call: Call::Create(Body::BridgePort {
            port: PlanId::Old(Rid(1)),
        }),
        makes: Some(Vid(2)),
    };
    calls.push(make).expect(&rt, "memory");
    let remove = PlanCall {
        call: Call::Remove(Entry::Oid(PlanId::Old(Rid(3)))),
        makes: None,
    };
    calls.push(remove).expect(&rt, "memory");
    let copy = calls.copy().expect(&rt, "memory");
    assert!(&rt; copy.items() == calls.items(), "{copy:?}");
}

#[test]
fn a_pairing_is_copied(rt: HostRuntime) {
    let mut pairing = Pairing::new(rt.alloc());
    pairing.push((0, 2)).expect(&rt, "memory");
    pairing.push((1, 0)).expect(&rt, "memory");
    let copy = pairing.copy().expect(&rt, "memory");
    assert!(&rt; copy.items() == [(0, 2), (1, 0)].as_slice(), "{copy:?}");
}

/// A next hop on the port whose first lane this is, with the weight 1 and its Ethernet address.
fn way(lane: u16) -> (WHop, Mac) {
    let ip = Ip {
        family: Family::V4,
        bits: Bits::new(0x0A00_0001),
    };
    let on = Base::Port(lane);
    let hop = Hop { on, ip };
    let weight = Weight::one();
    (WHop { hop, weight }, Mac([2, 0, 0, 0, 0, 1]))
}

#[test]
fn ways_are_copied(rt: HostRuntime) {
    let mut ways = Ways::new(rt.alloc());
    ways.push(way(0)).expect(&rt, "memory");
    ways.push(way(4)).expect(&rt, "memory");
    let copy = ways.copy().expect(&rt, "memory");
    assert!(&rt; copy.items() == ways.items(), "{copy:?}");
}
