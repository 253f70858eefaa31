// What no clause says of rounds: that workers step beside each other, and that with any number of them all comes to its end.
use super::service::settle_round;
use round_actors::Hold;
use std::alloc::Global;
use std::test::*;
use swss_types::{Open, OutOfMemory};

/// Two ports, each with an interface and a neighbour, two routes over both neighbours and one over the first.
const NINE_ROWS: [&str; 15] = [
    "port Ethernet0 0",
    "port Ethernet4 4",
    "producer a",
    "set PORT_TABLE:Ethernet0 lanes=0",
    "set PORT_TABLE:Ethernet4 lanes=4",
    "set INTF_TABLE:Ethernet0 NULL=NULL",
    "set INTF_TABLE:Ethernet4 NULL=NULL",
    "set NEIGH_TABLE:Ethernet0:10.0.0.1 neigh=02:00:00:00:00:01",
    "set NEIGH_TABLE:Ethernet4:10.0.0.3 neigh=02:00:00:00:00:03",
    "set ROUTE_TABLE:10.1.0.0/16 nexthop=10.0.0.1,10.0.0.3 ifname=Ethernet0,Ethernet4",
    "set ROUTE_TABLE:10.2.0.0/16 nexthop=10.0.0.1,10.0.0.3 ifname=Ethernet0,Ethernet4",
    "set ROUTE_TABLE:10.3.0.0/16 nexthop=10.0.0.1 ifname=Ethernet0",
    "settle",
    "show chip",
    "show tables",
];

/// The text of a script, by its lines.
fn text_of(alloc: Global, lines: &[&str]) -> Result<Vec<u8>, OutOfMemory> {
    let mut text = Vec::new(alloc);
    for line in lines {
        text.extend_from_slice(line.as_bytes())?;
        text.push(b'\n')?;
    }
    Ok(text)
}

// Each of two workers is held behind its first step until the other's was seen: where actors ran one after the other, one of
// the two would not meet. One worker leaves the same lines.
#[test]
fn two_workers_meet(rt: HostRuntime) {
    let text = text_of(rt.alloc(), NINE_ROWS.as_slice()).expect(&rt, "memory");
    let alone = settle_round(&rt, rt.alloc(), &text, 1, &Open);
    for (held, until) in [((0u32, 0u64), (1u32, 0u64)), ((1, 0), (0, 0))] {
        let gate = Hold::new(held, until);
        let left = settle_round(&rt, rt.alloc(), &text, 2, &gate);
        assert!(&rt; gate.met(), "the pause was seen");
        assert!(&rt; left.things.len() == 14, "the things");
        assert!(&rt; left.rows == 9, "the rows");
        assert!(&rt; left.lines == alone.lines, "the lines");
    }
}

/// The text of a script of three producers: a port with an interface, a neighbour on it, and routes over that, with restarts among them.
fn routes(alloc: Global) -> Result<Vec<u8>, OutOfMemory> {
    let head = [
        "port Ethernet0 0",
        "producer ports",
        "set PORT_TABLE:Ethernet0 lanes=0 admin_status=up",
        "set INTF_TABLE:Ethernet0 NULL=NULL",
        "set INTF_TABLE:Ethernet0:10.0.0.1/24 scope=global",
        "producer neighbours",
        "set NEIGH_TABLE:Ethernet0:10.0.0.2 neigh=02:00:00:00:00:02",
    ];
    let mut text = text_of(alloc, head.as_slice())?;
    for half in 0..2u8 {
        text.extend_from_slice(b"producer routes\n")?;
        for number in 0..100u8 {
            let line = format!(in alloc;
                "set ROUTE_TABLE:20.{half}.{number}.0/24 nexthop=10.0.0.2 ifname=Ethernet0\n"
            )?;
            text.extend_from_slice(line.as_bytes())?;
        }
        text.extend_from_slice(b"producer neighbours\nrestart\n")?;
    }
    text.extend_from_slice(b"settle\n")?;
    Ok(text)
}

#[test]
fn all_numbers_of_workers_come_to_the_same(rt: HostRuntime) {
    let text = routes(rt.alloc()).expect(&rt, "memory");
    let alone = settle_round(&rt, rt.alloc(), &text, 1, &Open);
    assert!(&rt; alone.things.len() == 205, "the things");
    for workers in 2..5u32 {
        let left = settle_round(&rt, rt.alloc(), &text, workers, &Open);
        assert!(&rt; left.writes == 204, "the writes");
        assert!(&rt; left.things == alone.things, "the things");
    }
}
