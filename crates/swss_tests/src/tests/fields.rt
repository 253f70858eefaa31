// What fields are where memory is refused, and how rows are copied. `rt try --test --fail-alloc N` refuses the Nth allocation
// of the tests: a call that is refused memory says so and leaves what it was to change, and the next try does it. Without the
// flag no allocation is refused, and the tests go over small and large rows.
use super::common::{Run, are_of, assert_shown, fields_of, name_of, shown, text, value_of};
use std::alloc::Global;
use std::process::Abort;
use swss_types::{OutOfMemory, Text};
use table_schema::{Fields, Key, PortPlan, Row, Sent, Write, has_colon, names, read_key, read_row};

/// Fields that are merged into others, and what those are then.
const MERGES: [(Run, &[Run]); 6] = [
    ((2, 4, 1), &[(2, 4, 1)]),
    ((1, 3, 2), &[(1, 3, 2), (3, 4, 1)]),
    ((0, 31, 3), &[(0, 31, 3)]),
    ((28, 36, 4), &[(0, 28, 3), (28, 36, 4)]),
    ((5, 70, 5), &[(0, 5, 3), (5, 70, 5)]),
    ((9, 12, 6), &[(0, 5, 3), (5, 9, 5), (9, 12, 6), (12, 70, 5)]),
];

/// Whether each field is found under its name, and none under other names.
fn are_found(fields: &Fields, runs: &[Run]) -> bool {
    for number in 0..90 {
        let mut wanted = None;
        for (from, to, value) in runs {
            if *from <= number && number < *to {
                wanted = Some(*value);
            }
        }
        let is_found = match (fields.get(name_of(number).as_slice()), wanted) {
            (Some(found), Some(value)) => found.bytes() == value_of(value).as_slice(),
            (found, wanted) => found.is_none() && wanted.is_none(),
        };
        if !is_found {
            return false;
        }
    }
    fields.get(b"f").is_none() && fields.get(b"\xff").is_none()
}

/// Merges fields into others: where it is refused memory they stay as shown, and the next try does it.
fn merge_once(rt: &impl Abort, alloc: Global, fields: &mut Fields, others: &Fields, before: &str) {
    if fields.merge(others).is_err() {
        assert_shown(rt, alloc, before, fields);
        assert!(rt; fields.merge(others).is_ok(), "the next try");
    }
}

/// The copy of fields.
fn copy_of(rt: &impl Abort, fields: &Fields) -> Fields {
    match fields.copy() {
        Ok(copy) => copy,
        Err(_) => fields.copy().expect(rt, "the next try"),
    }
}

/// Merges fields into others, and looks at both copies; what was copied before stays.
fn merge_each(rt: &impl Abort, alloc: Global, fields: &mut Fields) {
    let mut before: &[Run] = &[];
    for (run, after) in MERGES {
        let copy = copy_of(rt, fields);
        let text = shown(rt, alloc, fields);
        merge_once(rt, alloc, fields, &fields_of(rt, alloc, run), text.as_str());
        assert!(rt; are_of(&copy, before), "the copy before {after:?}");
        assert!(rt;
            are_of(fields, after) && are_found(fields, after),
            "{after:?}"
        );
        before = after;
    }
}

/// Pairs in which so many names stand twice, the higher names first, with the values 1 and 2.
fn pairs(rt: &impl Abort, alloc: Global, count: u8) -> Result<Vec<(Text, Text)>, OutOfMemory> {
    let mut pairs = Vec::new(alloc);
    for value in [1, 2] {
        for number in (0..count).rev() {
            let name = text(rt, alloc, name_of(number).as_slice());
            pairs.push((name, text(rt, alloc, value_of(value).as_slice())))?;
        }
    }
    Ok(pairs)
}

/// The fields of these pairs.
fn from_pairs(rt: &impl Abort, alloc: Global, count: u8) -> Result<Fields, OutOfMemory> {
    Fields::from_pairs(alloc, pairs(rt, alloc, count)?)
}

#[test]
fn fields_stay_where_memory_is_refused(rt: HostRuntime) {
    let mut fields = Fields::new(rt.alloc());
    merge_each(&rt, rt.alloc(), &mut fields);
    for count in [1, 5, 32, 33, 60] {
        let fields = match from_pairs(&rt, rt.alloc(), count) {
            Ok(fields) => fields,
            Err(_) => from_pairs(&rt, rt.alloc(), count).expect(&rt, "the next try"),
        };
        assert!(rt; are_of(&fields, &[(0, count, 2)]), "{count} names");
    }
}

/// Rows: a key, its fields, what the row reads as, if it reads, and the keys that it names.
const ROWS: [(&str, &[(&str, &str)], &str, &str); 6] = [
    (
        "PORT_TABLE:Ethernet4",
        &[("mtu", "1500"), ("lanes", "5,4")],
        "Some(Port(PortRow { lanes: Lanes { count: 2, lanes: [4, 5, 0, 0, 0, 0, 0, 0] }, speed: 100000, mtu: 1500, up: false }))",
        "[]",
    ),
    (
        "VLAN_MEMBER_TABLE:Vlan7:Ethernet4",
        &[("tagging_mode", "tagged")],
        "Some(Member(Tagged))",
        "[Vlan(7), Port(4)]",
    ),
    (
        "ROUTE_TABLE:::/0",
        &[("nexthop", "::"), ("ifname", "Ethernet4")],
        "Some(Route(Direct(Ethernet(4))))",
        "[Intf(Ethernet(4))]",
    ),
    (
        "ROUTE_TABLE:10.0.0.0/8",
        &[
            ("nexthop", "10.0.0.2,10.0.0.3"),
            ("ifname", "Ethernet0,Ethernet4"),
        ],
        "Some(Route(Hops(RowHops { hops: [(RowHop { on: Ethernet(0), ip: Ip { family: V4, bits: 167772162 } }, 1), (RowHop { on: Ethernet(4), ip: Ip { family: V4, bits: 167772163 } }, 1)] })))",
        "[Neigh(Ethernet(0), Ip { family: V4, bits: 167772162 }), Neigh(Ethernet(4), Ip { family: V4, bits: 167772163 })]",
    ),
    ("LAG_TABLE:PortChannel1", &[("a", "b")], "None", "[]"),
    (
        "LAG_TABLE:a-channel-of-quite-a-long-name",
        &[(
            "a-field-of-quite-a-long-name-too",
            "a value of more than thirty bytes",
        )],
        "None",
        "[]",
    ),
];

/// A plan of Ethernet0 with lanes 0 to 3 and Ethernet4 with lanes 4 and 5.
fn plan(rt: &impl Abort, alloc: Global) -> PortPlan {
    let mut plan = match PortPlan::new(alloc) {
        Ok(plan) => plan,
        Err(_) => PortPlan::new(alloc).expect(rt, "the next try"),
    };
    for line in [b"Ethernet0 0,1,2,3".as_slice(), b"Ethernet4 5,4"] {
        let put = match plan.put(line) {
            Ok(put) => put,
            Err(_) => plan.put(line).expect(rt, "the next try"),
        };
        assert!(rt; put.is_ok(), "a port");
    }
    plan
}

/// The key of a text with a colon.
fn key_of(rt: &impl Abort, alloc: Global, key: &str) -> Key {
    assert!(rt; has_colon(key.as_bytes()), "{key} has a colon");
    match read_key(alloc, key.as_bytes()) {
        Ok(key) => key,
        Err(_) => read_key(alloc, key.as_bytes()).expect(rt, "the next try"),
    }
}

/// Puts a value under a name.
fn put_text(alloc: Global, fields: &mut Fields, pair: &(&str, &str)) -> Result<(), OutOfMemory> {
    let name = Text::from_str(alloc, pair.0)?;
    fields.put(name, Text::from_str(alloc, pair.1)?)
}

/// The fields of pairs.
fn fields_with(rt: &impl Abort, alloc: Global, pairs: &[(&str, &str)]) -> Fields {
    let mut fields = Fields::new(alloc);
    for pair in pairs {
        if put_text(alloc, &mut fields, pair).is_err() {
            let next = put_text(alloc, &mut fields, pair);
            assert!(rt; next.is_ok(), "the next try");
        }
    }
    fields
}

/// A write of a row.
fn sent(rt: &impl Abort, alloc: Global, key: &str, pairs: &[(&str, &str)]) -> Sent {
    Sent {
        from: 1,
        number: 2,
        write: Write::Set(key_of(rt, alloc, key), fields_with(rt, alloc, pairs)),
    }
}

/// What a row reads as, if it reads.
fn row_of(rt: &impl Abort, alloc: Global, key: &Key, fields: &Fields) -> Option<Row> {
    let plan = plan(rt, alloc);
    let row = match read_row(alloc, &plan, key, fields) {
        Ok(row) => row,
        Err(_) => read_row(alloc, &plan, key, fields).expect(rt, "the next try"),
    };
    row.ok()
}

/// Compares a row with its copy.
fn copy_row(rt: &impl Abort, row: &Row) {
    let copy = match row.copy() {
        Ok(copy) => copy,
        Err(_) => row.copy().expect(rt, "the next try"),
    };
    assert!(rt; copy == *row, "a copy");
}

/// Compares a write with its copy.
fn copy_sent(rt: &impl Abort, alloc: Global, sent: &Sent) {
    let copy = match sent.copy() {
        Ok(copy) => copy,
        Err(_) => sent.copy().expect(rt, "the next try"),
    };
    assert_shown(rt, alloc, shown(rt, alloc, sent).as_str(), &copy);
}

/// The keys that a row names.
fn keys_of(rt: &impl Abort, alloc: Global, key: &Key, row: &Row) -> Vec<Key> {
    match names(alloc, key, row) {
        Ok(keys) => keys,
        Err(_) => names(alloc, key, row).expect(rt, "the next try"),
    }
}

/// Reads a row, copies it, and looks at what it names.
fn look_at_row(rt: &impl Abort, alloc: Global, sent: &Sent, reads: &str, named: &str) {
    if let Write::Set(key, fields) = &sent.write {
        let row = row_of(rt, alloc, key, fields);
        assert_shown(rt, alloc, reads, &row);
        if let Some(row) = &row {
            copy_row(rt, row);
            assert_shown(rt, alloc, named, &keys_of(rt, alloc, key, row));
        }
    }
}

#[test]
fn rows_are_copied_where_memory_is_refused(rt: HostRuntime) {
    for (key, pairs, reads, named) in ROWS {
        let sent = sent(&rt, rt.alloc(), key, pairs);
        copy_sent(&rt, rt.alloc(), &sent);
        look_at_row(&rt, rt.alloc(), &sent, reads, named);
    }
}
