// What rows are where memory is refused. `rt try --test --fail-alloc N` refuses the Nth allocation of the tests: a write that
// is refused memory says so and leaves the rows, and the next try applies it. Without the flag no allocation is refused, and
// the test goes over small and large rows.
use super::common::{Run, are_of, assert_shown, fields_of, shown};
use row_store::Rows;
use std::alloc::Global;
use std::process::Abort;
use swss_types::{Bits, Family, Ip, Prefix, Vrf};
use table_schema::{Fields, Key, Write};

/// The two rows, in key order.
#[derive(Clone, Copy)]
enum Of {
    Port,
    Route,
}

/// What deletes a row.
const NONE: Run = (0, 0, 0);

/// Writes: the fields that are set in a row, or NONE; and the fields that the port's and the route's row have then.
const WRITES: [(Of, Run, &[Run], &[Run]); 10] = [
    (Of::Route, (2, 4, 1), &[], &[(2, 4, 1)]),
    (Of::Route, (1, 3, 2), &[], &[(1, 3, 2), (3, 4, 1)]),
    (Of::Port, (4, 5, 3), &[(4, 5, 3)], &[(1, 3, 2), (3, 4, 1)]),
    (Of::Route, (0, 31, 4), &[(4, 5, 3)], &[(0, 31, 4)]),
    (
        Of::Route,
        (28, 36, 5),
        &[(4, 5, 3)],
        &[(0, 28, 4), (28, 36, 5)],
    ),
    (Of::Port, NONE, &[], &[(0, 28, 4), (28, 36, 5)]),
    (Of::Route, (5, 70, 6), &[], &[(0, 5, 4), (5, 70, 6)]),
    (
        Of::Route,
        (9, 12, 7),
        &[],
        &[(0, 5, 4), (5, 9, 6), (9, 12, 7), (12, 70, 6)],
    ),
    (
        Of::Port,
        (0, 50, 8),
        &[(0, 50, 8)],
        &[(0, 5, 4), (5, 9, 6), (9, 12, 7), (12, 70, 6)],
    ),
    (Of::Route, NONE, &[(0, 50, 8)], &[]),
];

/// The key of a row.
fn key(of: Of) -> Key {
    match of {
        Of::Port => Key::Port(0),
        Of::Route => Key::Route(
            Vrf::Default,
            Prefix {
                ip: Ip {
                    family: Family::V4,
                    bits: Bits::new(0x0A00_0000),
                },
                len: 8,
            },
        ),
    }
}

/// The write of a run of fields.
fn write(rt: &impl Abort, alloc: Global, of: Of, run: Run) -> Write {
    let (from, to, _) = run;
    if to <= from {
        return Write::Del(key(of));
    }
    Write::Set(key(of), fields_of(rt, alloc, run))
}

/// Whether a row has the fields of these runs, or is not there where there is none.
fn is_row(fields: Option<&Fields>, runs: &[Run]) -> bool {
    match fields {
        Some(fields) => !runs.is_empty() && are_of(fields, runs),
        None => runs.is_empty(),
    }
}

/// Whether the keys of the rows are those that have fields.
fn have_keys(rt: &impl Abort, rows: &Rows, port: bool, route: bool) -> bool {
    let keys = match rows.keys() {
        Ok(keys) => keys,
        Err(_) => rows.keys().expect(rt, "the next try"),
    };
    match keys.as_slice() {
        [] => !port && !route,
        [Key::Port(_)] => port && !route,
        [Key::Route(..)] => !port && route,
        [Key::Port(_), Key::Route(..)] => port && route,
        _ => false,
    }
}

/// Looks at the two rows.
fn look(rt: &impl Abort, rows: &Rows, port: &[Run], route: &[Run]) {
    let (port_key, route_key) = (key(Of::Port), key(Of::Route));
    assert!(rt; is_row(rows.get(&port_key), port), "the port, {port:?}");
    assert!(rt; is_row(rows.get(&route_key), route), "the route, {route:?}");
    let have_keys = have_keys(rt, rows, !port.is_empty(), !route.is_empty());
    assert!(rt; have_keys, "the keys");
}

/// Applies each write, and looks at the rows behind it.
fn apply_each(rt: &impl Abort, alloc: Global, rows: &mut Rows) {
    for (of, run, port, route) in WRITES {
        let before = shown(rt, alloc, rows);
        let write = write(rt, alloc, of, run);
        apply_once(rt, alloc, rows, &write, before.as_str());
        look(rt, rows, port, route);
    }
}

/// Applies a write: where it is refused memory the rows stay as shown, and the next try applies it.
fn apply_once(rt: &impl Abort, alloc: Global, rows: &mut Rows, write: &Write, before: &str) {
    if rows.apply(write).is_err() {
        assert_shown(rt, alloc, before, rows);
        assert!(rt; rows.apply(write).is_ok(), "the next try");
    }
}

#[test]
fn rows_stay_where_memory_is_refused(rt: HostRuntime) {
    let mut rows = Rows::new(rt.alloc());
    apply_each(&rt, rt.alloc(), &mut rows);
}
