// What is to sync where memory is refused. `rt try --test --fail-alloc N` refuses the Nth allocation of the tests: what could
// not be added is as if it had not come, and the next try adds it. Without the flag no allocation is refused, and the test
// goes over operations that are merged, replaced and done.
use super::common::{Run, are_of, assert_shown, fields_of, is_vlan, shown};
use consumer_table::{Op, ToSync};
use producer_table::KeyOp;
use std::alloc::Global;
use std::process::Abort;
use swss_types::OutOfMemory;
use table_schema::Key;

/// What is done to the VLAN of a number.
#[derive(Clone, Copy)]
enum Act {
    /// Adds a deletion mark, where there is one, and then the fields of a run, where there are any.
    Add(u16, bool, Run),
    Done(u16),
}

/// The operation that is wanted of a VLAN.
#[derive(Clone, Copy, Debug)]
enum Want {
    Set(u16, &'static [Run]),
    Del(u16),
    Replace(u16, &'static [Run]),
}

/// No fields.
const NONE: Run = (0, 0, 0);

/// The fields of Vlan3 before it is deleted.
const THREE: [Run; 3] = [(0, 30, 3), (30, 34, 4), (34, 40, 3)];

/// Acts, each with the operations that are there then.
const ACTS: [(Act, &[Want]); 16] = [
    (Act::Done(1), &[]),
    (
        Act::Add(1, true, (1, 2, 2)),
        &[Want::Replace(1, &[(1, 2, 2)])],
    ),
    (
        Act::Add(1, false, (0, 1, 1)),
        &[Want::Replace(1, &[(0, 1, 1), (1, 2, 2)])],
    ),
    (
        Act::Add(3, false, (0, 40, 3)),
        &[
            Want::Replace(1, &[(0, 1, 1), (1, 2, 2)]),
            Want::Set(3, &[(0, 40, 3)]),
        ],
    ),
    (
        Act::Add(2, true, NONE),
        &[
            Want::Replace(1, &[(0, 1, 1), (1, 2, 2)]),
            Want::Del(2),
            Want::Set(3, &[(0, 40, 3)]),
        ],
    ),
    (
        Act::Add(3, false, (30, 34, 4)),
        &[
            Want::Replace(1, &[(0, 1, 1), (1, 2, 2)]),
            Want::Del(2),
            Want::Set(3, &THREE),
        ],
    ),
    (
        Act::Add(2, false, (5, 6, 5)),
        &[
            Want::Replace(1, &[(0, 1, 1), (1, 2, 2)]),
            Want::Replace(2, &[(5, 6, 5)]),
            Want::Set(3, &THREE),
        ],
    ),
    (
        Act::Add(2, true, (6, 7, 6)),
        &[
            Want::Replace(1, &[(0, 1, 1), (1, 2, 2)]),
            Want::Replace(2, &[(6, 7, 6)]),
            Want::Set(3, &THREE),
        ],
    ),
    (
        Act::Add(0, false, NONE),
        &[
            Want::Replace(1, &[(0, 1, 1), (1, 2, 2)]),
            Want::Replace(2, &[(6, 7, 6)]),
            Want::Set(3, &THREE),
        ],
    ),
    (
        Act::Done(1),
        &[Want::Replace(2, &[(6, 7, 6)]), Want::Set(3, &THREE)],
    ),
    (
        Act::Add(1, false, (1, 3, 7)),
        &[
            Want::Set(1, &[(1, 3, 7)]),
            Want::Replace(2, &[(6, 7, 6)]),
            Want::Set(3, &THREE),
        ],
    ),
    (
        Act::Add(3, true, NONE),
        &[
            Want::Set(1, &[(1, 3, 7)]),
            Want::Replace(2, &[(6, 7, 6)]),
            Want::Del(3),
        ],
    ),
    (
        Act::Add(3, true, NONE),
        &[
            Want::Set(1, &[(1, 3, 7)]),
            Want::Replace(2, &[(6, 7, 6)]),
            Want::Del(3),
        ],
    ),
    (Act::Done(2), &[Want::Set(1, &[(1, 3, 7)]), Want::Del(3)]),
    (Act::Done(3), &[Want::Set(1, &[(1, 3, 7)])]),
    (Act::Done(1), &[]),
];

/// Whether the operation of a key is the one that is wanted.
fn is_wanted(key: &Key, op: &Op, want: Want) -> bool {
    match (op, want) {
        (Op::Set(fields), Want::Set(vlan, runs)) => is_vlan(key, vlan) && are_of(fields, runs),
        (Op::Del, Want::Del(vlan)) => is_vlan(key, vlan),
        (Op::Replace(fields), Want::Replace(vlan, runs)) => {
            is_vlan(key, vlan) && are_of(fields, runs)
        }
        _ => false,
    }
}

/// The copy of an operation.
fn copy_of(rt: &impl Abort, op: &Op) -> Op {
    match op.copy() {
        Ok(copy) => copy,
        Err(_) => op.copy().expect(rt, "the next try"),
    }
}

/// Looks at each operation and at a copy of it.
fn look(rt: &impl Abort, to_sync: &ToSync, wants: &[Want]) {
    let keys = match to_sync.keys() {
        Ok(keys) => keys,
        Err(_) => to_sync.keys().expect(rt, "the next try"),
    };
    assert!(rt;
        keys.len() == wants.len() && to_sync.len() == wants.len(),
        "as many"
    );
    for (key, want) in keys.iter().zip(wants) {
        let op = to_sync.op(key).expect(rt, "an operation");
        assert!(rt; is_wanted(key, op, *want), "{key:?} and {want:?}");
        assert!(rt; is_wanted(key, &copy_of(rt, op), *want), "a copy");
    }
    assert!(rt; to_sync.op(&Key::Vlan(9)).is_none());
}

/// What is added.
fn key_op(rt: &impl Abort, alloc: Global, vlan: u16, dropped: bool, run: Run) -> KeyOp {
    let (from, to, _) = run;
    KeyOp {
        key: Key::Vlan(vlan),
        dropped,
        fields: match from < to {
            true => Some(fields_of(rt, alloc, run)),
            false => None,
        },
    }
}

/// One act, once.
fn act_once(
    rt: &impl Abort,
    alloc: Global,
    to_sync: &mut ToSync,
    act: Act,
) -> Result<(), OutOfMemory> {
    match act {
        Act::Add(vlan, dropped, run) => to_sync.add(key_op(rt, alloc, vlan, dropped, run)),
        Act::Done(vlan) => {
            to_sync.done(&Key::Vlan(vlan));
            Ok(())
        }
    }
}

/// One act: where it is refused memory what is to sync stays as shown, and the next try does it.
fn act_at_last(rt: &impl Abort, alloc: Global, to_sync: &mut ToSync, act: Act, before: &str) {
    if act_once(rt, alloc, to_sync, act).is_err() {
        assert_shown(rt, alloc, before, to_sync);
        let next = act_once(rt, alloc, to_sync, act);
        assert!(rt; next.is_ok(), "the next try");
    }
}

/// Each act.
fn act_each(rt: &impl Abort, alloc: Global, to_sync: &mut ToSync) {
    for (act, wants) in ACTS {
        let before = shown(rt, alloc, to_sync);
        act_at_last(rt, alloc, to_sync, act, before.as_str());
        look(rt, to_sync, wants);
    }
}

#[test]
fn operations_stay_where_memory_is_refused(rt: HostRuntime) {
    let mut to_sync = ToSync::new(rt.alloc());
    act_each(&rt, rt.alloc(), &mut to_sync);
}
