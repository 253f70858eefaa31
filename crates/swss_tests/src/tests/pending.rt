// What waits where memory is refused. `rt try --test --fail-alloc N` refuses the Nth allocation of the tests: a write that is
// refused memory is as if it had not come, a pop that is refused it takes nothing, and the next try does it. Without the flag
// no allocation is refused, and the test goes over writes that are merged, dropped and taken out.
use super::common::{Run, are_of, assert_shown, fields_of, is_vlan, shown};
use producer_table::{KeyOp, Waiting};
use std::alloc::Global;
use std::process::Abort;
use swss_types::OutOfMemory;
use table_schema::Key;

/// What is taken out of a VLAN: whether there is a deletion mark, and the fields behind it.
type Taken = (u16, bool, &'static [Run]);

/// What is done to the VLAN of a number.
#[derive(Clone, Copy)]
enum Act {
    Set(u16, Run),
    Del(u16),
    /// Takes out at most so many keys, which are these.
    Pop(u64, &'static [Taken]),
}

/// Acts, each with whether nothing waits then.
const ACTS: [(Act, bool); 21] = [
    (Act::Pop(128, &[]), true),
    (Act::Set(1, (0, 1, 1)), false),
    (Act::Del(1), false),
    (Act::Set(1, (1, 2, 2)), false),
    (Act::Pop(128, &[(1, true, &[(1, 2, 2)])]), true),
    (Act::Pop(128, &[]), true),
    (Act::Set(3, (0, 40, 3)), false),
    (Act::Set(2, (5, 6, 4)), false),
    (Act::Del(0), false),
    (Act::Set(3, (30, 34, 5)), false),
    (Act::Pop(0, &[]), false),
    (Act::Pop(1, &[(0, true, &[])]), false),
    (Act::Set(2, (5, 7, 6)), false),
    (Act::Pop(1, &[(2, false, &[(5, 7, 6)])]), false),
    (Act::Del(3), false),
    (Act::Set(0, (1, 2, 7)), false),
    (Act::Set(1, (1, 2, 8)), false),
    (
        Act::Pop(2, &[(0, false, &[(1, 2, 7)]), (1, false, &[(1, 2, 8)])]),
        false,
    ),
    (Act::Set(4, (0, 40, 1)), false),
    (Act::Set(4, (30, 34, 5)), false),
    (
        Act::Pop(
            u64::MAX,
            &[
                (3, true, &[]),
                (4, false, &[(0, 30, 1), (30, 34, 5), (34, 40, 1)]),
            ],
        ),
        true,
    ),
];

/// Whether this was taken out.
fn is_taken(op: &KeyOp, wanted: &Taken) -> bool {
    let (vlan, dropped, runs) = wanted;
    is_vlan(&op.key, *vlan)
        && op.dropped == *dropped
        && match &op.fields {
            Some(fields) => !runs.is_empty() && are_of(fields, runs),
            None => runs.is_empty(),
        }
}

/// One act, once.
fn act_once(
    rt: &impl Abort,
    alloc: Global,
    waiting: &mut Waiting,
    act: Act,
) -> Result<(), OutOfMemory> {
    match act {
        Act::Set(vlan, run) => waiting.set(Key::Vlan(vlan), fields_of(rt, alloc, run)),
        Act::Del(vlan) => waiting.del(Key::Vlan(vlan)),
        Act::Pop(most, wanted) => {
            let ops = waiting.pop(most)?;
            assert!(rt; ops.len() == wanted.len(), "how many keys are taken out");
            for (op, wanted) in ops.iter().zip(wanted) {
                assert!(rt; is_taken(op, wanted), "{op:?} and {wanted:?}");
            }
            Ok(())
        }
    }
}

/// One act: where it is refused memory what waits stays as shown, and the next try does it.
fn act_at_last(rt: &impl Abort, alloc: Global, waiting: &mut Waiting, act: Act, before: &str) {
    if act_once(rt, alloc, waiting, act).is_err() {
        assert_shown(rt, alloc, before, waiting);
        let next = act_once(rt, alloc, waiting, act);
        assert!(rt; next.is_ok(), "the next try");
    }
}

/// Each act.
fn act_each(rt: &impl Abort, alloc: Global, waiting: &mut Waiting) {
    for (at, (act, empty)) in ACTS.into_iter().enumerate() {
        let before = shown(rt, alloc, waiting);
        act_at_last(rt, alloc, waiting, act, before.as_str());
        assert!(rt; waiting.is_empty() == empty, "act {at}");
    }
}

#[test]
fn nothing_is_lost_where_memory_is_refused(rt: HostRuntime) {
    let mut waiting = Waiting::new(rt.alloc());
    act_each(&rt, rt.alloc(), &mut waiting);
}
