//! What whole settlings and logs of the machine come to: turns, four turns, quiet rows, true marks, and when a key can begin.
#![tactic(auto)]

mod laws;

pub use laws::{
    calls_are_few, four_turns, keys_may_begin, marks_are_true, operations_make_their_calls,
    quiet_rows_stay, rows_are_dated, settlings_are_logged, settlings_are_turns, settlings_drain,
    settlings_so_far_are_logged, turns_so_far_are_turns,
};
