//! The registry of names, the room of the chip, what workers have under way and the ties of identifiers stand for the machine,
//! and each step of the code is an event of it: laws of definitions, with no code. By `flying` and `laws` the registry and the room
//! stand for the machine's operations; by `identifiers` the registry's identifiers are those of the objects that stand, so what is
//! told with them is what is due; by `machine` all of it together stands for the machine.
#![tactic(auto)]

mod flying;
mod identifiers;
mod laws;
mod machine;

pub use flying::{
    answers_are_known, answers_may_be_taken, begins_are_known, due_changes_are_told, groups_begin,
    nothing_is_flown, starts_are_allowed,
};
pub use identifiers::{
    answers_keep_identifiers, calls_are_due, calls_are_of_their_things, groups_stay_whole,
    identifiers_are_known, names_keep_identifiers, next_calls_are_due, nothing_is_identified,
    ports_are_held,
};
pub use laws::{
    answers_are_registered, ends_are_registered, groups_are_apart, leaves_are_registered,
    live_rows_are_last, moves_are_registered, nothing_is_registered, operations_have_changes,
    reasons_hold, starts_are_registered,
};
pub use machine::{
    answers_are_events, answers_may_come, beginnings_are_events, ends_are_told, ends_may_come,
    groups_begin_in_place, keys_wait_or_begin, next_calls_are_known, nothing_stands_for,
    places_are_counted, rows_stand_for, the_same_stands_for, tied_calls_are_due, views_go_over,
    workers_rest,
};
