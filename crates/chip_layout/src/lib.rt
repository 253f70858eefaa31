//! Which thing each object of a chip stands for, and what calls do to it: a chip is spoken of by the names of things,
//! and no longer by identifiers, entries and bodies.
#![tactic(auto)]

mod ids;
mod laws;
mod make;

pub use ids::{
    NewIds, attr_with_ids, body_with_ids, call_with_ids, entry_with_ids, on_with_ids, to_with_ids,
    vr_with_ids,
};
pub use laws::{
    answers_once, made_stands, removed_leaves, renamed_stands, set_changes, shown_is_laid,
    stands_alike,
};
pub use make::{body_of, on_of, to_of, vr_of};
