//! What a mark lists: the keys that are to sync, each with the reason for which it waits and its applied row.
#![tactic(auto)]

mod lists;

pub use lists::{list_bare, list_waiting};
