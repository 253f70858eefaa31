//! To which row an object belongs, and what rows share: things by their owners, and the changes of an operation.
#![tactic(auto)]

mod laws;

pub use laws::{equal_rows_change_nothing, owners_are_apart, rows_have_their_things, rows_name};
