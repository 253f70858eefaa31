//! The rows of the application tables, as the writes so far leave them.
#![tactic(auto)]

mod rows;

pub use rows::Rows;
