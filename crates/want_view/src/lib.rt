//! The plain view: which things are to stand on the chip for the rows of the tables, told row by row.
#![tactic(auto)]

mod rows;
mod things;

pub use rows::want;
