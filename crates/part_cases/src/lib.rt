//! Cases of texts, of the chip with what is reported of it, and of the planner, and what cases of other kinds share with
//! them. A program reads their lines and runs them.
#![tactic(auto)]

pub mod chip;
pub mod chips;
pub mod draw;
pub mod parted;
pub mod plans;
pub mod tally;
pub mod texts;
pub mod words;
