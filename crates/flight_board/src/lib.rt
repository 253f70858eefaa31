//! The rows that are applied, and what each worker has under way: the board on which operations begin, make their calls and end.
#![tactic(auto)]

mod applied;
mod board;
mod ending;
mod flight;
mod row_flight;
mod workers;

pub use board::Board;
