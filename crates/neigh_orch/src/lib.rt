//! Brings the rows of neighbours to the chip: the operations of NEIGH_TABLE.
#![tactic(auto)]

mod flight;
mod left;
mod starting;

pub use flight::NeighFlight;
