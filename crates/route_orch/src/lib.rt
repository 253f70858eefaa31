//! Brings the row of a route to the chip: the operations of ROUTE_TABLE.
#![tactic(auto)]

mod flight;
mod starting;
mod target;

pub use flight::RouteFlight;
