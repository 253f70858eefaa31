//! Brings the row of a port to the chip: the operations of PORT_TABLE.
#![tactic(auto)]

mod flight;
mod starting;

pub use flight::PortFlight;
