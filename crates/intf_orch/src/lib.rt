//! Brings the rows of interfaces, of their addresses and of virtual routers to the chip: the operations of INTF_TABLE and
//! VRF_TABLE.
#![tactic(auto)]

mod address;
mod flight;
mod interface;
mod router;
mod stage;
mod starting;

pub use flight::IntfFlight;
