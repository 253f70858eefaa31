//! Brings the rows of VLANs and of their members to the chip: the operations of VLAN_TABLE and VLAN_MEMBER_TABLE.
#![tactic(auto)]

mod calls;
mod firsts;
mod flight;
mod starting;
mod steps;
mod taking;

pub use flight::VlanFlight;
