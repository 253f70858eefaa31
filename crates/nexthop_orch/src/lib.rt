//! Builds groups of next hops on the chip, and takes them away.
#![tactic(auto)]

mod flight;

pub use flight::GroupFlight;
