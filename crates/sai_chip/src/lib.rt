//! A simulated SAI chip in memory.
#![tactic(auto)]

mod bodies;
mod counts;
mod effect;
mod fail;
mod forward;
mod forwarding;
mod held;
mod mark;
mod marks;
mod membership;
mod remade;
mod replay;
mod routing;
mod sim;
mod table;
mod tables;
mod tally;
mod ways;

pub use chip_names::{Names, named};
pub use forward::Forward;
pub use replay::Replay;
pub use sai_types::Fail;
pub use sim::SimChip;
pub use ways::Ways;
