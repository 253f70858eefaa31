//! What the orchestrators of all tables have in common: why a row has to wait, how its operation starts, and what it leaves.
#![tactic(auto)]

mod beginning;
mod leaving;
mod moving;
mod reasons;
mod sharing;
mod starting;
mod undoing;

pub use leaving::{leave, router_vid, try_remove, vid};
pub use moving::start_moved;
pub use reasons::unapplied;
pub use sharing::{base_of, bridge_of, lane_of, own_of, shared};
pub use starting::{lacks, start_row, start_sharing};
