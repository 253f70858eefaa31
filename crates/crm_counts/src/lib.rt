//! Counters of a chip's resources, kept effect by effect.
//! They tell how many objects of each kind stand, and which kinds are above their thresholds.
#![tactic(auto)]

mod alarm;
mod counts;
mod crm;
mod laws;
mod limits;

pub use alarm::Alarm;
pub use crm::Crm;
pub use laws::{alarms_tell_who_is_above, effects_come_one_by_one, thresholds_bound_counts};
