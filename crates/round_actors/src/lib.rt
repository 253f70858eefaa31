//! The actors of a round, beside each other over one value under a lock: producers send and restart, and workers step.
#![tactic(auto)]

mod actor;
mod answers;
mod fake_core;
mod fake_shared;
mod hold;
mod laws;
mod name;
mod producer;
mod round;
mod round_core;
mod round_value;
mod shared;
mod trial;
mod whole;
mod worker;

pub use actor::{Actor, Producer};
pub use answers::{Kept, Step};
pub use fake_core::FakeCore;
pub use fake_shared::FakeShared;
pub use hold::Hold;
pub use laws::sections_of_scripts_can_run;
pub use name::{RoundName, Stops};
pub use round::{Ran, run_actors};
pub use round_core::{Opening, Refusal, RoundCore};
pub use round_value::RoundValue;
pub use shared::Shared;
pub use trial::{Told, trial_sections, try_core, try_round};
pub use whole::run_core;
