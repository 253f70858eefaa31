//! The core: the state machine between the application tables and syncd. One event makes at most one chip call.
#![tactic(auto)]

mod answer;
mod answering;
mod applying;
mod coming_back;
mod going_over;
mod listing;
mod listing_the_chip;
mod logging;
mod marking;
mod parts;
mod restart_parts;
mod restarting;
mod restoring;
mod running;
mod settling;
mod state;
mod stepping;
mod taking;
mod trying;
mod turning;

pub use answer::{LogFull, Settled, Step, TakeFault};
pub use state::Core;
pub use switch_model::{Log, Mark, MarkEvent, Waits};
