//! What the switch state service is to do: the definitions that its parts are proved to meet, and the log that they speak of.
#![tactic(auto)]

mod laws;
mod log;
mod mark;
mod placed_log;
mod wait;
mod waits;

pub use laws::{
    closed_rows_are_ready, desired_view_is_self_contained, ready_rows_are_closed,
    room_overflows_nowhere,
};
pub use log::Log;
pub use mark::{Mark, MarkEvent};
pub use placed_log::PlacedLog;
pub use wait::Wait;
pub use waits::Waits;
