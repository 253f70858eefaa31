//! The rows that wait, by key, each with its reason.
#![tactic(auto)]

mod event;
mod index;
mod laws;
mod retry;

pub use event::Event;
pub use laws::{list_is_what_was_put, reasons_are_about_events, woken_keys_rise};
pub use retry::Retry;
