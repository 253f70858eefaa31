//! What whole rounds of the service come to, told by the port plan, the capacities, the log and the chip's effects alone. Laws of
//! definitions, with no code.
#![tactic(auto)]

mod laws;
mod rounds;

pub use laws::{
    keys_to_sync_were_named, listed_keys_were_named, sessions_are_true, sessions_begin,
    sessions_go_on, sessions_grow, what_is_due_is_awaited,
};
pub use rounds::{rounds_begin, rounds_drain, rounds_end, rounds_may_begin};
