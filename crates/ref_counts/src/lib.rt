//! The names that operations need and make, with their users and pins, and the room that operations reserve on a chip.
#![tactic(auto)]

mod boxed_claims;
mod changes;
mod claims;
mod copying;
mod destination;
mod laws;
mod name;
mod near_in_tables;
mod next;
mod part;
mod pin;
mod pinning;
mod places;
mod placing;
mod registration;
mod registrations;
mod registry;
mod room;
mod unpinned;
mod users;

pub use copying::copied;
pub use laws::{
    changes_are_found, gone_names_are_absent, pins_leave_names, put_names_are_found,
    releases_are_found,
};
pub use name::{Missing, Name, NameState};
pub use next::Next;
pub use registry::Registry;
pub use room::Room;
pub use switch_model::Wait;
