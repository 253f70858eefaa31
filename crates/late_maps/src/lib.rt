//! Maps that are searched from where a key was found last, and from the greatest on, for keys that come in their order.
#![tactic(auto)]

mod chunks;
mod iter;
mod late_map;
mod near;

pub use chunks::Place;
pub use iter::Iter;
pub use late_map::LateMap;
pub use near::{Near, OneNear};
