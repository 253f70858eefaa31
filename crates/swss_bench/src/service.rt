// Rounds of the service with several workers.
mod full;
mod held;
mod network;
mod routes;
mod slow;

pub use full::time_full;
pub use routes::{time_routes, time_slow};

/// How many places a core's log has.
pub(crate) const PLACES: u64 = 4_194_304;
