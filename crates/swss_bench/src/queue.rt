// The intake queue.
use swss_types::MOST_PORT;

mod alone;
mod locked;
mod name;
mod together;

pub use alone::time_alone;
pub use together::time_together;

/// How many numbers a port can have.
const PORTS: u32 = MOST_PORT + 1;
