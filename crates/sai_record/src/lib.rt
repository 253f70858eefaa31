//! The recording of what a chip was made to do, as a text, and the chip that it builds again.
#![tactic(auto)]

mod laws;
mod line;
mod meaning;
mod numbers;
mod reading;
mod recording;
mod replaying;
mod session;
mod words;
mod writing;

pub use laws::{reads_what_is_written, session_is_built_again};
pub use reading::{BadRecord, read};
pub use recording::{Recorded, RecordedCalls, Recording};
pub use replaying::{Replayed, StopWhy, replay};
pub use session::recording_of;
pub use writing::write;
