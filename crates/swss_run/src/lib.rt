//! The top call of the switch state service: from the words and the script's bytes to the report's bytes.
#![tactic(auto)]

mod beside;
mod input;
mod outcome;
mod output;
mod reading;
mod reporting;
mod run;
mod session;
mod standard;
mod status;
mod told;
mod view;

pub use outcome::Outcome;
pub use run::swss_main;
pub use standard::{StdinSource, StdoutSink};
pub use status::Status;
pub use swss_script::{Refused, Why};
