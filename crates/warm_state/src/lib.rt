//! How far a control plane has come since it started, in the words of SONiC's warm restart.
#![tactic(auto)]

mod warm;

pub use warm::{Warm, ready};
