//! The thing of each object of a list, by names.
#![tactic(auto)]

mod known;
mod names;
mod naming;
mod things;

pub use known::Numbered;
pub use names::{GroupHops, hop_on, rif_at, router_at, thing_at};
pub use naming::Names;
pub use things::{hops_of, named};
