//! Prefixes in trees, for the longest one that covers an address.
#![tactic(auto)]

mod below;
mod fronts;
mod laws;
mod lpm;
mod parts;
mod tree;

pub use laws::the_best_is_the_longest;
pub use lpm::Lpm;
