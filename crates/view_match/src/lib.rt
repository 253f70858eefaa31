//! Which object on the chip is which object of a new view: by what both stand for, and not by identifiers.
#![tactic(auto)]

mod indexed;
mod key;
mod keyed;
mod laws;
mod listed;
mod pairing;

pub use key::{NaturalKey, natural_keys};
pub use keyed::{NaturalKeys, natural_keys_of};
pub use laws::{natural_keys_are_ordered, pairs_are_of_one_key};
pub use listed::as_listed;
pub use pairing::{pair, pair_by};
