//! The image of the rows: the rows of all tables in JSON.
#![tactic(auto)]

mod fault;
mod laws;
mod loaded;
mod saved;
mod texts;

pub use fault::ImageFault;
pub use laws::rows_are_named_by_their_keys;
pub use loaded::load;
pub use saved::save;
pub use texts::{key_in_word, read_texts};
