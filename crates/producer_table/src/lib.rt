//! The writes that producers sent and that nobody has taken out of the tables yet, by key.
#![tactic(auto)]

mod key_op;
mod laws;
mod waiting;

pub use key_op::KeyOp;
pub use laws::{pending_is_laid, pending_is_laid_by_key, pops_leave_the_rest, written_keys_wait};
pub use waiting::{Pending, Waiting};
