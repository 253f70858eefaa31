//! The operations that are to be brought to the chip, one for each key.
#![tactic(auto)]

mod laws;
mod op;
mod to_sync;

pub use laws::{added_rows_are_now, done_rows_are_now, op_is_row_now, ops_stay_in_order};
pub use op::Op;
pub use to_sync::ToSync;
