//! The application tables as the core has them: the rows, the writes that wait to be popped, and the keys that are to be
//! brought to the chip.
#![tactic(auto)]

mod laws;
mod merging;
mod read_rows;
mod rows;
mod tables;

pub use laws::{
    keys_leave, left_keys_are_fewer, no_tables_are_told, popped_tables_wait_for_nothing,
    pops_are_events, refused_pops_are_made_again, waiting_keys_are_as_before, walks_pass_no_key,
    writes_are_taken,
};
pub use tables::{BATCH, Tables};
