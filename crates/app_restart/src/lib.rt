//! Reconciliation of a restarted producer: it sends its rows again, and only what differs is written.
//! SONiC's helper for application restarts does so.
#![tactic(auto)]

mod cache;
mod compare;
mod entry;
mod laws;
mod state;
mod table;

pub use cache::Cache;
pub use laws::{caches_keep_and_fold, states_are_of_writes, tables_are_reconciled};
pub use state::CacheState;
pub use table::{key_of_write, table_of};
