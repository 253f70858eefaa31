//! The core as a machine of states and events, over rows, names and things: any number of workers, each event at most one call.
#![tactic(auto)]

mod laws;

pub use laws::{
    calls_are_legal, free_keys_begin, idle_is_true, needs_suffice, operation_alone,
    others_are_undisturbed, reasons_are_true, reasons_hinder, rest_is_alike, route_changes_once,
    routes_are_steady, routes_are_whole, runs_are_safe,
};
