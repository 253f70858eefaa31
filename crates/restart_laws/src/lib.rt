//! The switch service's core over restarts and faults, as a machine of events, and the laws of its sessions.
#![tactic(auto)]

mod laws;

pub use laws::{
    applies_are_steady_and_short, apply_ends_by_its_names, apply_is_steady,
    apply_leads_to_its_view, broken_applies_are_steady, broken_restarts_are_steady,
    effects_are_legal, effects_outside_applies_are_few, logs_are_true, ports_keep_their_lanes,
    sessions_hold, suspect_is_silent,
};
