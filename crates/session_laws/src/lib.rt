//! Each step of the core's code is a step of the service's session with its log: laws of definitions, with no code. By `laws` the steps
//! of a core that is reconciled; by `settlings` what the parts of a settling come to, and that together they settle the machine; by
//! `services` restarts, lists of the chip, restores and the calls of plans; by `workers` for which workers operations are under way.
#![tactic(auto)]

mod laws;
mod services;
mod settlings;
mod workers;

pub use laws::{
    answers_are_steps, calls_can_be_made, drops_are_steps, faults_are_steps, free_workers_see,
    keys_are_tried, lists_stand_beside, logs_are_sized, marks_are_steps, new_cores_stand,
    pops_are_steps, prepared_boards_stand, steps_join, writes_are_steps,
};
pub use services::{
    apply_calls_are_steps, lists_are_steps, operations_are_run_on_the_view,
    pops_wait_for_the_restore, restarts_are_steps, restores_are_steps, rows_are_gone_over,
    sessions_are_services, steps_follow, writes_are_taken,
};
pub use settlings::{
    leads_are_steps, pops_go_on, runs_go_on, settlings_end, turns_follow, turns_go_on, walks_go_on,
};
pub use workers::{boards_stay, workers_stay, workers_stay_on};
