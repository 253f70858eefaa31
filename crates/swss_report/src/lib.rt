//! The report: what a run prints of its rounds.
#![tactic(auto)]

mod calls;
mod chip;
mod chip_line;
mod counted;
mod counts;
mod ending;
mod escaped;
mod ignored;
mod image;
mod kinds;
mod marks;
mod round;
mod shows;
mod tables;
mod waiting;
mod ways;

pub use chip::view_lines;
pub use round::{RoundEnd, round_lines};
