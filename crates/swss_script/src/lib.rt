//! The script language: what a script's bytes mean, or the first fault in them.
#![tactic(auto)]

mod batch;
mod copies;
mod draft;
mod draws;
mod fails;
mod fields;
mod laws;
mod line;
mod lines;
mod lists;
mod made_rows;
mod making;
mod opening;
mod parts;
mod refused;
mod script;
mod words;

pub use draft::DEFAULT_CAPS;
pub use fails::Fails;
pub use laws::{
    each_key_was_read, each_producer_sends_in_order, each_set_has_a_field, image_is_sent_first,
    plain_script_has_few_writes, script_has_the_writes_of_its_lines, script_is_of_this_stage,
    seed_seven_gives_its_first_number,
};
pub use lists::{Acts, Producers, RoundList, Sections, Shows, Writes};
pub use making::generate;
pub use opening::rounds_behind;
pub use parts::{Act, Fail2, Round, Section, Show};
pub use refused::{Refused, Why};
pub use script::{MOST_BYTES, MOST_LINES, Script};
