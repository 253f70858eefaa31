#![tactic(auto)]

mod answer;
mod body;
mod caps;
mod chip;
mod fail;
mod hop;
mod hops;
mod ids;
mod kind;
mod laws;
mod pairing;
mod plan;
mod thing;
mod weight;

pub use answer::{ChipAnswer, ListAnswer, SyncAnswer};
pub use body::{Attr, Body, Call, Entry, Object, RifOn, To};
pub use caps::Caps;
pub use chip::Chip;
pub use fail::Fail;
pub use hop::{Base, Hop};
pub use hops::Hops;
pub use ids::{Rid, Vid};
pub use kind::{KINDS, Kind, KindCounts};
pub use laws::{
    calls_keep_whole, decided_by_what_stands, empty_is_whole, entries_stay_sorted,
    equal_entries_find_alike, hops_and_things_are_ordered, keys_are_taken_once, made_is_found,
    others_stay, removed_is_gone, set_is_found, stays_whole,
};
pub use pairing::Pairing;
pub use plan::{Mode, Plan, PlanCall, PlanCalls, PlanId};
pub use thing::{Goal, PortThing, Thing};
pub use weight::{WHop, Weight};
