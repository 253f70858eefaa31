//! The calls that bring a chip from what stands on it to a new view, in an order that keeps packets on their way.
#![tactic(auto)]

mod attributes;
mod calls;
mod due;
mod laws;
mod naming;
mod places;
mod planned;
mod ranks;
mod room;
mod routers;

pub use laws::turns_are_ordered;
pub use planned::{plan, plan_by};
pub use ranks::{PlanStep, Rank, Timed};
