//! syncd: between the service, which names objects by identifiers that it makes up, and the chip. It makes the service's
//! calls on the chip, builds a temporary view after a restart, and brings the chip to it.
#![tactic(auto)]

mod answer;
mod beginning;
mod calling;
mod laws;
mod made;
mod naming;
mod syncd;

pub use answer::{ApplyStep, Listed};
pub use laws::ties_hold;
pub use syncd::Syncd;
