//! A round: the core and its chip under the lock that its actors share, and the settling behind them.
#![tactic(auto)]

mod ahead;
mod alone;
mod ending;
mod locked;
mod name;
mod one_worker;
mod rounding;
mod script_rounds;
mod served;
mod taking;
mod whole;

pub use ahead::take_image;
pub use ending::RoundEnd;
pub use locked::Locked;
pub use name::Named;
pub use one_worker::round_alone;
pub use rounding::Rounded;
pub use script_rounds::ScriptRounds;
pub use served::Served;
pub use whole::round;
