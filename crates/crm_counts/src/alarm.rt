// Alarms.
use sai_types::Kind;

/// What tells that a kind of object came above its threshold, or left it.
#[derive(Clone, Copy, Debug, PartialEq, Eq)]
pub enum Alarm {
    /// The kind came above: its objects are at least the high percentage of its capacity.
    Exceeded(Kind),
    /// The kind is no longer above: its objects are at most the low percentage of its capacity.
    Clear(Kind),
}
