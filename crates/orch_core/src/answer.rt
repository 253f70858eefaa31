// What the core answers.
use table_schema::Sent;
use thiserror::Error;

/// What a step came to.
#[derive(Clone, Copy, Debug, PartialEq, Eq)]
pub enum Step {
    /// An event was made.
    Did,
    /// No event applies to the worker.
    Idle,
    /// A call has failed, and nothing is done until a restart.
    Suspect,
    /// The call failed.
    Faulted,
    /// The log has no room for the event that is due.
    LogFull,
}

/// What a settling came to.
#[derive(Clone, Copy, Debug, PartialEq, Eq)]
pub enum Settled {
    /// What is left waits, and a mark says so.
    Settled,
    /// A call failed, and a mark says so.
    Faulted,
    /// The log has no room for the event that is due.
    LogFull,
}

/// Why a write was not taken.
#[derive(Debug, Drop)]
pub enum TakeFault {
    /// The log has no room for it: the write comes back.
    LogFull(Sent),
}

/// The log has no place for the mark of a restart.
#[derive(Clone, Copy, Debug, PartialEq, Eq, Error)]
#[error("log full")]
pub struct LogFull;

/// How far what is under way, a key or a turn was run.
#[derive(Clone, Copy, Debug, PartialEq, Eq)]
pub(crate) enum Ran {
    /// To its end.
    Whole,
    /// A call failed.
    Faulted,
    /// The log has no room for the call that is due.
    LogFull,
}

/// How turns ended.
#[derive(Clone, Copy, Debug, PartialEq, Eq)]
pub(crate) enum Turned {
    /// After so many turns no more are to be made.
    Whole(u64),
    /// A call failed.
    Faulted,
    /// The log has no room for the call that is due.
    LogFull,
}

/// What became of a key that is to sync.
#[derive(Debug, Drop)]
pub(crate) enum Tried {
    /// It has its good row already, and is no longer to sync.
    Dropped,
    /// Its operation has begun, and it is no longer to sync.
    Begun,
    /// It waits.
    Waits(switch_model::Wait),
}
