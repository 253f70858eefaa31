// What the value under the lock answers.

/// The refusal that the value keeps.
#[derive(Clone, Copy, Debug, PartialEq, Eq)]
pub enum Kept {
    /// None.
    Nothing,
    /// The log was full.
    LogFull,
    /// There was no memory.
    NoMemory,
}

/// What a worker's step came to.
#[derive(Clone, Copy, Debug, PartialEq, Eq)]
pub enum Step {
    /// A message was taken, or an event was made.
    Did,
    /// There was no message, and no event applies to the worker.
    Idle,
    /// A call has failed, and nothing is done until a restart.
    Suspect,
    /// The call failed.
    Faulted,
    /// The log has no room.
    LogFull,
}
