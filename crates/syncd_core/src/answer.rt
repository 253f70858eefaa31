// What syncd answers.

/// What a list of the chip came to.
#[derive(Clone, Copy, Debug, PartialEq, Eq)]
pub enum Listed {
    /// The chip's objects were listed.
    Done,
    /// The chip failed.
    Failed,
}

/// What a call of a plan came to.
#[derive(Clone, Copy, Debug, PartialEq, Eq)]
pub enum ApplyStep {
    /// It was made, and there are more.
    More,
    /// Every call of the plan was made.
    Ended,
    /// The chip failed at it.
    Failed,
}
