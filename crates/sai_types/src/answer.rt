// Answers.
use crate::{Rid, Vid};

/// What the chip answers to a call.
#[derive(Clone, Copy, Debug, PartialEq, Eq)]
pub enum ChipAnswer {
    /// An object was made, with this identifier.
    Made(Rid),
    /// The call took effect.
    Done,
    /// The object's key is taken, or a lane is in another port.
    Exists,
    /// A reference is absent or of another kind.
    BadReference,
    /// There is no such entry, or its kind has no such attribute to set.
    NotFound,
    /// Another object refers to the object.
    InUse,
    /// As many objects of the kind stand as the chip has room for.
    Full,
    /// The chip failed: the call took effect, where it was legal, or did not.
    Failed,
    /// The chip found no memory, and is as before.
    NoMemory,
}

/// What the chip answers when it is asked for its objects.
#[derive(Clone, Copy, Debug, PartialEq, Eq)]
pub enum ListAnswer {
    /// Each object was given once.
    Done,
    /// The chip failed, and gave nothing.
    Failed,
    /// The chip found no memory, and gave nothing.
    NoMemory,
}

/// What syncd answers to a call.
#[derive(Clone, Copy, Debug, PartialEq, Eq)]
pub enum SyncAnswer {
    /// An object was made, with this identifier.
    Made(Vid),
    /// The call took effect.
    Done,
    /// The chip failed.
    Failed,
}
