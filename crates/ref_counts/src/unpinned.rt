// Why rows are not pinned.

/// Why rows are not pinned, none of them.
#[derive(Clone, Copy, Debug, PartialEq, Eq)]
pub enum Unpinned {
    /// One of them is not live.
    NotLive,
    /// Memory was refused.
    OutOfMemory,
}
