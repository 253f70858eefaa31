// How keys stand in a cache.

/// How a key that was kept or written stands, in the manner of SONiC's cache states.
#[derive(Clone, Copy, Debug, PartialEq, Eq)]
pub enum CacheState {
    /// Its row was kept, and it was not written since.
    Stale,
    /// The row that was sent again is the one that was kept.
    Same,
    /// Another row was sent than the one that was kept, or none was kept.
    New,
    /// It was written, and what was sent leaves it no row.
    Deleted,
}
