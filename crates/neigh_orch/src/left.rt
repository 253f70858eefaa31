// How far the operation of a neighbour is.

/// What of a neighbour and its next hop is still to be made, or still to be removed.
#[derive(Clone, Copy, Debug)]
pub enum Left {
    /// Both.
    Both,
    /// The one that comes second.
    One,
    /// Neither.
    Neither,
}
