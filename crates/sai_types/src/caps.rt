// How many objects a chip has room for.
use crate::KindCounts;

/// The capacity of each kind, in the order of `Kind`.
#[derive(Clone, Copy, Debug, PartialEq, Eq)]
pub struct Caps(pub KindCounts);
