// Calls at which a chip is made to fail.

/// A call at which a chip is made to fail.
#[derive(Clone, Copy, Debug, PartialEq, Eq)]
pub struct Fail {
    /// The number of the call, of all calls and listings, from 1.
    pub at: u64,
    /// Whether the call takes effect, where it is legal.
    pub after: bool,
}
