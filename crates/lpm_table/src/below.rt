// What is below a node of a tree.
ghost use Rattle.std.specs.Prelude.{◌≡◌, not, None, Some, option_copied};
ghost use Rattle.lpm_table.specs.Below.{side};

/// What is on the two sides of a node: on that of the zeros, on that of the ones, on both, or on neither. It takes the
/// room of two and of one mark.
#[derive(Drop)]
pub(crate) enum Below<T> {
    /// On neither side.
    Neither,
    /// On the side of the zeros alone.
    Zeros(T),
    /// On the side of the ones alone.
    Ones(T),
    /// On both, that of the zeros first.
    Both(T, T),
}

impl<T: Drop> Below<T> {
    /// With these on a side and on the other one.
    pub(crate) fn of(one: bool, at: Option<T>, other: Option<T>) -> Below<T>
        ensures at { side one result ≡ at }
        ensures other { side (not one) result ≡ other }
    {
        match (at, other) {
            (None, None) => Below::Neither,
            (Some(at), None) => alone(one, at),
            (None, Some(other)) => alone(!one, other),
            (Some(at), Some(other)) => {
                if one {
                    Below::Both(other, at)
                } else {
                    Below::Both(at, other)
                }
            }
        }
    }

    /// What is on a side, and what is on the other one.
    pub(crate) fn split(self, one: bool) -> (Option<T>, Option<T>)
        ensures at { result.0 ≡ side one self }
        ensures other { result.1 ≡ side (not one) self }
    {
        let (zeros, ones) = match self {
            Below::Neither => (None, None),
            Below::Zeros(zeros) => (Some(zeros), None),
            Below::Ones(ones) => (None, Some(ones)),
            Below::Both(zeros, ones) => (Some(zeros), Some(ones)),
        };
        if one { (ones, zeros) } else { (zeros, ones) }
    }

    /// What is on a side.
    pub(crate) fn at(&self, one: bool) -> Option<&T>
        ensures { option_copied result ≡ side one self.now }
    {
        match (one, self) {
            (false, Below::Zeros(at) | Below::Both(at, _)) => Some(at),
            (true, Below::Ones(at) | Below::Both(_, at)) => Some(at),
            _ => None,
        }
    }
}

/// On one side alone.
fn alone<T: Drop>(one: bool, at: T) -> Below<T>
    ensures at { side one result ≡ Some at }
    ensures other { side (not one) result ≡ None }
{
    if one {
        Below::Ones(at)
    } else {
        Below::Zeros(at)
    }
}
