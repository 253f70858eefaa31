// Rules that a row breaks.
ghost use Rattle.std.specs.Prelude.{◌≡◌};

use crate::{BadRow, BadWhy};

/// A rule that is broken: why, and the field's number.
pub fn bad(why: BadWhy, field: u8) -> BadRow
    ensures { result ≡ record { why = why; field = field } }
{
    BadRow { why, field }
}
