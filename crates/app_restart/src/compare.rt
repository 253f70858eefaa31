// Rows that are compared.
ghost use Rattle.std.specs.Prelude.{◌≡◌};
ghost use Rattle.app_restart.specs.Difference.{are_equal, has_name_beyond};

use table_schema::Fields;

/// Whether two rows have the same fields.
pub(crate) fn are_equal(row: &Fields, other: &Fields) -> bool
    ensures { result ≡ are_equal row.now other.now }
{
    let mut others = other.items();
    for (name, value) in row.items() {
        match others.next() {
            Some(pair) if pair.0 == name && pair.1 == value => {}
            _ => return false,
        }
    }
    others.next().is_none()
}

/// Whether a row has a name that the other lacks.
pub(crate) fn has_name_beyond(row: &Fields, other: &Fields) -> bool
    ensures { result ≡ has_name_beyond row.now other.now }
{
    row.items()
        .any(|(name, _)| other.get(name.bytes()).is_none())
}
