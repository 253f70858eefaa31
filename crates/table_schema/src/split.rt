// Texts that are split at a byte.
ghost use Rattle.std.specs.Prelude.{◌≡◌, ◌==◌, option_map};
ghost use Rattle.std.specs.List.{position};
ghost use Rattle.table_schema.specs.Split.{split_once};

/// What stands before the first such byte and what stands behind it, or None where there is none.
pub fn split_once(text: &[u8], byte: u8) -> Option<(&[u8], &[u8])>
    ensures { option_map (λ parts. (parts.0.now, parts.1.now)) result ≡ split_once byte text.now }
{
    let at = place_of(text, byte)?;
    Some((&text[..at], &text[at + 1..]))
}

/// The place of the first such byte.
fn place_of(text: &[u8], byte: u8) -> Option<usize>
    ensures { result ≡ position (λ b. b == byte) text.now }
{
    text.iter().position(|b| *b == byte)
}
