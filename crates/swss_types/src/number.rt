// Numbers as the formats write them: decimal digits without a sign or a leading zero.
ghost use Rattle.std.specs.Prelude.{◌≡◌, ◌++◌, OnOk, OnErr};
ghost use Rattle.std.specs.Fmt.{decimal};
ghost use Rattle.swss_types.specs.Number.{number_within, at_most, value_behind};

use crate::OutOfMemory;

/// The number that the text writes: one or more decimal digits, without a leading zero unless it is 0. None exactly
/// where the text is no such number, or the number is greater than `most`.
pub fn read_number(text: &[u8], most: u32) -> Option<u32>
    ensures { result ≡ number_within most text.now }
{
    match text {
        [] => None,
        [b'0', _, ..] => None,
        _ => read_digits(text, most),
    }
}

/// The number that the digits write, or None where a byte is no digit or the number is greater than `most`.
fn read_digits(digits: &[u8], most: u32) -> Option<u32>
    ensures { result ≡ at_most most (value_behind 0 digits.now) }
{
    let mut value = 0u64;
    for byte in digits {
        if !byte.is_ascii_digit() {
            return None;
        }
        value = 10 * value + u64::from(*byte - b'0');
        if value > u64::from(most) {
            return None;
        }
    }
    Some(value as u32)
}

/// Appends the decimal form of a number.
pub fn write_number(out: &mut Vec<u8>, number: u64) -> Result<(), OutOfMemory>
    ensures ok { OnOk result (out.new.items ≡ out.old.items ++ decimal number) }
    ensures err { OnErr result (out.new.items ≡ out.old.items) }
{
    let mut buffer = itoa::Buffer::new();
    out.extend_from_slice(buffer.format(number).as_bytes())?;
    Ok(())
}
