// Texts as the report prints them.
ghost use Rattle.std.specs.Prelude.{◌≡◌, ◌++◌, ◌<◌, OnOk};
ghost use Rattle.std.specs.Char.{digit_char};
ghost use Rattle.swss_report.specs.Escaped.{byte_text, escaped, is_escaped};

use swss_types::OutOfMemory;

/// Appends a text with an escape for each byte that would end a word or a line, and for each `%`. An Err may leave a part
/// of it.
pub(crate) fn write_escaped(out: &mut Vec<u8>, text: &[u8]) -> Result<(), OutOfMemory>
    ensures { OnOk result (out.new.items ≡ out.old.items ++ escaped text.now) }
{
    for byte in text {
        write_byte(out, *byte)?;
    }
    Ok(())
}

/// Appends a byte, or its escape: `%` and two digits.
fn write_byte(out: &mut Vec<u8>, byte: u8) -> Result<(), OutOfMemory>
    ensures { OnOk result (out.new.items ≡ out.old.items ++ byte_text byte) }
{
    if is_escaped(byte) {
        out.extend_from_slice(&[b'%', hex_digit(byte / 16), hex_digit(byte % 16)])?;
    } else {
        out.push(byte)?;
    }
    Ok(())
}

/// Whether a byte is a blank or a control byte, or `%` itself.
fn is_escaped(byte: u8) -> bool
    ensures { result ≡ is_escaped byte }
{
    byte <= b' ' || byte == 0x7F || byte == b'%'
}

/// The digit of a number below 16, letters in lower case.
fn hex_digit(number: u8) -> u8
    requires { number < 16 }
    ensures { result ≡ digit_char number }
{
    if number < 10 {
        b'0' + number
    } else {
        b'a' + (number - 10)
    }
}
