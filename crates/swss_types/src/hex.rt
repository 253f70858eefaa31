// Hexadecimal digits.
ghost use Rattle.std.specs.Prelude.{◌≡◌, ◌^◌, ◌<◌, ◌≤◌, length, IfSome};
ghost use Rattle.std.specs.Char.{digit_char};
ghost use Rattle.swss_types.specs.Hex.{hex_within, hex_behind};

/// The number that the text writes in `least` to `most` hexadecimal digits of either case, or None where it is no such
/// text. There are at most four digits.
pub fn read_hex(text: &[u8], least: usize, most: usize) -> Option<u16>
    requires { most ≤ 4 }
    ensures value { result ≡ hex_within least most text.now }
    ensures small { IfSome result (λ n. n < 16 ^ most) }
{
    if text.len() < least || text.len() > most {
        return None;
    }
    read_digits(text)
}

/// The number that at most four digits write, or None where a byte is no digit.
fn read_digits(digits: &[u8]) -> Option<u16>
    requires { length digits.now ≤ 4 }
    ensures value { result ≡ hex_behind 0 digits.now }
    ensures small { IfSome result (λ n. n < 16 ^ length digits.now) }
{
    let mut value = 0u32;
    for byte in digits {
        value = 16 * value + char::from(*byte).to_digit(16)?;
    }
    Some(value as u16)
}

/// The digit of a number below 16, letters in lower case.
pub fn hex_digit(number: u8) -> u8
    requires { number < 16 }
    ensures { result ≡ digit_char number }
{
    if number < 10 {
        b'0' + number
    } else {
        b'a' + (number - 10)
    }
}
