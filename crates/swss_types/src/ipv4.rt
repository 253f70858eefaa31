// The texts of addresses of version 4.
ghost use Rattle.std.specs.Prelude.{◌≡◌, ◌<◌, IfSome, option_map};
ghost use Rattle.swss_types.specs.Ip.{ipv4_of};
ghost use Rattle.swss_types.specs.Ipv4.{bytes_of, split_digit, with_first, with_rest};

use crate::{Bits, Family, Ip};

/// The address of version 4 that the text writes: four numbers 0 to 255 joined by dots.
pub fn read_v4(text: &[u8]) -> Option<Ip>
    ensures { result ≡ ipv4_of text.now }
{
    let (first, behind) = read_byte(text)?;
    let (second, behind) = read_byte(behind?)?;
    let (third, behind) = read_byte(behind?)?;
    let (fourth, behind) = read_byte(behind?)?;
    if behind.is_some() {
        return None;
    }
    let bits = ((first * 256 + second) * 256 + third) * 256 + fourth;
    Some(Ip {
        family: Family::V4,
        bits: Bits::new(u128::from(bits)),
    })
}

/// The first of the numbers 0 to 255 that dots join, and the text behind its dot, where there is one. None where the first
/// is no such number.
// Each of these stands four times in the reading of an address, which takes half the steps of four calls.
#[inline(always)]
fn read_byte(text: &[u8]) -> Option<(u32, Option<&[u8]>)>
    ensures value { with_first result ≡ bytes_of text.now }
    ensures small { IfSome result (λ first. first.0 < 256) }
{
    let (value, rest) = read_digits(text)?;
    match rest {
        [] => Some((value, None)),
        [b'.', behind @ ..] => Some((value, Some(behind))),
        _ => None,
    }
}

/// The number of the first digits, three at most, and what is behind them.
#[inline(always)]
fn read_digits(text: &[u8]) -> Option<(u32, &[u8])>
    ensures value { with_rest result ≡ bytes_of text.now }
    ensures small { IfSome result (λ first. first.0 < 256) }
{
    let (first, rest) = split_digit(text)?;
    if first == 0 {
        return Some((0, rest));
    }
    let Some((second, rest)) = split_digit(rest) else {
        return Some((first, rest));
    };
    let value = 10 * first + second;
    let Some((third, rest)) = split_digit(rest) else {
        return Some((value, rest));
    };
    let value = 10 * value + third;
    if value > 255 {
        return None;
    }
    Some((value, rest))
}

/// The value of a digit at the front, and what is behind it.
#[inline(always)]
fn split_digit(text: &[u8]) -> Option<(u32, &[u8])>
    ensures value { option_map (λ first. (first.0, first.1.now)) result ≡ split_digit text.now }
    ensures small { IfSome result (λ first. first.0 < 10) }
{
    match text {
        [digit, rest @ ..] if digit.is_ascii_digit() => Some((u32::from(*digit - b'0'), rest)),
        _ => None,
    }
}
