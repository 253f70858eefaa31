// The texts of internet addresses.
ghost use Rattle.std.specs.Prelude.{◌≡◌, ◌+◌, ◌<◌, ◌≤◌, ◌%◌, ◌++◌, codes, flat_map, length, take, IfSome, OnOk, OnErr};
ghost use Rattle.std.specs.Fmt.{decimal};
ghost use Rattle.std.specs.Net.Text.{groups_text, hex, hex_groups_text, leading_zero_digits, longest_zero_run};
ghost use Rattle.swss_types.specs.Address.{IsProperIp};
ghost use Rattle.swss_types.specs.Ip.{ip_of, ip_text, text_in, groups_in, groups_of, ipv6_of, ipv6_from, gap_at, side_of, filled_between};
ghost use Rattle.swss_types.specs.IpParts.{made};

use crate::hex::{hex_digit, read_hex};
use crate::ipv4::read_v4;
use crate::{Bits, Family, Ip, OutOfMemory, cut_at, write_number};

/// How many groups an address of version 6 has.
const GROUPS: u32 = 8;

impl Ip {
    /// The address that the text writes: four numbers 0 to 255 joined by `.`, or groups of hexadecimal digits joined by
    /// `:`, eight of them or at most seven and one `::` (RFC 4291 section 2.2, forms 1 and 2). None where it is no such
    /// text.
    pub fn read(text: &[u8]) -> Option<Ip>
        ensures value { result ≡ ip_of text.now }
        ensures proper { IfSome result IsProperIp }
    {
        if let Some(ip) = read_v4(text) {
            return Some(ip);
        }
        read_v6(text)
    }

    /// Appends the written form: four numbers joined by `.`, or groups of hexadecimal digits joined by `:`, in lower case,
    /// without leading zeros, the first of the longest runs of at least two zero groups as `::` (RFC 5952 section 4).
    pub fn write(&self, out: &mut Vec<u8>) -> Result<(), OutOfMemory>
        ensures ok { OnOk result (out.new.items ≡ out.old.items ++ ip_text self.now) }
        ensures err { OnErr result (out.new.items ≡ out.old.items) }
    {
        let before = out.len();
        if let Err(error) = write_address(out, *self) {
            out.truncate(before);
            return Err(error);
        }
        Ok(())
    }
}

/// The address of version 6 that the text writes.
fn read_v6(text: &[u8]) -> Option<Ip>
    ensures { result ≡ ipv6_of text.now }
{
    match gap_at(text) {
        None => read_whole(text),
        Some(at) => read_around(&text[..at], &text[at + 2..]),
    }
}

/// The address of version 6 whose text has all groups.
fn read_whole(text: &[u8]) -> Option<Ip>
    ensures { result ≡ ipv6_from (groups_of text.now) }
{
    let (bits, count) = read_groups(text)?;
    if count != GROUPS {
        return None;
    }
    Some(Ip {
        family: Family::V6,
        bits: Bits::new(bits),
    })
}

/// The address whose text has these two sides of a `::`.
fn read_around(front: &[u8], back: &[u8]) -> Option<Ip>
    ensures { result ≡ ipv6_from (filled_between (side_of front.now) (side_of back.now)) }
{
    let (high, above) = read_side(front)?;
    let (low, below) = read_side(back)?;
    if above + below > 7 {
        return None;
    }
    Some(Ip {
        family: Family::V6,
        bits: Bits::new((high << (16 * (7 - above)) << 16) + low),
    })
}

/// The number that the groups in the text make, and how many they are. None where a part is none, or where there are more
/// than an address has.
fn read_groups(text: &[u8]) -> Option<(u128, u32)>
    ensures { result ≡ made 0 0 (groups_of text.now) }
{
    let mut bits = 0u128;
    let mut count = 0u32;
    let mut left = Some(text);
    while let Some(list) = left {
        let (part, behind) = cut_at(list, b':');
        let value = read_hex(part, 1, 4)?;
        if count == GROUPS {
            return None;
        }
        bits = 65_536 * bits + u128::from(value);
        count += 1;
        left = behind;
    }
    Some((bits, count))
}

/// The same for what stands beside a `::`, which may be nothing.
fn read_side(text: &[u8]) -> Option<(u128, u32)>
    ensures { result ≡ made 0 0 (side_of text.now) }
{
    if text.is_empty() {
        return Some((0, 0));
    }
    read_groups(text)
}

/// The place of the first `::`.
fn gap_at(text: &[u8]) -> Option<usize>
    ensures value { result ≡ gap_at text.now }
    ensures within { IfSome result (λ at. at + 2 ≤ length text.now) }
{
    for (at, byte) in text.iter().enumerate() {
        if *byte == b':' && text.get(at + 1) == Some(&b':') {
            return Some(at);
        }
    }
    None
}

/// Appends the written form. An Err may leave a part of it.
fn write_address(out: &mut Vec<u8>, ip: Ip) -> Result<(), OutOfMemory>
    ensures ok { OnOk result (out.new.items ≡ out.old.items ++ ip_text ip) }
    ensures err { OnErr result (take (length out.old.items) out.new.items ≡ out.old.items) }
{
    match ip.family {
        Family::V4 => write_v4(out, ip.bits.number()),
        Family::V6 => write_groups_with_gap(out, &groups_of(ip.bits.number())),
    }
}

/// Appends four bytes as numbers joined by dots. An Err may leave a part of it.
fn write_v4(out: &mut Vec<u8>, bits: u128) -> Result<(), OutOfMemory>
    ensures ok { OnOk result (out.new.items ≡ out.old.items ++ text_in Family.V4 bits) }
    ensures err { OnErr result (take (length out.old.items) out.new.items ≡ out.old.items) }
{
    write_byte(out, bits >> 24)?;
    out.push(b'.')?;
    write_byte(out, bits >> 16)?;
    out.push(b'.')?;
    write_byte(out, bits >> 8)?;
    out.push(b'.')?;
    write_byte(out, bits)
}

/// Appends the last byte of a number in decimal form.
fn write_byte(out: &mut Vec<u8>, bits: u128) -> Result<(), OutOfMemory>
    ensures ok { OnOk result (out.new.items ≡ out.old.items ++ decimal (bits % 256)) }
    ensures err { OnErr result (out.new.items ≡ out.old.items) }
{
    write_number(out, (bits % 256) as u64)
}

/// The eight groups of an address of version 6, the highest first.
fn groups_of(bits: u128) -> [u16; 8]
    ensures { result ≡ groups_in bits }
{
    [
        last_group(bits >> 112),
        last_group(bits >> 96),
        last_group(bits >> 80),
        last_group(bits >> 64),
        last_group(bits >> 48),
        last_group(bits >> 32),
        last_group(bits >> 16),
        last_group(bits),
    ]
}

/// The last 16 bits of a number.
fn last_group(bits: u128) -> u16
    ensures { result ≡ bits % 65536 }
{
    (bits % 65_536) as u16
}

/// Appends groups joined by colons, the first of the longest runs of at least two zero groups as `::`. An Err may leave a
/// part of it.
fn write_groups_with_gap(out: &mut Vec<u8>, groups: &[u16]) -> Result<(), OutOfMemory>
    ensures ok { OnOk result (out.new.items ≡ out.old.items ++ hex_groups_text groups.now) }
    ensures err { OnErr result (take (length out.old.items) out.new.items ≡ out.old.items) }
{
    let (start, len) = longest_zero_run(groups);
    if len < 2 {
        return write_groups(out, groups);
    }
    write_around(out, &groups[..start], &groups[start + len..])
}

/// Appends the groups on both sides of a `::`. An Err may leave a part of it.
fn write_around(out: &mut Vec<u8>, front: &[u16], back: &[u16]) -> Result<(), OutOfMemory>
    ensures ok { OnOk result (out.new.items ≡ out.old.items ++ (groups_text front.now ++ codes "::" ++ groups_text back.now)) }
    ensures err { OnErr result (take (length out.old.items) out.new.items ≡ out.old.items) }
{
    write_groups(out, front)?;
    out.extend_from_slice(b"::")?;
    write_groups(out, back)?;
    Ok(())
}

/// The start and the length of the first of the longest runs of zero groups.
fn longest_zero_run(groups: &[u16]) -> (usize, usize)
    ensures run { result ≡ longest_zero_run groups.now }
    ensures within { result.0 + result.1 ≤ length groups.now }
{
    let mut run = 0;
    let mut start = groups.len();
    let mut longest = 0;
    let mut at = groups.len();
    while at > 0 {
        at -= 1;
        run = if groups[at] == 0 { run + 1 } else { 0 };
        if run >= longest {
            start = at;
            longest = run;
        }
    }
    (start, longest)
}

/// Appends groups joined by colons. An Err may leave some of them.
fn write_groups(out: &mut Vec<u8>, groups: &[u16]) -> Result<(), OutOfMemory>
    ensures ok { OnOk result (out.new.items ≡ out.old.items ++ groups_text groups.now) }
    ensures err { OnErr result (take (length out.old.items) out.new.items ≡ out.old.items) }
{
    match groups {
        [] => Ok(()),
        [first, others @ ..] => {
            write_group(out, *first)?;
            write_behind(out, others)?;
            Ok(())
        }
    }
}

/// Appends each group behind a colon. An Err may leave some of them.
fn write_behind(out: &mut Vec<u8>, groups: &[u16]) -> Result<(), OutOfMemory>
    ensures ok { OnOk result (out.new.items ≡ out.old.items ++ flat_map (λ group. codes ":" ++ hex group) groups.now) }
    ensures err { OnErr result (take (length out.old.items) out.new.items ≡ out.old.items) }
{
    for group in groups {
        out.push(b':')?;
        write_group(out, *group)?;
    }
    Ok(())
}

/// Appends a group in hexadecimal digits without leading zeros.
fn write_group(out: &mut Vec<u8>, group: u16) -> Result<(), OutOfMemory>
    ensures ok { OnOk result (out.new.items ≡ out.old.items ++ hex group) }
    ensures err { OnErr result (out.new.items ≡ out.old.items) }
{
    let digits = [
        hex_digit((group / 4096) as u8),
        hex_digit((group / 256 % 16) as u8),
        hex_digit((group / 16 % 16) as u8),
        hex_digit((group % 16) as u8),
    ];
    out.extend_from_slice(&digits[leading_zeros(group)..])?;
    Ok(())
}

/// How many of a group's four hexadecimal digits are zeros before the others, the last digit apart.
fn leading_zeros(group: u16) -> usize
    ensures value { result ≡ leading_zero_digits group }
    ensures small { result ≤ 3 }
{
    match group {
        0..0x10 => 3,
        0x10..0x100 => 2,
        0x100..0x1000 => 1,
        _ => 0,
    }
}
