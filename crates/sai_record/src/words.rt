// The words of a line, one after the other, and the values that they write. `text` is what is left of the line: a space
// and a word, for each word that was not read yet. A function that reads a value takes the word that comes next, and answers
// None where there is none, or where it writes no value of the kind.
ghost use Rattle.std.specs.Prelude.{◌≡◌, ◌==◌, ◌≤◌, IfSome, length};
ghost use Rattle.std.specs.List.{position};
ghost use Rattle.std.specs.Int.{IsInRange};
ghost use Rattle.swss_types.specs.Address.{IsProperIp, IsProperPrefix};
ghost use Rattle.swss_types.specs.Ip.{ip_of};
ghost use Rattle.swss_types.specs.Mac.{mac_of, IsProperMac};
ghost use Rattle.swss_types.specs.Number.{at_most, number_within, value_behind};
ghost use Rattle.swss_types.specs.Prefix.{prefix_of};
ghost use Rattle.swss_types.specs.Tagging.{tagging_of};
ghost use Rattle.swss_types.specs.VrfNames.{vrf_name_of, IsProperVrfName};
ghost use Rattle.sai_record.specs.Ranges.{IsId, IsIdOrNone, IsMtu, IsSpeed};
ghost use Rattle.sai_record.specs.Words.{bytes_of_word, id_of, id_or_none_of, long_of, mtu_of, number_from, value_and_rest, speed_of, admin_of, value_at, vlan_number_of, weight_number_of, word_at, word_len};

use sai_types::{Rid, Weight};
use swss_types::{Ip, Mac, Prefix, Tagging, VrfName, read_number};

/// The word behind a space.
#[tactic(auto, unfolding(crate::specs::Words::word_at))]
pub(crate) fn next_word<'a>(text: &mut &'a [u8]) -> Option<&'a [u8]>
    ensures { value_and_rest (bytes_of_word result) text.new.now ≡ word_at text.old.now }
{
    let [b' ', rest @ ..] = *text else {
        return None;
    };
    let (word, rest) = rest.split_at(word_len(rest));
    *text = rest;
    Some(word)
}

/// How far it is to the first space, or to the end.
fn word_len(text: &[u8]) -> usize
    ensures len { result ≡ word_len text.now }
    ensures within { result ≤ length text.now }
{
    match space(text) {
        Some(at) => at,
        None => text.len(),
    }
}

/// The place of the first space.
fn space(text: &[u8]) -> Option<usize>
    ensures { result ≡ position (λ byte. byte == 32) text.now }
{
    text.iter().position(|byte| *byte == b' ')
}

/// An identifier.
#[tactic(auto, unfolding(crate::specs::Words::value_at))]
pub(crate) fn read_id(text: &mut &[u8]) -> Option<Rid>
    ensures value { value_and_rest result text.new.now ≡ value_at id_of text.old.now }
    ensures proper { IfSome result IsId }
{
    id_in(next_word(text)?)
}

/// The identifier that a word writes.
fn id_in(word: &[u8]) -> Option<Rid>
    ensures value { result ≡ id_of word.now }
    ensures proper { IfSome result IsId }
{
    let number = long_in(word)?;
    if number == 0 {
        return None;
    }
    Some(Rid(number))
}

/// An identifier, or `-` for none.
#[tactic(auto, unfolding(crate::specs::Words::value_at))]
pub(crate) fn read_id_or_none(text: &mut &[u8]) -> Option<Option<Rid>>
    ensures value { value_and_rest result text.new.now ≡ value_at id_or_none_of text.old.now }
    ensures proper { IfSome result IsIdOrNone }
{
    let word = next_word(text)?;
    if word == b"-".as_slice() {
        return Some(None);
    }
    Some(Some(id_in(word)?))
}

/// A number of 64 bits.
#[tactic(auto, unfolding(crate::specs::Words::value_at))]
pub(crate) fn read_long(text: &mut &[u8]) -> Option<u64>
    ensures { value_and_rest result text.new.now ≡ value_at long_of text.old.now }
{
    long_in(next_word(text)?)
}

/// The number of 64 bits that a word writes.
fn long_in(word: &[u8]) -> Option<u64>
    ensures { result ≡ number_within 18446744073709551615 word.now }
{
    match word {
        [] => None,
        [b'0', _, ..] => None,
        _ => read_digits(word),
    }
}

/// The number that the digits write, or None where a byte is no digit or the number has more than 64 bits.
fn read_digits(digits: &[u8]) -> Option<u64>
    ensures { result ≡ at_most 18446744073709551615 (value_behind 0 digits.now) }
{
    let mut value = 0u128;
    for byte in digits {
        if !byte.is_ascii_digit() {
            return None;
        }
        value = 10 * value + u128::from(*byte - b'0');
        if value > u128::from(u64::MAX) {
            return None;
        }
    }
    Some(value as u64)
}

/// The number that a word writes, within these bounds.
fn number_in(word: &[u8], least: u32, most: u32) -> Option<u32>
    ensures value { result ≡ number_from least most word.now }
    ensures proper { IfSome result (λ n. IsInRange least most n) }
{
    let number = read_number(word, most)?;
    if number < least {
        return None;
    }
    Some(number)
}

/// A speed, in megabits a second.
#[tactic(auto, unfolding(crate::specs::Words::value_at))]
pub(crate) fn read_speed(text: &mut &[u8]) -> Option<u32>
    ensures value { value_and_rest result text.new.now ≡ value_at speed_of text.old.now }
    ensures proper { IfSome result IsSpeed }
{
    number_in(next_word(text)?, 1, 1_600_000)
}

/// The largest frame, in bytes.
#[tactic(auto, unfolding(crate::specs::Words::value_at))]
pub(crate) fn read_mtu(text: &mut &[u8]) -> Option<u32>
    ensures value { value_and_rest result text.new.now ≡ value_at mtu_of text.old.now }
    ensures proper { IfSome result IsMtu }
{
    number_in(next_word(text)?, 68, 9216)
}

/// The number of a VLAN.
#[tactic(auto, unfolding(crate::specs::Words::value_at))]
pub(crate) fn read_vlan(text: &mut &[u8]) -> Option<u16>
    ensures value { value_and_rest result text.new.now ≡ value_at vlan_number_of text.old.now }
    ensures proper { IfSome result (λ n. IsInRange 1 4094 n) }
{
    Some(number_in(next_word(text)?, 1, 4094)? as u16)
}

/// The weight of a next hop.
#[tactic(auto, unfolding(crate::specs::Words::value_at))]
pub(crate) fn read_weight(text: &mut &[u8]) -> Option<Weight>
    ensures value { value_and_rest result text.new.now ≡ value_at weight_number_of text.old.now }
    ensures proper { IfSome result (λ n. IsInRange 1 255 n) }
{
    Weight::new(number_in(next_word(text)?, 1, 255)? as u8)
}

/// Whether a port is administratively up.
#[tactic(auto, unfolding(crate::specs::Words::value_at))]
pub(crate) fn read_state(text: &mut &[u8]) -> Option<bool>
    ensures { value_and_rest result text.new.now ≡ value_at admin_of text.old.now }
{
    state_in(next_word(text)?)
}

/// Whether a word says that a port is administratively up or down.
pub(crate) fn state_in(word: &[u8]) -> Option<bool>
    ensures { result ≡ admin_of word.now }
{
    match word {
        b"up" => Some(true),
        b"down" => Some(false),
        _ => None,
    }
}

/// A tagging.
#[tactic(auto, unfolding(crate::specs::Words::value_at))]
pub(crate) fn read_tagging(text: &mut &[u8]) -> Option<Tagging>
    ensures { value_and_rest result text.new.now ≡ value_at tagging_of text.old.now }
{
    Tagging::read(next_word(text)?)
}

/// An internet address.
#[tactic(auto, unfolding(crate::specs::Words::value_at))]
pub(crate) fn read_ip(text: &mut &[u8]) -> Option<Ip>
    ensures value { value_and_rest result text.new.now ≡ value_at ip_of text.old.now }
    ensures proper { IfSome result IsProperIp }
{
    Ip::read(next_word(text)?)
}

/// A prefix.
#[tactic(auto, unfolding(crate::specs::Words::value_at))]
pub(crate) fn read_prefix(text: &mut &[u8]) -> Option<Prefix>
    ensures value { value_and_rest result text.new.now ≡ value_at prefix_of text.old.now }
    ensures proper { IfSome result IsProperPrefix }
{
    Prefix::read(next_word(text)?)
}

/// An Ethernet address.
#[tactic(auto, unfolding(crate::specs::Words::value_at))]
pub(crate) fn read_mac(text: &mut &[u8]) -> Option<Mac>
    ensures value { value_and_rest result text.new.now ≡ value_at mac_of text.old.now }
    ensures proper { IfSome result IsProperMac }
{
    Mac::read(next_word(text)?)
}

/// The name of a virtual router.
#[tactic(auto, unfolding(crate::specs::Words::value_at))]
pub(crate) fn read_vrf_name(text: &mut &[u8]) -> Option<VrfName>
    ensures value { value_and_rest result text.new.now ≡ value_at vrf_name_of text.old.now }
    ensures proper { IfSome result IsProperVrfName }
{
    VrfName::read(next_word(text)?)
}
