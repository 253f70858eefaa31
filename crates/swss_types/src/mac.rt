// The texts of Ethernet addresses.
ghost use Rattle.std.specs.Prelude.{◌≡◌, ◌++◌, ◌∷◌, ◌<◌, ◌≤◌, length, take, flat_map, IfSome, OnOk, OnErr, MatchOption};
ghost use Rattle.swss_types.specs.Hex.{hex_within};
ghost use Rattle.swss_types.specs.Mac.{mac_of, mac_text, pair_text, pairs_text, IsProperMac};
ghost use Rattle.swss_types.specs.Parts.{parts_at, each_of, IsFilled};

use crate::hex::{hex_digit, read_hex};
use crate::{Mac, OutOfMemory, cut_at};

impl Mac {
    /// The address that the text writes: six pairs of hexadecimal digits of either case, joined by colons. None where it
    /// is no such text.
    pub fn read(text: &[u8]) -> Option<Mac>
        ensures { result ≡ mac_of text.now }
    {
        let mut bytes = [0u8; 6];
        if read_pairs(text, &mut bytes)? != 6 {
            return None;
        }
        Some(Mac(bytes))
    }

    /// Appends the written form: six pairs of hexadecimal digits, letters in lower case, joined by colons.
    pub fn write(&self, out: &mut Vec<u8>) -> Result<(), OutOfMemory>
        ensures ok { OnOk result (out.new.items ≡ out.old.items ++ mac_text self.now) }
        ensures err { OnErr result (out.new.items ≡ out.old.items) }
    {
        let before = out.len();
        if let Err(error) = write_pairs(out, &self.0) {
            out.truncate(before);
            return Err(error);
        }
        Ok(())
    }
}

/// Puts the bytes that pairs of digits between colons write to the front of `bytes`, and answers how many they are. None
/// where a part is no pair, or where there are more than fit.
fn read_pairs(text: &[u8], bytes: &mut [u8]) -> Option<usize>
    ensures { IsFilled (each_of (hex_within 2 2) (parts_at 58 text.now)) (length bytes.old) result bytes.new }
{
    let mut count = 0;
    let mut left = Some(text);
    while let Some(list) = left {
        let (part, behind) = cut_at(list, b':');
        let byte = read_hex(part, 2, 2)?;
        if count == bytes.len() {
            return None;
        }
        bytes[count] = byte as u8;
        count += 1;
        left = behind;
    }
    Some(count)
}

/// Appends bytes as pairs joined by colons. An Err may leave some of them.
fn write_pairs(out: &mut Vec<u8>, bytes: &[u8]) -> Result<(), OutOfMemory>
    ensures ok { OnOk result (out.new.items ≡ out.old.items ++ pairs_text bytes.now) }
    ensures err { OnErr result (take (length out.old.items) out.new.items ≡ out.old.items) }
{
    match bytes {
        [] => Ok(()),
        [first, others @ ..] => {
            write_pair(out, *first)?;
            write_behind(out, others)?;
            Ok(())
        }
    }
}

/// Appends each byte as a pair behind a colon. An Err may leave some of them.
fn write_behind(out: &mut Vec<u8>, bytes: &[u8]) -> Result<(), OutOfMemory>
    ensures ok { OnOk result (out.new.items ≡ out.old.items ++ flat_map (λ byte. 58 ∷ pair_text byte) bytes.now) }
    ensures err { OnErr result (take (length out.old.items) out.new.items ≡ out.old.items) }
{
    for byte in bytes {
        out.push(b':')?;
        write_pair(out, *byte)?;
    }
    Ok(())
}

/// Appends a byte as two hexadecimal digits.
fn write_pair(out: &mut Vec<u8>, byte: u8) -> Result<(), OutOfMemory>
    ensures ok { OnOk result (out.new.items ≡ out.old.items ++ pair_text byte) }
    ensures err { OnErr result (out.new.items ≡ out.old.items) }
{
    out.extend_from_slice(&[hex_digit(byte / 16), hex_digit(byte % 16)])?;
    Ok(())
}
