// Names of interfaces.
ghost use Rattle.std.specs.Prelude.{◌≡◌, ◌++◌, OnOk, OnErr};
ghost use Rattle.std.specs.Fmt.{decimal};
ghost use Rattle.swss_types.specs.Interface.{if_name_of, if_name_text};
ghost use Rattle.swss_types.specs.NameOrder.{name_cmp, name_number, name_place, name_total, names_agree, names_tie};

use crate::{OutOfMemory, read_number, write_number};
use std::cmp::Ordering;

/// The greatest number of a port, and of a loopback interface.
pub const MOST_PORT: u32 = 999_999;

/// The greatest number of a VLAN (IEEE 802.1Q).
pub const MOST_VLAN: u32 = 4094;

/// The name of a port, a VLAN's interface or a loopback interface, by its number: `Ethernet0`, `Vlan10`, `Loopback0`.
/// It is proper where an Ethernet or Loopback number is at most `MOST_PORT` and a Vlan number is 1 to `MOST_VLAN`.
#[derive(Clone, Copy, Debug, PartialEq, Eq, PartialOrd)]
pub enum IfName {
    /// A port.
    Ethernet(u32),
    /// The interface of a VLAN.
    Vlan(u16),
    /// A loopback interface.
    Loopback(u32),
}

impl IfName {
    /// The name that the text is, or None where it is none.
    pub fn read(text: &[u8]) -> Option<IfName>
        ensures { result ≡ if_name_of text.now }
    {
        if let Some(number) = text.strip_prefix(b"Ethernet") {
            return read_number(number, MOST_PORT).map(IfName::Ethernet);
        }
        if let Some(number) = text.strip_prefix(b"Vlan") {
            return match read_number(number, MOST_VLAN) {
                Some(vlan) if vlan > 0 => Some(IfName::Vlan(vlan as u16)),
                _ => None,
            };
        }
        let number = text.strip_prefix(b"Loopback")?;
        read_number(number, MOST_PORT).map(IfName::Loopback)
    }

    /// Appends the written name.
    pub fn write(&self, out: &mut Vec<u8>) -> Result<(), OutOfMemory>
        ensures ok { OnOk result (out.new.items ≡ out.old.items ++ if_name_text self.now) }
        ensures err { OnErr result (out.new.items ≡ out.old.items) }
    {
        match self {
            IfName::Ethernet(port) => write_named(out, b"Ethernet", *port),
            IfName::Vlan(vlan) => write_named(out, b"Vlan", u32::from(*vlan)),
            IfName::Loopback(number) => write_named(out, b"Loopback", *number),
        }
    }
}

impl IfName {
    /// Its place among the kinds of interfaces.
    #[inline(always)]
    fn place(self) -> u8
        ensures { result ≡ name_place self }
    {
        match self {
            IfName::Ethernet(_) => 0,
            IfName::Vlan(_) => 1,
            IfName::Loopback(_) => 2,
        }
    }

    /// Its number.
    #[inline(always)]
    fn number(self) -> u32
        ensures { result ≡ name_number self }
    {
        match self {
            IfName::Ethernet(number) | IfName::Loopback(number) => number,
            IfName::Vlan(vlan) => u32::from(vlan),
        }
    }
}

impl Ord for IfName {
    ghost cmp = { name_cmp };

    ghost total = { name_total };

    ghost matches_partial_cmp = { names_agree };

    ghost matches_eq = { names_tie };

    #[inline(always)]
    fn cmp(&self, other: &IfName) -> Ordering {
        match self.place().cmp(&other.place()) {
            Ordering::Equal => self.number().cmp(&other.number()),
            order => order,
        }
    }
}

/// Appends a word and the decimal form of a number.
fn write_named(out: &mut Vec<u8>, word: &[u8], number: u32) -> Result<(), OutOfMemory>
    ensures ok { OnOk result (out.new.items ≡ out.old.items ++ (word.now ++ decimal number)) }
    ensures err { OnErr result (out.new.items ≡ out.old.items) }
{
    let before = out.len();
    out.extend_from_slice(word)?;
    if let Err(error) = write_number(out, u64::from(number)) {
        out.truncate(before);
        return Err(error);
    }
    Ok(())
}
