// How a port belongs to a VLAN.
ghost use Rattle.std.specs.Prelude.{◌≡◌, ◌++◌, OnOk, OnErr};
ghost use Rattle.swss_types.specs.Tagging.{tagging_of, tagging_text};

use crate::OutOfMemory;

/// The tagging of a VLAN member, in the words of SONiC's VLAN_MEMBER_TABLE.
#[derive(Clone, Copy, Debug, PartialEq, Eq, PartialOrd, Ord)]
pub enum Tagging {
    /// Frames leave without a VLAN tag.
    Untagged,
    /// Frames leave with the VLAN's tag.
    Tagged,
    /// Frames leave with a priority tag, VLAN 0.
    PriorityTagged,
}

impl Tagging {
    /// The tagging whose word the text is, or None where it is none of the three.
    pub fn read(text: &[u8]) -> Option<Tagging>
        ensures { result ≡ tagging_of text.now }
    {
        if text == b"untagged".as_slice() {
            return Some(Tagging::Untagged);
        }
        if text == b"tagged".as_slice() {
            return Some(Tagging::Tagged);
        }
        if text == b"priority_tagged".as_slice() {
            return Some(Tagging::PriorityTagged);
        }
        None
    }

    /// Appends the word.
    pub fn write(&self, out: &mut Vec<u8>) -> Result<(), OutOfMemory>
        ensures ok { OnOk result (out.new.items ≡ out.old.items ++ tagging_text self.now) }
        ensures err { OnErr result (out.new.items ≡ out.old.items) }
    {
        let word: &[u8] = match self {
            Tagging::Untagged => b"untagged",
            Tagging::Tagged => b"tagged",
            Tagging::PriorityTagged => b"priority_tagged",
        };
        out.extend_from_slice(word)?;
        Ok(())
    }
}
