// Virtual routers, their names, and the packets in them.
ghost use Rattle.std.specs.Prelude.{◌≡◌, ◌++◌, OnOk, OnErr};
ghost use Rattle.swss_types.specs.Vrf.{vrf_cmp, vrf_total, vrfs_agree, vrfs_tie};
ghost use Rattle.swss_types.specs.VrfNames.{are_label_bytes, label_of, vrf_name_of, vrf_name_text, vrf_name_with};

use crate::{Ip, OutOfMemory, cut_at};
use std::cmp::Ordering;

/// The most bytes behind `Vrf` in a name.
const LABEL: usize = 12;

/// The name of a virtual router in SONiC's VRF_TABLE: `Vrf` and at most 12 ASCII letters, digits, `_` and `-` behind it. It
/// is proper where its bytes are those behind `Vrf`, filled up with zeros, so names are ordered by their bytes.
#[derive(Clone, Copy, Debug, PartialEq, Eq, PartialOrd, Ord)]
pub struct VrfName(pub [u8; LABEL]);

impl VrfName {
    /// The name that the text is: `Vrf` and at most 12 ASCII letters, digits, `_` and `-` behind it. None where it is none.
    pub fn read(text: &[u8]) -> Option<VrfName>
        ensures { result ≡ vrf_name_of text.now }
    {
        VrfName::with_label(text.strip_prefix(b"Vrf")?)
    }

    /// Appends the written name.
    pub fn write(&self, out: &mut Vec<u8>) -> Result<(), OutOfMemory>
        ensures ok { OnOk result (out.new.items ≡ out.old.items ++ vrf_name_text self.now) }
        ensures err { OnErr result (out.new.items ≡ out.old.items) }
    {
        let before = out.len();
        out.extend_from_slice(b"Vrf")?;
        if out.extend_from_slice(self.label()).is_err() {
            out.truncate(before);
            return Err(OutOfMemory);
        }
        Ok(())
    }

    /// The name with these bytes behind `Vrf`, or None where no name has them.
    fn with_label(label: &[u8]) -> Option<VrfName>
        ensures { result ≡ vrf_name_with label.now }
    {
        if label.len() > LABEL || !are_label_bytes(label) {
            return None;
        }
        let mut bytes = [0; LABEL];
        bytes[..label.len()].copy_from_slice(label);
        Some(VrfName(bytes))
    }

    /// Its bytes behind `Vrf`.
    fn label(&self) -> &[u8]
        ensures { result.now ≡ label_of self.now }
    {
        cut_at(&self.0, 0).0
    }
}

/// Whether these are letters, digits, `_` and `-`.
fn are_label_bytes(bytes: &[u8]) -> bool
    ensures { result ≡ are_label_bytes bytes.now }
{
    bytes.iter().all(|byte| byte.is_ascii_alphanumeric() || *byte == b'_' || *byte == b'-')
}

/// A virtual router. The default router comes first, and the others by their names.
#[derive(Clone, Copy, Debug, PartialEq, Eq, PartialOrd)]
pub enum Vrf {
    /// The router that is always there.
    Default,
    /// A router of this name.
    Named(VrfName),
}

impl Ord for Vrf {
    ghost cmp = { vrf_cmp };

    ghost total = { vrf_total };

    ghost matches_partial_cmp = { vrfs_agree };

    ghost matches_eq = { vrfs_tie };

    // A map's search compares with many keys, and most of them are in the default router: so it stands there.
    #[inline(always)]
    fn cmp(&self, other: &Vrf) -> Ordering {
        match (self, other) {
            (Vrf::Default, Vrf::Default) => Ordering::Equal,
            (Vrf::Default, Vrf::Named(_)) => Ordering::Less,
            (Vrf::Named(_), Vrf::Default) => Ordering::Greater,
            (Vrf::Named(name), Vrf::Named(than)) => name.cmp(than),
        }
    }
}

/// A packet, as far as its way goes.
#[derive(Clone, Copy, Debug, PartialEq, Eq)]
pub struct Packet {
    /// The router that it is in.
    pub vrf: Vrf,
    /// Where it is to go.
    pub to: Ip,
}
