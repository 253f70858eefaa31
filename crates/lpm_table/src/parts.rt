// The parts of a prefix, in as little room as they take.
ghost use Rattle.std.specs.Prelude.{◌≡◌};
ghost use Rattle.swss_types.specs.Address.{IsProperPrefix};
ghost use Rattle.lpm_table.specs.Parts.{whole};

use swss_types::{Bits, Family, Ip, Prefix};

/// The parts of a prefix. A node holds them, so that it has room for its mark beside them.
#[derive(Clone, Copy)]
pub(crate) struct Parts {
    pub(crate) bits: Bits,
    pub(crate) family: Family,
    pub(crate) len: u8,
}

impl Parts {
    /// The parts of a prefix, which is proper.
    pub(crate) fn of(prefix: &Prefix) -> Parts
        ensures same { whole result ≡ prefix.now }
        ensures proper { IsProperPrefix prefix.now }
    {
        Parts {
            bits: prefix.ip.bits,
            family: prefix.ip.family,
            len: prefix.len,
        }
    }

    /// The prefix of these parts.
    pub(crate) fn whole(&self) -> Prefix
        requires { IsProperPrefix (whole self.now) }
        ensures { result ≡ whole self.now }
    {
        Prefix {
            ip: Ip {
                family: self.family,
                bits: self.bits,
            },
            len: self.len,
        }
    }
}
