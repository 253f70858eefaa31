// Names of what operations need and make.
ghost use Rattle.std.specs.Prelude.{◌≡◌, IfOk};

use sai_types::Hops;
use swss_types::{Ip, OutOfMemory, Vrf};
use table_schema::Key;

/// What belongs to a row, or is shared by rows. Names are ordered by variant, and then by their parts.
#[derive(Debug, PartialEq, Eq, PartialOrd, Ord, Drop)]
pub enum Name {
    /// The row of a key.
    Row(Key),
    /// A port as a member of the bridge, by its first lane.
    BridgePort(u16),
    /// An address of the switch itself, in a virtual router.
    Own(Vrf, Ip),
    /// A group of next hops, by its hops.
    Group(Hops),
}

/// How a name stands. A worker is known by its number.
#[derive(Clone, Copy, Debug, PartialEq, Eq)]
pub enum NameState {
    /// Nothing of it is there.
    Absent,
    /// This worker's operation builds it.
    Building(u32),
    /// All of it is there.
    Live,
    /// This worker's operation takes it away.
    Retiring(u32),
}

/// The first of some keys whose row is not live.
#[derive(Debug, PartialEq, Eq, Drop)]
pub struct Missing(pub Key);

impl Name {
    /// The same name once more.
    pub fn copy(&self) -> Result<Name, OutOfMemory>
        ensures { IfOk result (λ name. name ≡ self.now) }
    {
        Ok(match self {
            Name::Row(key) => Name::Row(key.copy()?),
            Name::BridgePort(lane) => Name::BridgePort(*lane),
            Name::Own(vrf, ip) => Name::Own(*vrf, *ip),
            Name::Group(hops) => Name::Group(hops.copy()?),
        })
    }
}
