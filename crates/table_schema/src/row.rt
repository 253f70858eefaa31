// Rows that were read.
ghost use Rattle.std.specs.Prelude.{◌≡◌, IfOk};

use crate::RowHops;
use swss_types::{IfName, Lanes, Mac, OutOfMemory, Tagging, Vrf};

/// A port's row.
#[derive(Debug, PartialEq, Eq, Drop)]
pub struct PortRow {
    /// Its lanes.
    pub lanes: Lanes,
    /// Its speed in megabits a second, 1 to 1600000.
    pub speed: u32,
    /// Its largest frame in bytes, 68 to 9216.
    pub mtu: u32,
    /// Whether it is administratively up.
    pub up: bool,
}

/// Where a route's row sends its packets.
#[derive(Debug, PartialEq, Eq, Drop)]
pub enum RouteRow {
    /// Nowhere.
    Drop,
    /// To whoever is on the interface.
    Direct(IfName),
    /// To one of these hops.
    Hops(RowHops),
}

/// A row that reads.
#[derive(Debug, PartialEq, Eq, Drop)]
pub enum Row {
    /// A port's.
    Port(PortRow),
    /// A VLAN's.
    Vlan,
    /// A virtual router's.
    Vrf,
    /// A VLAN member's.
    Member(Tagging),
    /// An interface's: the virtual router that it is in.
    Intf(Vrf),
    /// An interface's address's.
    Addr,
    /// A neighbour's: its Ethernet address.
    Neigh(Mac),
    /// A route's.
    Route(RouteRow),
}

/// Why a row does not read.
#[derive(Clone, Copy, Debug, PartialEq, Eq)]
pub enum BadWhy {
    /// The service has no such key or value.
    Unsupported,
    /// A field is missing.
    MissingField,
    /// A field's value does not read.
    BadValue,
    /// The port's lanes are not those of the port plan.
    LanesDiffer,
    /// Two lists have different lengths.
    CountsDiffer,
    /// A prefix has bits past its length.
    HostBits,
    /// A route lists more than `MOST_HOPS` hops.
    TooManyHops,
}

/// The first rule that a row breaks.
#[derive(Clone, Copy, Debug, PartialEq, Eq)]
pub struct BadRow {
    /// What is wrong.
    pub why: BadWhy,
    /// The number of the field that it is wrong with (docs/FORMATS.md), 0 for the key.
    pub field: u8,
}

impl PortRow {
    /// The same row once more.
    pub fn copy(&self) -> Result<PortRow, OutOfMemory>
        ensures { IfOk result (λ row. row ≡ self.now) }
    {
        Ok(PortRow {
            lanes: self.lanes.copy()?,
            speed: self.speed,
            mtu: self.mtu,
            up: self.up,
        })
    }
}

impl RouteRow {
    /// The same row once more.
    pub fn copy(&self) -> Result<RouteRow, OutOfMemory>
        ensures { IfOk result (λ row. row ≡ self.now) }
    {
        Ok(match self {
            RouteRow::Drop => RouteRow::Drop,
            RouteRow::Direct(on) => RouteRow::Direct(*on),
            RouteRow::Hops(hops) => RouteRow::Hops(hops.copy()?),
        })
    }
}

impl Row {
    /// The same row once more.
    pub fn copy(&self) -> Result<Row, OutOfMemory>
        ensures { IfOk result (λ row. row ≡ self.now) }
    {
        Ok(match self {
            Row::Port(port) => Row::Port(port.copy()?),
            Row::Vlan => Row::Vlan,
            Row::Vrf => Row::Vrf,
            Row::Member(tagging) => Row::Member(*tagging),
            Row::Intf(vrf) => Row::Intf(*vrf),
            Row::Addr => Row::Addr,
            Row::Neigh(mac) => Row::Neigh(*mac),
            Row::Route(route) => Row::Route(route.copy()?),
        })
    }
}
