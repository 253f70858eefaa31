// A hop of a route's row.
use swss_types::{IfName, Ip};

/// A hop of a route's row: an address on an interface.
#[derive(Clone, Copy, Debug, PartialEq, Eq, PartialOrd, Ord)]
pub struct RowHop {
    /// The interface: an Ethernet or Vlan name.
    pub on: IfName,
    /// The address.
    pub ip: Ip,
}
