// The application tables that the service knows.

/// An application table.
#[derive(Clone, Copy, Debug, PartialEq, Eq)]
pub enum Table {
    /// PORT_TABLE.
    Port,
    /// VLAN_TABLE.
    Vlan,
    /// VRF_TABLE.
    Vrf,
    /// VLAN_MEMBER_TABLE.
    Member,
    /// INTF_TABLE.
    Intf,
    /// NEIGH_TABLE.
    Neigh,
    /// ROUTE_TABLE.
    Route,
}
