// The network of which rounds are drawn.

/// A row that may stand: its table, its key in the table, and the places of the rows without which it does not stand.
pub type DrawnRow = (&'static str, &'static str, &'static [usize]);

/// The table of ports.
pub const PORTS: &str = "PORT_TABLE";

/// The table of VLANs.
pub const VLANS: &str = "VLAN_TABLE";

/// The table of the members of VLANs.
pub const MEMBERS: &str = "VLAN_MEMBER_TABLE";

/// The table of interfaces and of their addresses.
pub const INTERFACES: &str = "INTF_TABLE";

/// The table of neighbours.
pub const NEIGHBORS: &str = "NEIGH_TABLE";

/// The table of routes.
pub const ROUTES: &str = "ROUTE_TABLE";

/// The tables. A producer writes to every so manieth of them.
pub const TABLES: [&str; 6] = [PORTS, VLANS, MEMBERS, INTERFACES, NEIGHBORS, ROUTES];

/// The lines of the plan.
pub const PLAN: &str = "port Ethernet0 0\nport Ethernet4 4\nport Ethernet8 8\nport Ethernet12 12\n";

/// The rows that may stand, each behind those that it stands on. A route names those of the neighbours that stand.
pub const ROWS: [DrawnRow; 30] = [
    (PORTS, "Ethernet0", &[]),
    (PORTS, "Ethernet4", &[]),
    (PORTS, "Ethernet8", &[]),
    (PORTS, "Ethernet12", &[]),
    (VLANS, "Vlan10", &[]),
    (VLANS, "Vlan20", &[]),
    (MEMBERS, "Vlan10:Ethernet8", &[4, 2]),
    (MEMBERS, "Vlan10:Ethernet12", &[4, 3]),
    (MEMBERS, "Vlan20:Ethernet8", &[5, 2]),
    (INTERFACES, "Ethernet0", &[0]),
    (INTERFACES, "Ethernet4", &[1]),
    (INTERFACES, "Vlan10", &[4]),
    (INTERFACES, "Ethernet0:10.0.0.1/24", &[9]),
    (INTERFACES, "Vlan10:10.0.2.1/24", &[11]),
    (NEIGHBORS, "Ethernet0:10.0.0.2", &[9]),
    (NEIGHBORS, "Ethernet0:10.0.0.3", &[9]),
    (NEIGHBORS, "Ethernet4:10.0.1.2", &[10]),
    (NEIGHBORS, "Ethernet4:2001:db8::2", &[10]),
    (NEIGHBORS, "Vlan10:10.0.2.2", &[11]),
    (NEIGHBORS, "Vlan10:2001:db8::3", &[11]),
    (ROUTES, "0.0.0.0/0", &[]),
    (ROUTES, "20.0.0.0/8", &[]),
    (ROUTES, "20.1.0.0/16", &[]),
    (ROUTES, "20.1.1.0/24", &[]),
    (ROUTES, "20.2.0.0/16", &[]),
    (ROUTES, "20.2.0.1/32", &[]),
    (ROUTES, "30.0.0.0/8", &[]),
    (ROUTES, "30.1.0.0/16", &[]),
    (ROUTES, "::/0", &[]),
    (ROUTES, "2001:db8::/32", &[]),
];
