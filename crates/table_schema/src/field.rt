//! The numbers by which a broken rule tells its field.

/// The key.
pub const KEY: u8 = 0;
/// The lanes of a port.
pub const LANES: u8 = 1;
/// The speed of a port.
pub const SPEED: u8 = 2;
/// The largest frame of a port.
pub const MTU: u8 = 3;
/// Whether a port is up.
pub const ADMIN_STATUS: u8 = 4;
/// The tagging of a VLAN member.
pub const TAGGING_MODE: u8 = 5;
/// The MAC of a neighbour.
pub const NEIGH: u8 = 6;
/// The addresses of a route's hops.
pub const NEXTHOP: u8 = 7;
/// The interfaces of a route's hops.
pub const IFNAME: u8 = 8;
/// Whether a route drops its packets.
pub const BLACKHOLE: u8 = 9;
/// The name of a group of next hops.
pub const NEXTHOP_GROUP: u8 = 10;
/// The MPLS labels of next hops.
pub const MPLS_NH: u8 = 11;
/// The VXLAN network identifiers of next hops.
pub const VNI_LABEL: u8 = 12;
/// The MACs of VXLAN routers.
pub const ROUTER_MAC: u8 = 13;
/// The segments of SRv6.
pub const SEGMENT: u8 = 14;
/// The weights of a route's hops.
pub const WEIGHT: u8 = 15;
/// The virtual router of an interface.
pub const VRF_NAME: u8 = 16;
