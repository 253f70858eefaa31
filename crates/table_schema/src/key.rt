// Keys of rows.
ghost use Rattle.std.specs.Prelude.{◌≡◌, IfOk};
ghost use Rattle.table_schema.specs.Key.{key_cmp, key_total, keys_agree, keys_tie, part_cmp, table_place};

use std::cmp::Ordering;
use swss_types::{IfName, Ip, OutOfMemory, Prefix, Text, Vrf, VrfName};

/// The key of a row of an application table. Keys are ordered by table, ports first, and unreadable keys last.
#[derive(Debug, PartialEq, Eq, PartialOrd, Drop)]
pub enum Key {
    /// A port, by the number of its Ethernet name: PORT_TABLE.
    Port(u32),
    /// A VLAN: VLAN_TABLE.
    Vlan(u16),
    /// A virtual router: VRF_TABLE.
    Vrf(VrfName),
    /// A port in a VLAN, the VLAN first: VLAN_MEMBER_TABLE.
    Member(u16, u32),
    /// An interface: INTF_TABLE.
    Intf(IfName),
    /// An interface's own address with the length of its prefix: INTF_TABLE.
    Addr(IfName, Ip, u8),
    /// A neighbour on an interface: NEIGH_TABLE.
    Neigh(IfName, Ip),
    /// A route, by its virtual router and its prefix: ROUTE_TABLE.
    Route(Vrf, Prefix),
    /// A text that reads as none of the others.
    Other(Text),
}

impl Key {
    /// The same key once more.
    #[inline(always)]
    pub fn copy(&self) -> Result<Key, OutOfMemory>
        ensures { IfOk result (λ key. key ≡ self.now) }
    {
        match self {
            Key::Port(port) => Ok(Key::Port(*port)),
            Key::Vlan(vlan) => Ok(Key::Vlan(*vlan)),
            Key::Vrf(name) => Ok(Key::Vrf(*name)),
            Key::Member(vlan, port) => Ok(Key::Member(*vlan, *port)),
            Key::Intf(on) => Ok(Key::Intf(*on)),
            Key::Addr(on, ip, len) => Ok(Key::Addr(*on, *ip, *len)),
            Key::Neigh(on, ip) => Ok(Key::Neigh(*on, *ip)),
            Key::Route(vrf, prefix) => Ok(Key::Route(*vrf, *prefix)),
            Key::Other(text) => Ok(Key::Other(text.copy()?)),
        }
    }

    /// The place of the key's table among the tables, and the last for no table.
    #[inline(always)]
    fn place(&self) -> u8
        ensures { result ≡ table_place self.now }
    {
        match self {
            Key::Port(_) => 0,
            Key::Vlan(_) => 1,
            Key::Vrf(_) => 2,
            Key::Member(_, _) => 3,
            Key::Intf(_) => 4,
            Key::Addr(_, _, _) => 5,
            Key::Neigh(_, _) => 6,
            Key::Route(_, _) => 7,
            Key::Other(_) => 8,
        }
    }

    /// Compares two keys of one table: those that a switch has most of here, and the others by a call.
    #[inline(always)]
    fn cmp_alike(&self, other: &Key) -> Ordering
        ensures { result ≡ part_cmp self.now other.now }
    {
        if let Key::Route(vrf, prefix) = self {
            if let Key::Route(than, than_prefix) = other {
                return match vrf.cmp(than) {
                    Ordering::Equal => prefix.cmp(than_prefix),
                    order => order,
                };
            }
        }
        match (self, other) {
            (Key::Port(port), Key::Port(than)) => port.cmp(than),
            (Key::Member(vlan, port), Key::Member(than, than_port)) => match vlan.cmp(than) {
                Ordering::Equal => port.cmp(than_port),
                order => order,
            },
            (Key::Intf(on), Key::Intf(than)) => on.cmp(than),
            (Key::Neigh(on, ip), Key::Neigh(than, than_ip)) => match on.cmp(than) {
                Ordering::Equal => ip.cmp(than_ip),
                order => order,
            },
            _ => self.cmp_parts(other),
        }
    }

    /// Compares the parts of two keys of one table. It is a call, since a map's search takes in what is short alone.
    #[inline(never)]
    fn cmp_parts(&self, other: &Key) -> Ordering
        ensures { result ≡ part_cmp self.now other.now }
    {
        match (self, other) {
            (Key::Port(port), Key::Port(than)) => port.cmp(than),
            (Key::Vlan(vlan), Key::Vlan(than)) => vlan.cmp(than),
            (Key::Vrf(name), Key::Vrf(than)) => name.cmp(than),
            (Key::Member(vlan, port), Key::Member(than, than_port)) => match vlan.cmp(than) {
                Ordering::Equal => port.cmp(than_port),
                order => order,
            },
            (Key::Intf(on), Key::Intf(than)) => on.cmp(than),
            (Key::Addr(on, ip, len), Key::Addr(than, than_ip, than_len)) => match on.cmp(than) {
                Ordering::Equal => match ip.cmp(than_ip) {
                    Ordering::Equal => len.cmp(than_len),
                    order => order,
                },
                order => order,
            },
            (Key::Neigh(on, ip), Key::Neigh(than, than_ip)) => match on.cmp(than) {
                Ordering::Equal => ip.cmp(than_ip),
                order => order,
            },
            (Key::Route(vrf, prefix), Key::Route(than, than_prefix)) => match vrf.cmp(than) {
                Ordering::Equal => prefix.cmp(than_prefix),
                order => order,
            },
            (Key::Other(text), Key::Other(than)) => text.cmp(than),
            _ => Ordering::Equal,
        }
    }
}

impl Ord for Key {
    ghost cmp = { key_cmp };

    ghost total = { key_total };

    ghost matches_partial_cmp = { keys_agree };

    ghost matches_eq = { keys_tie };

    // A map's search spends its time on comparing, so what most comparisons need stands in it.
    #[inline(always)]
    fn cmp(&self, other: &Key) -> Ordering {
        match self.place().cmp(&other.place()) {
            Ordering::Equal => self.cmp_alike(other),
            order => order,
        }
    }
}
