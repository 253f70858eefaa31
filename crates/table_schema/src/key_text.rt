// Keys as they are read and written.
ghost use Rattle.std.specs.Prelude.{◌≡◌, ◌++◌, ◌↔◌, codes, IfOk, IsTrue, OnOk, OnErr, Contains, length, option_map, take};
ghost use Rattle.std.specs.Str.{IsUtf8};
ghost use Rattle.table_schema.specs.KeyText.{addr_key, intf_key, key_in, key_of, key_text, known_key, member_key, neigh_key, on_switch, port_key, key_of_route, route_parts, router_text, table_of, vlan_key};
ghost use Rattle.table_schema.specs.ProperKey.{IsProperKey};
ghost use Rattle.table_schema.specs.Split.{split_once};
ghost use Rattle.swss_types.specs.Interface.{if_name_of, if_name_text};
ghost use Rattle.swss_types.specs.Prefix.{interface_address_of, interface_address_text};
ghost use Rattle.swss_types.specs.Ip.{ip_text};
ghost use Rattle.swss_types.specs.VrfNames.{vrf_name_text};

use crate::Key;
use crate::split::split_once;
use crate::table::Table;
use std::alloc::Global;
use swss_types::{
    IfName, Ip, OutOfMemory, Prefix, Text, Vrf, VrfName, read_interface_address,
    write_interface_address,
};

/// Whether a text has a colon, so that it is a key's.
pub fn has_colon(text: &[u8]) -> bool
    ensures { IsTrue result ↔ Contains text.now 58 }
{
    text.contains(&b':')
}

/// The key that a text is. What is no key of a table is Other with the text. A key that is read is proper: its written
/// form reads as this key again.
pub fn read_key(alloc: Global, text: &[u8]) -> Result<Key, OutOfMemory>
    requires utf8 { IsUtf8 text.now }
    requires colon { Contains text.now 58 }
    ensures value { IfOk result (λ key. key ≡ key_of text.now) }
    ensures proper { IfOk result IsProperKey }
{
    if let Some(key) = read_known(text) {
        return Ok(key);
    }
    match Text::new(alloc, text)? {
        Some(text) => Ok(Key::Other(text)),
        None => unreachable!(),
    }
}

/// The key of a table, or None where the text is none.
fn read_known(text: &[u8]) -> Option<Key>
    ensures { result ≡ known_key (split_once 58 text.now) }
{
    let (table, rest) = split_once(text, b':')?;
    read_key_in(read_table(table)?, rest)
}

/// The table of a name.
fn read_table(name: &[u8]) -> Option<Table>
    ensures { result ≡ table_of name.now }
{
    if name == b"PORT_TABLE".as_slice() {
        Some(Table::Port)
    } else if name == b"VLAN_TABLE".as_slice() {
        Some(Table::Vlan)
    } else if name == b"VRF_TABLE".as_slice() {
        Some(Table::Vrf)
    } else if name == b"VLAN_MEMBER_TABLE".as_slice() {
        Some(Table::Member)
    } else if name == b"INTF_TABLE".as_slice() {
        Some(Table::Intf)
    } else if name == b"NEIGH_TABLE".as_slice() {
        Some(Table::Neigh)
    } else if name == b"ROUTE_TABLE".as_slice() {
        Some(Table::Route)
    } else {
        None
    }
}

/// The key of a table whose text behind the table's name this is.
fn read_key_in(table: Table, rest: &[u8]) -> Option<Key>
    ensures { result ≡ key_in table rest.now }
{
    match table {
        Table::Port => read_port(rest).map(Key::Port),
        Table::Vlan => read_vlan(rest).map(Key::Vlan),
        Table::Vrf => VrfName::read(rest).map(Key::Vrf),
        Table::Member => read_member(rest),
        Table::Intf => read_intf(rest),
        Table::Neigh => read_neigh(rest),
        Table::Route => read_route(rest),
    }
}

/// The number of an Ethernet name.
fn read_port(text: &[u8]) -> Option<u32>
    ensures { option_map Key.Port result ≡ port_key (if_name_of text.now) }
{
    match IfName::read(text)? {
        IfName::Ethernet(port) => Some(port),
        IfName::Vlan(_) | IfName::Loopback(_) => None,
    }
}

/// The number of a Vlan name.
fn read_vlan(text: &[u8]) -> Option<u16>
    ensures { option_map Key.Vlan result ≡ vlan_key (if_name_of text.now) }
{
    match IfName::read(text)? {
        IfName::Vlan(vlan) => Some(vlan),
        IfName::Ethernet(_) | IfName::Loopback(_) => None,
    }
}

/// The key of a VLAN member's row.
fn read_member(rest: &[u8]) -> Option<Key>
    ensures { result ≡ member_key (split_once 58 rest.now) }
{
    let (vlan, port) = split_once(rest, b':')?;
    Some(Key::Member(read_vlan(vlan)?, read_port(port)?))
}

/// The key of an interface's row, or of a row of an interface's address.
fn read_intf(rest: &[u8]) -> Option<Key>
    ensures { result ≡ intf_key rest.now (split_once 58 rest.now) }
{
    match split_once(rest, b':') {
        Some((on, address)) => read_addr(on, address),
        None => IfName::read(rest).map(Key::Intf),
    }
}

/// The key of a row of an interface's address.
fn read_addr(on: &[u8], address: &[u8]) -> Option<Key>
    ensures { result ≡ addr_key (if_name_of on.now) (interface_address_of address.now) }
{
    let on = IfName::read(on)?;
    let (ip, len) = read_interface_address(address)?;
    Some(Key::Addr(on, ip, len))
}

/// The key of a neighbour's row.
fn read_neigh(rest: &[u8]) -> Option<Key>
    ensures { result ≡ neigh_key (split_once 58 rest.now) }
{
    let (on, ip) = split_once(rest, b':')?;
    let on = read_on_switch(on)?;
    let ip = Ip::read(ip)?;
    Some(Key::Neigh(on, ip))
}

/// The name of a port's or a VLAN's interface.
pub fn read_on_switch(text: &[u8]) -> Option<IfName>
    ensures { result ≡ on_switch (if_name_of text.now) }
{
    match IfName::read(text)? {
        IfName::Loopback(_) => None,
        on => Some(on),
    }
}

/// The key of a route's row.
fn read_route(rest: &[u8]) -> Option<Key>
    ensures { result ≡ key_of_route (route_parts rest.now) }
{
    let (vrf, prefix) = split_router(rest);
    Some(Key::Route(vrf, Prefix::read(prefix)?))
}

/// The virtual router that the text of a route begins with, and the text of its prefix. Without a router's name before a
/// colon it is the default one.
pub(crate) fn split_router(text: &[u8]) -> (Vrf, &[u8])
    ensures { (result.0, result.1.now) ≡ route_parts text.now }
{
    let Some((name, behind)) = split_once(text, b':') else {
        return (Vrf::Default, text);
    };
    match VrfName::read(name) {
        Some(name) => (Vrf::Named(name), behind),
        None => (Vrf::Default, text),
    }
}

impl Key {
    /// Appends the written key.
    pub fn write(&self, out: &mut Vec<u8>) -> Result<(), OutOfMemory>
        ensures ok { OnOk result (out.new.items ≡ out.old.items ++ key_text self.now) }
        ensures err { OnErr result (out.new.items ≡ out.old.items) }
    {
        let before = out.len();
        if let Err(error) = self.write_parts(out) {
            out.truncate(before);
            return Err(error);
        }
        Ok(())
    }

    /// Appends the written key. An Err may leave a part of it.
    fn write_parts(&self, out: &mut Vec<u8>) -> Result<(), OutOfMemory>
        ensures ok { OnOk result (out.new.items ≡ out.old.items ++ key_text self.now) }
        ensures err { OnErr result (take (length out.old.items) out.new.items ≡ out.old.items) }
    {
        match self {
            Key::Port(port) => write_named(out, b"PORT_TABLE:", IfName::Ethernet(*port)),
            Key::Vlan(vlan) => write_named(out, b"VLAN_TABLE:", IfName::Vlan(*vlan)),
            Key::Vrf(name) => write_vrf(out, b"VRF_TABLE:", *name),
            Key::Member(vlan, port) => {
                write_named(out, b"VLAN_MEMBER_TABLE:", IfName::Vlan(*vlan))?;
                write_named(out, b":", IfName::Ethernet(*port))
            }
            Key::Intf(on) => write_named(out, b"INTF_TABLE:", *on),
            Key::Addr(on, ip, len) => {
                write_named(out, b"INTF_TABLE:", *on)?;
                write_address(out, *ip, *len)
            }
            Key::Neigh(on, ip) => {
                write_named(out, b"NEIGH_TABLE:", *on)?;
                write_ip(out, *ip)
            }
            Key::Route(vrf, prefix) => {
                write_routes(out, *vrf)?;
                prefix.write(out)
            }
            Key::Other(text) => {
                out.extend_from_slice(text.bytes())?;
                Ok(())
            }
        }
    }
}

/// Appends a word and a name. An Err may leave a part of them.
fn write_named(out: &mut Vec<u8>, word: &[u8], name: IfName) -> Result<(), OutOfMemory>
    ensures ok { OnOk result (out.new.items ≡ out.old.items ++ (word.now ++ if_name_text name)) }
    ensures err { OnErr result (take (length out.old.items) out.new.items ≡ out.old.items) }
{
    out.extend_from_slice(word)?;
    name.write(out)
}

/// Appends a word and the name of a virtual router. An Err may leave a part of them.
fn write_vrf(out: &mut Vec<u8>, word: &[u8], name: VrfName) -> Result<(), OutOfMemory>
    ensures ok { OnOk result (out.new.items ≡ out.old.items ++ (word.now ++ vrf_name_text name)) }
    ensures err { OnErr result (take (length out.old.items) out.new.items ≡ out.old.items) }
{
    out.extend_from_slice(word)?;
    name.write(out)
}

/// Appends the table of routes, and the virtual router that one is in unless it is the default one. An Err may leave a part
/// of them.
fn write_routes(out: &mut Vec<u8>, vrf: Vrf) -> Result<(), OutOfMemory>
    ensures ok { OnOk result (out.new.items ≡ out.old.items ++ (codes "ROUTE_TABLE:" ++ router_text vrf)) }
    ensures err { OnErr result (take (length out.old.items) out.new.items ≡ out.old.items) }
{
    out.extend_from_slice(b"ROUTE_TABLE:")?;
    write_router(out, vrf)
}

/// Appends a virtual router before what is in it. An Err may leave a part of it.
fn write_router(out: &mut Vec<u8>, vrf: Vrf) -> Result<(), OutOfMemory>
    ensures ok { OnOk result (out.new.items ≡ out.old.items ++ router_text vrf) }
    ensures err { OnErr result (take (length out.old.items) out.new.items ≡ out.old.items) }
{
    match vrf {
        Vrf::Default => Ok(()),
        Vrf::Named(name) => {
            name.write(out)?;
            out.push(b':')?;
            Ok(())
        }
    }
}

/// Appends a colon and an interface address. An Err may leave a part of them.
fn write_address(out: &mut Vec<u8>, ip: Ip, len: u8) -> Result<(), OutOfMemory>
    ensures ok { OnOk result (out.new.items ≡ out.old.items ++ (codes ":" ++ interface_address_text ip len)) }
    ensures err { OnErr result (take (length out.old.items) out.new.items ≡ out.old.items) }
{
    out.push(b':')?;
    write_interface_address(out, ip, len)
}

/// Appends a colon and an address. An Err may leave a part of them.
fn write_ip(out: &mut Vec<u8>, ip: Ip) -> Result<(), OutOfMemory>
    ensures ok { OnOk result (out.new.items ≡ out.old.items ++ (codes ":" ++ ip_text ip)) }
    ensures err { OnErr result (take (length out.old.items) out.new.items ≡ out.old.items) }
{
    out.push(b':')?;
    ip.write(out)
}
