// What a row names.
ghost use Rattle.std.specs.Prelude.{◌≡◌, ◌++◌, IfOk, OnOk, map, slice_get};
ghost use Rattle.table_schema.specs.Names.{base_names, intf_names, names_of, names_of_route, route_names, router_names};

use crate::{Key, RouteRow, Row, RowHop};
use std::alloc::Global;
use swss_types::{IfName, OutOfMemory, Vrf};

/// The keys of the rows that a row of this key stands on, in order.
pub fn names(alloc: Global, key: &Key, row: &Row) -> Result<Vec<Key>, OutOfMemory>
    ensures { IfOk result (λ names. names.items ≡ names_of key.now row.now) }
{
    match (key, row) {
        (Key::Member(vlan, port), _) => Ok(vec![in alloc; Key::Vlan(*vlan), Key::Port(*port)]?),
        (Key::Intf(on), Row::Intf(vrf)) => intf_names(alloc, *on, *vrf),
        (Key::Intf(on), _) => base_names(alloc, *on),
        (Key::Addr(on, ..) | Key::Neigh(on, _), _) => Ok(vec![in alloc; Key::Intf(*on)]?),
        (Key::Route(vrf, _), _) => names_of_route(alloc, *vrf, row),
        _ => Ok(Vec::new(alloc)),
    }
}

/// The first of the keys that `names` tells, which takes no memory.
pub fn first_name(key: &Key, row: &Row) -> Option<Key>
    ensures { result ≡ slice_get (names_of key.now row.now) 0 }
{
    match (key, row) {
        (Key::Member(vlan, _), _) => Some(Key::Vlan(*vlan)),
        (Key::Intf(on), Row::Intf(vrf)) => intf_name(*on, *vrf),
        (Key::Intf(on), _) => base_name(*on),
        (Key::Addr(on, ..) | Key::Neigh(on, _), _) => Some(Key::Intf(*on)),
        (Key::Route(Vrf::Named(name), _), _) => Some(Key::Vrf(*name)),
        (Key::Route(Vrf::Default, _), Row::Route(target)) => first_route_name(target),
        _ => None,
    }
}

/// The first key that an interface in this virtual router stands on.
fn intf_name(on: IfName, vrf: Vrf) -> Option<Key>
    ensures { result ≡ slice_get (intf_names on vrf) 0 }
{
    match (on, vrf) {
        (IfName::Ethernet(port), _) => Some(Key::Port(port)),
        (IfName::Vlan(vlan), _) => Some(Key::Vlan(vlan)),
        (IfName::Loopback(_), Vrf::Named(name)) => Some(Key::Vrf(name)),
        (IfName::Loopback(_), Vrf::Default) => None,
    }
}

/// The port or VLAN of an interface.
fn base_name(on: IfName) -> Option<Key>
    ensures { result ≡ slice_get (base_names on) 0 }
{
    match on {
        IfName::Ethernet(port) => Some(Key::Port(port)),
        IfName::Vlan(vlan) => Some(Key::Vlan(vlan)),
        IfName::Loopback(_) => None,
    }
}

/// The interface of a route, or the first of the neighbours that are its hops.
fn first_route_name(target: &RouteRow) -> Option<Key>
    ensures { result ≡ slice_get (route_names target.now) 0 }
{
    match target {
        RouteRow::Drop => None,
        RouteRow::Direct(on) => Some(Key::Intf(*on)),
        RouteRow::Hops(hops) => match hops.items() {
            [] => None,
            [(first, _), ..] => Some(Key::Neigh(first.on, first.ip)),
        },
    }
}

/// The port or VLAN of an interface, and then its virtual router, unless that is the default one.
fn intf_names(alloc: Global, on: IfName, vrf: Vrf) -> Result<Vec<Key>, OutOfMemory>
    ensures { IfOk result (λ names. names.items ≡ intf_names on vrf) }
{
    let mut names = base_names(alloc, on)?;
    if let Vrf::Named(name) = vrf {
        names.push(Key::Vrf(name))?;
    }
    Ok(names)
}

/// The port or VLAN of an interface.
fn base_names(alloc: Global, on: IfName) -> Result<Vec<Key>, OutOfMemory>
    ensures { IfOk result (λ names. names.items ≡ base_names on) }
{
    match on {
        IfName::Ethernet(port) => Ok(vec![in alloc; Key::Port(port)]?),
        IfName::Vlan(vlan) => Ok(vec![in alloc; Key::Vlan(vlan)]?),
        IfName::Loopback(_) => Ok(Vec::new(alloc)),
    }
}

/// The virtual router of a route, unless that is the default one, and then what the route's row stands on.
fn names_of_route(alloc: Global, vrf: Vrf, row: &Row) -> Result<Vec<Key>, OutOfMemory>
    ensures { IfOk result (λ names. names.items ≡ router_names vrf ++ names_of_route row.now) }
{
    let mut names = router_names(alloc, vrf)?;
    let Row::Route(target) = row else {
        return Ok(names);
    };
    push_route_names(&mut names, target)?;
    Ok(names)
}

/// A virtual router, unless it is the default one.
fn router_names(alloc: Global, vrf: Vrf) -> Result<Vec<Key>, OutOfMemory>
    ensures { IfOk result (λ names. names.items ≡ router_names vrf) }
{
    match vrf {
        Vrf::Default => Ok(Vec::new(alloc)),
        Vrf::Named(name) => Ok(vec![in alloc; Key::Vrf(name)]?),
    }
}

/// Pushes the interface of a route, or the neighbours that are its hops.
fn push_route_names(names: &mut Vec<Key>, target: &RouteRow) -> Result<(), OutOfMemory>
    ensures { OnOk result (names.new.items ≡ names.old.items ++ route_names target.now) }
{
    match target {
        RouteRow::Drop => Ok(()),
        RouteRow::Direct(on) => Ok(names.push(Key::Intf(*on))?),
        RouteRow::Hops(hops) => push_hop_names(names, hops.items()),
    }
}

/// Pushes the neighbours that are hops.
fn push_hop_names(names: &mut Vec<Key>, hops: &[(RowHop, u8)]) -> Result<(), OutOfMemory>
    ensures { OnOk result (names.new.items ≡ names.old.items ++ map (λ h. Key.Neigh h.0.on h.0.ip) hops.now) }
{
    names.reserve(hops.len())?;
    for (hop, _) in hops {
        names.push(Key::Neigh(hop.on, hop.ip))?;
    }
    Ok(())
}
