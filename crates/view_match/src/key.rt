// The natural keys of objects.
ghost use Rattle.std.specs.Prelude.{◌≡◌, ◌++◌, None, IfOk, OnOk, option_map, if◌then◌else◌};
ghost use Rattle.sai_types.specs.Objects.{Objects};
ghost use Rattle.chip_names.specs.Naming.{AreNamesOf, entries_of};
ghost use Rattle.view_match.specs.Keys.{key_among, natural_key_of, keys_of_objects};
ghost use Rattle.view_match.specs.Keyed.{AreNewNames};
ghost use Rattle.view_match.specs.Listed.{object_as};

use crate::listed::{object_of, others_listed, to_of, vr_of};
use chip_names::Names;
use sai_types::{Base, Body, Hop, Hops, Object, Rid, Thing, Vid, WHop};
use std::alloc::Global;
use std::mem::drop;
use swss_types::{Ip, Lanes, OutOfMemory, Prefix, Vrf, VrfName};

/// By what two objects of a kind are the same object: what can be set on an object has no part in it. Keys are ordered
/// by their kinds, as the chip's table has them, and then by their parts.
#[derive(Debug, PartialEq, Eq, PartialOrd, Ord, Drop)]
pub enum NaturalKey {
    /// A port, by its lanes.
    Port(Lanes),
    /// A VLAN, by its number.
    Vlan(u16),
    /// A virtual router, by its label.
    VirtualRouter(VrfName),
    /// A bridge port, by its port's first lane.
    BridgePort(u16),
    /// A member of a VLAN: the VLAN, and the port's first lane.
    VlanMember(u16, u16),
    /// A router interface, by what it stands on.
    Rif(Base),
    /// An address of the switch itself, by its virtual router and the address.
    Own(Vrf, Ip),
    /// A neighbour, by its interface and address.
    Neighbor(Hop),
    /// A next hop, by its interface and address.
    NextHop(Hop),
    /// A group, by the hops of its members with their weights.
    Group(Hops),
    /// A hop in a group.
    GroupMember(Hops, WHop),
    /// A route, by its virtual router and its prefix.
    Route(Vrf, Prefix),
}

impl NaturalKey {
    /// The natural key of a thing.
    fn of(thing: Thing) -> NaturalKey
        ensures { result ≡ natural_key_of thing }
    {
        match thing {
            Thing::Port(port) => NaturalKey::Port(port.lanes),
            Thing::Vlan(vlan) => NaturalKey::Vlan(vlan),
            Thing::VirtualRouter(label) => NaturalKey::VirtualRouter(label),
            Thing::BridgePort(lane) => NaturalKey::BridgePort(lane),
            Thing::VlanMember(vlan, lane, _) => NaturalKey::VlanMember(vlan, lane),
            Thing::Rif(on, _) => NaturalKey::Rif(on),
            Thing::Own(vrf, ip) => NaturalKey::Own(vrf, ip),
            Thing::Neighbor(hop, _) => NaturalKey::Neighbor(hop),
            Thing::NextHop(hop) => NaturalKey::NextHop(hop),
            Thing::Group(hops) => NaturalKey::Group(hops),
            Thing::GroupMember(hops, hop) => NaturalKey::GroupMember(hops, hop),
            Thing::Route(vrf, prefix, _goal) => NaturalKey::Route(vrf, prefix),
        }
    }
}

/// The natural key of each object, in their order: None where a reference is absent. A group is named by the hops of its
/// members among these objects.
pub fn natural_keys(
    alloc: Global,
    objects: &[Object<Rid>],
) -> Result<Vec<Option<NaturalKey>>, OutOfMemory>
    ensures { IfOk result (λ keys. keys.items ≡ keys_of_objects (entries_of objects.now)) }
{
    let mut keys = Vec::with_capacity(alloc, objects.len())?;
    match push_keys(alloc, objects, &mut keys) {
        Ok(()) => Ok(keys),
        Err(error) => {
            drop(keys);
            Err(error)
        }
    }
}

/// Puts the natural keys of objects.
fn push_keys(
    alloc: Global,
    objects: &[Object<Rid>],
    keys: &mut Vec<Option<NaturalKey>>,
) -> Result<(), OutOfMemory>
    ensures { OnOk result (keys.new.items ≡ keys.old.items ++ keys_of_objects (entries_of objects.now)) }
{
    let names = Names::of(alloc, objects)?;
    let answer = push_named(&names, objects, keys);
    drop(names);
    answer
}

/// Puts the natural keys of objects that have these names.
fn push_named(
    names: &Names,
    objects: &[Object<Rid>],
    keys: &mut Vec<Option<NaturalKey>>,
) -> Result<(), OutOfMemory>
    requires { AreNamesOf (entries_of objects.now) names.now }
    ensures { OnOk result (keys.new.items ≡ keys.old.items ++ keys_of_objects (entries_of objects.now)) }
{
    for object in objects {
        keys.push(key_of(names, object)?)?;
    }
    Ok(())
}

/// The names of the objects of a view that are no routes.
pub(crate) fn names_of_others(alloc: Global, objects: &[Object<Vid>]) -> Result<Names, OutOfMemory>
    ensures { IfOk result (λ names. AreNewNames objects.now names) }
{
    let listed = others_listed(alloc, objects)?;
    let names = Names::of(alloc, listed.as_slice());
    drop(listed);
    names
}

/// The natural key of an object of a view. That of a route needs no copy of it.
pub(crate) fn new_key_of(
    names: &Names,
    object: &Object<Vid>,
) -> Result<Option<NaturalKey>, OutOfMemory>
    ensures { IfOk result (λ key. (objects : Objects) → AreNamesOf objects names.now → key ≡ key_among objects ((object_as object.now).entry, (object_as object.now).body)) }
{
    if let Body::Route { vr, prefix, to } = &object.body {
        let router = names.router(vr_of(*vr));
        return Ok(route_key(router, *prefix, names.leads(&to_of(*to))));
    }
    let listed = object_of(object)?;
    let key = key_of(names, &listed)?;
    Ok(key)
}

/// The natural key of an object: None where a reference is absent. That of a route needs no goal, only that there is one.
fn key_of(names: &Names, object: &Object<Rid>) -> Result<Option<NaturalKey>, OutOfMemory>
    ensures { IfOk result (λ key. (objects : Objects) → AreNamesOf objects names.now → key ≡ key_among objects (object.now.entry, object.now.body)) }
{
    if let Body::Route { vr, prefix, to } = &object.body {
        return Ok(route_key(names.router(*vr), *prefix, names.leads(to)));
    }
    let thing = names.thing(object)?;
    Ok(key_if(thing))
}

/// The natural key of a route, where its virtual router is there and it leads somewhere.
fn route_key(router: Option<Vrf>, prefix: Prefix, leads: bool) -> Option<NaturalKey>
    ensures { result ≡ (if leads then option_map (λ v. NaturalKey.Route v prefix) router else None) }
{
    if leads {
        Some(NaturalKey::Route(router?, prefix))
    } else {
        None
    }
}

/// The natural key of a thing, where there is one.
fn key_if(thing: Option<Thing>) -> Option<NaturalKey>
    ensures { result ≡ option_map natural_key_of thing }
{
    match thing {
        Some(thing) => Some(NaturalKey::of(thing)),
        None => None,
    }
}
