// What stands on a chip, up to identifiers.
ghost use Rattle.std.specs.Prelude.{◌≡◌, None, Some, IfOk, OnOk, map, if◌then◌else◌};
ghost use Rattle.std.specs.BTreeMap.{is_at};
ghost use Rattle.std.specs.List.Sorted.{IsPermutation, IsSorted};
ghost use Rattle.std.specs.Option.{option_or};
ghost use Rattle.sai_types.specs.Named.{both, named, put_hop, thing_by, those, with_member};
ghost use Rattle.sai_types.specs.Objects.{body_at, entry_cmp};
ghost use Rattle.sai_types.specs.declared.ids.Rid.{Rid};
ghost use Rattle.sai_types.specs.Order.{thing_cmp};
ghost use Rattle.chip_names.specs.Naming.{AreBodies, AreHops, entries_of, hops_of_group, numbered, with_hop};
ghost use Rattle.chip_names.specs.Members.{hops_by};

use crate::known::{Known, Numbered};
use crate::names::{GroupHops, thing_at, whop_at};
use late_maps::LateMap;
use sai_types::{Body, Entry, Hops, Object, Rid, Thing, WHop, Weight};
use std::alloc::Global;
use swss_types::OutOfMemory;

/// Each object with its identifiers replaced by natural keys, a group by the hops of its members, in rising order.
/// An object with an absent reference is left out.
pub fn named(alloc: Global, objects: &[Object<Rid>]) -> Result<Vec<Thing>, OutOfMemory>
    ensures { IfOk result (λ things. IsPermutation (those (named (entries_of objects.now))) things.items × IsSorted thing_cmp things.items) }
{
    let mut things = things_of(alloc, objects)?;
    things.sort()?;
    Ok(things)
}

/// The same, in the order of the objects.
pub fn things_of(alloc: Global, objects: &[Object<Rid>]) -> Result<Vec<Thing>, OutOfMemory>
    ensures { IfOk result (λ things. things.items ≡ those (named (entries_of objects.now))) }
{
    let known = Known::of(alloc, objects)?;
    let groups = group_hops(alloc, &known, objects)?;
    list_things(alloc, known.bodies(), &groups, objects)
}

/// The bodies by their identifiers; of several with one identifier, the first.
pub fn bodies_of(alloc: Global, objects: &[Object<Rid>]) -> Result<Numbered, OutOfMemory>
    ensures { IfOk result (λ bodies. AreBodies (entries_of objects.now) (numbered bodies)) }
{
    let mut bodies = LateMap::new(alloc);
    for object in objects {
        add_body(&mut bodies, object)?;
    }
    Ok(bodies)
}

/// Puts the body of an object that has an identifier, if there is none with the same.
fn add_body(bodies: &mut Numbered, object: &Object<Rid>) -> Result<(), OutOfMemory>
    ensures { OnOk result ((r : Rid) → body_at (numbered bodies.new) (Entry.Oid r) ≡ option_or (body_at (numbered bodies.old) (Entry.Oid r)) (if is_at (entry_cmp object.now.entry) (Entry.Oid r) then Some object.now.body else None)) }
{
    match object.entry {
        Entry::Oid(id) => {
            if !bodies.contains_key(&id) {
                bodies.insert(id, object.body.copy()?)?;
            }
            Ok(())
        }
        _ => Ok(()),
    }
}

/// The hops of each group that has members.
pub fn group_hops(
    alloc: Global,
    known: &Known,
    objects: &[Object<Rid>],
) -> Result<GroupHops, OutOfMemory>
    ensures { IfOk result (λ groups. AreHops known.now (entries_of objects.now) groups) }
{
    let mut groups = LateMap::new(alloc);
    let mut left = objects.len();
    while 0 < left {
        left -= 1;
        put_member(alloc, known, &mut groups, &objects[left].body)?;
    }
    Ok(groups)
}

/// Puts the hop of a body to the hops of its group, where it is a member of one.
fn put_member(
    alloc: Global,
    known: &Known,
    groups: &mut GroupHops,
    body: &Body<Rid>,
) -> Result<(), OutOfMemory>
    ensures { OnOk result ((g : Rid) → hops_of_group groups.new g ≡ with_member known.now g body.now (hops_of_group groups.old g)) }
{
    match body {
        Body::GroupMember {
            group,
            next_hop,
            weight,
        } => put_hop(alloc, groups, *group, known.whop(*next_hop, *weight)),
        _ => Ok(()),
    }
}

/// Puts a hop to the hops of a group; None is the hop of a next hop that is absent.
fn put_hop(
    alloc: Global,
    groups: &mut GroupHops,
    group: Rid,
    hop: Option<WHop>,
) -> Result<(), OutOfMemory>
    ensures { OnOk result ((g : Rid) → hops_of_group groups.new g ≡ with_hop group hop g (hops_of_group groups.old g)) }
{
    let others = match groups.remove(&group) {
        Some(others) => others,
        None => Some(Hops::new(alloc)),
    };
    let hops = add_hop(others, hop)?;
    groups.insert(group, hops)?;
    Ok(())
}

/// The hops of these next hops with their weights, the hops rising: None where a next hop is absent.
pub fn hops_of(
    alloc: Global,
    bodies: &Numbered,
    next_hops: &[(Rid, Weight)],
) -> Result<Option<Hops>, OutOfMemory>
    ensures { IfOk result (λ hops. hops ≡ hops_by (numbered bodies.now) next_hops.now) }
{
    let mut hops = Some(Hops::new(alloc));
    let mut left = next_hops.len();
    while 0 < left {
        left -= 1;
        let member = next_hops[left];
        hops = add_hop(hops, whop_at(bodies, member.0, member.1))?;
    }
    Ok(hops)
}

/// Hops with one more, where there are both.
fn add_hop(hops: Option<Hops>, hop: Option<WHop>) -> Result<Option<Hops>, OutOfMemory>
    ensures { IfOk result (λ more. more ≡ both put_hop hops hop) }
{
    let (Some(mut hops), Some(hop)) = (hops, hop) else {
        return Ok(None);
    };
    hops.put(hop)?;
    Ok(Some(hops))
}

/// The things of these objects, in their order.
fn list_things(
    alloc: Global,
    bodies: &Numbered,
    groups: &GroupHops,
    objects: &[Object<Rid>],
) -> Result<Vec<Thing>, OutOfMemory>
    ensures { IfOk result (λ things. things.items ≡ those (map (thing_by (hops_of_group groups.now) (numbered bodies.now)) (entries_of objects.now))) }
{
    let mut things = Vec::new(alloc);
    for object in objects {
        if let Some(thing) = thing_at(alloc, bodies, groups, &object.entry, &object.body)? {
            things.push(thing)?;
        }
    }
    Ok(things)
}
