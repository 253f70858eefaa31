// How a plan names objects.
ghost use Rattle.std.specs.Prelude.{◌≡◌, [], IfOk, OnOk, option_copied, slice_get};
ghost use Rattle.chip_layout.specs.Renamed.{body_renamed, to_renamed};
ghost use Rattle.plan_laws.specs.Calls.{old_entry};
ghost use Rattle.apply_order.specs.Naming.{names_from, names_if, new_id, with_entries, with_objects};

use chip_layout::{NewIds, body_with_ids, to_with_ids};
use late_maps::LateMap;
use sai_types::{Body, Entry, Mode, Object, PlanId, Rid, To, Vid};
use std::alloc::Global;
use swss_types::OutOfMemory;

/// By the number of a new identifier that of the old object, where a plan names it so. New identifiers mostly come in
/// their order.
pub(crate) type Names = LateMap<u64, Rid>;

/// How a plan names new objects, by the names of the paired ones.
#[derive(Clone, Copy)]
struct NewNames<'a>(&'a Names);

impl NewIds<Vid, PlanId> for NewNames<'_> {
    ghost new_id = { λ names. new_id names.0.now };

    fn new_id(&self, id: Vid) -> PlanId {
        match self.0.get(&id.0) {
            Some(old) => PlanId::Old(*old),
            None => PlanId::New(id),
        }
    }
}

/// The names of paired objects.
pub(crate) fn names_of(
    alloc: Global,
    old: &[Object<Rid>],
    new: &[Object<Vid>],
    pairs: &[(u64, u64)],
) -> Result<Names, OutOfMemory>
    ensures { IfOk result (λ names. names ≡ names_from [] old.now new.now pairs.now) }
{
    let mut names = LateMap::new(alloc);
    for pair in pairs {
        put_pair(&mut names, old, new, *pair)?;
    }
    Ok(names)
}

/// The names that a plan gives: a cold plan gives none.
pub(crate) fn names_if(alloc: Global, mode: Mode, names: Names) -> Names
    ensures { result ≡ names_if mode names }
{
    match mode {
        Mode::Hitless => names,
        Mode::Cold => LateMap::new(alloc),
    }
}

/// Puts the name of a paired object.
fn put_pair(
    names: &mut Names,
    old: &[Object<Rid>],
    new: &[Object<Vid>],
    pair: (u64, u64),
) -> Result<(), OutOfMemory>
    ensures { OnOk result (names.new ≡ with_objects names.old (slice_get old.now pair.0) (slice_get new.now pair.1)) }
{
    put_objects(names, old.get(pair.0 as usize), new.get(pair.1 as usize))
}

/// Puts the name of an old object and a new one, where both are there.
fn put_objects(
    names: &mut Names,
    old: Option<&Object<Rid>>,
    new: Option<&Object<Vid>>,
) -> Result<(), OutOfMemory>
    ensures { OnOk result (names.new ≡ with_objects names.old (option_copied old.entry) (option_copied new.entry)) }
{
    match (old, new) {
        (Some(old), Some(new)) => put_entries(names, &old.entry, &new.entry),
        _ => Ok(()),
    }
}

/// Puts the old identifier under the new one, where both objects have one.
fn put_entries(names: &mut Names, old: &Entry<Rid>, new: &Entry<Vid>) -> Result<(), OutOfMemory>
    ensures { OnOk result (names.new ≡ with_entries names.old old.now new.now) }
{
    match (old, new) {
        (Entry::Oid(old), Entry::Oid(new)) => {
            names.insert(new.0, *old)?;
            Ok(())
        }
        _ => Ok(()),
    }
}

/// A new object, as a plan names it.
pub(crate) fn new_name(names: &Names, id: Vid) -> PlanId
    ensures { result ≡ new_id names.now id }
{
    NewNames(names).new_id(id)
}

/// Where a route points, as a plan names it.
pub(crate) fn new_to(names: &Names, to: To<Vid>) -> To<PlanId>
    ensures { result ≡ to_renamed (new_id names.now) to }
{
    to_with_ids(&NewNames(names), to)
}

/// A new body, as a plan names what it refers to.
pub(crate) fn new_body(names: &Names, body: &Body<Vid>) -> Result<Body<PlanId>, OutOfMemory>
    ensures { IfOk result (λ named. named ≡ body_renamed (new_id names.now) body.now) }
{
    body_with_ids(&NewNames(names), body)
}

/// The entry of an old object, as a plan names it.
pub(crate) fn old_entry(entry: &Entry<Rid>) -> Entry<PlanId>
    ensures { result ≡ old_entry entry.now }
{
    match *entry {
        Entry::Oid(id) => Entry::Oid(PlanId::Old(id)),
        Entry::Own(vr, ip) => Entry::Own(vr.map(PlanId::Old), ip),
        Entry::Neigh(rif, ip) => Entry::Neigh(PlanId::Old(rif), ip),
        Entry::Route(vr, prefix) => Entry::Route(vr.map(PlanId::Old), prefix),
    }
}
