// The objects of a new view, seen as those of a chip.
ghost use Rattle.std.specs.Prelude.{◌≡◌, IfOk, option_map};
ghost use Rattle.chip_layout.specs.Renamed.{to_renamed};
ghost use Rattle.view_match.specs.Listed.{is_route, object_as, objects_as, rid_of, without_routes};

use chip_layout::{NewIds, body_with_ids, entry_with_ids, to_with_ids, vr_with_ids};
use sai_types::{Body, Entry, Object, Rid, To, Vid};
use std::alloc::Global;
use swss_types::OutOfMemory;

/// By its number an identifier of a view is one of a chip.
#[derive(Clone, Copy)]
struct Numbers;

impl NewIds<Vid, Rid> for Numbers {
    ghost new_id = { λ _. rid_of };

    fn new_id(&self, id: Vid) -> Rid {
        Rid(id.0)
    }
}

/// The objects of a view with the numbers of their identifiers in the place of a chip's, so that they are named as a
/// chip's objects are.
pub fn as_listed(alloc: Global, objects: &[Object<Vid>]) -> Result<Vec<Object<Rid>>, OutOfMemory>
    ensures { IfOk result (λ listed. listed.items ≡ objects_as objects.now) }
{
    let mut listed = Vec::with_capacity(alloc, objects.len())?;
    for object in objects {
        listed.push(object_of(object)?)?;
    }
    Ok(listed)
}

/// The same, without the routes: no object refers to one.
pub(crate) fn others_listed(
    alloc: Global,
    objects: &[Object<Vid>],
) -> Result<Vec<Object<Rid>>, OutOfMemory>
    ensures { IfOk result (λ listed. listed.items ≡ objects_as (without_routes objects.now)) }
{
    let mut listed = Vec::with_capacity(alloc, objects.len())?;
    for object in objects {
        if !is_route(object) {
            listed.push(object_of(object)?)?;
        }
    }
    Ok(listed)
}

fn is_route(object: &Object<Vid>) -> bool
    ensures { result ≡ is_route object.now }
{
    match (&object.body, &object.entry) {
        (Body::Route { .. }, Entry::Route(..)) => true,
        _ => false,
    }
}

/// An object of a view as one of a chip.
pub(crate) fn object_of(object: &Object<Vid>) -> Result<Object<Rid>, OutOfMemory>
    ensures { IfOk result (λ listed. listed ≡ object_as object.now) }
{
    Ok(Object {
        entry: entry_with_ids(&Numbers, object.entry),
        body: body_with_ids(&Numbers, &object.body)?,
    })
}

/// The virtual router of an object in a view as one on a chip.
pub(crate) fn vr_of(vr: Option<Vid>) -> Option<Rid>
    ensures { result ≡ option_map rid_of vr }
{
    vr_with_ids(&Numbers, vr)
}

/// A target in a view as one on a chip.
pub(crate) fn to_of(to: To<Vid>) -> To<Rid>
    ensures { result ≡ to_renamed rid_of to }
{
    to_with_ids(&Numbers, to)
}
