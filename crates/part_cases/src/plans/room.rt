// What a hitless plan has room for, and what it keeps.
use anyhow::Result;
use sai_chip::{SimChip, named};
use sai_types::{Base, Body, Caps, Chip, KINDS, Kind, Object, Rid, Thing, Vid};
use std::alloc::Global;
use swss_types::Vrf;
use view_match::{NaturalKey, natural_keys};

/// Room for a thousand objects of each kind.
pub const AMPLE: Caps = Caps([1000; KINDS]);

/// Room for the greater of two views in each kind, and for the VLAN by which identifiers are used up.
pub fn tight_room(old: &[Body<Vid>], new: &[Body<Vid>]) -> Caps {
    let mut caps = [0; KINDS];
    for kind in Kind::ALL {
        let spare = u64::from(kind == Kind::Vlan);
        caps[kind.index()] = count(old, kind).max(count(new, kind)).saturating_add(spare);
    }
    Caps(caps)
}

/// How many of the bodies are of a kind.
fn count(bodies: &[Body<Vid>], kind: Kind) -> u64 {
    let mut count = 0u64;
    for body in bodies {
        count = count.saturating_add(u64::from(body.kind() == kind));
    }
    count
}

/// Whether the chip has room for what stands on it and for what it lacks of the second chip.
pub fn fits(alloc: Global, chip: &SimChip, second: &SimChip, caps: &Caps) -> Result<bool> {
    let old = natural_keys(alloc, chip.objects(alloc)?.as_slice())?;
    let objects = second.objects(alloc)?;
    let new = natural_keys(alloc, objects.as_slice())?;
    for kind in Kind::ALL {
        let lacking = lacking(old.as_slice(), new.as_slice(), objects.as_slice(), kind);
        if caps.0[kind.index()] < chip.used(kind).saturating_add(lacking) {
            return Ok(false);
        }
    }
    Ok(true)
}

/// How many of the new objects are of a kind, and their key is none of the old ones.
fn lacking(
    old: &[Option<NaturalKey>],
    new: &[Option<NaturalKey>],
    objects: &[Object<Rid>],
    kind: Kind,
) -> u64 {
    let mut count = 0u64;
    for (key, object) in new.iter().zip(objects) {
        let lacks = object.body.kind() == kind && !old.contains(key);
        count = count.saturating_add(u64::from(lacks));
    }
    count
}

/// Whether each interface of the chip that the second chip has too is in the same router there.
pub fn keeps_routers(alloc: Global, chip: &SimChip, second: &SimChip) -> Result<bool> {
    let old = named(alloc, chip.objects(alloc)?.as_slice())?;
    let new = named(alloc, second.objects(alloc)?.as_slice())?;
    for thing in old.as_slice() {
        if let Thing::Rif(on, vrf) = thing
            && !is_kept(new.as_slice(), *on, *vrf)
        {
            return Ok(false);
        }
    }
    Ok(true)
}

/// Whether the interface on this base, where it is among the things, is in this router.
fn is_kept(things: &[Thing], on: Base, vrf: Vrf) -> bool {
    for thing in things {
        if let Thing::Rif(other, router) = thing
            && *other == on
        {
            return *router == vrf;
        }
    }
    true
}
