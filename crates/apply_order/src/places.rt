// Which places are paired.
ghost use Rattle.std.specs.Prelude.{◌≡◌, ◌<◌, [], length, slice_get, None, IfOk};
ghost use Rattle.std.specs.BTreeMap.{insert_entry};
ghost use Rattle.std.specs.Ordering.{nat_cmp};
ghost use Rattle.apply_order.specs.Places.{IsTable, Places, by_new, by_old, partner_at};

use std::alloc::Global;
use swss_types::OutOfMemory;

/// At each place of an object of the one side the place of its partner on the other.
pub(crate) type Partners = Vec<Option<u64>>;

/// At each of so many places of new objects the place of its partner.
pub(crate) fn by_new(
    alloc: Global,
    count: usize,
    pairs: &[(u64, u64)],
) -> Result<Partners, OutOfMemory>
    ensures count { IfOk result (λ places. length places.items ≡ count) }
    ensures each { IfOk result (λ places. IsTable (by_new pairs.now) places.items) }
{
    let mut places = no_partners(alloc, count)?;
    for pair in pairs {
        put(&mut places, pair.1, pair.0);
    }
    Ok(places)
}

/// At each of so many places of old objects the place of its partner.
pub(crate) fn by_old(
    alloc: Global,
    count: usize,
    pairs: &[(u64, u64)],
) -> Result<Partners, OutOfMemory>
    ensures count { IfOk result (λ places. length places.items ≡ count) }
    ensures each { IfOk result (λ places. IsTable (by_old pairs.now) places.items) }
{
    let mut places = no_partners(alloc, count)?;
    for pair in pairs {
        put(&mut places, pair.0, pair.1);
    }
    Ok(places)
}

/// So many places with no partner.
fn no_partners(alloc: Global, count: usize) -> Result<Partners, OutOfMemory>
    ensures count { IfOk result (λ places. length places.items ≡ count) }
    ensures each { IfOk result (λ places. IsTable [] places.items) }
{
    let mut places = Vec::with_capacity(alloc, count)?;
    for _place in 0..count {
        places.push(None)?;
    }
    Ok(places)
}

/// Puts the partner of a place, where there is such a place.
fn put(places: &mut Partners, place: u64, partner: u64)
    ensures count { length places.new.items ≡ length places.old.items }
    ensures each { (known : Places) → IsTable known places.old.items → IsTable (insert_entry nat_cmp known place partner) places.new.items }
{
    if place < places.len() as u64 {
        places[place as usize] = Some(partner);
    }
}

/// The place of the partner of the object at a place.
pub(crate) fn partner(places: &Partners, place: usize) -> Option<u64>
    requires within { place < length places.now.items }
    ensures { (known : Places) → IsTable known places.now.items → result ≡ partner_at known place }
{
    places[place]
}
