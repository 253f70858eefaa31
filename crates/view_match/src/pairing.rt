// The pairing of old objects and new ones.
ghost use Rattle.std.specs.Prelude.{◌≡◌, List, length, true, Some, option_copied, option_map, IfOk};
ghost use Rattle.std.specs.BTreeMap.{is_at};
ghost use Rattle.std.specs.Map.{lookup};
ghost use Rattle.std.specs.Ordering.{is_lt};
ghost use Rattle.sai_types.specs.Named.{those};
ghost use Rattle.sai_types.specs.Objects.{Objects};
ghost use Rattle.sai_types.specs.declared.body.Object.{Object};
ghost use Rattle.sai_types.specs.declared.ids.Vid.{Vid};
ghost use Rattle.chip_layout.specs.Counted.{AreDistinct};
ghost use Rattle.view_match.specs.Keyed.{AreNaturalKeysOf, AreNewNames};
ghost use Rattle.view_match.specs.Indexed.{lent_entries, lent_entry, partner_if};
ghost use Rattle.view_match.specs.Keys.{natural_key_cmp};
ghost use Rattle.view_match.specs.Near.{AreFound, IsKey};
ghost use Rattle.view_match.specs.Pairs.{AreSortedByKey, IsIndex, new_key, new_keys, pairs_from, pairs_of, partner_of};

use crate::indexed::{Index, Indexed, Partner, index};
use crate::key::NaturalKey;
use crate::keyed::{NaturalKeys, natural_keys_of};
use sai_types::{Object, Pairing, Rid, Vid};
use std::alloc::Global;
use swss_types::OutOfMemory;

/// Pairs each new object with the old one of its natural key: a group with the old group whose members have the same
/// hops, of several such with the one of the least identifier, and a member with that member of the paired group. The
/// pairs come in the order of the new objects.
pub fn pair(alloc: Global, old: &[Object<Rid>], new: &[Object<Vid>]) -> Result<Pairing, OutOfMemory>
    requires distinct { AreDistinct (those (new_keys new.now)) }
    ensures { IfOk result (λ pairing. pairing ≡ pairs_of old.now new.now) }
{
    let keys = natural_keys_of(alloc, old, new)?;
    pair_by(alloc, old, new, &keys)
}

/// The same by the natural keys of the objects, where these are at hand.
pub fn pair_by(
    alloc: Global,
    old: &[Object<Rid>],
    new: &[Object<Vid>],
    keys: &NaturalKeys,
) -> Result<Pairing, OutOfMemory>
    requires keyed { AreNaturalKeysOf old.now new.now keys.now }
    requires distinct { AreDistinct (those (new_keys new.now)) }
    ensures { IfOk result (λ pairing. pairing ≡ pairs_of old.now new.now) }
{
    let indexed = index(alloc, keys.of_old.as_slice(), old)?;
    pair_new(alloc, &indexed, keys, new)
}

/// The pairs of new objects.
fn pair_new(
    alloc: Global,
    indexed: &Indexed<'_>,
    keys: &NaturalKeys,
    new: &[Object<Vid>],
) -> Result<Pairing, OutOfMemory>
    requires indexed { (objects : Objects) × IsIndex objects (lent_entries indexed.now.index.items) }
    requires found { indexed.now.apart ≡ true → AreFound keys.now.of_old.items (lent_entries indexed.now.index.items) (length keys.now.of_old.items) }
    requires named { AreNewNames new.now keys.now.new_names }
    requires distinct { AreDistinct (those (new_keys new.now)) }
    ensures { IfOk result (λ pairing. (objects : Objects) → IsIndex objects (lent_entries indexed.now.index.items) → pairing ≡ pairs_from objects (new_keys new.now) 0) }
{
    let mut pairing = Pairing::new(alloc);
    let mut place = 0;
    let mut near: u64 = 0;
    for object in new {
        if let Some(partner) = partner_for(indexed, keys, near, object)? {
            pairing.push((partner, place))?;
            near = partner.wrapping_add(1);
        }
        place += 1;
    }
    Ok(pairing)
}

/// The place of the old object of a new one, looked for first near a place.
fn partner_for(
    indexed: &Indexed<'_>,
    keys: &NaturalKeys,
    near: u64,
    object: &Object<Vid>,
) -> Result<Option<u64>, OutOfMemory>
    requires found { indexed.now.apart ≡ true → AreFound keys.now.of_old.items (lent_entries indexed.now.index.items) (length keys.now.of_old.items) }
    ensures { IfOk result (λ partner. (objects : Objects) (new : List (Object Vid)) → IsIndex objects (lent_entries indexed.now.index.items) → AreNewNames new keys.now.new_names → partner ≡ partner_of objects (new_key new object.now)) }
{
    let key = keys.of_new(object)?;
    Ok(partner_near(indexed, keys.of_old.as_slice(), near, &key))
}

/// The place of the old object of a key: looked for first at the place that follows that of the last one found, since
/// new objects mostly come in the order of the old ones.
fn partner_near(
    indexed: &Indexed<'_>,
    old_keys: &[Option<NaturalKey>],
    near: u64,
    key: &Option<NaturalKey>,
) -> Option<u64>
    requires found { indexed.now.apart ≡ true → AreFound old_keys.now (lent_entries indexed.now.index.items) (length old_keys.now) }
    ensures { (objects : Objects) → IsIndex objects (lent_entries indexed.now.index.items) → result ≡ partner_of objects key.now }
{
    if indexed.apart && is_key(old_keys.get(near as usize), key) {
        return Some(near);
    }
    partner_of(&indexed.index, key)
}

/// Whether an object that was found has this key.
fn is_key(old: Option<&Option<NaturalKey>>, key: &Option<NaturalKey>) -> bool
    ensures { result ≡ true → IsKey (option_copied old.entry) key.now }
{
    match old {
        Some(old) => has_key(old, key),
        None => false,
    }
}

/// Whether both are one key.
fn has_key(old: &Option<NaturalKey>, key: &Option<NaturalKey>) -> bool
    ensures { result ≡ true → IsKey (Some old.now) key.now }
{
    match (old, key) {
        (Some(old), Some(key)) => is_same(old, key),
        _ => false,
    }
}

/// Whether two keys are one.
fn is_same(old: &NaturalKey, key: &NaturalKey) -> bool
    ensures { result ≡ true → old.now ≡ key.now }
{
    old == key
}

/// The place of the old object of a key.
fn partner_of(index: &Index<'_>, key: &Option<NaturalKey>) -> Option<u64>
    ensures { (objects : Objects) → IsIndex objects (lent_entries index.now.items) → result ≡ partner_of objects key.now }
{
    match key {
        Some(key) => place_of(index.as_slice(), key),
        None => None,
    }
}

/// The place of the first object of a key.
fn place_of(index: &[(&NaturalKey, Partner)], key: &NaturalKey) -> Option<u64>
    ensures { AreSortedByKey (lent_entries index.now) → result ≡ option_map (λ p. p.place) (lookup (is_at (natural_key_cmp key.now)) (lent_entries index.now)) }
{
    let at = index.partition_point(|one| is_before(one, key));
    match index.get(at) {
        Some(one) => place_if(one, key),
        None => None,
    }
}

/// Whether an object's key is less than this one.
fn is_before(one: &(&NaturalKey, Partner), key: &NaturalKey) -> bool
    ensures { result ≡ is_lt (natural_key_cmp (lent_entry one.now).0 key.now) }
{
    one.0.cmp(key).is_lt()
}

/// The place of an object, where it has this key.
fn place_if(one: &(&NaturalKey, Partner), key: &NaturalKey) -> Option<u64>
    ensures { result ≡ option_map (λ p. p.place) (partner_if (lent_entry one.now) key.now) }
{
    if key == one.0 {
        Some(one.1.place)
    } else {
        None
    }
}
