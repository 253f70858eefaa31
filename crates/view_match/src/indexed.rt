// The old objects by their natural keys.
ghost use Rattle.std.specs.Prelude.{◌≡◌, length, true, IfOk};
ghost use Rattle.chip_names.specs.Naming.{entries_of};
ghost use Rattle.view_match.specs.Indexed.{AreStrictlySortedByKey, lent_entries, entries_from};
ghost use Rattle.view_match.specs.Keys.{keys_of_objects};
ghost use Rattle.view_match.specs.Near.{AreFound};
ghost use Rattle.view_match.specs.Pairs.{IsIndex, group_number};

use crate::key::NaturalKey;
use sai_types::{Body, Entry, Object, Rid};
use std::alloc::Global;
use swss_types::OutOfMemory;

/// An old object to which a new one can be paired. Partners are ordered by their groups, and then by their places.
#[derive(Clone, Copy, Debug, PartialEq, Eq, PartialOrd, Ord)]
pub(crate) struct Partner {
    /// The number of the group that it is or is a member of, else 0.
    pub(crate) group: u64,
    /// Its place in the list.
    pub(crate) place: u64,
}

/// The objects that have a natural key, by their keys and then in the order of partners: of several objects of one key
/// that of the least group comes first.
pub(crate) type Index<'a> = Vec<(&'a NaturalKey, Partner)>;

/// The old objects by their natural keys.
#[derive(Debug, Drop)]
pub(crate) struct Indexed<'a> {
    /// The objects by their keys.
    pub(crate) index: Index<'a>,
    /// Whether no two of them have one key.
    pub(crate) apart: bool,
}

/// The old objects by these keys, which are theirs.
pub(crate) fn index<'a>(
    alloc: Global,
    keys: &'a [Option<NaturalKey>],
    old: &[Object<Rid>],
) -> Result<Indexed<'a>, OutOfMemory>
    requires keyed { keys.now ≡ keys_of_objects (entries_of old.now) }
    ensures index { IfOk result (λ indexed. IsIndex (entries_of old.now) (lent_entries indexed.index.items)) }
    ensures found { IfOk result (λ indexed. indexed.apart ≡ true → AreFound keys.now (lent_entries indexed.index.items) (length keys.now)) }
{
    let mut index = partners(alloc, keys, old)?;
    index.sort()?;
    let apart = are_apart(index.as_slice());
    Ok(Indexed { index, apart })
}

/// The objects that have a key, with their keys, in their order.
fn partners<'a>(
    alloc: Global,
    keys: &'a [Option<NaturalKey>],
    old: &[Object<Rid>],
) -> Result<Index<'a>, OutOfMemory>
    requires { length keys.now ≡ length old.now }
    ensures { IfOk result (λ index. lent_entries index.items ≡ entries_from keys.now (entries_of old.now) 0) }
{
    let mut index = Vec::with_capacity(alloc, keys.len())?;
    let mut place = 0;
    for key in keys {
        let group = group_number(&old[place]);
        if let Some(key) = key {
            let place = place as u64;
            index.push((key, Partner { group, place }))?;
        }
        place += 1;
    }
    Ok(index)
}

/// Whether each key is less than the next.
fn are_apart(index: &[(&NaturalKey, Partner)]) -> bool
    ensures { result ≡ true → AreStrictlySortedByKey (lent_entries index.now) }
{
    index.is_sorted_by(|one, next| one.0.cmp(next.0).is_lt())
}

/// The number of the group that an object is or is a member of, else 0.
fn group_number(object: &Object<Rid>) -> u64
    ensures { result ≡ group_number (object.now.entry, object.now.body) }
{
    match (&object.entry, &object.body) {
        (Entry::Oid(group), Body::Group) => group.0,
        (_, Body::GroupMember { group, .. }) => group.0,
        _ => 0,
    }
}
