// A map that is searched from where a key was found last, and from its greatest key on.
ghost use Rattle.std.specs.Prelude.{◌≡◌, ◌+◌, ◌^◌, ◌<◌, IsTrue, true, if◌then◌else◌, [], ◌∷◌, None, Some, is_some, length, IfSome, IfNone, IfOk, IfErr, OnOk, OnErr, option_copied, option_map};
ghost use Rattle.std.specs.List.{filter, slice_get};
ghost use Rattle.std.specs.Ordering.{is_lt};
ghost use Rattle.std.specs.Borrow.{sem};
ghost use Rattle.std.specs.BTreeMap.{insert_entry, is_at};
ghost use Rattle.std.specs.List.Sorted.{IsStrictlySortedBy};
ghost use Rattle.std.specs.Map.{keys_of, lookup, remove_entry};
ghost use Rattle.std.specs.Map.Iter.{ShowsInOrder, deref_pair};
ghost use Rattle.std.specs.Option.{option_copied_mut};

use crate::chunks::{Chunks, Place, put, set, spot_of, take};
use crate::{Iter, Near, OneNear};
use std::alloc::{AllocFailed, Global};
use std::fmt;
use std::marker::Model;

/// How many entries a map has at most.
const MOST: usize = 9_223_372_036_854_775_807;

/// A map whose search begins where a key was found last, and then at its greatest key, so that what comes in key order, or
/// is sought once more, is put and found at once. It is otherwise as `BTreeMap`.
#[derive(Drop)]
pub struct LateMap<K: Ord, V, N = OneNear> {
    alloc: Global,
    chunks: Chunks<K, V>,
    count: usize,
    // where a key was found or put last: the next one is looked for there first
    near: N,
}

impl<K: Ord, V, N> Model for LateMap<K, V, N> {
    ghost use Rattle.std.specs.Prelude.{◌≡◌, ◌<◌, ◌^◌, List, length};
    ghost use Rattle.late_maps.specs.Chunks.{HaveRisingKeys, entries_of_chunks};

    ghost Value = { List (K × V) };

    ghost view = { λ m. entries_of_chunks m.chunks.items };

    ghost invariant = { λ m. HaveRisingKeys K.cmp m.chunks.items × (m.count ≡ length (entries_of_chunks m.chunks.items)) × (m.count < 2 ^ 63) };
}

impl<K: Ord, V, N: Near<K>> LateMap<K, V, N> {
    /// An empty map.
    pub fn new(alloc: Global) -> LateMap<K, V, N>
        ensures { result ≡ [] }
    {
        LateMap {
            alloc,
            chunks: Vec::new(alloc),
            count: 0,
            near: N::new(),
        }
    }

    /// How many entries there are.
    pub fn len(&self) -> usize
        ensures len { result ≡ length self.now }
        ensures small { result < 2 ^ 63 }
        ensures ordered { IsStrictlySortedBy K.cmp (keys_of self.now) }
    {
        self.count
    }

    /// The entry of the least key: None exactly where there is no entry.
    pub fn first(&self) -> Option<(&K, &V)>
        ensures { option_map deref_pair result ≡ slice_get self.now 0 }
    {
        match self.chunks.get(0) {
            Some(chunk) => Some((&chunk[0].0, &chunk[0].1)),
            None => None,
        }
    }

    /// Takes the entry of the least key out: None exactly where there is no entry.
    pub fn pop_first(&mut self) -> Option<(K, V)>
        ensures some { IfSome result (λ e. self.old ≡ e ∷ self.new) }
        ensures none { IfNone result ((self.old ≡ []) × (self.new ≡ [])) }
    {
        if self.count == 0 {
            return None;
        }
        self.count -= 1;
        Some(take(&mut self.chunks, 0, 0))
    }

    /// The entries, in rising order of their keys.
    pub fn iter(&self) -> Iter<'_, K, V>
        ensures rest { result ≡ self.now }
        ensures runs { ShowsInOrder (deref_pair {K = K} {X = V}) }
        ensures ordered { IsStrictlySortedBy K.cmp (keys_of self.now) }
        ensures fits { length self.now < 2 ^ 63 }
    {
        Iter {
            front: [].iter(),
            middle: self.chunks.as_slice().iter(),
            left: self.count,
        }
    }
}

impl<K: Ord, V, N: Near<K>> LateMap<K, V, N> {
    ghost use Rattle.late_maps.specs.Lent.{lends_value};

    /// The value of a key. A key that is the greatest, or behind all keys, is found at once.
    pub fn get(&self, key: &K) -> Option<&V>
        ensures { option_copied result ≡ lookup (is_at (K.cmp key.now)) self.now }
    {
        if self.count == 0 {
            return None;
        }
        let spot = spot_of(self.chunks.as_slice(), self.near.of(key), key);
        match spot.at {
            Ok(at) => Some(&self.chunks[spot.chunk][at].1),
            Err(_) => None,
        }
    }

    /// Whether a key has a value.
    pub fn contains_key(&self, key: &K) -> bool
        ensures { result ≡ is_some (lookup (is_at (K.cmp key.now)) self.now) }
    {
        self.get(key).is_some()
    }

    /// The value of a key, to be changed.
    pub fn get_mut(&mut self, key: &K) -> Option<&mut V>
        ensures* writes_back { sem 𝓛 (lends_value K.row V.row N.row K.Ord self.entry (K.cmp key.now) result) }
        ensures value { option_copied_mut result ≡ lookup (is_at (K.cmp key.now)) self.old }
        ensures ordered { IsStrictlySortedBy K.cmp (keys_of self.old) }
    {
        let spot = spot_of(self.chunks.as_slice(), self.near.of(key), key);
        match spot.at {
            Ok(at) => match self.chunks.get_mut(spot.chunk) {
                Some(chunk) => match chunk.get_mut(at) {
                    Some(entry) => Some(&mut entry.1),
                    None => None,
                },
                None => None,
            },
            Err(_) => None,
        }
    }

    /// Gives a key a value, and returns the one that it had.
    pub fn insert(&mut self, key: K, value: V) -> Result<Option<V>, AllocFailed<(K, V)>>
    where
        K: Drop,
        // On success the key has the value, and other keys keep theirs.
        ensures old { IfOk result (λ old. old ≡ lookup (is_at (K.cmp key)) self.old) }
        ensures entries { OnOk result (self.new ≡ insert_entry K.cmp self.old key value) }
        ensures len { IfOk result (λ old. length self.new ≡ length self.old + (if is_some old then 0 else 1)) }

        // On failure the pair comes back and the entries stay. Only a new key can fail.
        ensures value_returned { IfErr result (λ failed. failed.value ≡ (key, value)) }
        ensures absent { OnErr result (lookup (is_at (K.cmp key)) self.old ≡ None) }
        ensures err { OnErr result (self.new ≡ self.old) }

        // The keys rise.
        ensures ordered { IsStrictlySortedBy K.cmp (keys_of self.new) }
        ensures was_ordered { IsStrictlySortedBy K.cmp (keys_of self.old) }
    {
        let near = self.near.of(&key);
        let spot = spot_of(self.chunks.as_slice(), near, &key);
        match spot.at {
            Ok(at) => Ok(Some(set(&mut self.chunks, spot.chunk, at, value))),
            Err(at) => {
                if self.count == MOST {
                    return Err(AllocFailed {
                        value: (key, value),
                    });
                }
                match put(self.alloc, &mut self.chunks, spot.chunk, at, (key, value)) {
                    Ok(()) => {
                        self.count += 1;
                        near.set(Place {
                            chunk: spot.chunk,
                            at,
                        });
                        Ok(None)
                    }
                    Err(failed) => Err(failed),
                }
            }
        }
    }

    /// The first key behind this one.
    pub fn behind(&self, key: &K) -> Option<&K>
        ensures { option_map (λ found. found.now) result ≡ slice_get (filter (λ other. is_lt (K.cmp key.now other)) (keys_of self.now)) 0 }
    {
        let chunks = self.chunks.as_slice();
        let spot = spot_of(chunks, self.near.of(key), key);
        let at = match spot.at {
            Ok(at) => at + 1,
            Err(at) => at,
        };
        match chunks.get(spot.chunk) {
            Some(chunk) => match chunk.get(at) {
                Some(entry) => Some(&entry.0),
                None => match chunks.get(spot.chunk + 1) {
                    Some(next) => Some(&next[0].0),
                    None => None,
                },
            },
            None => None,
        }
    }

    /// Takes a key and its value away, and returns the value.
    pub fn remove(&mut self, key: &K) -> Option<V>
    where
        K: Drop,
        ensures value { result ≡ lookup (is_at (K.cmp key.now)) self.old }
        ensures entries { self.new ≡ remove_entry (is_at (K.cmp key.now)) self.old }
        ensures ordered { IsStrictlySortedBy K.cmp (keys_of self.new) }
        ensures len { length self.new + (if is_some result then 1 else 0) ≡ length self.old }
    {
        let spot = spot_of(self.chunks.as_slice(), self.near.of(key), key);
        match spot.at {
            Ok(at) => {
                self.count -= 1;
                let (_, value) = take(&mut self.chunks, spot.chunk, at);
                Some(value)
            }
            Err(_) => None,
        }
    }
}

impl<K: Ord + fmt::Debug, V: fmt::Debug, N: Near<K>> fmt::Debug for LateMap<K, V, N> {
    fn fmt<W: fmt::Write>(&self, f: &mut fmt::Formatter<W>) -> fmt::Result {
        let mut out = f.debug_map();
        for (key, value) in self.iter() {
            out.entry(key, value);
        }
        out.finish()
    }
}
