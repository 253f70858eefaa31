// Entries in chunks.
ghost use Rattle.std.specs.Prelude.{◌≡◌, ◌+◌, ◌-◌, ◌<◌, ◌≤◌, ◌↔◌, ◌++◌, ◌∷◌, [], false, suc, IsTrue, IfOk, IfErr, IfSome, IfNone, OnOk, OnErr, length, take, drop, slice_index_or, slice_set};
ghost use Rattle.std.specs.List.{AllByRecursion, insert, remove};
ghost use Rattle.std.specs.List.Sorted.{IsStrictlySortedBy};
ghost use Rattle.std.specs.Map.{keys_of};
ghost use Rattle.std.specs.declared.cmp.Ordering.TheVariants.{Less, Greater};
ghost use Rattle.late_maps.specs.Chunks.{AreFilled, HaveRisingKeys, IsOrderAt, IsRisingPlace, IsSpot, chunk_at, entries_of_chunks, with_chunk};

use std::alloc::{AllocError, AllocFailed, Global};
use std::cell::Cell;
use std::cmp::Ordering;
use std::mem::replace;

/// How many entries a chunk has at most, but for want of memory.
const CHUNK: usize = 16;

/// Entries in chunks, of which none is empty.
pub(crate) type Chunks<K, V> = Vec<Vec<(K, V)>>;

/// Where a key stands: the place of its chunk, and its own place in that, or where it is to be put.
#[derive(Debug, Drop)]
pub(crate) struct Spot {
    /// The place of the chunk.
    pub(crate) chunk: usize,
    /// The place in the chunk.
    pub(crate) at: Result<usize, usize>,
}

/// A place in chunks.
#[derive(Clone, Copy, Debug)]
pub struct Place {
    /// The place of the chunk.
    pub(crate) chunk: usize,
    /// The place in the chunk.
    pub(crate) at: usize,
}

/// Where a key stands, or is to be put. It is first looked for near the place where a key was found last, which is noted
/// anew, or that of the key before it where it is not there: what is sought once more, or in key order, is found at once.
pub(crate) fn spot_of<K: Ord, V>(chunks: &[Vec<(K, V)>], near: &Cell<Place>, key: &K) -> Spot
    requires { HaveRisingKeys K.cmp chunks.now }
    ensures { IsSpot K.cmp chunks.now key.now result }
{
    let spot = match spot_near(chunks, near.get(), key) {
        Some(spot) => spot,
        None => far_spot(chunks, key),
    };
    let at = match spot.at {
        Ok(at) => at,
        Err(at) => at.saturating_sub(1),
    };
    near.set(Place {
        chunk: spot.chunk,
        at,
    });
    spot
}

/// Where a key stands, or is to be put, where that is told by the entry at a place and the next one.
#[inline(always)]
fn spot_near<K: Ord, V>(chunks: &[Vec<(K, V)>], near: Place, key: &K) -> Option<Spot>
    requires { HaveRisingKeys K.cmp chunks.now }
    ensures { IfSome result (IsSpot K.cmp chunks.now key.now) }
{
    match order_at(chunks, near, key)? {
        Ordering::Less => None,
        Ordering::Equal => Some(Spot {
            chunk: near.chunk,
            at: Ok(near.at),
        }),
        Ordering::Greater => spot_past(chunks, near, key),
    }
}

/// Where a key stands, or is to be put, that is greater than the one at a place, where that is told by the next one.
#[inline(always)]
fn spot_past<K: Ord, V>(chunks: &[Vec<(K, V)>], near: Place, key: &K) -> Option<Spot>
    requires rising { HaveRisingKeys K.cmp chunks.now }
    requires past { IsOrderAt K.cmp chunks.now near key.now Greater }
    ensures { IfSome result (IsSpot K.cmp chunks.now key.now) }
{
    let next = Place {
        chunk: near.chunk,
        at: near.at + 1,
    };
    match order_at(chunks, next, key) {
        Some(Ordering::Less) => Some(Spot {
            chunk: next.chunk,
            at: Err(next.at),
        }),
        Some(Ordering::Equal) => Some(Spot {
            chunk: next.chunk,
            at: Ok(next.at),
        }),
        Some(Ordering::Greater) => None,
        None => spot_over(chunks, near, key),
    }
}

/// Where a key stands, or is to be put, that is greater than the last one of a chunk, where that is told by the first one of
/// the next chunk.
#[inline(always)]
fn spot_over<K: Ord, V>(chunks: &[Vec<(K, V)>], last: Place, key: &K) -> Option<Spot>
    requires rising { HaveRisingKeys K.cmp chunks.now }
    requires past { IsOrderAt K.cmp chunks.now last key.now Greater }
    requires last { length (chunk_at chunks.now last.chunk) ≤ last.at + 1 }
    ensures { IfSome result (IsSpot K.cmp chunks.now key.now) }
{
    let next = Place {
        chunk: last.chunk + 1,
        at: 0,
    };
    let end = Spot {
        chunk: last.chunk,
        at: Err(last.at + 1),
    };
    match order_at(chunks, next, key) {
        Some(Ordering::Less) => Some(end),
        Some(Ordering::Equal) => Some(Spot {
            chunk: next.chunk,
            at: Ok(next.at),
        }),
        Some(Ordering::Greater) => None,
        None => Some(end),
    }
}

/// How a key compares to the one at a place: None where there is none.
#[inline(always)]
fn order_at<K: Ord, V>(chunks: &[Vec<(K, V)>], place: Place, key: &K) -> Option<Ordering>
    ensures some { IfSome result (IsOrderAt K.cmp chunks.now place key.now) }
    ensures none { IfNone result (length (chunk_at chunks.now place.chunk) ≤ place.at) }
{
    let entry = chunks.get(place.chunk)?.get(place.at)?;
    Some(key.cmp(&entry.0))
}

/// Where a key stands, or is to be put, wherever that is. A key that is the greatest, or behind all keys, is found at once.
fn far_spot<K: Ord, V>(chunks: &[Vec<(K, V)>], key: &K) -> Spot
    requires { HaveRisingKeys K.cmp chunks.now }
    ensures { IsSpot K.cmp chunks.now key.now result }
{
    let count = chunks.len();
    if count == 0 {
        return Spot {
            chunk: 0,
            at: Err(0),
        };
    }
    let last = chunks[count - 1].as_slice();
    match order_at_end(last, key) {
        Ordering::Greater => Spot {
            chunk: count - 1,
            at: Err(last.len()),
        },
        Ordering::Equal => Spot {
            chunk: count - 1,
            at: Ok(last.len() - 1),
        },
        Ordering::Less => {
            let chunk = chunk_of(chunks, key);
            Spot {
                chunk,
                at: place_in(chunks[chunk].as_slice(), key),
            }
        }
    }
}

/// How a key compares to the last one of a chunk.
#[inline(always)]
fn order_at_end<K: Ord, V>(chunk: &[(K, V)], key: &K) -> Ordering
    requires { 0 < length chunk.now }
    ensures { (d : K × V) → result ≡ K.cmp key.now (slice_index_or chunk.now (length chunk.now - 1) d).0 }
{
    key.cmp(&chunk[chunk.len() - 1].0)
}

/// The first chunk whose last key is not below this one, or the last chunk.
fn chunk_of<K: Ord, V>(chunks: &[Vec<(K, V)>], key: &K) -> usize
    requires rising { HaveRisingKeys K.cmp chunks.now }
    requires some { 0 < length chunks.now }
    ensures within { result < length chunks.now }
    ensures before { AllByRecursion (λ e. K.cmp key.now e.0 ≡ Greater) (entries_of_chunks (take result chunks.now)) }
    ensures behind { AllByRecursion (λ e. K.cmp key.now e.0 ≡ Less) (entries_of_chunks (drop (suc result) chunks.now)) }
{
    let mut low = 0;
    let mut high = chunks.len() - 1;
    while low < high {
        let middle = low + (high - low) / 2;
        if order_at_end(chunks[middle].as_slice(), key).is_gt() {
            low = middle + 1;
        } else {
            high = middle;
        }
    }
    low
}

/// Where a key stands in a chunk, or is to be put.
fn place_in<K: Ord, V>(chunk: &[(K, V)], key: &K) -> Result<usize, usize>
    requires { IsStrictlySortedBy K.cmp (keys_of chunk.now) }
    ensures { IsRisingPlace K.cmp chunk.now key.now result }
{
    let mut low = 0;
    let mut high = chunk.len();
    while low < high {
        let middle = low + (high - low) / 2;
        match key.cmp(&chunk[middle].0) {
            Ordering::Less => high = middle,
            Ordering::Equal => return Ok(middle),
            Ordering::Greater => low = middle + 1,
        }
    }
    Err(low)
}

/// Gives the key at a place another value, and returns the one that it had.
pub(crate) fn set<K, V>(chunks: &mut Chunks<K, V>, chunk: usize, at: usize, value: V) -> V
    requires filled { AreFilled chunks.old.items }
    requires at { at < length (chunk_at chunks.old.items chunk) }
    ensures old { (d : K × V) → result ≡ (slice_index_or (chunk_at chunks.old.items chunk) at d).1 }
    ensures new { (d : K × V) → entries_of_chunks chunks.new.items ≡ with_chunk chunks.old.items chunk (slice_set (chunk_at chunks.old.items chunk) at ((slice_index_or (chunk_at chunks.old.items chunk) at d).0, value)) }
    ensures filled { AreFilled chunks.new.items }
{
    replace(&mut chunks[chunk][at].1, value)
}

/// Puts an entry at a place. A chunk that has too many is halved, and behind the last one that is full a new one begins.
pub(crate) fn put<K, V>(
    alloc: Global,
    chunks: &mut Chunks<K, V>,
    chunk: usize,
    at: usize,
    entry: (K, V),
) -> Result<(), AllocFailed<(K, V)>>
    requires filled { AreFilled chunks.old.items }
    requires chunk { 0 < length chunks.old.items → chunk < length chunks.old.items }
    requires at { at ≤ length (chunk_at chunks.old.items chunk) }
    ensures ok { OnOk result (entries_of_chunks chunks.new.items ≡ with_chunk chunks.old.items chunk (insert (chunk_at chunks.old.items chunk) at entry)) }
    ensures err { OnErr result (entries_of_chunks chunks.new.items ≡ entries_of_chunks chunks.old.items) }
    ensures value_returned { IfErr result (λ failed. failed.value ≡ entry) }
    ensures filled { AreFilled chunks.new.items }
{
    if is_behind_all(chunks.as_slice(), chunk, at) {
        return push(alloc, chunks, entry);
    }
    match chunks[chunk].insert(at, entry) {
        Ok(()) => {
            part(chunks, chunk, at);
            Ok(())
        }
        Err(failed) => Err(failed),
    }
}

/// Whether a place is behind all chunks, of which the last one is full.
fn is_behind_all<K, V>(chunks: &[Vec<(K, V)>], chunk: usize, at: usize) -> bool
    requires chunk { 0 < length chunks.now → chunk < length chunks.now }
    requires at { at ≤ length (chunk_at chunks.now chunk) }
    ensures behind { IsTrue result → (e : K × V) → with_chunk chunks.now chunk (insert (chunk_at chunks.now chunk) at e) ≡ entries_of_chunks chunks.now ++ e ∷ [] }
    ensures some { result ≡ false → 0 < length chunks.now }
{
    if chunks.is_empty() {
        return true;
    }
    chunk + 1 == chunks.len() && at == chunks[chunk].len() && at >= CHUNK
}

/// Puts an entry behind all chunks, in one of its own.
fn push<K, V>(
    alloc: Global,
    chunks: &mut Chunks<K, V>,
    entry: (K, V),
) -> Result<(), AllocFailed<(K, V)>>
    requires filled { AreFilled chunks.old.items }
    ensures ok { OnOk result (entries_of_chunks chunks.new.items ≡ entries_of_chunks chunks.old.items ++ entry ∷ []) }
    ensures err { OnErr result (entries_of_chunks chunks.new.items ≡ entries_of_chunks chunks.old.items) }
    ensures value_returned { IfErr result (λ failed. failed.value ≡ entry) }
    ensures filled { AreFilled chunks.new.items }
{
    if chunks.reserve(1).is_err() {
        return Err(AllocFailed { value: entry });
    }
    let Ok(mut chunk) = empty_chunk(alloc, chunks.is_empty()) else {
        return Err(AllocFailed { value: entry });
    };
    match chunk.push(entry) {
        Ok(()) => match chunks.push(chunk) {
            Ok(()) => Ok(()),
            Err(_) => unreachable!(),
        },
        Err(failed) => {
            chunk.destroy_empty();
            Err(failed)
        }
    }
}

/// A chunk without entries, with memory for all that it may have, unless it is the first one: that grows as it needs.
fn empty_chunk<E>(alloc: Global, first: bool) -> Result<Vec<E>, AllocError>
    ensures { IfOk result (λ chunk. chunk.items ≡ []) }
{
    if first {
        Ok(Vec::new(alloc))
    } else {
        Vec::with_capacity(alloc, CHUNK)
    }
}

/// Parts a chunk that has too many entries, of which one was put at a place just now, where memory is there for it.
fn part<K, V>(chunks: &mut Chunks<K, V>, chunk: usize, at: usize)
    requires filled { AreFilled chunks.old.items }
    requires chunk { chunk < length chunks.old.items }
    ensures entries { entries_of_chunks chunks.new.items ≡ entries_of_chunks chunks.old.items }
    ensures filled { AreFilled chunks.new.items }
{
    let len = chunks[chunk].len();
    if len <= CHUNK || chunks.reserve(1).is_err() {
        return;
    }
    match chunks[chunk].split_off(parting(len, at)) {
        Ok(upper) => match chunks.insert(chunk + 1, upper) {
            Ok(()) => {}
            Err(_) => unreachable!(),
        },
        Err(_) => {}
    }
}

/// Where a chunk is parted: in its midst, and before its last entry where that was put there just now, so that keys that come
/// in their order fill the chunks.
fn parting(len: usize, at: usize) -> usize
    requires { 1 < len }
    ensures some { 0 < result }
    ensures less { result < len }
{
    if at == len - 1 { at } else { len / 2 }
}

/// Takes the entry at a place out.
pub(crate) fn take<K, V>(chunks: &mut Chunks<K, V>, chunk: usize, at: usize) -> (K, V)
    requires filled { AreFilled chunks.old.items }
    requires at { at < length (chunk_at chunks.old.items chunk) }
    ensures entry { (d : K × V) → result ≡ slice_index_or (chunk_at chunks.old.items chunk) at d }
    ensures rest { entries_of_chunks chunks.new.items ≡ with_chunk chunks.old.items chunk (remove (chunk_at chunks.old.items chunk) at) }
    ensures filled { AreFilled chunks.new.items }
{
    let entry = chunks[chunk].remove(at);
    if chunks[chunk].is_empty() {
        chunks.remove(chunk).destroy_empty();
    }
    entry
}
