// Names that workers pin and release.
ghost use Rattle.std.specs.Prelude.{◌≡◌, ℕ, List, ◌++◌, true, false, length, map, take, IsSome, IfErr, OnOk, OnErr};
ghost use Rattle.std.specs.BTreeMap.{is_at};
ghost use Rattle.std.specs.Map.{lookup};
ghost use Rattle.std.specs.Ordering.{nat_cmp};
ghost use Rattle.table_schema.specs.declared.key.Key.{Key};
ghost use Rattle.ref_counts.specs.Registered.{IsReadable};
ghost use Rattle.ref_counts.specs.Registry.{AreNoted, all_released, are_live, each_released, noted_by, pinned};

use crate::Name;
use crate::changes::{pin, release, unpin_last};
use crate::registrations::Registrations;
use crate::unpinned::Unpinned;
use std::alloc::Global;
use std::collections::BTreeMap;
use swss_types::OutOfMemory;
use table_schema::Key;

/// The names that are noted as pinned, by worker.
pub type NotedNames = BTreeMap<u32, Vec<Name>>;

/// A worker pins the rows of some keys for a user, all of them or none, and notes their names.
pub fn pin_noted(
    names: &mut Registrations,
    noted: &mut Vec<Name>,
    worker: u32,
    user: &Key,
    keys: &[Key],
) -> Result<(), Unpinned>
    requires { IsReadable user.now }
    ensures ok { OnOk result (names.new ≡ pinned names.old worker user.now keys.now) }
    ensures live { OnOk result (are_live names.old (map Name.Row keys.now) ≡ true) }
    ensures other { IfErr result (λ why. why ≡ Unpinned.NotLive → are_live names.old (map Name.Row keys.now) ≡ false) }
    ensures noted { OnOk result (noted.new.items ≡ noted.old.items ++ map Name.Row keys.now) }
    ensures err { OnErr result (names.new ≡ names.old) }
    ensures noted_err { OnErr result (noted.new.items ≡ noted.old.items) }
{
    let before = noted.as_slice().len();
    if note_each(noted, keys).is_err() {
        noted.truncate(before);
        return Err(Unpinned::OutOfMemory);
    }
    if let Err(why) = pin_each(names, worker, user, &noted.as_slice()[before..]) {
        noted.truncate(before);
        return Err(why);
    }
    Ok(())
}

/// Notes the rows of some keys. An Err may leave some of them noted.
fn note_each(noted: &mut Vec<Name>, keys: &[Key]) -> Result<(), OutOfMemory>
    ensures ok { OnOk result (noted.new.items ≡ noted.old.items ++ map Name.Row keys.now) }
    ensures err { OnErr result (take (length noted.old.items) noted.new.items ≡ noted.old.items) }
{
    match keys {
        [] => Ok(()),
        [key, others @ ..] => {
            noted.push(Name::Row(key.copy()?))?;
            note_each(noted, others)
        }
    }
}

/// A worker pins the rows of some keys by their names for a user, all of them or none. Each is looked up once.
fn pin_each(
    names: &mut Registrations,
    worker: u32,
    user: &Key,
    rows: &[Name],
) -> Result<(), Unpinned>
    requires { IsReadable user.now }
    ensures ok { OnOk result ((keys : List Key) → rows.now ≡ map Name.Row keys → names.new ≡ pinned names.old worker user.now keys) }
    ensures live { OnOk result (are_live names.old rows.now ≡ true) }
    ensures other { IfErr result (λ why. why ≡ Unpinned.NotLive → are_live names.old rows.now ≡ false) }
    ensures err { OnErr result (names.new ≡ names.old) }
{
    match rows {
        [] => Ok(()),
        [name, others @ ..] => {
            pin(names, name, worker, user)?;
            if let Err(why) = pin_each(names, worker, user, others) {
                unpin_last(names, name);
                return Err(why);
            }
            Ok(())
        }
    }
}

/// A worker gives up its pins of these names.
pub fn release_each(names: &mut Registrations, noted: &[Name], worker: u32, used: bool)
    ensures { names.new ≡ each_released names.old worker used noted.now }
{
    for name in noted {
        release(names, name, worker, used);
    }
}

/// A worker pins the rows of some keys for a user, all of them or none, and their names are noted under it.
pub fn pin_all(
    alloc: Global,
    names: &mut Registrations,
    noted: &mut NotedNames,
    worker: u32,
    user: &Key,
    keys: &[Key],
) -> Result<(), Unpinned>
    requires { IsReadable user.now }
    ensures ok { OnOk result (names.new ≡ pinned names.old worker user.now keys.now) }
    ensures live { OnOk result (are_live names.old (map Name.Row keys.now) ≡ true) }
    ensures other { IfErr result (λ why. why ≡ Unpinned.NotLive → are_live names.old (map Name.Row keys.now) ≡ false) }
    ensures err { OnErr result (names.new ≡ names.old) }
    ensures noted { AreNoted noted.old.entries names.old → AreNoted noted.new.entries names.new }
{
    if note_worker(alloc, noted, worker).is_err() {
        return Err(Unpinned::OutOfMemory);
    }
    match noted.get_mut(&worker) {
        Some(noted) => pin_noted(names, noted, worker, user, keys),
        None => unreachable!(),
    }
}

/// No name is noted under a worker that has none.
fn note_worker(alloc: Global, noted: &mut NotedNames, worker: u32) -> Result<(), OutOfMemory>
    ensures there { OnOk result (IsSome (lookup (is_at (nat_cmp worker)) noted.new.entries)) }
    ensures same { (q : ℕ) → noted_by noted.new.entries q ≡ noted_by noted.old.entries q }
{
    if noted.contains_key(&worker) {
        return Ok(());
    }
    noted.insert(worker, Vec::new(alloc))?;
    Ok(())
}

/// A worker gives up all its pins, whose names are noted under it.
pub fn release_all(names: &mut Registrations, noted: &mut NotedNames, worker: u32, used: bool)
    requires { AreNoted noted.old.entries names.old }
    ensures released { names.new ≡ all_released worker used names.old }
    ensures noted { AreNoted noted.new.entries names.new }
{
    if let Some(noted) = noted.get_mut(&worker) {
        release_each(names, noted.as_slice(), worker, used);
        noted.clear();
    }
}
