// The list of the rows that wait.
ghost use Rattle.std.specs.Prelude.{◌≡◌, ◌≤◌, ◌<◌, ◌^◌, [], false, true, length, IfNone, IfOk, IfSome, IsOkAnd, IsTrue, OnOk, OnErr, option_map, vec_capacity};
ghost use Rattle.std.specs.List.Sorted.{IsStrictlySortedBy};
ghost use Rattle.table_schema.specs.Fields.{HasRisingKeys};
ghost use Rattle.table_schema.specs.Key.{key_cmp};
ghost use Rattle.retry_list.specs.Index.{AreReasonsFiled, HasFiled, IsFiledAs, IsSameIndex};
ghost use Rattle.retry_list.specs.Reasons.{event_of, is_woken, left_asleep, reason_at, with_reason, without_all, without_reason, woken_keys};

use crate::Event;
use crate::index::Index;
use late_maps::LateMap;
use std::alloc::Global;
use std::collections::BTreeSet;
use std::marker::Model;
use std::mem::{drop, replace};
use switch_model::Wait;
use swss_types::OutOfMemory;
use table_schema::Key;

/// The keys whose rows wait, each with its reason, in key order. What an event wakes is found without going over the others.
#[derive(Debug, Drop)]
pub struct Retry {
    reasons: LateMap<Key, Wait>,
    index: Index,
    alloc: Global,
}

impl Model for Retry {
    ghost use Rattle.std.specs.Prelude.{List};
    ghost use Rattle.table_schema.specs.declared.key.Key.{Key};
    ghost use Rattle.switch_model.specs.declared.wait.Wait.{Wait};
    ghost use Rattle.retry_list.specs.Index.{AreReasonsFiled};

    ghost Value = { List (Key × Wait) };

    ghost view = { λ r. r.reasons };

    ghost invariant = { λ r. AreReasonsFiled r.reasons r.index };
}

impl Retry {
    /// No key.
    pub fn new(alloc: Global) -> Retry
        ensures { result ≡ [] }
    {
        Retry {
            reasons: LateMap::new(alloc),
            index: Index::new(alloc),
            alloc,
        }
    }

    /// Puts a key on the list with its reason, in the place of the one that it has.
    pub fn put(&mut self, key: Key, wait: Wait) -> Result<(), OutOfMemory>
        ensures ok { OnOk result (self.new ≡ with_reason self.old key wait) }
        ensures err { OnErr result (self.new ≡ self.old) }
    {
        put(&mut self.reasons, &mut self.index, key, wait)
    }

    /// Takes a key off the list, if it is there.
    pub fn forget(&mut self, key: &Key)
        ensures { self.new ≡ without_reason self.old key.now }
    {
        forget(&mut self.reasons, &mut self.index, key);
    }

    /// Takes all keys off the list.
    pub fn forget_all(&mut self)
        ensures { self.new ≡ [] }
    {
        drop(replace(self, Retry::new(self.alloc)));
    }

    /// Takes the keys off the list whose reasons are about an event, and gives them in key order. It takes a logarithm of the
    /// keys on the list for each of them, and one more.
    pub fn woken(&mut self, event: &Event) -> Result<Vec<Key>, OutOfMemory>
        ensures woken { IfOk result (λ keys. keys.items ≡ woken_keys event.now self.old) }
        ensures rise { IfOk result (λ keys. IsStrictlySortedBy key_cmp keys.items) }
        ensures left { OnOk result (self.new ≡ left_asleep event.now self.old) }
        ensures err { OnErr result (self.new ≡ self.old) }
    {
        // It says that the keys rise.
        let _rising = self.reasons.len();
        let room = Vec::with_capacity(self.alloc, self.index.count(event))?;
        let keys = self.index.clear(event);
        take_off(&mut self.reasons, keys, room)
    }

    /// The reason of a key, where it is on the list.
    pub fn reason(&self, key: &Key) -> Option<&Wait>
        ensures { option_map (λ wait. wait.now) result ≡ reason_at self.now key.now }
    {
        self.reasons.get(key)
    }

    /// The keys on the list with their reasons, in key order.
    pub fn list(&self) -> late_maps::Iter<'_, Key, Wait>
        ensures rest { result ≡ self.now }
        ensures rising { HasRisingKeys key_cmp self.now }
        ensures small { length self.now < 2 ^ 63 }
    {
        // It says that there are so few.
        let _few = self.reasons.len();
        self.reasons.iter()
    }
}

/// Gives a key its reason, and files it under the event that this is about.
fn put(
    reasons: &mut LateMap<Key, Wait>,
    index: &mut Index,
    key: Key,
    wait: Wait,
) -> Result<(), OutOfMemory>
    requires indexed { AreReasonsFiled reasons.old index.old }
    ensures ok { OnOk result (reasons.new ≡ with_reason reasons.old key wait) }
    ensures err { OnErr result (reasons.new ≡ reasons.old) }
    ensures indexed { AreReasonsFiled reasons.new index.new }
{
    match file(reasons, index, &key, &wait) {
        Ok(Some((event, name))) => {
            let answer = exchange(reasons, index, key, wait, &event, &name);
            drop(event);
            drop(name);
            answer
        }
        Ok(None) => {
            drop(key);
            drop(wait);
            Ok(())
        }
        Err(error) => {
            drop(key);
            drop(wait);
            Err(error)
        }
    }
}

/// Files a key under the event that a reason is about, unless it has this reason already, and gives the event with a copy of
/// the key.
fn file(
    reasons: &LateMap<Key, Wait>,
    index: &mut Index,
    key: &Key,
    wait: &Wait,
) -> Result<Option<(Event, Key)>, OutOfMemory>
    ensures same { IfOk result (λ filed. IfNone filed (with_reason reasons.now key.now wait.now ≡ reasons.now)) }
    ensures kept { IfOk result (λ filed. IfNone filed (IsSameIndex index.old index.new)) }
    ensures given { IfOk result (λ filed. IfSome filed (λ at. at ≡ (event_of wait.now, key.now))) }
    ensures filed { IfOk result (λ filed. IfSome filed (λ _. IsFiledAs true index.old index.new (event_of wait.now) key.now)) }
    ensures other { IfOk result (λ filed. IfSome filed (λ _. is_woken (event_of wait.now) (reason_at reasons.now key.now) ≡ false)) }
    ensures err { OnErr result (IsSameIndex index.old index.new) }
{
    if has(reasons, key, wait) {
        return Ok(None);
    }
    let event = Event::of(wait.copy()?);
    let name = key.copy()?;
    match index.file_copies(&event, &name) {
        Ok(()) => Ok(Some((event, name))),
        Err(error) => {
            drop(event);
            drop(name);
            Err(error)
        }
    }
}

/// Gives a key its reason, which is about this event: the key is filed under it already, and under that of its old reason.
fn exchange(
    reasons: &mut LateMap<Key, Wait>,
    index: &mut Index,
    key: Key,
    wait: Wait,
    event: &Event,
    name: &Key,
) -> Result<(), OutOfMemory>
    requires about { event.now ≡ event_of wait }
    requires named { name.now ≡ key }
    requires filed { HasFiled reasons.old index.old event.now name.now }
    ensures ok { OnOk result (reasons.new ≡ with_reason reasons.old key wait) }
    ensures err { OnErr result (reasons.new ≡ reasons.old) }
    ensures indexed { AreReasonsFiled reasons.new index.new }
{
    match reasons.insert(key, wait) {
        Ok(None) => Ok(()),
        Ok(Some(old)) => {
            index.unfile_unless(&Event::of(old), event, name);
            Ok(())
        }
        Err(failed) => {
            drop(failed);
            index.unfile(event, name);
            Err(OutOfMemory)
        }
    }
}

/// Whether a key has this reason already. To put it once more changes nothing.
fn has(reasons: &LateMap<Key, Wait>, key: &Key, wait: &Wait) -> bool
    ensures same { IsTrue result → with_reason reasons.now key.now wait.now ≡ reasons.now }
    ensures other { (result ≡ false) → is_woken (event_of wait.now) (reason_at reasons.now key.now) ≡ false }
{
    // It says that the keys rise.
    let _rising = reasons.len();
    match reasons.get(key) {
        Some(own) => own == wait,
        None => false,
    }
}

/// Takes a key's reason, and the key out from under the event that this is about.
fn forget(reasons: &mut LateMap<Key, Wait>, index: &mut Index, key: &Key)
    requires indexed { AreReasonsFiled reasons.old index.old }
    ensures gone { reasons.new ≡ without_reason reasons.old key.now }
    ensures indexed { AreReasonsFiled reasons.new index.new }
{
    // It says that the keys rise.
    let _rising = reasons.len();
    match reasons.remove(key) {
        Some(wait) => index.unfile(&Event::of(wait), key),
        None => {}
    }
}

/// Takes keys off the list, and gives them in the room that was made for them.
fn take_off(
    reasons: &mut LateMap<Key, Wait>,
    keys: BTreeSet<Key>,
    room: Vec<Key>,
) -> Result<Vec<Key>, OutOfMemory>
    requires room { (room.items ≡ []) × (length keys.keys ≤ vec_capacity room) }
    ensures given { IsOkAnd result (λ woken. woken.items ≡ keys.keys) }
    ensures rise { IsStrictlySortedBy key_cmp keys.keys }
    ensures left { reasons.new ≡ without_all reasons.old keys.keys }
{
    let mut woken = room;
    for key in keys {
        reasons.remove(&key);
        woken.push(key)?;
    }
    Ok(woken)
}
