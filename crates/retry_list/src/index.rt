// Which keys wait for which event.
ghost use Rattle.std.specs.Prelude.{◌≡◌, true, false, OnOk, OnErr, length};
ghost use Rattle.std.specs.Bool.{OnTrue};
ghost use Rattle.retry_list.specs.declared.event.Event.{Event};
ghost use Rattle.table_schema.specs.declared.key.Key.{Key};
ghost use Rattle.retry_list.specs.Index.{IsCleared, IsFiledAs, IsFiledUnless, IsSameIndex, is_filed, keys_about};

use crate::Event;
use late_maps::LateMap;
use std::alloc::Global;
use std::collections::BTreeSet;
use std::mem::drop;
use swss_types::OutOfMemory;
use table_schema::Key;

/// For each event the keys whose reasons are about it. An event without a key has no entry. Events mostly come in order.
#[derive(Debug, Drop)]
pub(crate) struct Index {
    keys: LateMap<Event, BTreeSet<Key>>,
    alloc: Global,
}

impl Index {
    pub(crate) fn new(alloc: Global) -> Index
        ensures { (event : Event) (key : Key) → is_filed result event key ≡ false }
    {
        Index {
            keys: LateMap::new(alloc),
            alloc,
        }
    }

    /// How many keys there are about an event.
    pub(crate) fn count(&self, event: &Event) -> usize
        ensures { result ≡ length (keys_about self.now event.now) }
    {
        match self.keys.get(event) {
            Some(keys) => keys.len(),
            None => 0,
        }
    }

    /// Files a key under an event.
    pub(crate) fn file(&mut self, event: Event, key: Key) -> Result<(), OutOfMemory>
        ensures ok { OnOk result (IsFiledAs true self.old self.new event key) }
        ensures err { OnErr result (IsSameIndex self.old self.new) }
    {
        match self.keys.get_mut(&event) {
            Some(keys) => {
                drop(event);
                keys.insert(key)?;
                Ok(())
            }
            None => {
                let mut keys = BTreeSet::new(self.alloc);
                match keys.insert(key) {
                    Ok(_) => {
                        self.keys.insert(event, keys)?;
                        Ok(())
                    }
                    Err(error) => {
                        drop(keys);
                        drop(event);
                        Err(error.into())
                    }
                }
            }
        }
    }

    /// Files a copy of a key under an event.
    pub(crate) fn file_copies(&mut self, event: &Event, key: &Key) -> Result<(), OutOfMemory>
        ensures ok { OnOk result (IsFiledAs true self.old self.new event.now key.now) }
        ensures err { OnErr result (IsSameIndex self.old self.new) }
    {
        let event = event.copy()?;
        match key.copy() {
            Ok(key) => self.file(event, key),
            Err(error) => {
                drop(event);
                Err(error)
            }
        }
    }

    /// Takes a key out from under an event.
    pub(crate) fn unfile(&mut self, event: &Event, key: &Key)
        ensures { IsFiledAs false self.old self.new event.now key.now }
    {
        if self.take(event, key) {
            // It says that the events rise.
            let _rising = self.keys.len();
            self.keys.remove(event);
        }
    }

    /// Takes a key out from under an event, and answers whether it was the last one.
    fn take(&mut self, event: &Event, key: &Key) -> bool
        ensures taken { IsFiledAs false self.old self.new event.now key.now }
        ensures last { OnTrue result ((key : Key) → is_filed self.new event.now key ≡ false) }
    {
        match self.keys.get_mut(event) {
            Some(keys) => {
                keys.remove(key);
                keys.is_empty()
            }
            None => false,
        }
    }

    /// Takes a key out from under an event, unless this is the other one.
    pub(crate) fn unfile_unless(&mut self, event: &Event, other: &Event, key: &Key)
        ensures { IsFiledUnless self.old self.new event.now other.now key.now }
    {
        if !event.cmp(other).is_eq() {
            self.unfile(event, key);
        }
    }

    /// Takes out all keys under an event.
    pub(crate) fn clear(&mut self, event: &Event) -> BTreeSet<Key>
        ensures cleared { IsCleared self.old self.new event.now }
        ensures keys { result.keys ≡ keys_about self.old event.now }
    {
        // It says that the events rise.
        let _rising = self.keys.len();
        match self.keys.remove(event) {
            Some(keys) => keys,
            None => BTreeSet::new(self.alloc),
        }
    }
}
