// The registry of names.
ghost use Rattle.std.specs.Prelude.{◌≡◌, ◌≤◌, ◌↔◌, ◌⊎◌, [], true, length, None, Some, option_map, IfOk, IfErr, OnOk, OnErr, IsTrue};
ghost use Rattle.std.specs.BTreeMap.{insert_entry};
ghost use Rattle.std.specs.List.Sorted.{IsStrictlySortedBy};
ghost use Rattle.std.specs.Map.{keys_of};
ghost use Rattle.ref_counts.specs.Registered.{IsReadable, begun, first_of, begun_to_go, made_live, with_user, without_user};
ghost use Rattle.ref_counts.specs.Registry.{all_released, changed, finished_in, first_not_live, gone_from, ids_of, is_live, registered_name_cmp, owner_in, pinned, places_of, retire_refusal_at, state_of, takes_users, users_of};

use crate::pinning::{NotedNames, pin_all, release_all};
use crate::registration::Registration;
use crate::registrations::Registrations;
use crate::unpinned::Unpinned;
use crate::{Missing, Name, NameState, changes};
use sai_types::Vid;
use std::alloc::Global;
use std::collections::BTreeMap;
use std::marker::Model;
use switch_model::Wait;
use swss_types::OutOfMemory;
use table_schema::Key;

/// The names that operations need and make: how each stands, its identifiers, the keys that use it, and the workers that
/// pin it. A name that somebody uses or pins does not go.
#[derive(Drop)]
pub struct Registry {
    names: Registrations,
    noted: NotedNames,
    alloc: Global,
}

impl Model for Registry {
    ghost use Rattle.ref_counts.specs.Registry.{AreNoted, Names};

    ghost Value = { Names };

    ghost view = { λ r. r.names };

    ghost invariant = { λ r. AreNoted r.noted.entries r.names };
}

impl Registry {
    /// Each name is absent.
    pub fn new(alloc: Global) -> Registry
        ensures { result ≡ [] }
    {
        Registry {
            names: Registrations::new(alloc),
            noted: BTreeMap::new(alloc),
            alloc,
        }
    }

    /// How a name stands.
    pub fn state(&self, name: &Name) -> NameState
        ensures { result ≡ state_of self.now name.now }
    {
        changes::state(&self.names, name)
    }

    /// How the row of a key stands.
    pub fn row_state(&self, key: &Key) -> NameState
        ensures { result ≡ state_of self.now (Name.Row key.now) }
    {
        changes::row_state(&self.names, key)
    }

    /// Whether a name is live. What is known of names is in their order, of each once.
    pub fn live(&self, name: &Name) -> bool
        ensures live { IsTrue result ↔ (state_of self.now name.now ≡ NameState.Live) }
        ensures order { IsStrictlySortedBy registered_name_cmp (keys_of self.now) }
    {
        // It says that the names are in order.
        self.names.rise();
        match self.state(name) {
            NameState::Live => true,
            _ => false,
        }
    }

    /// Pins the rows of some keys, all of them or none, so that no other worker takes them away, and keeps a place for
    /// `user` as a user of each. Missing is the first of the keys whose row is not live.
    pub fn pin(
        &mut self,
        worker: u32,
        user: &Key,
        names: &[Key],
    ) -> Result<Result<(), Missing>, OutOfMemory>
        requires { IsReadable user.now }
        ensures ok { IfOk result (λ answer. OnOk answer (self.new ≡ pinned self.old worker user.now names.now)) }
        ensures live { IfOk result (λ answer. OnOk answer (first_not_live self.old names.now ≡ None)) }
        ensures missing { IfOk result (λ answer. IfErr answer (λ missing. first_not_live self.old names.now ≡ Some missing.0)) }
        ensures none { IfOk result (λ answer. OnErr answer (self.new ≡ self.old)) }
        ensures err { OnErr result (self.new ≡ self.old) }
    {
        let pinned = pin_all(
            self.alloc,
            &mut self.names,
            &mut self.noted,
            worker,
            user,
            names,
        );
        match pinned {
            Ok(()) => Ok(Ok(())),
            Err(Unpinned::OutOfMemory) => Err(OutOfMemory),
            Err(Unpinned::NotLive) => match self.first_missing(names)? {
                Some(key) => Ok(Err(Missing(key))),
                None => unreachable!(),
            },
        }
    }

    /// Gives up all pins of a worker. Where they are used, the key that each was made for then uses its name.
    pub fn release(&mut self, worker: u32, used: bool)
        ensures { self.new ≡ all_released worker used self.old }
    {
        release_all(&mut self.names, &mut self.noted, worker, used);
    }

    /// Begins the building of an absent name, with places for so many identifiers. Busy is the worker that builds it or
    /// takes it away.
    pub fn start_build(
        &mut self,
        worker: u32,
        name: Name,
        vids: u64,
    ) -> Result<Result<(), Wait>, OutOfMemory>
        requires { ¬ (state_of self.old name ≡ NameState.Live) }
        ensures ok { IfOk result (λ answer. OnOk answer (self.new ≡ insert_entry registered_name_cmp self.old name (begun worker vids))) }
        ensures absent { IfOk result (λ answer. OnOk answer (state_of self.old name ≡ NameState.Absent)) }
        ensures busy { IfOk result (λ answer. IfErr answer (λ wait. option_map Wait.Busy (owner_in (state_of self.old name)) ≡ Some wait)) }
        ensures none { IfOk result (λ answer. OnErr answer (self.new ≡ self.old)) }
        ensures err { OnErr result (self.new ≡ self.old) }
    {
        match self.state(&name) {
            NameState::Building(other) | NameState::Retiring(other) => {
                return Ok(Err(Wait::Busy(other)));
            }
            NameState::Live => unreachable!(),
            NameState::Absent => {}
        }
        self.start_absent(worker, name, vids)?;
        Ok(Ok(()))
    }

    /// Begins the building of a name that is absent, as `start_build` does once it has found that it is.
    pub fn start_absent(&mut self, worker: u32, name: Name, vids: u64) -> Result<(), OutOfMemory>
        requires { state_of self.old name ≡ NameState.Absent }
        ensures ok { OnOk result (self.new ≡ insert_entry registered_name_cmp self.old name (begun worker vids)) }
        ensures err { OnErr result (self.new ≡ self.old) }
    {
        let registration = Registration::begun(self.alloc, worker, vids)?;
        self.names.insert(name, registration)?;
        Ok(())
    }

    /// Makes a name live that the worker builds, with its identifiers: of a group first its own, and then those of its
    /// members, hops rising. They are at most as many as `start_build` was told.
    pub fn built(&mut self, worker: u32, name: &Name, vids: &[Vid])
        requires builds { state_of self.old name.now ≡ NameState.Building worker }
        requires places { length vids.now ≤ places_of self.old name.now }
        ensures { self.new ≡ changed self.old name.now (made_live vids.now) }
    {
        changes::make_live(&mut self.names, name, vids);
    }

    /// Makes a name live that a worker builds, with no identifier. Any other name stays as it is.
    pub fn finish(&mut self, name: &Name)
        ensures { self.new ≡ finished_in (state_of self.old name.now) self.old name.now }
    {
        changes::finish(&mut self.names, name);
    }

    /// The identifiers of a name that is live or goes: none of any other name.
    pub fn vids_of(&self, name: &Name) -> &[Vid]
        ensures { result.now ≡ ids_of self.now name.now }
    {
        match self.names.get(name) {
            Some(registration) => registration.ids(),
            None => &[],
        }
    }

    /// The first identifier of a name, where it has one.
    pub fn vid_of(&self, name: &Name) -> Option<Vid>
        ensures { result ≡ first_of (ids_of self.now name.now) }
    {
        match self.vids_of(name) {
            [first, ..] => Some(*first),
            [] => None,
        }
    }

    /// Adds a key to the users of a name.
    pub fn add_user(&mut self, name: &Name, user: Key) -> Result<(), OutOfMemory>
        requires state { takes_users (state_of self.old name.now) ≡ true }
        requires user { IsReadable user }
        ensures ok { OnOk result (self.new ≡ changed self.old name.now (with_user user)) }
        ensures err { OnErr result (self.new ≡ self.old) }
    {
        changes::add_user(&mut self.names, name, user)
    }

    /// Adds a key to the users of a name that is live or being built, and tells whether it is; an absent name stays
    /// absent.
    pub fn share(&mut self, name: &Name, user: Key) -> Result<bool, OutOfMemory>
        requires state { (state_of self.old name.now ≡ NameState.Absent) ⊎ (takes_users (state_of self.old name.now) ≡ true) }
        requires user { IsReadable user }
        ensures there { IfOk result (λ there. IsTrue there ↔ ¬ (state_of self.old name.now ≡ NameState.Absent)) }
        ensures ok { OnOk result (self.new ≡ changed self.old name.now (with_user user)) }
        ensures err { OnErr result (self.new ≡ self.old) }
    {
        changes::share(&mut self.names, name, user)
    }

    /// Takes a key from the users of a name.
    pub fn drop_user(&mut self, name: &Name, user: &Key)
        ensures { self.new ≡ changed self.old name.now (without_user user.now) }
    {
        changes::drop_user(&mut self.names, name, user);
    }

    /// The least key that uses a name: None exactly where no key uses it.
    pub fn least_user(&self, name: &Name) -> Option<Key>
        ensures { result ≡ first_of (users_of self.now name.now) }
    {
        self.names.get(name)?.least_user()
    }

    /// Begins to take a live name away. Held is the least key that uses it; where none does, Busy is the least other
    /// worker that pins it. The worker's own pins of it go.
    pub fn try_retire(&mut self, worker: u32, name: &Name) -> Result<(), Wait>
        requires { state_of self.old name.now ≡ NameState.Live }
        ensures free { OnOk result (retire_refusal_at self.old worker name.now ≡ None) }
        ensures ok { OnOk result (self.new ≡ changed self.old name.now (begun_to_go worker)) }
        ensures refusal { IfErr result (λ wait. retire_refusal_at self.old worker name.now ≡ Some wait) }
        ensures err { OnErr result (self.new ≡ self.old) }
    {
        changes::retire(&mut self.names, name, worker)
    }

    /// Why a worker may not take a name away: the least key that uses it, or else the least other worker that pins it.
    pub fn refusal(&self, worker: u32, name: &Name) -> Option<Wait>
        ensures { result ≡ retire_refusal_at self.now worker name.now }
    {
        changes::refusal(&self.names, name, worker)
    }

    /// Brings back a name that the worker retires: it is live again, with these identifiers in place of those that it had,
    /// as many.
    pub fn back(&mut self, worker: u32, name: &Name, vids: &[Vid])
        requires retires { state_of self.old name.now ≡ NameState.Retiring worker }
        requires many { length vids.now ≡ length (ids_of self.old name.now) }
        ensures { self.new ≡ changed self.old name.now (made_live vids.now) }
    {
        changes::bring_back(&mut self.names, name, vids);
    }

    /// Ends the retirement of a name: it is absent.
    pub fn gone(&mut self, name: &Name)
        ensures { self.new ≡ gone_from self.old name.now }
    {
        changes::end_retirement(&mut self.names, name);
    }

    /// The first of some keys whose row is not live.
    fn first_missing(&self, keys: &[Key]) -> Result<Option<Key>, OutOfMemory>
        ensures { IfOk result (λ missing. missing ≡ first_not_live self.now keys.now) }
    {
        for key in keys {
            if !is_live(self.row_state(key)) {
                return Ok(Some(key.copy()?));
            }
        }
        Ok(None)
    }
}

/// Whether a name that stands so is live.
fn is_live(state: NameState) -> bool
    ensures { result ≡ is_live state }
{
    match state {
        NameState::Live => true,
        _ => false,
    }
}
