// What is known of one name.
ghost use Rattle.std.specs.Prelude.{◌≡◌, ◌≤◌, ◌↔◌, true, false, None, Some, length, IfOk, IfErr, OnOk, OnErr, IsTrue};
ghost use Rattle.ref_counts.specs.Registry.{ids_by, is_live};
ghost use Rattle.ref_counts.specs.Registered.{IsReadable, begun, finished_by, first_of, begun_to_go, made_live, released, retire_refusal, with_pin, with_user, without_last_pin, without_user};

use crate::NameState;
use crate::boxed_claims::BoxedClaims;
use crate::unpinned::Unpinned;
use sai_types::Vid;
use std::alloc::Global;
use std::marker::Model;
use switch_model::Wait;
use swss_types::OutOfMemory;
use table_schema::Key;

/// How a name stands, its identifiers, its users and its pins. It is small, since there are many names.
#[derive(Drop)]
pub struct Registration {
    state: NameState,
    ids: Vec<Vid>,
    places: u64,
    claims: BoxedClaims,
}

impl Model for Registration {
    ghost use Rattle.std.specs.Prelude.{◌≤◌, ◌+◌, vec_len, vec_capacity};
    ghost use Rattle.ref_counts.specs.Registered.{Registered};

    ghost Value = { Registered };

    ghost view = { λ r. record { state = r.state; ids = r.ids.items; places = r.places; users = r.claims.users; pins = r.claims.pins } };

    ghost invariant = { λ r. r.places ≤ vec_capacity r.ids };
}

impl Registration {
    /// The building of a name begins, with places for so many identifiers.
    pub fn begun(alloc: Global, worker: u32, places: u64) -> Result<Registration, OutOfMemory>
        ensures { IfOk result (λ r. r ≡ begun worker places) }
    {
        Ok(Registration {
            state: NameState::Building(worker),
            ids: Vec::with_capacity(alloc, places as usize)?,
            places,
            claims: BoxedClaims::new(),
        })
    }

    /// How the name stands.
    pub fn state(&self) -> NameState
        ensures { result ≡ self.now.state }
    {
        self.state
    }

    /// The identifiers: none of what is being built.
    pub fn ids(&self) -> &[Vid]
        ensures { result.now ≡ ids_by self.now.state self.now.ids }
    {
        match self.state {
            NameState::Building(_) => &[],
            _ => self.ids.as_slice(),
        }
    }

    /// The least key that uses it.
    pub fn least_user(&self) -> Option<Key>
        ensures { result ≡ first_of self.now.users }
    {
        self.claims.least_user()
    }

    /// All of it is there, with these identifiers.
    pub fn make_live(&mut self, ids: &[Vid])
        requires { length ids.now ≤ self.old.places }
        ensures { self.new ≡ made_live ids.now self.old }
    {
        self.ids.clear();
        if self.ids.extend_from_slice(ids).is_err() {
            unreachable!();
        }
        self.state = NameState::Live;
        self.places = 0;
    }

    /// It is there again, with these identifiers in place of those that it had: as many.
    pub fn come_back(&mut self, ids: &[Vid])
        requires { length ids.now ≡ length self.old.ids }
        ensures { self.new ≡ made_live ids.now self.old }
    {
        self.places = ids.len() as u64;
        self.make_live(ids);
    }

    /// All of it is there, with no identifier, where a worker builds it. Else it stays as it is.
    pub fn finish(&mut self)
        ensures { self.new ≡ finished_by self.old.state self.old }
    {
        if let NameState::Building(_) = self.state {
            self.make_live(&[]);
        }
    }

    /// A key comes to use it.
    pub fn add_user(&mut self, user: Key) -> Result<(), OutOfMemory>
        requires { IsReadable user }
        ensures ok { OnOk result (self.new ≡ with_user user self.old) }
        ensures err { OnErr result (self.new ≡ self.old) }
    {
        self.claims.add_user(*self.ids.allocator(), user)
    }

    /// A key comes to use it. True says that it is not absent.
    pub fn share(&mut self, user: Key) -> Result<bool, OutOfMemory>
        requires { IsReadable user }
        ensures there { IfOk result (λ there. IsTrue there ↔ ¬ (self.old.state ≡ NameState.Absent)) }
        ensures ok { OnOk result (self.new ≡ with_user user self.old) }
        ensures err { OnErr result (self.new ≡ self.old) }
    {
        self.add_user(user)?;
        match self.state {
            NameState::Absent => Ok(false),
            _ => Ok(true),
        }
    }

    /// A key uses it no more.
    pub fn drop_user(&mut self, user: &Key)
        ensures { self.new ≡ without_user user.now self.old }
    {
        self.claims.drop_user(user);
    }

    /// A worker pins it for a key, where it is live.
    pub fn pin(&mut self, worker: u32, user: &Key) -> Result<(), Unpinned>
        requires { IsReadable user.now }
        ensures ok { OnOk result (self.new ≡ with_pin worker user.now self.old) }
        ensures live { OnOk result (is_live self.old.state ≡ true) }
        ensures other { IfErr result (λ why. why ≡ Unpinned.NotLive → is_live self.old.state ≡ false) }
        ensures err { OnErr result (self.new ≡ self.old) }
    {
        let NameState::Live = self.state else {
            return Err(Unpinned::NotLive);
        };
        match self.claims.pin(*self.ids.allocator(), worker, user) {
            Ok(()) => Ok(()),
            Err(_) => Err(Unpinned::OutOfMemory),
        }
    }

    /// The pin that was made last is taken back.
    pub fn unpin_last(&mut self)
        ensures { self.new ≡ without_last_pin self.old }
    {
        self.claims.unpin_last();
    }

    /// A worker gives up its pins: their keys then use it, or do not.
    pub fn release(&mut self, worker: u32, used: bool)
        ensures { self.new ≡ released worker used self.old }
    {
        self.claims.release(worker, used);
    }

    /// Why a worker may not take it away: the least key that uses it, or else the least other worker that pins it.
    pub fn refusal(&self, worker: u32) -> Option<Wait>
        ensures { result ≡ retire_refusal worker self.now }
    {
        if let Some(user) = self.claims.least_user() {
            return Some(Wait::Held(user));
        }
        match self.claims.least_other(worker) {
            Some(other) => Some(Wait::Busy(other)),
            None => None,
        }
    }

    /// A worker begins to take it away, unless a key uses it or another worker pins it.
    pub fn retire(&mut self, worker: u32) -> Result<(), Wait>
        ensures free { OnOk result (retire_refusal worker self.old ≡ None) }
        ensures ok { OnOk result (self.new ≡ begun_to_go worker self.old) }
        ensures refusal { IfErr result (λ wait. retire_refusal worker self.old ≡ Some wait) }
        ensures err { OnErr result (self.new ≡ self.old) }
    {
        if let Some(wait) = self.refusal(worker) {
            return Err(wait);
        }
        self.state = NameState::Retiring(worker);
        self.places = 0;
        self.claims.clear();
        Ok(())
    }
}
