// The users and the pins of one name, where there are any.
ghost use Rattle.std.specs.Prelude.{◌≡◌, ◌∷◌, ◌++◌, [], ◌-◌, length, take, OnOk, OnErr, if◌then◌else◌};
ghost use Rattle.std.specs.BTreeSet.{insert_key};
ghost use Rattle.table_schema.specs.Key.{key_cmp};
ghost use Rattle.ref_counts.specs.Claimed.{unclaimed};
ghost use Rattle.ref_counts.specs.Registered.{IsReadable, first_of, least_worker, pins_but, pins_of, users_but, with_users};

use crate::claims::Claims;
use std::alloc::Global;
use std::marker::Model;
use std::mem::{drop, replace};
use swss_types::OutOfMemory;
use table_schema::Key;

/// The keys that use a name, and its pins. Most names never have any, and so there is a box only once there was one.
#[derive(Drop)]
pub struct BoxedClaims {
    boxed: Option<Box<Claims>>,
}

impl Model for BoxedClaims {
    ghost use Rattle.ref_counts.specs.Claimed.{Claimed, claimed_in};

    ghost Value = { Claimed };

    ghost view = { λ c. claimed_in c.boxed };
}

impl BoxedClaims {
    /// No user and no pin.
    pub fn new() -> BoxedClaims
        ensures { result ≡ unclaimed }
    {
        BoxedClaims { boxed: None }
    }

    /// The least key that uses the name.
    pub fn least_user(&self) -> Option<Key>
        ensures { result ≡ first_of self.now.users }
    {
        match &self.boxed {
            Some(claims) => claims.least_user(),
            None => None,
        }
    }

    /// The least other worker that pins the name.
    pub fn least_other(&self, worker: u32) -> Option<u32>
        ensures { result ≡ least_worker (pins_but worker self.now.pins) }
    {
        match &self.boxed {
            Some(claims) => claims.least_other(worker),
            None => None,
        }
    }

    /// A key comes to use the name.
    pub fn add_user(&mut self, alloc: Global, user: Key) -> Result<(), OutOfMemory>
        requires { IsReadable user }
        ensures ok { OnOk result (self.new ≡ record { users = insert_key key_cmp self.old.users user; pins = self.old.pins }) }
        ensures err { OnErr result (self.new ≡ self.old) }
    {
        match &mut self.boxed {
            Some(claims) => claims.add_user(user),
            None => {
                let mut claims = Claims::new(alloc);
                match claims.add_user(user) {
                    Ok(()) => self.begin(alloc, claims),
                    Err(error) => {
                        drop(claims);
                        Err(error)
                    }
                }
            }
        }
    }

    /// The first users and pins.
    fn begin(&mut self, alloc: Global, claims: Claims) -> Result<(), OutOfMemory>
        ensures ok { OnOk result (self.new ≡ claims) }
        ensures err { OnErr result (self.new ≡ self.old) }
    {
        let boxed = Some(Box::new(alloc, claims)?);
        drop(replace(&mut self.boxed, boxed));
        Ok(())
    }

    /// A key uses the name no more.
    pub fn drop_user(&mut self, user: &Key)
        ensures { self.new ≡ record { users = users_but user.now self.old.users; pins = self.old.pins } }
    {
        if let Some(claims) = &mut self.boxed {
            claims.drop_user(user);
        }
    }

    /// A worker pins the name for a key.
    pub fn pin(&mut self, alloc: Global, worker: u32, user: &Key) -> Result<(), OutOfMemory>
        requires { IsReadable user.now }
        ensures ok { OnOk result (self.new ≡ record { users = self.old.users; pins = self.old.pins ++ record { worker = worker; user = user.now } ∷ [] }) }
        ensures err { OnErr result (self.new ≡ self.old) }
    {
        match &mut self.boxed {
            Some(claims) => claims.pin(worker, user),
            None => {
                let mut claims = Claims::new(alloc);
                match claims.pin(worker, user) {
                    Ok(()) => self.begin(alloc, claims),
                    Err(error) => {
                        drop(claims);
                        Err(error)
                    }
                }
            }
        }
    }

    /// The pin that was made last is taken back.
    pub fn unpin_last(&mut self)
        ensures { self.new ≡ record { users = self.old.users; pins = take (length self.old.pins - 1) self.old.pins } }
    {
        if let Some(claims) = &mut self.boxed {
            claims.unpin_last();
        }
    }

    /// A worker gives up its pins: their keys then use the name, or do not.
    pub fn release(&mut self, worker: u32, used: bool)
        ensures { self.new ≡ record { users = if used then with_users (pins_of worker self.old.pins) self.old.users else self.old.users; pins = pins_but worker self.old.pins } }
    {
        if let Some(claims) = &mut self.boxed {
            claims.release(worker, used);
        }
    }

    /// Nobody uses or pins the name any more.
    pub fn clear(&mut self)
        ensures { self.new ≡ unclaimed }
    {
        self.boxed = None;
    }
}
