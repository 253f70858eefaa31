// The users and the pins of one name.
ghost use Rattle.std.specs.Prelude.{◌≡◌, ◌∷◌, ◌++◌, [], ◌-◌, length, take, OnOk, OnErr, if◌then◌else◌};
ghost use Rattle.std.specs.BTreeSet.{insert_key};
ghost use Rattle.table_schema.specs.Key.{key_cmp};
ghost use Rattle.ref_counts.specs.Claimed.{unclaimed};
ghost use Rattle.ref_counts.specs.Registered.{IsReadable, first_of, least_worker, pins_but, pins_of, users_but, with_users};

use crate::copying::copied;
use crate::pin::Pin;
use crate::places::Places;
use crate::placing::{end_place_of, end_use_of, leave_places};
use crate::users::{keep_place, put_user};
use std::alloc::Global;
use std::marker::Model;
use swss_types::OutOfMemory;
use table_schema::Key;

/// The keys that use a name, and its pins. Each pin's key has its place among the users.
#[derive(Drop)]
pub struct Claims {
    users: Places,
    pins: Vec<Pin>,
}

impl Model for Claims {
    ghost use Rattle.ref_counts.specs.Claimed.{Claimed};
    ghost use Rattle.ref_counts.specs.Kept.{HavePlaces, users_in};

    ghost Value = { Claimed };

    ghost view = { λ c. record { users = users_in c.users c.pins.items; pins = c.pins.items } };

    ghost invariant = { λ c. HavePlaces c.users c.pins.items };
}

impl Claims {
    /// No user and no pin.
    pub fn new(alloc: Global) -> Claims
        ensures { result ≡ unclaimed }
    {
        Claims {
            users: Places::new(alloc),
            pins: Vec::new(alloc),
        }
    }

    /// The least key that uses the name.
    pub fn least_user(&self) -> Option<Key>
        ensures { result ≡ first_of self.now.users }
    {
        self.users.least_user(self.pins.as_slice())
    }

    /// The least other worker that pins the name.
    pub fn least_other(&self, worker: u32) -> Option<u32>
        ensures { result ≡ least_worker (pins_but worker self.now.pins) }
    {
        least_other(self.pins.as_slice(), worker)
    }

    /// A key comes to use the name.
    pub fn add_user(&mut self, user: Key) -> Result<(), OutOfMemory>
        requires { IsReadable user }
        ensures ok { OnOk result (self.new ≡ record { users = insert_key key_cmp self.old.users user; pins = self.old.pins }) }
        ensures err { OnErr result (self.new ≡ self.old) }
    {
        put_user(&mut self.users, user)
    }

    /// A key uses the name no more.
    pub fn drop_user(&mut self, user: &Key)
        ensures { self.new ≡ record { users = users_but user.now self.old.users; pins = self.old.pins } }
    {
        end_use_of(&mut self.users, self.pins.as_slice(), user);
    }

    /// A worker pins the name for a key.
    pub fn pin(&mut self, worker: u32, user: &Key) -> Result<(), OutOfMemory>
        requires { IsReadable user.now }
        ensures ok { OnOk result (self.new ≡ record { users = self.old.users; pins = self.old.pins ++ record { worker = worker; user = user.now } ∷ [] }) }
        ensures err { OnErr result (self.new ≡ self.old) }
    {
        self.pins.reserve(1)?;
        keep_place(&mut self.users, self.pins.as_slice(), user)?;
        self.pins.push(Pin {
            worker,
            user: copied(user),
        })?;
        Ok(())
    }

    /// The pin that was made last is taken back.
    pub fn unpin_last(&mut self)
        ensures { self.new ≡ record { users = self.old.users; pins = take (length self.old.pins - 1) self.old.pins } }
    {
        if let Some(pin) = self.pins.pop() {
            end_place_of(&mut self.users, self.pins.as_slice(), &pin.user);
        }
    }

    /// A worker gives up its pins: their keys then use the name, or do not. A key that no other pin is for uses it by its
    /// place alone.
    pub fn release(&mut self, worker: u32, used: bool)
        ensures { self.new ≡ record { users = if used then with_users (pins_of worker self.old.pins) self.old.users else self.old.users; pins = pins_but worker self.old.pins } }
    {
        leave_places(&mut self.users, self.pins.as_slice(), worker, used);
        self.pins.retain(|pin| pin.worker != worker);
    }
}

/// The least other worker that has a pin.
fn least_other(pins: &[Pin], worker: u32) -> Option<u32>
    ensures { result ≡ least_worker (pins_but worker pins.now) }
{
    match pins {
        [] => None,
        [pin, others @ ..] => {
            let least = least_other(others, worker);
            if pin.worker == worker {
                return least;
            }
            match least {
                None => Some(pin.worker),
                Some(other) => Some(pin.worker.min(other)),
            }
        }
    }
}
