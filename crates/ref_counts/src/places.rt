// The places of the keys that use a name, or may come to use it.
ghost use Rattle.std.specs.Prelude.{◌≡◌, [], List, IfOk, OnOk, OnErr, option_map};
ghost use Rattle.std.specs.BTreeMap.{insert_entry, is_at};
ghost use Rattle.std.specs.Map.{lookup, remove_entry, set_value};
ghost use Rattle.table_schema.specs.Fields.{HasRisingKeys};
ghost use Rattle.table_schema.specs.Key.{key_cmp};
ghost use Rattle.ref_counts.specs.Kept.{users_in};
ghost use Rattle.ref_counts.specs.Parted.{route_key};
ghost use Rattle.late_maps.specs.Segments.{renamed};
ghost use Rattle.ref_counts.specs.Registered.{IsReadable, first_of};

use crate::copying::copied;
use crate::destination::Destination;
use crate::pin::{Pin, is_pinned_for};
use late_maps::LateMap;
use std::alloc::Global;
use std::marker::Model;
use swss_types::OutOfMemory;
use table_schema::Key;

/// Keys, each with whether it is a user whatever pins there are: the others are users where no pin is for them. Most
/// users are routes: they stand apart, by virtual router and prefix, and mostly come in order.
#[derive(Drop)]
pub struct Places {
    rows: LateMap<Key, bool>,
    routes: LateMap<Destination, bool>,
}

impl Model for Places {
    ghost use Rattle.std.specs.List.{AllByRecursion};
    ghost use Rattle.std.specs.Map.{keys_of};
    ghost use Rattle.ref_counts.specs.Kept.{ComesBeforeRoutes, Kept, with_routes};

    ghost Value = { Kept };

    ghost view = { λ p. with_routes p.rows p.routes };

    ghost invariant = { λ p. AllByRecursion ComesBeforeRoutes (keys_of p.rows) };
}

impl Places {
    /// No key has a place.
    pub fn new(alloc: Global) -> Places
        ensures { result ≡ [] }
    {
        Places {
            rows: LateMap::new(alloc),
            routes: LateMap::new(alloc),
        }
    }

    /// What stands in a key's place.
    pub fn get(&self, key: &Key) -> Option<bool>
        ensures { result ≡ lookup (is_at (key_cmp key.now)) self.now }
    {
        match key {
            Key::Route(vrf, prefix) => self
                .routes
                .get(&Destination {
                    vrf: *vrf,
                    prefix: *prefix,
                })
                .copied(),
            _ => self.rows.get(key).copied(),
        }
    }

    /// A key has a place, with this in it. What stood there before comes back.
    pub fn put(&mut self, key: Key, uses: bool) -> Result<Option<bool>, OutOfMemory>
        requires { IsReadable key }
        ensures old { IfOk result (λ old. old ≡ lookup (is_at (key_cmp key)) self.old) }
        ensures ok { OnOk result (self.new ≡ insert_entry key_cmp self.old key uses) }
        ensures err { OnErr result (self.new ≡ self.old) }
    {
        match key {
            Key::Route(vrf, prefix) => Ok(self.routes.insert(Destination { vrf, prefix }, uses)?),
            _ => Ok(self.rows.insert(key, uses)?),
        }
    }

    /// Sets what stands in a key's place, if it has one.
    pub fn set(&mut self, key: &Key, uses: bool)
        ensures { self.new ≡ set_value (is_at (key_cmp key.now)) self.old uses }
    {
        match key {
            Key::Route(vrf, prefix) => {
                if let Some(place) = self.routes.get_mut(&Destination {
                    vrf: *vrf,
                    prefix: *prefix,
                }) {
                    *place = uses;
                }
            }
            _ => {
                if let Some(place) = self.rows.get_mut(key) {
                    *place = uses;
                }
            }
        }
    }

    /// Takes a key's place away, if it has one.
    pub fn remove(&mut self, key: &Key)
        ensures { self.new ≡ remove_entry (is_at (key_cmp key.now)) self.old }
    {
        match key {
            Key::Route(vrf, prefix) => {
                self.routes.remove(&Destination {
                    vrf: *vrf,
                    prefix: *prefix,
                });
            }
            _ => {
                self.rows.remove(key);
            }
        }
    }

    /// The keys are in order, each once.
    #[inline(always)]
    pub fn rise(&self)
        ensures { HasRisingKeys key_cmp self.now }
    {
        let _rows = self.rows.len();
        let _routes = self.routes.len();
    }

    /// The least user.
    pub fn least_user(&self, pins: &[Pin]) -> Option<Key>
        ensures { result ≡ first_of (users_in self.now pins.now) }
    {
        match least_row(&self.rows, pins) {
            Some(key) => Some(copied(key)),
            None => least_route(&self.routes, pins),
        }
    }
}

/// The least user of those that are no routes.
fn least_row<'a>(rows: &'a LateMap<Key, bool>, pins: &[Pin]) -> Option<&'a Key>
    ensures { option_map (λ user. user.now) result ≡ first_of (users_in rows.now pins.now) }
{
    for (user, uses) in rows.iter() {
        if *uses || !is_pinned_for(pins, user) {
            return Some(user);
        }
    }
    None
}

/// The least user of the routes.
fn least_route(routes: &LateMap<Destination, bool>, pins: &[Pin]) -> Option<Key>
    ensures { result ≡ first_of (users_in (renamed route_key routes.now) pins.now) }
{
    for (route, uses) in routes.iter() {
        if *uses || !is_pinned_for(pins, &Key::Route(route.vrf, route.prefix)) {
            return Some(Key::Route(route.vrf, route.prefix));
        }
    }
    None
}
