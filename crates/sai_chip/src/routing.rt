// Where routes point, and their prefixes in tables.
ghost use Rattle.std.specs.Prelude.{◌≡◌, [], OnOk, OnErr, IfOk, option_copied};
ghost use Rattle.std.specs.BTreeMap.{insert_entry, is_at};
ghost use Rattle.std.specs.List.Sorted.{IsStrictlySortedBy};
ghost use Rattle.std.specs.Map.{keys_of, lookup, remove_entry};
ghost use Rattle.std.specs.Option.{is_some, option_and_then};
ghost use Rattle.chip_names.specs.Naming.{numbered};
ghost use Rattle.sai_chip.specs.Bodies.{route_cmp, value_set};
ghost use Rattle.sai_chip.specs.Tables.{best_key};

use crate::bodies::RouteKey;
use crate::tables::Tables;
use chip_names::Numbered;
use late_maps::LateMap;
use sai_types::{Rid, To};
use std::alloc::Global;
use std::marker::Model;
use std::mem::replace;
use swss_types::{OutOfMemory, Packet};

/// Where routes point, by their routers and prefixes, which mostly come in their order.
pub type Targets = LateMap<RouteKey, To<Rid>>;

/// Where routes point, with their keys in tables, so that the one of the longest prefix is found by a walk.
#[derive(Drop)]
pub struct Routing {
    targets: Targets,
    tables: Tables,
}

impl Model for Routing {
    ghost use Rattle.std.specs.Prelude.{List, ◌≡◌};
    ghost use Rattle.std.specs.Map.{keys_of};
    ghost use Rattle.sai_types.specs.declared.ids.Rid.{Rid};
    ghost use Rattle.sai_types.specs.declared.body.To.{To};
    ghost use Rattle.sai_chip.specs.Bodies.{RouteKey};

    ghost Value = { List (RouteKey × To Rid) };

    ghost view = { λ r. r.targets };

    ghost invariant = { λ r. r.tables ≡ keys_of r.targets };
}

impl Routing {
    /// No route.
    pub fn new(alloc: Global) -> Routing
        ensures { result ≡ [] }
    {
        Routing {
            targets: LateMap::new(alloc),
            tables: Tables::new(alloc),
        }
    }

    /// The targets by their keys.
    pub fn targets(&self) -> &Targets
        ensures { result.now ≡ self.now }
    {
        &self.targets
    }

    /// Where a route points, if it is there.
    pub fn get(&self, key: &RouteKey) -> Option<&To<Rid>>
        ensures { option_copied result ≡ lookup (is_at (route_cmp key.now)) self.now }
    {
        self.targets.get(key)
    }

    /// Whether a route is there.
    pub fn contains_key(&self, key: &RouteKey) -> bool
        ensures { result ≡ is_some (lookup (is_at (route_cmp key.now)) self.now) }
    {
        self.targets.contains_key(key)
    }

    /// Points a route elsewhere, if it is there, and answers where it pointed.
    pub fn point(&mut self, key: &RouteKey, to: To<Rid>) -> Option<To<Rid>>
        ensures set { self.new ≡ value_set (is_at (route_cmp key.now)) self.old to }
        ensures from { result ≡ lookup (is_at (route_cmp key.now)) self.old }
    {
        match self.targets.get_mut(key) {
            Some(held) => Some(replace(held, to)),
            None => None,
        }
    }

    /// Gives a route a target, and answers the one that it had. Its key is put first, and removed again where its target
    /// finds no memory: then it was not there.
    pub fn insert(&mut self, key: RouteKey, to: To<Rid>) -> Result<Option<To<Rid>>, OutOfMemory>
        ensures old { IfOk result (λ old. old ≡ lookup (is_at (route_cmp key)) self.old) }
        ensures entries { OnOk result (self.new ≡ insert_entry route_cmp self.old key to) }
        ensures err { OnErr result (self.new ≡ self.old) }
    {
        self.tables.put(&key)?;
        match self.targets.insert(key, to) {
            Ok(old) => Ok(old),
            Err(_) => {
                self.tables.remove(&key);
                Err(OutOfMemory)
            }
        }
    }

    /// Takes a route away, and answers where it pointed.
    pub fn remove(&mut self, key: &RouteKey) -> Option<To<Rid>>
        ensures value { result ≡ lookup (is_at (route_cmp key.now)) self.old }
        ensures entries { self.new ≡ remove_entry (is_at (route_cmp key.now)) self.old }
    {
        self.tables.remove(key);
        self.targets.remove(key)
    }

    /// Where the route of the packet's router with the longest prefix that covers its address points: None where none does.
    pub fn best(&self, bodies: &Numbered, packet: &Packet) -> Option<To<Rid>>
        ensures best { result ≡ option_and_then (λ k. lookup (is_at (route_cmp k)) self.now) (best_key (numbered bodies.now) packet.now (keys_of self.now)) }
        ensures ordered { IsStrictlySortedBy route_cmp (keys_of self.now) }
    {
        let _count = self.targets.len();
        let key = self.tables.best(bodies, packet)?;
        self.targets.get(&key).copied()
    }
}
