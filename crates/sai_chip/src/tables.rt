// The keys of routes, in a table of prefixes for each virtual router.
ghost use Rattle.std.specs.Prelude.{◌≡◌, [], OnOk, OnErr};
ghost use Rattle.std.specs.BTreeMap.{is_at};
ghost use Rattle.std.specs.BTreeSet.{insert_key};
ghost use Rattle.std.specs.Set.{remove_key};
ghost use Rattle.chip_names.specs.Naming.{numbered};
ghost use Rattle.sai_chip.specs.Bodies.{route_cmp};
ghost use Rattle.sai_chip.specs.Tables.{best_key, longer_key};

use crate::bodies::{RouteKey, is_router};
use chip_names::Numbered;
use lpm_table::Lpm;
use sai_types::Rid;
use std::alloc::Global;
use std::collections::BTreeMap;
use std::marker::Model;
use swss_types::{OutOfMemory, Packet};

/// The keys of routes: a table of prefixes for each virtual router that has some. Contracts see them in their order.
#[derive(Drop)]
pub struct Tables {
    alloc: Global,
    by_router: BTreeMap<Option<Rid>, Lpm>,
}

impl Model for Tables {
    ghost use Rattle.std.specs.Prelude.{List};
    ghost use Rattle.sai_chip.specs.Bodies.{RouteKey};
    ghost use Rattle.sai_chip.specs.Tables.{keyed};

    ghost Value = { List RouteKey };

    ghost view = { λ t. keyed t.by_router.entries };
}

impl Tables {
    /// No key.
    pub fn new(alloc: Global) -> Tables
        ensures { result ≡ [] }
    {
        Tables {
            alloc,
            by_router: BTreeMap::new(alloc),
        }
    }

    /// Puts a key. For want of memory nothing changes.
    pub fn put(&mut self, key: &RouteKey) -> Result<(), OutOfMemory>
        ensures ok { OnOk result (self.new ≡ insert_key route_cmp self.old key.now) }
        ensures err { OnErr result (self.new ≡ self.old) }
    {
        if let Some(table) = self.by_router.get_mut(&key.0) {
            return table.put(key.1);
        }
        let mut table = Lpm::new(self.alloc);
        table.put(key.1)?;
        self.by_router.insert(key.0, table)?;
        Ok(())
    }

    /// Removes a key.
    pub fn remove(&mut self, key: &RouteKey)
        ensures { self.new ≡ remove_key (is_at (route_cmp key.now)) self.old }
    {
        if let Some(table) = self.by_router.get_mut(&key.0) {
            table.remove(&key.1);
        }
    }

    /// The key of the packet's router with the longest prefix that covers its address: None where there is none.
    pub fn best(&self, bodies: &Numbered, packet: &Packet) -> Option<RouteKey>
        ensures { result ≡ best_key (numbered bodies.now) packet.now self.now }
    {
        let mut best = None;
        for (vr, table) in &self.by_router {
            if is_router(bodies, *vr, packet.vrf)
                && let Some(prefix) = table.best(packet.to)
            {
                best = longer(best, (*vr, prefix));
            }
        }
        best
    }
}

/// Of the best key so far and one more, the one with the longer prefix.
fn longer(best: Option<RouteKey>, key: RouteKey) -> Option<RouteKey>
    ensures { result ≡ longer_key best (Some key) }
{
    match best {
        Some(other) if other.1.len >= key.1.len => Some(other),
        _ => Some(key),
    }
}
