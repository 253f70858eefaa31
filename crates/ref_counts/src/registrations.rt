// What is known of all names.
ghost use Rattle.std.specs.Prelude.{◌≡◌, [], OnOk, OnErr, option_copied};
ghost use Rattle.std.specs.BTreeMap.{insert_entry, is_at};
ghost use Rattle.std.specs.Borrow.{sem};
ghost use Rattle.std.specs.List.Sorted.{IsStrictlySortedBy};
ghost use Rattle.std.specs.Map.{keys_of, remove_entry};
ghost use Rattle.std.specs.Option.{option_copied_mut};
ghost use Rattle.ref_counts.specs.Lent.{lends_name};
ghost use Rattle.ref_counts.specs.Parted.{IsAmongRows, IsAmongOthers, neighbor_name, route_name};
ghost use Rattle.ref_counts.specs.Registry.{registered_at, registered_name_cmp};

use crate::Name;
use crate::destination::Destination;
use crate::near_in_tables::NearInTables;
use crate::part::{Part, into_part, part_of};
use crate::registration::Registration;
use late_maps::LateMap;
use sai_types::Hops;
use std::alloc::Global;
use std::marker::Model;
use std::mem::drop;
use swss_types::{IfName, Ip, OutOfMemory};
use table_schema::Key;

/// What is known of the names that are not absent, in order. Most names are routes, neighbours and groups: each kind
/// stands apart, so that the others are found among few, and each by a short comparison. Rows mostly come in key order.
#[derive(Drop)]
pub struct Registrations {
    rows: LateMap<Key, Registration, NearInTables>,
    neighbors: LateMap<(IfName, Ip), Registration>,
    routes: LateMap<Destination, Registration>,
    others: LateMap<Name, Registration>,
    groups: LateMap<Hops, Registration>,
}

impl Model for Registrations {
    ghost use Rattle.ref_counts.specs.Registry.{Names};

    ghost Value = { Names };

    ghost use Rattle.ref_counts.specs.Parted.{AreParted, all_names};

    ghost view = { λ r. all_names r.rows r.neighbors r.routes r.others r.groups };

    ghost invariant = { λ r. AreParted r.rows r.others };
}

impl Registrations {
    /// Nothing is known.
    pub fn new(alloc: Global) -> Registrations
        ensures { result ≡ [] }
    {
        Registrations {
            rows: LateMap::new(alloc),
            neighbors: LateMap::new(alloc),
            routes: LateMap::new(alloc),
            others: LateMap::new(alloc),
            groups: LateMap::new(alloc),
        }
    }

    /// What is known of a name.
    pub fn get(&self, name: &Name) -> Option<&Registration>
        ensures { option_copied result ≡ registered_at self.now name.now }
    {
        match part_of(name) {
            Part::Row(key) => self.rows.get(key),
            Part::Neighbor(neighbor) => self.neighbors.get(&neighbor),
            Part::Route(route) => self.routes.get(&route),
            Part::Other(name) => self.others.get(name),
            Part::Group(hops) => self.groups.get(hops),
        }
    }

    /// What is known of the row of a key.
    pub fn get_row(&self, key: &Key) -> Option<&Registration>
        ensures { option_copied result ≡ registered_at self.now (Name.Row key.now) }
    {
        match key {
            Key::Neigh(on, ip) => self.neighbors.get(&(*on, *ip)),
            Key::Route(vrf, prefix) => self.routes.get(&Destination {
                vrf: *vrf,
                prefix: *prefix,
            }),
            Key::Other(_) => get_unread(&self.others, key),
            _ => self.rows.get(key),
        }
    }

    /// What is known of a name, to be changed.
    pub fn get_mut(&mut self, name: &Name) -> Option<&mut Registration>
        ensures* writes_back { sem 𝓛 (lends_name self.entry name.now result) }
        ensures value { option_copied_mut result ≡ registered_at self.old name.now }
        ensures ordered { IsStrictlySortedBy registered_name_cmp (keys_of self.old) }
    {
        // It says that the names are in order.
        self.rise();
        match part_of(name) {
            Part::Row(key) => self.row_mut(key),
            Part::Neighbor(neighbor) => self.neighbor_mut(&neighbor),
            Part::Route(route) => self.route_mut(&route),
            Part::Other(name) => self.other_mut(name),
            Part::Group(hops) => self.group_mut(hops),
        }
    }

    /// What is known of a row that comes before the neighbours, to be changed.
    fn row_mut(&mut self, key: &Key) -> Option<&mut Registration>
        requires { IsAmongRows key.now }
        ensures* writes_back { sem 𝓛 (lends_name self.entry (Name.Row key.now) result) }
        ensures value { option_copied_mut result ≡ registered_at self.old (Name.Row key.now) }
    {
        self.rows.get_mut(key)
    }

    /// What is known of a neighbour, to be changed.
    fn neighbor_mut(&mut self, neighbor: &(IfName, Ip)) -> Option<&mut Registration>
        ensures* writes_back { sem 𝓛 (lends_name self.entry (neighbor_name neighbor.now) result) }
        ensures value { option_copied_mut result ≡ registered_at self.old (neighbor_name neighbor.now) }
    {
        self.neighbors.get_mut(neighbor)
    }

    /// What is known of a route, to be changed.
    fn route_mut(&mut self, route: &Destination) -> Option<&mut Registration>
        ensures* writes_back { sem 𝓛 (lends_name self.entry (route_name route.now) result) }
        ensures value { option_copied_mut result ≡ registered_at self.old (route_name route.now) }
    {
        self.routes.get_mut(route)
    }

    /// What is known of a name behind the routes and before the groups, to be changed.
    fn other_mut(&mut self, name: &Name) -> Option<&mut Registration>
        requires { IsAmongOthers name.now }
        ensures* writes_back { sem 𝓛 (lends_name self.entry name.now result) }
        ensures value { option_copied_mut result ≡ registered_at self.old name.now }
    {
        self.others.get_mut(name)
    }

    /// What is known of a group, to be changed.
    fn group_mut(&mut self, hops: &Hops) -> Option<&mut Registration>
        ensures* writes_back { sem 𝓛 (lends_name self.entry (Name.Group hops.now) result) }
        ensures value { option_copied_mut result ≡ registered_at self.old (Name.Group hops.now) }
    {
        self.groups.get_mut(hops)
    }

    /// A name is known.
    pub fn insert(&mut self, name: Name, registration: Registration) -> Result<(), OutOfMemory>
        ensures ok { OnOk result (self.new ≡ insert_entry registered_name_cmp self.old name registration) }
        ensures err { OnErr result (self.new ≡ self.old) }
    {
        match into_part(name) {
            Part::Row(key) => {
                drop(self.rows.insert(key, registration)?);
                Ok(())
            }
            Part::Neighbor(neighbor) => {
                drop(self.neighbors.insert(neighbor, registration)?);
                Ok(())
            }
            Part::Route(route) => {
                drop(self.routes.insert(route, registration)?);
                Ok(())
            }
            Part::Other(name) => {
                drop(self.others.insert(name, registration)?);
                Ok(())
            }
            Part::Group(hops) => {
                drop(self.groups.insert(hops, registration)?);
                Ok(())
            }
        }
    }

    /// Nothing is known of a name any more. It returns what was known.
    pub fn remove(&mut self, name: &Name) -> Option<Registration>
        ensures value { result ≡ registered_at self.old name.now }
        ensures removed { self.new ≡ remove_entry (is_at (registered_name_cmp name.now)) self.old }
    {
        match part_of(name) {
            Part::Row(key) => self.rows.remove(key),
            Part::Neighbor(neighbor) => self.neighbors.remove(&neighbor),
            Part::Route(route) => self.routes.remove(&route),
            Part::Other(name) => self.others.remove(name),
            Part::Group(hops) => self.groups.remove(hops),
        }
    }

    /// The names are in order, each once.
    #[inline(always)]
    pub fn rise(&self)
        ensures { IsStrictlySortedBy registered_name_cmp (keys_of self.now) }
    {
        let _rows = self.rows.len();
        let _neighbors = self.neighbors.len();
        let _routes = self.routes.len();
        let _others = self.others.len();
        let _groups = self.groups.len();
    }
}

/// What is known of the row of a key among others. No row names a key that stands there, and so it is not looked for fast.
fn get_unread<'a>(others: &'a LateMap<Name, Registration>, key: &Key) -> Option<&'a Registration>
    ensures { option_copied result ≡ registered_at others.now (Name.Row key.now) }
{
    for (name, registration) in others.iter() {
        if is_row_of(name, key) {
            return Some(registration);
        }
    }
    None
}

/// Whether a name is that of the row of a key.
fn is_row_of(name: &Name, key: &Key) -> bool
    ensures { result ≡ is_at (registered_name_cmp (Name.Row key.now)) name.now }
{
    match name {
        Name::Row(other) => key.cmp(other).is_eq(),
        _ => false,
    }
}
