// Where the keys of tables were found last.
use late_maps::{Near, Place};
use std::cell::Cell;
use table_schema::Key;

/// Where keys of the tables of ports, of VLANs, of virtual routers, of members and of others were found last.
#[derive(Drop)]
pub struct NearInTables {
    ports: Cell<Place>,
    vlans: Cell<Place>,
    routers: Cell<Place>,
    members: Cell<Place>,
    others: Cell<Place>,
}

impl Near<Key> for NearInTables {
    fn new() -> NearInTables {
        NearInTables {
            ports: Cell::new(Place::first()),
            vlans: Cell::new(Place::first()),
            routers: Cell::new(Place::first()),
            members: Cell::new(Place::first()),
            others: Cell::new(Place::first()),
        }
    }

    fn of(&self, key: &Key) -> &Cell<Place> {
        match key {
            Key::Port(_) => &self.ports,
            Key::Vlan(_) => &self.vlans,
            Key::Vrf(_) => &self.routers,
            Key::Member(_, _) => &self.members,
            _ => &self.others,
        }
    }
}
