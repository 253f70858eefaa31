// Where keys were found last.
use crate::chunks::Place;
use std::cell::Cell;

impl Place {
    /// The first place.
    pub fn first() -> Place {
        Place { chunk: 0, at: 0 }
    }
}

/// Where keys were found last: the next one is looked for there first.
pub trait Near<K> {
    /// No key was found.
    fn new() -> Self;

    /// Where one of the kind of this key was found last.
    fn of(&self, key: &K) -> &Cell<Place>;
}

/// Where a key of any kind was found last.
#[derive(Drop)]
pub struct OneNear {
    place: Cell<Place>,
}

impl<K> Near<K> for OneNear {
    fn new() -> OneNear {
        OneNear {
            place: Cell::new(Place::first()),
        }
    }

    fn of(&self, _key: &K) -> &Cell<Place> {
        &self.place
    }
}
