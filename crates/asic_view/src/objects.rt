// The objects of a view by their identifiers, in the order in which they were made.
ghost use Rattle.std.specs.Prelude.{◌≡◌, ◌+◌, ◌^◌, ◌<◌, ◌++◌, [], ◌∷◌, length, map, is_some, option_map, filter, nat_eq, IfSome, IfNone, IfOk, OnOk, OnErr};
ghost use Rattle.std.specs.BTreeMap.{is_at};
ghost use Rattle.std.specs.Map.{lookup, set_value};
ghost use Rattle.std.specs.Option.{option_copied};
ghost use Rattle.sai_types.specs.Objects.{kind_of};
ghost use Rattle.asic_view.specs.Places.{inside, is_full};
ghost use Rattle.asic_view.specs.View.{after_create, view_changed_at, entry_at, object_of, object_set, rid_at, vid_cmp, with_tie, without_object};

use crate::ViewObject;
use crate::body::entry_of;
use crate::place::Place;
use indexmap::IndexMap;
use sai_types::{Attr, Body, Entry, Kind, Object, Rid, Vid};
use std::alloc::Global;
use std::marker::Model;
use swss_types::OutOfMemory;

/// With so many places a view makes room for many more at once, and later need not move what it has.
const ROOM_FROM: usize = 1024;

/// For how many more.
const ROOM_AHEAD: usize = 32_768;

/// Places by the numbers of identifiers: a removal leaves its place empty.
type Places = IndexMap<u64, Place>;

/// Takes what stands at a place, which stays there empty.
fn empty(places: &mut Places, number: u64) -> Option<ViewObject>
    ensures object { result ≡ inside (lookup (nat_eq number) places.old.entries) }
    ensures some { IfSome result (λ _. places.new.entries ≡ set_value (nat_eq number) places.old.entries None) }
    ensures none { IfNone result (places.new.entries ≡ places.old.entries) }
{
    match places.get_mut(&number) {
        Some(place) => place.take(),
        None => None,
    }
}

/// Gives memory back where there is room for more than eight times what stands, and keeps the half of that. So a closing, which walks over the
/// room, is paid for by the removals since the one before, and memory that is soon wanted again stays.
fn give_back(places: &mut Places)
    ensures entries { places.new.entries ≡ places.old.entries }
{
    let most = places.len().saturating_mul(8).max(256);
    if places.capacity() > most {
        places.shrink_to(most / 2);
    }
}

/// Closes the places that are empty.
fn close(places: &mut Places)
    ensures { places.new.entries ≡ filter is_full places.old.entries }
{
    places.retain(
        |_number: &u64, place: &mut Place| -> bool
            ensures { (result ≡ is_some place.old) × (place.new ≡ place.old) }
        { place.is_full() },
    );
    give_back(places);
}

/// The objects of a view in a map that keeps its order. At least half of its places are full.
#[derive(Drop)]
pub struct Objects {
    places: Places,
    full: usize,
    made: u64,
    // for how many the first makes room
    expected: usize,
}

impl Model for Objects {
    ghost use Rattle.asic_view.specs.Places.{ArePlaced, standing};
    ghost use Rattle.asic_view.specs.View.{ViewState};

    ghost Value = { ViewState };

    ghost view = { λ o. record { made = o.made; objects = standing o.places.entries } };

    ghost invariant = { λ o. ArePlaced o.made o.full o.places.entries };
}

impl Objects {
    /// No object. The first makes room for so many.
    pub fn expecting(alloc: Global, expected: usize) -> Objects
        ensures { result ≡ record { made = 0; objects = [] } }
    {
        Objects {
            places: IndexMap::new(alloc),
            full: 0,
            made: 0,
            expected,
        }
    }

    /// The identifier that comes after all that were given, if there is one.
    pub fn next(&self) -> Option<Vid>
        ensures { IfSome result (λ vid. vid.0 ≡ self.now.made + 1) }
    {
        Some(Vid(self.made.checked_add(1)?))
    }

    /// How many stand.
    pub fn len(&self) -> usize
        ensures few { result < 2 ^ 63 }
        ensures len { result ≡ length self.now.objects }
    {
        let _places = self.places.len();
        self.full
    }

    /// Puts an object that is tied to none of the chip behind all others.
    pub fn put(&mut self, vid: Vid, body: Body<Vid>) -> Result<(), OutOfMemory>
        requires { self.old.made < vid.0 }
        ensures ok { OnOk result (self.new ≡ record { made = vid.0; objects = after_create self.old.objects vid body }) }
        ensures err { OnErr result (self.new ≡ self.old) }
    {
        self.make_room();
        self.place(vid, body)
    }

    /// The same, with no room made ahead.
    fn place(&mut self, vid: Vid, body: Body<Vid>) -> Result<(), OutOfMemory>
        requires { self.old.made < vid.0 }
        ensures ok { OnOk result (self.new ≡ record { made = vid.0; objects = after_create self.old.objects vid body }) }
        ensures err { OnErr result (self.new ≡ self.old) }
    {
        let _few = self.places.len();
        self.places.insert(vid.0, Place::untied(body))?;
        self.full += 1;
        self.made = vid.0;
        Ok(())
    }

    /// Makes room for as many objects as are expected, once, and for many more as soon as there are some. A refusal is passed
    /// over: less room may still be had, for one object at a time.
    fn make_room(&mut self)
        ensures { self.new ≡ self.old }
    {
        if self.expected > 0 {
            let _expected = self.places.reserve(self.expected);
            self.expected = 0;
        }
        if self.places.len() == ROOM_FROM {
            let _ahead = self.places.reserve(ROOM_AHEAD);
        }
    }

    /// The place of the object with this identifier, if it has one.
    fn find(&self, vid: Vid) -> Option<&Place>
        ensures { inside (option_copied result) ≡ lookup (is_at (vid_cmp vid)) self.now.objects }
    {
        self.places.get(&vid.0)
    }

    /// By what the object with this identifier is named in calls, if there is one.
    pub fn entry_at(&self, vid: Vid) -> Option<Entry<Vid>>
        ensures { result ≡ option_map (λ x. entry_at vid x.body) (lookup (is_at (vid_cmp vid)) self.now.objects) }
    {
        let body = self.find(vid)?.body()?;
        Some(entry_of(vid, body))
    }

    /// The chip's object to which an object is tied: None where it is tied to none, or is not there.
    pub fn rid(&self, vid: Vid) -> Option<Rid>
        ensures { result ≡ rid_at self.now.objects vid }
    {
        self.find(vid)?.rid()
    }

    /// Takes the object with this identifier away, if there is one, and answers its kind.
    pub fn take(&mut self, vid: Vid) -> Option<Kind>
        ensures kind { result ≡ option_map (λ x. kind_of x.body) (lookup (is_at (vid_cmp vid)) self.old.objects) }
        ensures taken { self.new ≡ record { made = self.old.made; objects = without_object self.old.objects vid } }
    {
        let object = empty(&mut self.places, vid.0)?;
        self.full -= 1;
        if self.places.len() - self.full > self.full {
            close(&mut self.places);
        }
        Some(object.body.kind())
    }

    /// Sets an attribute of the object with this identifier, if there is one.
    pub fn set(&mut self, vid: Vid, attr: Attr<Vid>)
        ensures { self.new ≡ record { made = self.old.made; objects = view_changed_at self.old.objects vid (λ x. object_set x attr) } }
    {
        if let Some(place) = self.places.get_mut(&vid.0) {
            place.set(attr);
        }
    }

    /// Ties the object with this identifier, if there is one.
    pub fn tie(&mut self, vid: Vid, rid: Rid)
        ensures { self.new ≡ record { made = self.old.made; objects = with_tie self.old.objects vid rid } }
    {
        if let Some(place) = self.places.get_mut(&vid.0) {
            place.tie(rid);
        }
    }

    /// The objects, in the order in which they were made.
    pub fn list(&self, alloc: Global) -> Result<Vec<Object<Vid>>, OutOfMemory>
        ensures { IfOk result (λ objects. objects.items ≡ map object_of self.now.objects) }
    {
        let mut all = Vec::with_capacity(alloc, self.full)?;
        for (number, place) in self.places.iter() {
            if let Some(body) = place.body() {
                all.push(Object {
                    entry: entry_of(Vid(*number), body),
                    body: body.copy()?,
                })?;
            }
        }
        Ok(all)
    }
}
