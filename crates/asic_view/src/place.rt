// A place of a view's objects.
ghost use Rattle.std.specs.Prelude.{◌≡◌, Some, None, is_some, option_map};
ghost use Rattle.std.specs.Option.{option_copied};
ghost use Rattle.asic_view.specs.View.{object_set, rid_in, untied};

use crate::ViewObject;
use crate::body::set_attr;
use sai_types::{Attr, Body, Rid, Vid};
use std::marker::Model;
use std::mem::replace;

/// What a place holds: one tag tells whether an object stands there and whether it is tied.
#[derive(Debug, Drop)]
enum Held {
    /// What stood there was removed.
    Empty,
    /// An object that is tied to none of the chip.
    Untied(Body<Vid>),
    /// An object, tied to one of the chip.
    Tied(Body<Vid>, Rid),
}

/// A place of a view's objects, seen as the object that stands there. (A struct around the enum, since only a struct can be
/// seen as another value.)
#[derive(Debug, Drop)]
pub struct Place {
    held: Held,
}

impl Model for Place {
    ghost use Rattle.std.specs.Prelude.{Option};
    ghost use Rattle.asic_view.specs.declared.object.ViewObject.{ViewObject};
    ghost use Rattle.asic_view.specs.Place.{object_in};

    ghost Value = { Option ViewObject };

    ghost view = { λ p. object_in p.held };
}

impl Place {
    /// A place with an object that is tied to none of the chip.
    pub fn untied(body: Body<Vid>) -> Place
        ensures { result ≡ Some (untied body) }
    {
        Place {
            held: Held::Untied(body),
        }
    }

    /// Whether an object stands here.
    pub fn is_full(&self) -> bool
        ensures { result ≡ is_some self.now }
    {
        match &self.held {
            Held::Empty => false,
            Held::Untied(_) | Held::Tied(_, _) => true,
        }
    }

    /// What the object is, if there is one.
    pub fn body(&self) -> Option<&Body<Vid>>
        ensures { option_copied result ≡ option_map (λ x. x.body) self.now }
    {
        match &self.held {
            Held::Empty => None,
            Held::Untied(body) | Held::Tied(body, _) => Some(body),
        }
    }

    /// The chip's object to which the object is tied: None where it is tied to none, or is not there.
    pub fn rid(&self) -> Option<Rid>
        ensures { result ≡ rid_in self.now }
    {
        match &self.held {
            Held::Empty | Held::Untied(_) => None,
            Held::Tied(_, rid) => Some(*rid),
        }
    }

    /// Takes the object, if there is one, and leaves the place empty.
    pub fn take(&mut self) -> Option<ViewObject>
        ensures object { result ≡ self.old }
        ensures empty { self.new ≡ None }
    {
        match replace(&mut self.held, Held::Empty) {
            Held::Empty => None,
            Held::Untied(body) => Some(ViewObject { body, rid: None }),
            Held::Tied(body, rid) => Some(ViewObject {
                body,
                rid: Some(rid),
            }),
        }
    }

    /// Sets an attribute of the object, if there is one.
    pub fn set(&mut self, attr: Attr<Vid>)
        ensures { self.new ≡ option_map (λ x. object_set x attr) self.old }
    {
        match &mut self.held {
            Held::Empty => {}
            Held::Untied(body) => set_attr(body, attr),
            Held::Tied(body, _) => set_attr(body, attr),
        }
    }

    /// Ties the object, if there is one.
    pub fn tie(&mut self, rid: Rid)
        ensures { self.new ≡ option_map (λ x. record { body = x.body; rid = Some rid }) self.old }
    {
        match replace(&mut self.held, Held::Empty) {
            Held::Empty => {}
            Held::Untied(body) | Held::Tied(body, _) => self.held = Held::Tied(body, rid),
        }
    }
}
