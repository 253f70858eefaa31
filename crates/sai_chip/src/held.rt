// The objects that a chip holds.
ghost use Rattle.std.specs.Prelude.{◌≡◌, ℕ, [], OnOk, OnErr, IfOk, option_copied};
ghost use Rattle.std.specs.BTreeMap.{insert_entry, is_at};
ghost use Rattle.std.specs.List.{list_any};
ghost use Rattle.std.specs.Map.{remove_entry};
ghost use Rattle.std.specs.Option.{is_some, option_and_then};
ghost use Rattle.sai_types.specs.After.{after_set, entry_of};
ghost use Rattle.sai_types.specs.ChipState.{objects_of};
ghost use Rattle.chip_names.specs.Members.{HasHops, group_named_by, hops_by};
ghost use Rattle.sai_chip.specs.Sim.{AppendsListed};
ghost use Rattle.sai_types.specs.Named.{hops_at, thing_of};
ghost use Rattle.sai_types.specs.Objects.{body_at, entry_cmp, used};
ghost use Rattle.sai_types.specs.Refusal.{clash};
ghost use Rattle.sai_chip.specs.Marks.{is_claimed};
ghost use Rattle.sai_chip.specs.Replay.{thing_at};

use crate::bodies::Bodies;
use crate::counts::Counts;
use crate::mark::TakenMark;
use chip_names::{GroupHops, hops_of, thing_at};
use late_maps::LateMap;
use sai_types::{Attr, Body, Entry, Hops, Kind, ListAnswer, Object, Rid, Thing, To, Weight};
use std::alloc::Global;
use std::marker::Model;
use swss_types::OutOfMemory;

/// The objects of a chip by their entries, with a count of all that they take up.
#[derive(Drop)]
pub struct Held {
    alloc: Global,
    bodies: Bodies,
    counts: Counts,
}

impl Model for Held {
    ghost use Rattle.sai_types.specs.Objects.{Objects};
    ghost use Rattle.sai_chip.specs.Marks.{IsCounted};

    ghost Value = { Objects };

    ghost view = { λ h. h.bodies };

    ghost invariant = { λ h. IsCounted h.bodies h.counts };
}

impl Held {
    /// No object.
    pub fn new(alloc: Global) -> Held
        ensures { result ≡ [] }
    {
        Held {
            alloc,
            bodies: Bodies::new(alloc),
            counts: Counts::new(alloc),
        }
    }

    /// The bodies of the objects.
    pub fn bodies(&self) -> &Bodies
        ensures { result.now ≡ self.now }
    {
        &self.bodies
    }

    /// Whether there is an object with this entry.
    pub fn stands(&self, entry: &Entry<Rid>) -> bool
        ensures { result ≡ is_some (body_at self.now entry.now) }
    {
        match entry {
            Entry::Oid(id) => self.bodies.get(*id).is_some(),
            _ => self.bodies.keyed(entry).is_some(),
        }
    }

    /// Whether an object takes this up.
    pub fn has(&self, mark: &TakenMark) -> bool
        ensures { result ≡ is_claimed mark.now self.now }
    {
        0 < self.counts.count(mark)
    }

    /// How many objects of the kind stand.
    pub fn used(&self, kind: Kind) -> u64
        ensures { result ≡ used self.now kind }
    {
        self.counts.count(&TakenMark::Of(kind))
    }

    /// Puts an object in place of the one with the same entry, if there is one. The identifier is taken where the body
    /// has one.
    pub fn put(&mut self, id: Rid, body: Body<Rid>) -> Result<(), OutOfMemory>
        ensures ok { OnOk result (self.new ≡ insert_entry entry_cmp self.old (entry_of id.0 body) body) }
        ensures err { OnErr result (self.new ≡ self.old) }
    {
        self.bodies.entries_rise();
        self.counts.take(&body)?;
        match self.bodies.put(id, body) {
            Ok(old) => {
                self.counts.free(old.as_ref());
                Ok(())
            }
            Err(body) => {
                self.counts.free(Some(&body));
                Err(OutOfMemory)
            }
        }
    }

    /// Sets an attribute of an object, if there is one with the entry that has the attribute. Only a route's target moves
    /// a reference; all else takes up what it did.
    pub fn set(&mut self, entry: &Entry<Rid>, attr: &Attr<Rid>) -> Result<(), OutOfMemory>
        ensures ok { OnOk result (self.new ≡ after_set self.old entry.now attr.now (body_at self.old entry.now)) }
        ensures err { OnErr result (self.new ≡ self.old) }
    {
        if let Attr::To(to) = attr {
            return self.point(entry, *to);
        }
        self.bodies.entries_rise();
        self.bodies.set(entry, attr);
        Ok(())
    }

    /// Points a route elsewhere, if there is one with the entry. Its new target is referred to first, since that alone
    /// takes memory; where there is no route, it is released again.
    fn point(&mut self, entry: &Entry<Rid>, to: To<Rid>) -> Result<(), OutOfMemory>
        ensures ok { OnOk result (self.new ≡ after_set self.old entry.now (Attr.To to) (body_at self.old entry.now)) }
        ensures err { OnErr result (self.new ≡ self.old) }
    {
        self.bodies.entries_rise();
        self.counts.refer(to)?;
        let from = self.bodies.point(entry, to).unwrap_or(to);
        self.counts.release(from);
        Ok(())
    }

    /// Removes the object with this entry, if there is one.
    pub fn remove(&mut self, entry: &Entry<Rid>)
        ensures { self.new ≡ remove_entry (is_at (entry_cmp entry.now)) self.old }
    {
        let old = self.bodies.remove(entry);
        self.counts.free(old.as_ref());
    }

    /// Appends each object once, in the order of their entries.
    pub fn list(&self, out: &mut Vec<Object<Rid>>) -> ListAnswer
        ensures { AppendsListed result out.old.items (objects_of self.now) out.new.items }
    {
        let before = out.len();
        match self.bodies.list(out) {
            Ok(()) => ListAnswer::Done,
            Err(_) => {
                out.truncate(before);
                ListAnswer::NoMemory
            }
        }
    }

    /// What the object with this entry stands for: None where there is none, and where a reference is absent.
    pub fn thing(&self, entry: &Entry<Rid>) -> Result<Option<Thing>, OutOfMemory>
        ensures { IfOk result (λ thing. thing ≡ thing_at self.now entry.now) }
    {
        if let Entry::Oid(id) = entry {
            let body = self.bodies.get(*id);
            return self.thing_by(entry, body);
        }
        let body = self.bodies.keyed(entry);
        self.thing_by(entry, body.as_ref())
    }

    /// The same, at its body, where there is one.
    fn thing_by(
        &self,
        entry: &Entry<Rid>,
        body: Option<&Body<Rid>>,
    ) -> Result<Option<Thing>, OutOfMemory>
        ensures { IfOk result (λ thing. thing ≡ option_and_then (λ b. thing_of self.now (entry.now, b)) (option_copied body.entry)) }
    {
        let Some(body) = body else {
            return Ok(None);
        };
        let groups = self.groups_in(entry, body)?;
        thing_at(self.alloc, self.bodies.numbered(), &groups, entry, body)
    }

    /// The hops of the group by whose hops an object is named, where there is one.
    fn groups_in(&self, entry: &Entry<Rid>, body: &Body<Rid>) -> Result<GroupHops, OutOfMemory>
        ensures { IfOk result (λ groups. HasHops self.now entry.now body.now groups) }
    {
        let mut groups = LateMap::new(self.alloc);
        if let Some(group) = group_in(entry, body) {
            groups.insert(group, self.hops(group)?)?;
        }
        Ok(groups)
    }

    /// Whether a next hop is a member of the group, so that no other member of the group can have it, whatever its weight.
    pub fn has_member(&self, group: Rid, next_hop: Rid) -> bool
        ensures { (weight : ℕ) → result ≡ list_any (λ o. clash (Body.GroupMember group next_hop weight) o.1) self.now }
    {
        self.counts.has_member(group, next_hop)
    }

    /// The next hops that are members of the group, with their weights.
    pub fn members(&self, group: Rid) -> Result<Vec<(Rid, Weight)>, OutOfMemory>
        ensures { IfOk result (λ members. hops_by self.now members.items ≡ hops_at self.now group) }
    {
        let members = self.counts.members(self.alloc, group)?;
        Ok(members)
    }

    /// The hops of a group's members: None where the next hop of one is absent.
    fn hops(&self, group: Rid) -> Result<Option<Hops>, OutOfMemory>
        ensures { IfOk result (λ hops. hops ≡ hops_at self.now group) }
    {
        let members = self.members(group)?;
        hops_of(self.alloc, self.bodies.numbered(), &members)
    }
}

/// The group by whose hops an object is named.
fn group_in(entry: &Entry<Rid>, body: &Body<Rid>) -> Option<Rid>
    ensures { result ≡ group_named_by entry.now body.now }
{
    match (entry, body) {
        (Entry::Oid(group), Body::Group) => Some(*group),
        (_, Body::GroupMember { group, .. }) => Some(*group),
        (
            _,
            Body::Route {
                to: To::Group(group),
                ..
            },
        ) => Some(*group),
        _ => None,
    }
}
