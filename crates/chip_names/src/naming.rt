// What the objects of a list stand for, one by one.
ghost use Rattle.std.specs.Prelude.{◌≡◌, IfOk};
ghost use Rattle.std.specs.Option.{is_some};
ghost use Rattle.sai_types.specs.Named.{goal_by, hops_at, router_at, thing_of};
ghost use Rattle.sai_types.specs.Objects.{Objects};
ghost use Rattle.chip_names.specs.Naming.{AreNamesOf, entries_of};

use crate::known::Known;
use crate::names::{GroupHops, group_member_at, leads, router_at, thing_at};
use crate::things::group_hops;
use sai_types::{Body, Object, Rid, Thing, To};
use std::alloc::Global;
use std::marker::Model;
use swss_types::{OutOfMemory, Vrf};

/// What the identifiers of some objects stand for.
#[derive(Drop)]
pub struct Names {
    alloc: Global,
    known: Known,
    groups: GroupHops,
}

impl Model for Names {
    ghost use Rattle.chip_names.specs.Naming.{NameTable};

    ghost Value = { NameTable };

    ghost view = { λ n. record { bodies = n.known; groups = n.groups } };
}

impl Names {
    /// What the identifiers of these objects stand for, a group for the hops of its members among them.
    pub fn of(alloc: Global, objects: &[Object<Rid>]) -> Result<Names, OutOfMemory>
        ensures { IfOk result (λ names. AreNamesOf (entries_of objects.now) names) }
    {
        let known = Known::of(alloc, objects)?;
        let groups = group_hops(alloc, &known, objects)?;
        Ok(Names {
            alloc,
            known,
            groups,
        })
    }

    /// What an object stands for: None where a reference is absent.
    pub fn thing(&self, object: &Object<Rid>) -> Result<Option<Thing>, OutOfMemory>
        ensures { IfOk result (λ thing. (objects : Objects) → AreNamesOf objects self.now → thing ≡ thing_of objects (object.now.entry, object.now.body)) }
    {
        if let Body::GroupMember {
            group,
            next_hop,
            weight,
        } = &object.body
        {
            let hop = self.known.whop(*next_hop, *weight);
            return group_member_at(self.alloc, &self.groups, *group, hop);
        }
        thing_at(
            self.alloc,
            self.known.bodies(),
            &self.groups,
            &object.entry,
            &object.body,
        )
    }

    /// Whether what a route points to is there.
    pub fn leads(&self, to: &To<Rid>) -> bool
        ensures { (objects : Objects) → AreNamesOf objects self.now → result ≡ is_some (goal_by (hops_at objects) objects to.now) }
    {
        leads(&self.known, &self.groups, to)
    }

    /// The virtual router of an object, where it is there: the default one is none of the objects.
    pub fn router(&self, vr: Option<Rid>) -> Option<Vrf>
        ensures { (objects : Objects) → AreNamesOf objects self.now → result ≡ router_at objects vr }
    {
        router_at(self.known.bodies(), vr)
    }
}
