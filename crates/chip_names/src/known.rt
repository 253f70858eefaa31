// The objects of a list by their identifiers.
ghost use Rattle.std.specs.Prelude.{◌≡◌, Some, IfOk};
ghost use Rattle.sai_types.specs.Named.{next_hop_at, next_hop_of, whop_at};
ghost use Rattle.chip_names.specs.Naming.{AreBodies, AreNextHops, entries_of, numbered};

use crate::names::hop_on;
use crate::things::bodies_of;
use late_maps::LateMap;
use sai_types::{Body, Hop, Object, Rid, WHop, Weight};
use std::alloc::Global;
use std::marker::Model;
use swss_types::OutOfMemory;

/// Bodies by their identifiers, which mostly come in their order.
pub type Numbered = LateMap<Rid, Body<Rid>>;

/// The hops of the next hops that are there, by their identifiers.
type NextHops = LateMap<Rid, Hop>;

/// Bodies by their identifiers, with the hop of each next hop at hand: many objects point to few of them.
#[derive(Drop)]
pub struct Known {
    bodies: Numbered,
    next_hops: NextHops,
}

impl Model for Known {
    ghost use Rattle.sai_types.specs.Objects.{Objects};
    ghost use Rattle.chip_names.specs.Naming.{AreNextHops, numbered};

    ghost Value = { Objects };

    ghost view = { λ k. numbered k.bodies };

    ghost invariant = { λ k. AreNextHops (numbered k.bodies) k.next_hops };
}

impl Known {
    /// The objects that have identifiers; of several with one identifier, the first.
    pub fn of(alloc: Global, objects: &[Object<Rid>]) -> Result<Known, OutOfMemory>
        ensures { IfOk result (λ known. AreBodies (entries_of objects.now) known) }
    {
        let bodies = bodies_of(alloc, objects)?;
        let next_hops = next_hops(alloc, &bodies)?;
        Ok(Known { bodies, next_hops })
    }

    /// The bodies by their identifiers.
    pub fn bodies(&self) -> &Numbered
        ensures { numbered result.now ≡ self.now }
    {
        &self.bodies
    }

    /// A next hop is named as its neighbour.
    pub fn hop(&self, next_hop: Rid) -> Option<Hop>
        ensures { result ≡ next_hop_at self.now next_hop }
    {
        self.next_hops.get(&next_hop).copied()
    }

    /// The hop of a next hop, with the weight of a member.
    pub fn whop(&self, next_hop: Rid, weight: Weight) -> Option<WHop>
        ensures { result ≡ whop_at self.now next_hop weight }
    {
        let hop = self.hop(next_hop)?;
        Some(WHop { hop, weight })
    }
}

/// The hop of each next hop whose interface is there.
fn next_hops(alloc: Global, bodies: &Numbered) -> Result<NextHops, OutOfMemory>
    ensures { IfOk result (λ hops. AreNextHops (numbered bodies.now) hops) }
{
    let mut hops = LateMap::new(alloc);
    for (id, body) in bodies.iter() {
        if let Some(hop) = hop_of(bodies, body) {
            hops.insert(*id, hop)?;
        }
    }
    Ok(hops)
}

/// The hop of a body, where it is a next hop.
fn hop_of(bodies: &Numbered, body: &Body<Rid>) -> Option<Hop>
    ensures { result ≡ next_hop_of (numbered bodies.now) (Some body.now) }
{
    match body {
        Body::NextHop { rif, ip } => hop_on(bodies, *rif, *ip),
        _ => None,
    }
}
