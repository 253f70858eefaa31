// The bodies of the objects of a chip.
ghost use Rattle.std.specs.Prelude.{◌≡◌, [], ◌++◌, true, false, take, length, Some, None, IfOk, IfErr, OnOk, OnErr, option_copied, if◌then◌else◌};
ghost use Rattle.std.specs.BTreeMap.{insert_entry, is_at};
ghost use Rattle.std.specs.BTreeSet.{insert_key};
ghost use Rattle.std.specs.List.{list_any};
ghost use Rattle.std.specs.Map.{lookup, remove_entry};
ghost use Rattle.std.specs.Option.{is_some, option_and_then, option_map};
ghost use Rattle.sai_types.specs.After.{after_set, entry_of, has_id};
ghost use Rattle.sai_types.specs.ChipState.{objects_of};
ghost use Rattle.sai_types.specs.Forwarding.{best_route, has_own, hop_mac};
ghost use Rattle.sai_types.specs.Made.{AreSorted, HaveOneEach, ReferWell};
ghost use Rattle.sai_types.specs.Named.{goal_by, hop_on, hops_at, named, router_at, those};
ghost use Rattle.sai_types.specs.Objects.{body_at, entry_cmp};
ghost use Rattle.sai_types.specs.Refusal.{clash};
ghost use Rattle.sai_types.specs.declared.hop.Hop.{Hop};
ghost use Rattle.swss_types.specs.declared.vrf.Packet.{Packet};
ghost use Rattle.chip_names.specs.Naming.{AreBodies, numbered, rid_cmp};
ghost use Rattle.sai_chip.specs.Bodies.{ids_set, is_own_key, is_router, keyed_at, macs_set, own_cmp, owned, reached, route_cmp, routed, target_of, targets_set};
ghost use Rattle.sai_chip.specs.Tally.{neighbor_cmp};

use crate::effect::set_attr;
use crate::routing::{Routing, Targets};
use chip_names::{Numbered, router_at};
use late_maps::LateMap;
use sai_types::{Attr, Body, Entry, Object, Rid, To, empty_is_whole, entries_stay_sorted};
use std::alloc::Global;
use std::collections::{BTreeMap, BTreeSet};
use std::marker::Model;
use swss_types::{Ip, Mac, OutOfMemory, Packet, Prefix, Vrf};

/// The Ethernet addresses of neighbours, by their interfaces and addresses.
pub type Neighbors = BTreeMap<(Rid, Ip), Mac>;

/// An own address: its virtual router, unless it is in the default one, and the address.
pub type OwnKey = (Option<Rid>, Ip);

/// A route: its virtual router, unless it is in the default one, and its prefix.
pub type RouteKey = (Option<Rid>, Prefix);

/// The bodies of objects: those with identifiers, and those that are found by their own keys.
#[derive(Drop)]
pub struct Bodies {
    numbered: Numbered,
    own: BTreeSet<OwnKey>,
    neighbors: Neighbors,
    routes: Routing,
}

impl Model for Bodies {
    ghost use Rattle.sai_types.specs.Objects.{Objects};

    ghost Value = { Objects };

    ghost use Rattle.sai_chip.specs.Bodies.{IsWellHeld, objects_in};

    ghost view = { λ b. objects_in b.numbered b.own.keys b.neighbors.entries b.routes };

    ghost invariant = { λ b. IsWellHeld b.numbered b.own.keys b.neighbors.entries b.routes };
}

impl Bodies {
    /// No object.
    pub fn new(alloc: Global) -> Bodies
        ensures { result ≡ [] }
    {
        empty_is_whole();
        Bodies {
            numbered: LateMap::new(alloc),
            own: BTreeSet::new(alloc),
            neighbors: BTreeMap::new(alloc),
            routes: Routing::new(alloc),
        }
    }

    /// The entries rise. A law: it does nothing.
    pub fn entries_rise(&self)
        ensures { AreSorted self.now }
    {
        let _numbered = &self.numbered;
    }

    /// The bodies that have identifiers.
    pub fn numbered(&self) -> &Numbered
        ensures { AreBodies self.now (numbered result.now) }
    {
        &self.numbered
    }

    /// The body of the object with this identifier.
    pub fn get(&self, id: Rid) -> Option<&Body<Rid>>
        ensures { option_copied result ≡ body_at self.now (Entry.Oid id) }
    {
        self.numbered.get(&id)
    }

    /// The body of the object with this key: None for an identifier.
    pub fn keyed(&self, entry: &Entry<Rid>) -> Option<Body<Rid>>
        ensures { result ≡ keyed_at self.now entry.now }
    {
        match *entry {
            Entry::Oid(_) => None,
            Entry::Own(vr, ip) => self.own(vr, ip),
            Entry::Neigh(rif, ip) => self.neighbor(rif, &ip),
            Entry::Route(vr, prefix) => self.route(vr, prefix),
        }
    }

    /// The own address as a body, where it stands.
    fn own(&self, vr: Option<Rid>, ip: Ip) -> Option<Body<Rid>>
        ensures { result ≡ body_at self.now (Entry.Own vr ip) }
    {
        let key = (vr, ip);
        own_if(&key, self.own.contains(&key))
    }

    /// The neighbour as a body, where it stands.
    fn neighbor(&self, rif: Rid, ip: &Ip) -> Option<Body<Rid>>
        ensures { result ≡ body_at self.now (Entry.Neigh rif ip.now) }
    {
        neighbor_if(rif, ip, self.neighbors.get(&(rif, *ip)).copied())
    }

    /// The route as a body, where it stands.
    fn route(&self, vr: Option<Rid>, prefix: Prefix) -> Option<Body<Rid>>
        ensures { result ≡ body_at self.now (Entry.Route vr prefix) }
    {
        let key = (vr, prefix);
        route_if(&key, self.routes.get(&key).copied())
    }

    /// Whether an object with the natural key of this body stands, which has no identifier.
    pub fn takes(&self, body: &Body<Rid>) -> bool
        requires { has_id body.now ≡ false }
        ensures { result ≡ list_any (λ o. clash body.now o.1) self.now }
    {
        match body {
            Body::OwnAddress { vr, ip } => self.own.contains(&(*vr, *ip)),
            Body::Neighbor { rif, ip, .. } => self.neighbors.contains_key(&(*rif, *ip)),
            Body::Route { vr, prefix, .. } => self.routes.contains_key(&(*vr, *prefix)),
            _ => false,
        }
    }

    /// Whether a packet's address is one of the switch's own in its router. In the default router it is looked for by its
    /// key, and in another, whose identifier is not known, among all of them.
    pub fn is_own(&self, packet: &Packet) -> bool
        ensures { result ≡ has_own (those (named self.now)) packet.now }
    {
        match packet.vrf {
            Vrf::Default => self.own.contains(&(None, packet.to)),
            Vrf::Named(_) => has_own_key(&self.numbered, &self.own, packet),
        }
    }

    /// The Ethernet address of a neighbour that stands.
    pub fn mac(&self, rif: Rid, ip: Ip) -> Option<Mac>
        requires one { HaveOneEach self.now }
        requires stands { is_some (body_at self.now (Entry.Neigh rif ip)) ≡ true }
        ensures { (hop : Hop) → hop_on self.now rif ip ≡ Some hop → result ≡ hop_mac (those (named self.now)) hop }
    {
        self.neighbors.get(&(rif, ip)).copied()
    }

    /// Where the route of the packet's router points whose prefix is the longest that covers its address: None where there is
    /// none. No other object decides where a packet goes that is not to one of the switch's own addresses.
    pub fn best(&self, packet: &Packet) -> Option<To<Rid>>
        requires { ReferWell self.now }
        ensures { option_map (λ r. r.1) (best_route (those (named self.now)) packet.now) ≡ option_and_then (goal_by (hops_at self.now) self.now) result }
    {
        self.routes.best(&self.numbered, packet)
    }

    /// Puts an object in place of the one with the same entry, and answers the body of that one, if there is one. The
    /// identifier is taken where the body has one. For want of memory the body comes back.
    pub fn put(&mut self, id: Rid, body: Body<Rid>) -> Result<Option<Body<Rid>>, Body<Rid>>
        ensures ok { OnOk result (self.new ≡ insert_entry entry_cmp self.old (entry_of id.0 body) body) }
        ensures old { IfOk result (λ old. old ≡ body_at self.old (entry_of id.0 body)) }
        ensures returned { IfErr result (λ failed. failed ≡ body) }
        ensures err { OnErr result (self.new ≡ self.old) }
    {
        entries_stay_sorted();
        let old = match body {
            Body::OwnAddress { vr, ip } => put_own(&mut self.own, &(vr, ip))?,
            Body::Neighbor { rif, ip, mac } => put_neighbor(&mut self.neighbors, rif, &ip, mac)?,
            Body::Route { vr, prefix, to } => put_route(&mut self.routes, &(vr, prefix), to)?,
            body => put_numbered(&mut self.numbered, id, body)?,
        };
        Ok(old)
    }

    /// Sets an attribute of an object, if there is one with the entry that has the attribute.
    pub fn set(&mut self, entry: &Entry<Rid>, attr: &Attr<Rid>)
        ensures { self.new ≡ after_set self.old entry.now attr.now (body_at self.old entry.now) }
    {
        entries_stay_sorted();
        match *entry {
            Entry::Oid(id) => set_numbered(&mut self.numbered, id, attr),
            Entry::Own(_, _) => {}
            Entry::Neigh(rif, ip) => set_mac(&mut self.neighbors, (rif, ip), attr),
            Entry::Route(vr, prefix) => set_target(&mut self.routes, (vr, prefix), attr),
        }
    }

    /// Points a route elsewhere, if there is one with the entry, and answers where it pointed.
    pub fn point(&mut self, entry: &Entry<Rid>, to: To<Rid>) -> Option<To<Rid>>
        ensures set { self.new ≡ after_set self.old entry.now (Attr.To to) (body_at self.old entry.now) }
        ensures from { result ≡ target_of (body_at self.old entry.now) }
    {
        entries_stay_sorted();
        match *entry {
            Entry::Route(vr, prefix) => self.routes.point(&(vr, prefix), to),
            _ => None,
        }
    }

    /// Removes the object with this entry, and answers its body, if there is one.
    pub fn remove(&mut self, entry: &Entry<Rid>) -> Option<Body<Rid>>
        ensures removed { self.new ≡ remove_entry (is_at (entry_cmp entry.now)) self.old }
        ensures old { result ≡ body_at self.old entry.now }
    {
        entries_stay_sorted();
        match entry {
            Entry::Oid(id) => self.numbered.remove(id),
            Entry::Own(vr, ip) => {
                let key = (*vr, *ip);
                own_if(&key, self.own.remove(&key))
            }
            Entry::Neigh(rif, ip) => {
                let mac = self.neighbors.remove(&(*rif, *ip));
                neighbor_if(*rif, ip, mac)
            }
            Entry::Route(vr, prefix) => {
                let key = (*vr, *prefix);
                let to = self.routes.remove(&key);
                route_if(&key, to)
            }
        }
    }

    /// Appends each object once, in the order of their entries. An Err may leave some of them.
    pub fn list(&self, out: &mut Vec<Object<Rid>>) -> Result<(), OutOfMemory>
        ensures ok { OnOk result (out.new.items ≡ out.old.items ++ objects_of self.now) }
        ensures err { OnErr result (take (length out.old.items) out.new.items ≡ out.old.items) }
    {
        out.reserve_exact(self.count())?;
        push_numbered(&self.numbered, out)?;
        push_own(&self.own, out)?;
        push_neighbors(&self.neighbors, out)?;
        push_routes(self.routes.targets(), out)
    }

    /// How many objects there are, for which a list makes room.
    fn count(&self) -> usize {
        let numbered = self.numbered.len();
        let keyed = self.own.len().saturating_add(self.neighbors.len());
        numbered
            .saturating_add(keyed)
            .saturating_add(self.routes.targets().len())
    }
}

/// Puts a body in place of the one with the same identifier, and answers that one, if there is one.
fn put_numbered(
    numbered: &mut Numbered,
    id: Rid,
    body: Body<Rid>,
) -> Result<Option<Body<Rid>>, Body<Rid>>
    ensures ok { OnOk result (numbered.new ≡ insert_entry rid_cmp numbered.old id body) }
    ensures old { IfOk result (λ old. old ≡ lookup (is_at (rid_cmp id)) numbered.old) }
    ensures returned { IfErr result (λ failed. failed ≡ body) }
    ensures err { OnErr result (numbered.new ≡ numbered.old) }
{
    match numbered.insert(id, body) {
        Ok(old) => Ok(old),
        Err(failed) => {
            let (_, body) = failed.value;
            Err(body)
        }
    }
}

/// Puts an own address, and answers its body, if it stood before.
fn put_own(own: &mut BTreeSet<OwnKey>, key: &OwnKey) -> Result<Option<Body<Rid>>, Body<Rid>>
    ensures ok { OnOk result (own.new.keys ≡ insert_key own_cmp own.old.keys key.now) }
    ensures old { IfOk result (λ old. old ≡ (if list_any (is_at (own_cmp key.now)) own.old.keys then Some (Body.OwnAddress key.now.0 key.now.1) else None)) }
    ensures returned { IfErr result (λ failed. failed ≡ Body.OwnAddress key.now.0 key.now.1) }
    ensures err { OnErr result (own.new.keys ≡ own.old.keys) }
{
    match own.insert(*key) {
        Ok(true) => Ok(None),
        Ok(false) => Ok(own_if(key, true)),
        Err(_) => Err(Body::OwnAddress {
            vr: key.0,
            ip: key.1,
        }),
    }
}

/// Puts the Ethernet address of a neighbour, and answers the body of the neighbour, if it stood before.
fn put_neighbor(
    neighbors: &mut Neighbors,
    rif: Rid,
    ip: &Ip,
    mac: Mac,
) -> Result<Option<Body<Rid>>, Body<Rid>>
    ensures ok { OnOk result (neighbors.new.entries ≡ insert_entry neighbor_cmp neighbors.old.entries (rif, ip.now) mac) }
    ensures old { IfOk result (λ old. old ≡ option_map (Body.Neighbor rif ip.now) (lookup (is_at (neighbor_cmp (rif, ip.now))) neighbors.old.entries)) }
    ensures returned { IfErr result (λ failed. failed ≡ Body.Neighbor rif ip.now mac) }
    ensures err { OnErr result (neighbors.new.entries ≡ neighbors.old.entries) }
{
    match neighbors.insert((rif, *ip), mac) {
        Ok(old) => Ok(neighbor_if(rif, ip, old)),
        Err(_) => Err(Body::Neighbor { rif, ip: *ip, mac }),
    }
}

/// Puts the target of a route, and answers the body of the route, if it stood before.
fn put_route(
    routes: &mut Routing,
    key: &RouteKey,
    to: To<Rid>,
) -> Result<Option<Body<Rid>>, Body<Rid>>
    ensures ok { OnOk result (routes.new ≡ insert_entry route_cmp routes.old key.now to) }
    ensures old { IfOk result (λ old. old ≡ option_map (Body.Route key.now.0 key.now.1) (lookup (is_at (route_cmp key.now)) routes.old)) }
    ensures returned { IfErr result (λ failed. failed ≡ Body.Route key.now.0 key.now.1 to) }
    ensures err { OnErr result (routes.new ≡ routes.old) }
{
    match routes.insert(*key, to) {
        Ok(old) => Ok(route_if(key, old)),
        Err(_) => Err(Body::Route {
            vr: key.0,
            prefix: key.1,
            to,
        }),
    }
}

/// Whether one of the own addresses is that of the packet, in its router.
fn has_own_key(bodies: &Numbered, own: &BTreeSet<OwnKey>, packet: &Packet) -> bool
    ensures { result ≡ list_any (is_own_key (numbered bodies.now) packet.now) own.now.keys }
{
    for key in own {
        if is_own_key(bodies, key, packet) {
            return true;
        }
    }
    false
}

/// Whether an own address is that of the packet, in its router.
fn is_own_key(bodies: &Numbered, key: &OwnKey, packet: &Packet) -> bool
    ensures { result ≡ is_own_key (numbered bodies.now) packet.now key.now }
{
    key.1 == packet.to && is_router(bodies, key.0, packet.vrf)
}

/// Whether the virtual router of an object is there, and is this one.
pub fn is_router(bodies: &Numbered, vr: Option<Rid>, vrf: Vrf) -> bool
    ensures { result ≡ is_router vrf (router_at (numbered bodies.now) vr) }
{
    match router_at(bodies, vr) {
        Some(other) => other == vrf,
        None => false,
    }
}

/// The body of an own address, where it stands.
fn own_if(key: &OwnKey, stands: bool) -> Option<Body<Rid>>
    ensures { result ≡ (if stands then Some (Body.OwnAddress key.now.0 key.now.1) else None) }
{
    if stands {
        Some(Body::OwnAddress {
            vr: key.0,
            ip: key.1,
        })
    } else {
        None
    }
}

/// The body of a neighbour, where it has an Ethernet address.
fn neighbor_if(rif: Rid, ip: &Ip, mac: Option<Mac>) -> Option<Body<Rid>>
    ensures { result ≡ option_map (Body.Neighbor rif ip.now) mac }
{
    match mac {
        Some(mac) => Some(Body::Neighbor { rif, ip: *ip, mac }),
        None => None,
    }
}

/// The body of a route, where it has a target.
fn route_if(key: &RouteKey, to: Option<To<Rid>>) -> Option<Body<Rid>>
    ensures { result ≡ option_map (Body.Route key.now.0 key.now.1) to }
{
    match to {
        Some(to) => Some(Body::Route {
            vr: key.0,
            prefix: key.1,
            to,
        }),
        None => None,
    }
}

/// Sets an attribute of the body with this identifier, if there is one that has the attribute.
fn set_numbered(numbered: &mut Numbered, id: Rid, attr: &Attr<Rid>)
    ensures { numbered.new ≡ ids_set numbered.old id attr.now }
{
    if let Some(body) = numbered.get_mut(&id) {
        set_attr(body, attr);
    }
}

/// Sets the Ethernet address of a neighbour, if it is there.
fn set_mac(neighbors: &mut Neighbors, key: (Rid, Ip), attr: &Attr<Rid>)
    ensures { neighbors.new.entries ≡ macs_set neighbors.old.entries key attr.now }
{
    if let Attr::Mac(mac) = attr {
        if let Some(held) = neighbors.get_mut(&key) {
            *held = *mac;
        }
    }
}

/// Sets the target of a route, if it is there.
fn set_target(routes: &mut Routing, key: RouteKey, attr: &Attr<Rid>)
    ensures { routes.new ≡ targets_set routes.old key attr.now }
{
    if let Attr::To(to) = attr {
        routes.point(&key, *to);
    }
}

/// Appends each object that has an identifier.
fn push_numbered(bodies: &Numbered, out: &mut Vec<Object<Rid>>) -> Result<(), OutOfMemory>
    ensures ok { OnOk result (out.new.items ≡ out.old.items ++ objects_of (numbered bodies.now)) }
    ensures err { OnErr result (take (length out.old.items) out.new.items ≡ out.old.items) }
{
    for (id, body) in bodies.iter() {
        out.push(Object {
            entry: Entry::Oid(*id),
            body: body.copy()?,
        })?;
    }
    Ok(())
}

/// Appends each own address.
fn push_own(own: &BTreeSet<OwnKey>, out: &mut Vec<Object<Rid>>) -> Result<(), OutOfMemory>
    ensures ok { OnOk result (out.new.items ≡ out.old.items ++ objects_of (owned own.now.keys)) }
    ensures err { OnErr result (take (length out.old.items) out.new.items ≡ out.old.items) }
{
    for (vr, ip) in own {
        out.push(Object {
            entry: Entry::Own(*vr, *ip),
            body: Body::OwnAddress { vr: *vr, ip: *ip },
        })?;
    }
    Ok(())
}

/// Appends each neighbour.
fn push_neighbors(neighbors: &Neighbors, out: &mut Vec<Object<Rid>>) -> Result<(), OutOfMemory>
    ensures ok { OnOk result (out.new.items ≡ out.old.items ++ objects_of (reached neighbors.now.entries)) }
    ensures err { OnErr result (take (length out.old.items) out.new.items ≡ out.old.items) }
{
    for ((rif, ip), mac) in neighbors {
        out.push(Object {
            entry: Entry::Neigh(*rif, *ip),
            body: Body::Neighbor {
                rif: *rif,
                ip: *ip,
                mac: *mac,
            },
        })?;
    }
    Ok(())
}

/// Appends each route.
fn push_routes(routes: &Targets, out: &mut Vec<Object<Rid>>) -> Result<(), OutOfMemory>
    ensures ok { OnOk result (out.new.items ≡ out.old.items ++ objects_of (routed routes.now)) }
    ensures err { OnErr result (take (length out.old.items) out.new.items ≡ out.old.items) }
{
    for ((vr, prefix), to) in routes.iter() {
        out.push(Object {
            entry: Entry::Route(*vr, *prefix),
            body: Body::Route {
                vr: *vr,
                prefix: *prefix,
                to: *to,
            },
        })?;
    }
    Ok(())
}
