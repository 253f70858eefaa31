// The chip's table of answers.
ghost use Rattle.std.specs.Prelude.{◌≡◌, option_copied};
ghost use Rattle.std.specs.List.{list_all, list_any};
ghost use Rattle.sai_types.specs.Objects.{body_at, is_there, is_kind_of};
ghost use Rattle.sai_types.specs.References.{beside_router, main_targets, stands};
ghost use Rattle.sai_types.specs.Refusal.{attr_refers_well, clash, create_refusal, first_refusal, has_attr, is_base, is_target, refers_to, refers_well, refusal_of, remove_refusal, set_refusal};
ghost use Rattle.sai_chip.specs.Marks.{is_claimed};
ghost use Rattle.sai_chip.specs.declared.mark.TakenMark.TheVariants as mark;

use crate::held::Held;
use crate::mark::TakenMark;
use crate::marks::router_of;
use sai_types::{Attr, Body, Call, Caps, ChipAnswer, Entry, Kind, Rid, RifOn, To};

/// The first refusal of the table that holds for a call, and None where the call is legal.
pub fn refusal(held: &Held, caps: &Caps, call: &Call<Rid>) -> Option<ChipAnswer>
    ensures { result ≡ refusal_of caps.now.0 held.now call.now }
{
    match call {
        Call::Create(body) => create_refusal(held, caps, body),
        Call::Set(entry, attr) => set_refusal(held, entry, attr),
        Call::Remove(entry) => remove_refusal(held, entry),
    }
}

/// A body is refused where a reference is absent, where it clashes, and where its kind is full.
fn create_refusal(held: &Held, caps: &Caps, body: &Body<Rid>) -> Option<ChipAnswer>
    ensures { result ≡ create_refusal caps.now.0 held.now body.now }
{
    let kind = body.kind();
    if !refers_well(held, body) {
        Some(ChipAnswer::BadReference)
    } else if clashes(held, body) {
        Some(ChipAnswer::Exists)
    } else if caps.0[kind.index()] <= held.used(kind) {
        Some(ChipAnswer::Full)
    } else {
        None
    }
}

/// A set is refused where there is no such attribute to set, and where its target is absent.
fn set_refusal(held: &Held, entry: &Entry<Rid>, attr: &Attr<Rid>) -> Option<ChipAnswer>
    ensures { result ≡ set_refusal held.now (body_at held.now entry.now) attr.now }
{
    if let Entry::Oid(id) = entry {
        return attr_refusal(held, held.bodies().get(*id), attr);
    }
    attr_refusal(held, held.bodies().keyed(entry).as_ref(), attr)
}

/// The same, at the body, where there is one.
fn attr_refusal(held: &Held, body: Option<&Body<Rid>>, attr: &Attr<Rid>) -> Option<ChipAnswer>
    ensures { result ≡ set_refusal held.now (option_copied body.entry) attr.now }
{
    if !body.is_some_and(|body| has_attr(body, attr)) {
        Some(ChipAnswer::NotFound)
    } else if !attr_refers_well(held, attr) {
        Some(ChipAnswer::BadReference)
    } else {
        None
    }
}

/// A removal is refused where there is no such object, and where another refers to it.
fn remove_refusal(held: &Held, entry: &Entry<Rid>) -> Option<ChipAnswer>
    ensures { result ≡ remove_refusal held.now entry.now (body_at held.now entry.now) }
{
    if held.stands(entry) {
        use_refusal(held, entry)
    } else {
        Some(ChipAnswer::NotFound)
    }
}

/// The same, at an object that stands.
fn use_refusal(held: &Held, entry: &Entry<Rid>) -> Option<ChipAnswer>
    ensures { result ≡ first_refusal (list_any (λ o. refers_to o.1 entry.now) held.now) ChipAnswer.InUse None }
{
    if is_referred(held, entry) {
        Some(ChipAnswer::InUse)
    } else {
        None
    }
}

/// Whether an object refers to the object with this entry.
fn is_referred(held: &Held, entry: &Entry<Rid>) -> bool
    ensures { result ≡ list_any (λ o. refers_to o.1 entry.now) held.now }
{
    match *entry {
        Entry::Oid(id) => held.has(&TakenMark::RefersTo(id)),
        Entry::Neigh(rif, ip) => held.has(&TakenMark::NextHop(rif, ip)),
        _ => false,
    }
}

/// Whether an object of this kind has this identifier.
fn is_there(held: &Held, kind: Kind, id: Rid) -> bool
    ensures { result ≡ is_there held.now kind id }
{
    match held.bodies().get(id) {
        Some(body) => body.kind().index() == kind.index(),
        None => false,
    }
}

/// Whether a route's target stands.
fn is_target(held: &Held, to: &To<Rid>) -> bool
    ensures { result ≡ is_target held.now to.now }
{
    match to {
        To::Drop => true,
        To::Rif(rif) => is_there(held, Kind::Rif, *rif),
        To::NextHop(next_hop) => is_there(held, Kind::NextHop, *next_hop),
        To::Group(group) => is_there(held, Kind::Group, *group),
    }
}

/// Whether what a router interface is to stand on stands.
fn is_base(held: &Held, on: &RifOn<Rid>) -> bool
    ensures { result ≡ is_base held.now on.now }
{
    match on {
        RifOn::Port(port) => is_there(held, Kind::Port, *port),
        RifOn::Vlan(vlan) => is_there(held, Kind::Vlan, *vlan),
    }
}

/// Whether each reference of a body stands and is of the right kind.
fn refers_well(held: &Held, body: &Body<Rid>) -> bool
    ensures { result ≡ refers_well held.now body.now }
{
    refers_within(held, router_of(body), body)
}

/// Whether a virtual router stands, as the default one always does, and what a body in it refers to beside it.
fn refers_within(held: &Held, vr: Option<Rid>, body: &Body<Rid>) -> bool
    ensures { result ≡ list_all (stands held.now) (beside_router vr (main_targets body.now)) }
{
    match vr {
        Some(id) => is_there(held, Kind::VirtualRouter, id) && has_targets(held, body),
        None => has_targets(held, body),
    }
}

/// Whether each reference of a body beside its virtual router stands and is of the right kind.
fn has_targets(held: &Held, body: &Body<Rid>) -> bool
    ensures { result ≡ list_all (stands held.now) (main_targets body.now) }
{
    match body {
        Body::Port { .. }
        | Body::Vlan { .. }
        | Body::VirtualRouter { .. }
        | Body::OwnAddress { .. }
        | Body::Group => true,
        Body::BridgePort { port } => is_there(held, Kind::Port, *port),
        Body::VlanMember {
            vlan,
            bridge_port,
            ..
        } => is_there(held, Kind::Vlan, *vlan) && is_there(held, Kind::BridgePort, *bridge_port),
        Body::Rif { on, .. } => is_base(held, on),
        Body::Neighbor { rif, .. } => is_there(held, Kind::Rif, *rif),
        Body::NextHop { rif, ip } => {
            is_there(held, Kind::Rif, *rif) && held.stands(&Entry::Neigh(*rif, *ip))
        }
        Body::GroupMember {
            group,
            next_hop,
            ..
        } => is_there(held, Kind::Group, *group) && is_there(held, Kind::NextHop, *next_hop),
        Body::Route { to, .. } => is_target(held, to),
    }
}

/// Whether a body can't stand beside the objects: its natural key is taken, or a lane is in another port.
fn clashes(held: &Held, body: &Body<Rid>) -> bool
    ensures { result ≡ list_any (λ o. clash body.now o.1) held.now }
{
    match body {
        Body::Port { lanes, .. } => has_lane(held, lanes.items()),
        Body::Vlan { vlan } => held.has(&TakenMark::Vlan(*vlan)),
        Body::VirtualRouter { label } => held.has(&TakenMark::VirtualRouter(*label)),
        Body::BridgePort { port } => held.has(&TakenMark::BridgePort(*port)),
        Body::VlanMember {
            vlan,
            bridge_port,
            ..
        } => held.has(&TakenMark::VlanMember(*vlan, *bridge_port)),
        Body::Rif { on, .. } => held.has(&TakenMark::Rif(*on)),
        Body::OwnAddress { .. } | Body::Neighbor { .. } | Body::Route { .. } => {
            held.bodies().takes(body)
        }
        Body::NextHop { rif, ip } => held.has(&TakenMark::NextHop(*rif, *ip)),
        Body::Group => false,
        Body::GroupMember {
            group,
            next_hop,
            ..
        } => held.has_member(*group, *next_hop),
    }
}

/// Whether a port has one of the lanes.
fn has_lane(held: &Held, lanes: &[u16]) -> bool
    ensures { result ≡ list_any (λ lane. is_claimed (mark.Lane lane) held.now) lanes.now }
{
    for lane in lanes {
        if held.has(&TakenMark::Lane(*lane)) {
            return true;
        }
    }
    false
}

/// Whether the attribute can be set at the body's kind.
fn has_attr(body: &Body<Rid>, attr: &Attr<Rid>) -> bool
    ensures { result ≡ has_attr body.now attr.now }
{
    match (body, attr) {
        (Body::Port { .. }, Attr::Speed(_) | Attr::Mtu(_) | Attr::Up(_)) => true,
        (Body::VlanMember { .. }, Attr::Tagging(_)) => true,
        (Body::Neighbor { .. }, Attr::Mac(_)) => true,
        (Body::Route { .. }, Attr::To(_)) => true,
        _ => false,
    }
}

/// Whether the new target of an attribute stands.
fn attr_refers_well(held: &Held, attr: &Attr<Rid>) -> bool
    ensures { result ≡ attr_refers_well held.now attr.now }
{
    match attr {
        Attr::To(to) => is_target(held, to),
        _ => true,
    }
}
