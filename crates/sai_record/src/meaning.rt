// The call that the words of a line write. A line that is not in the grammar may have one too, whose own line is another.
// `text` is what is left of the line, as in `words`.
ghost use Rattle.std.specs.Prelude.{◌≡◌, IfOk, IfSome};
ghost use Rattle.swss_types.specs.Lanes.{IsLaneList};
ghost use Rattle.sai_types.specs.After.{has_id};
ghost use Rattle.sai_record.specs.Meaning.{attr_at, base_at, body_at, bridge_port_at, call_at, create_at, created, entry_at, group_member_at, neigh_at, neighbor_at, next_hop_at, oid_at, own_address_at, own_at, plain_body_by, port_at, port_behind, remove_at, rif_at, route_at, route_entry_at, router_at, set_at, target_at, target_by, vlan_at, vlan_member_at};
ghost use Rattle.sai_record.specs.Ranges.{IsAttrInRange, IsBase, IsBodyInRange, IsEntryInRange, IsIdOrNone, IsRecorded, IsTarget};
ghost use Rattle.sai_record.specs.Words.{value_and_rest};

use crate::Recorded;
use crate::words::{
    next_word, read_id, read_id_or_none, read_ip, read_mac, read_mtu, read_prefix, read_speed,
    read_state, read_tagging, read_vlan, read_vrf_name, read_weight, state_in,
};
use sai_types::{Attr, Body, Call, Entry, Rid, RifOn, To};
use std::alloc::Global;
use swss_types::{Lanes, OutOfMemory};

/// The call of a line, or None where its words write none.
pub(crate) fn read_call(alloc: Global, line: &[u8]) -> Result<Option<Recorded>, OutOfMemory>
    ensures value { IfOk result (λ call. call ≡ call_at line.now) }
    ensures proper { IfOk result (λ call. IfSome call IsRecorded) }
{
    match line {
        [b'c', text @ ..] => read_create(alloc, text),
        [b's', text @ ..] => Ok(read_set(text)),
        [b'r', text @ ..] => Ok(read_remove(text)),
        _ => Ok(None),
    }
}

/// The create that the words behind `c` write.
#[tactic(auto, unfolding(crate::specs::Meaning::create_at))]
fn read_create(alloc: Global, mut text: &[u8]) -> Result<Option<Recorded>, OutOfMemory>
    ensures value { IfOk result (λ call. call ≡ create_at text.entry.now) }
    ensures proper { IfOk result (λ call. IfSome call IsRecorded) }
{
    let Some(made) = read_id_or_none(&mut text) else {
        return Ok(None);
    };
    match read_body(alloc, text)? {
        Some(body) => Ok(created(made, body)),
        None => Ok(None),
    }
}

/// A create, where it names an identifier exactly where its kind has one.
fn created(made: Option<Rid>, body: Body<Rid>) -> Option<Recorded>
    requires made { IsIdOrNone made }
    requires body { IsBodyInRange body }
    ensures value { result ≡ created made body }
    ensures proper { IfSome result IsRecorded }
{
    if made.is_some() != has_id(&body) {
        return None;
    }
    Some(Recorded {
        made,
        call: Call::Create(body),
    })
}

/// Whether objects of a body's kind have an identifier.
pub(crate) fn has_id(body: &Body<Rid>) -> bool
    ensures { result ≡ has_id body.now }
{
    !matches!(
        body,
        Body::OwnAddress { .. } | Body::Neighbor { .. } | Body::Route { .. }
    )
}

/// The set that the words behind `s` write.
#[tactic(auto, unfolding(crate::specs::Meaning::set_at))]
fn read_set(mut text: &[u8]) -> Option<Recorded>
    ensures value { result ≡ set_at text.entry.now }
    ensures proper { IfSome result IsRecorded }
{
    let entry = read_entry(&mut text)?;
    let attr = read_attr(text)?;
    Some(Recorded {
        made: None,
        call: Call::Set(entry, attr),
    })
}

/// The removal that the words behind `r` write.
#[tactic(auto, unfolding(crate::specs::Meaning::remove_at))]
fn read_remove(mut text: &[u8]) -> Option<Recorded>
    ensures value { result ≡ remove_at text.entry.now }
    ensures proper { IfSome result IsRecorded }
{
    let entry = read_entry(&mut text)?;
    Some(Recorded {
        made: None,
        call: Call::Remove(entry),
    })
}

/// A body.
#[tactic(auto, unfolding(crate::specs::Meaning::body_at))]
fn read_body(alloc: Global, mut text: &[u8]) -> Result<Option<Body<Rid>>, OutOfMemory>
    ensures value { IfOk result (λ body. body ≡ body_at text.entry.now) }
    ensures proper { IfOk result (λ body. IfSome body IsBodyInRange) }
{
    match next_word(&mut text) {
        Some(b"PORT") => read_port(alloc, text),
        Some(kind) => Ok(read_plain_body(kind, text)),
        None => Ok(None),
    }
}

/// The body of a kind that is no port.
fn read_plain_body(kind: &[u8], text: &[u8]) -> Option<Body<Rid>>
    ensures value { result ≡ plain_body_by kind.now text.now }
    ensures proper { IfSome result IsBodyInRange }
{
    if kind == b"VLAN".as_slice() {
        read_vlan_body(text)
    } else if kind == b"VIRTUAL_ROUTER".as_slice() {
        read_router(text)
    } else if kind == b"BRIDGE_PORT".as_slice() {
        read_bridge_port(text)
    } else if kind == b"VLAN_MEMBER".as_slice() {
        read_vlan_member(text)
    } else if kind == b"RIF".as_slice() {
        read_rif(text)
    } else if kind == b"OWN_ADDRESS".as_slice() {
        read_own_address(text)
    } else if kind == b"NEIGHBOR".as_slice() {
        read_neighbor(text)
    } else if kind == b"NEXT_HOP".as_slice() {
        read_next_hop(text)
    } else if kind == b"GROUP".as_slice() {
        Some(Body::Group)
    } else if kind == b"GROUP_MEMBER".as_slice() {
        read_group_member(text)
    } else if kind == b"ROUTE".as_slice() {
        read_route(text)
    } else {
        None
    }
}

/// A port.
#[tactic(auto, unfolding(crate::specs::Meaning::port_at))]
fn read_port(alloc: Global, mut text: &[u8]) -> Result<Option<Body<Rid>>, OutOfMemory>
    ensures value { IfOk result (λ body. body ≡ port_at text.entry.now) }
    ensures proper { IfOk result (λ body. IfSome body IsBodyInRange) }
{
    let Some(word) = next_word(&mut text) else {
        return Ok(None);
    };
    match Lanes::read(alloc, word)? {
        Some(lanes) => Ok(read_port_behind(lanes, text)),
        None => Ok(None),
    }
}

/// A port with these lanes.
#[tactic(auto, unfolding(crate::specs::Meaning::port_behind))]
fn read_port_behind(lanes: Lanes, mut text: &[u8]) -> Option<Body<Rid>>
    requires { IsLaneList lanes }
    ensures value { result ≡ port_behind lanes text.entry.now }
    ensures proper { IfSome result IsBodyInRange }
{
    let speed = read_speed(&mut text)?;
    let mtu = read_mtu(&mut text)?;
    let up = read_state(&mut text)?;
    Some(Body::Port {
        lanes,
        speed,
        mtu,
        up,
    })
}

/// A VLAN.
#[tactic(auto, unfolding(crate::specs::Meaning::vlan_at))]
fn read_vlan_body(mut text: &[u8]) -> Option<Body<Rid>>
    ensures value { result ≡ vlan_at text.entry.now }
    ensures proper { IfSome result IsBodyInRange }
{
    let vlan = read_vlan(&mut text)?;
    Some(Body::Vlan { vlan })
}

/// A virtual router.
#[tactic(auto, unfolding(crate::specs::Meaning::router_at))]
fn read_router(mut text: &[u8]) -> Option<Body<Rid>>
    ensures value { result ≡ router_at text.entry.now }
    ensures proper { IfSome result IsBodyInRange }
{
    let label = read_vrf_name(&mut text)?;
    Some(Body::VirtualRouter { label })
}

/// A bridge port.
#[tactic(auto, unfolding(crate::specs::Meaning::bridge_port_at))]
fn read_bridge_port(mut text: &[u8]) -> Option<Body<Rid>>
    ensures value { result ≡ bridge_port_at text.entry.now }
    ensures proper { IfSome result IsBodyInRange }
{
    let port = read_id(&mut text)?;
    Some(Body::BridgePort { port })
}

/// A member of a VLAN.
#[tactic(auto, unfolding(crate::specs::Meaning::vlan_member_at))]
fn read_vlan_member(mut text: &[u8]) -> Option<Body<Rid>>
    ensures value { result ≡ vlan_member_at text.entry.now }
    ensures proper { IfSome result IsBodyInRange }
{
    let vlan = read_id(&mut text)?;
    let bridge_port = read_id(&mut text)?;
    let tagging = read_tagging(&mut text)?;
    Some(Body::VlanMember {
        vlan,
        bridge_port,
        tagging,
    })
}

/// A router interface.
#[tactic(auto, unfolding(crate::specs::Meaning::rif_at))]
fn read_rif(mut text: &[u8]) -> Option<Body<Rid>>
    ensures value { result ≡ rif_at text.entry.now }
    ensures proper { IfSome result IsBodyInRange }
{
    let vr = read_id_or_none(&mut text)?;
    let on = read_base(text)?;
    Some(Body::Rif { vr, on })
}

/// What a router interface stands on.
#[tactic(auto, unfolding(crate::specs::Meaning::base_at))]
fn read_base(mut text: &[u8]) -> Option<RifOn<Rid>>
    ensures value { result ≡ base_at text.entry.now }
    ensures proper { IfSome result IsBase }
{
    let kind = next_word(&mut text)?;
    let id = read_id(&mut text)?;
    match kind {
        b"port" => Some(RifOn::Port(id)),
        b"vlan" => Some(RifOn::Vlan(id)),
        _ => None,
    }
}

/// An address of the switch itself.
#[tactic(auto, unfolding(crate::specs::Meaning::own_address_at))]
fn read_own_address(mut text: &[u8]) -> Option<Body<Rid>>
    ensures value { result ≡ own_address_at text.entry.now }
    ensures proper { IfSome result IsBodyInRange }
{
    let vr = read_id_or_none(&mut text)?;
    let ip = read_ip(&mut text)?;
    Some(Body::OwnAddress { vr, ip })
}

/// A neighbour.
#[tactic(auto, unfolding(crate::specs::Meaning::neighbor_at))]
fn read_neighbor(mut text: &[u8]) -> Option<Body<Rid>>
    ensures value { result ≡ neighbor_at text.entry.now }
    ensures proper { IfSome result IsBodyInRange }
{
    let rif = read_id(&mut text)?;
    let ip = read_ip(&mut text)?;
    let mac = read_mac(&mut text)?;
    Some(Body::Neighbor { rif, ip, mac })
}

/// A next hop.
#[tactic(auto, unfolding(crate::specs::Meaning::next_hop_at))]
fn read_next_hop(mut text: &[u8]) -> Option<Body<Rid>>
    ensures value { result ≡ next_hop_at text.entry.now }
    ensures proper { IfSome result IsBodyInRange }
{
    let rif = read_id(&mut text)?;
    let ip = read_ip(&mut text)?;
    Some(Body::NextHop { rif, ip })
}

/// A member of a group.
#[tactic(auto, unfolding(crate::specs::Meaning::group_member_at))]
fn read_group_member(mut text: &[u8]) -> Option<Body<Rid>>
    ensures value { result ≡ group_member_at text.entry.now }
    ensures proper { IfSome result IsBodyInRange }
{
    let group = read_id(&mut text)?;
    let next_hop = read_id(&mut text)?;
    let weight = read_weight(&mut text)?;
    Some(Body::GroupMember {
        group,
        next_hop,
        weight,
    })
}

/// A route.
#[tactic(auto, unfolding(crate::specs::Meaning::route_at))]
fn read_route(mut text: &[u8]) -> Option<Body<Rid>>
    ensures value { result ≡ route_at text.entry.now }
    ensures proper { IfSome result IsBodyInRange }
{
    let vr = read_id_or_none(&mut text)?;
    let prefix = read_prefix(&mut text)?;
    let to = read_target(text)?;
    Some(Body::Route { vr, prefix, to })
}

/// Where a route points.
#[tactic(auto, unfolding(crate::specs::Meaning::target_at))]
fn read_target(mut text: &[u8]) -> Option<To<Rid>>
    ensures value { result ≡ target_at text.entry.now }
    ensures proper { IfSome result IsTarget }
{
    match next_word(&mut text)? {
        b"drop" => Some(To::Drop),
        kind => read_target_id(kind, text),
    }
}

/// The object at which a route points, of this kind.
#[tactic(auto, unfolding(crate::specs::Meaning::target_by))]
fn read_target_id(kind: &[u8], mut text: &[u8]) -> Option<To<Rid>>
    ensures value { result ≡ target_by kind.now text.entry.now }
    ensures proper { IfSome result IsTarget }
{
    let id = read_id(&mut text)?;
    match kind {
        b"rif" => Some(To::Rif(id)),
        b"hop" => Some(To::NextHop(id)),
        b"group" => Some(To::Group(id)),
        _ => None,
    }
}

/// An entry.
#[tactic(auto, unfolding(crate::specs::Meaning::entry_at))]
fn read_entry(text: &mut &[u8]) -> Option<Entry<Rid>>
    ensures value { value_and_rest result text.new.now ≡ entry_at text.old.now }
    ensures proper { IfSome result IsEntryInRange }
{
    match next_word(text)? {
        b"oid" => read_oid(text),
        b"own" => read_own(text),
        b"neigh" => read_neigh(text),
        b"route" => read_route_entry(text),
        _ => None,
    }
}

/// An entry that is an identifier.
#[tactic(auto, unfolding(crate::specs::Meaning::oid_at))]
fn read_oid(text: &mut &[u8]) -> Option<Entry<Rid>>
    ensures value { value_and_rest result text.new.now ≡ oid_at text.old.now }
    ensures proper { IfSome result IsEntryInRange }
{
    let id = read_id(text)?;
    Some(Entry::Oid(id))
}

/// The entry of an address of the switch itself.
#[tactic(auto, unfolding(crate::specs::Meaning::own_at))]
fn read_own(text: &mut &[u8]) -> Option<Entry<Rid>>
    ensures value { value_and_rest result text.new.now ≡ own_at text.old.now }
    ensures proper { IfSome result IsEntryInRange }
{
    let vr = read_id_or_none(text)?;
    let ip = read_ip(text)?;
    Some(Entry::Own(vr, ip))
}

/// The entry of a neighbour.
#[tactic(auto, unfolding(crate::specs::Meaning::neigh_at))]
fn read_neigh(text: &mut &[u8]) -> Option<Entry<Rid>>
    ensures value { value_and_rest result text.new.now ≡ neigh_at text.old.now }
    ensures proper { IfSome result IsEntryInRange }
{
    let rif = read_id(text)?;
    let ip = read_ip(text)?;
    Some(Entry::Neigh(rif, ip))
}

/// The entry of a route.
#[tactic(auto, unfolding(crate::specs::Meaning::route_entry_at))]
fn read_route_entry(text: &mut &[u8]) -> Option<Entry<Rid>>
    ensures value { value_and_rest result text.new.now ≡ route_entry_at text.old.now }
    ensures proper { IfSome result IsEntryInRange }
{
    let vr = read_id_or_none(text)?;
    let prefix = read_prefix(text)?;
    Some(Entry::Route(vr, prefix))
}

/// A new value of an attribute.
#[tactic(auto, unfolding(crate::specs::Meaning::attr_at))]
fn read_attr(mut text: &[u8]) -> Option<Attr<Rid>>
    ensures value { result ≡ attr_at text.entry.now }
    ensures proper { IfSome result IsAttrInRange }
{
    let word = next_word(&mut text)?;
    if word == b"speed".as_slice() {
        Some(Attr::Speed(read_speed(&mut text)?))
    } else if word == b"mtu".as_slice() {
        Some(Attr::Mtu(read_mtu(&mut text)?))
    } else if word == b"tagging".as_slice() {
        Some(Attr::Tagging(read_tagging(&mut text)?))
    } else if word == b"mac".as_slice() {
        Some(Attr::Mac(read_mac(&mut text)?))
    } else if word == b"to".as_slice() {
        Some(Attr::To(read_target(text)?))
    } else {
        Some(Attr::Up(state_in(word)?))
    }
}
