// Bodies, entries, attributes and calls by other identifiers.
ghost use Rattle.std.specs.Prelude.{◌≡◌, IfOk, option_map};
ghost use Rattle.chip_layout.specs.Renamed.{attr_renamed, body_renamed, call_renamed, entry_renamed, on_renamed, to_renamed};

use sai_types::{Attr, Body, Call, Entry, RifOn, To, Weight};
use swss_types::{Ip, Lanes, Mac, OutOfMemory, Prefix, Tagging};

/// What gives another identifier for each.
pub trait NewIds<I, J> {
    /// The other identifier of each.
    ghost new_id: { Self → I → J };

    /// The other identifier of one.
    fn new_id(&self, id: I) -> J
        ensures { result ≡ new_id self.now id };
}

/// What an interface stands on, by the other identifiers.
pub fn on_with_ids<I, J, N: NewIds<I, J>>(ids: &N, on: RifOn<I>) -> RifOn<J>
    ensures { result ≡ on_renamed (N.new_id ids.now) on }
{
    match on {
        RifOn::Port(port) => RifOn::Port(ids.new_id(port)),
        RifOn::Vlan(vlan) => RifOn::Vlan(ids.new_id(vlan)),
    }
}

/// Where a route points, by the other identifiers.
pub fn to_with_ids<I, J, N: NewIds<I, J>>(ids: &N, to: To<I>) -> To<J>
    ensures { result ≡ to_renamed (N.new_id ids.now) to }
{
    match to {
        To::Drop => To::Drop,
        To::Rif(rif) => To::Rif(ids.new_id(rif)),
        To::NextHop(next_hop) => To::NextHop(ids.new_id(next_hop)),
        To::Group(group) => To::Group(ids.new_id(group)),
    }
}

/// The virtual router of an object, by the other identifiers.
pub fn vr_with_ids<I, J, N: NewIds<I, J>>(ids: &N, vr: Option<I>) -> Option<J>
    ensures { result ≡ option_map (N.new_id ids.now) vr }
{
    match vr {
        None => None,
        Some(vr) => Some(ids.new_id(vr)),
    }
}

/// A body by the other identifiers.
pub fn body_with_ids<I: Copy, J, N: NewIds<I, J>>(
    ids: &N,
    body: &Body<I>,
) -> Result<Body<J>, OutOfMemory>
    ensures { IfOk result (λ other. other ≡ body_renamed (N.new_id ids.now) body.now) }
{
    Ok(match body {
        Body::Port {
            lanes,
            speed,
            mtu,
            up,
        } => port(lanes, *speed, *mtu, *up)?,
        Body::Vlan { vlan } => Body::Vlan { vlan: *vlan },
        Body::VirtualRouter { label } => Body::VirtualRouter { label: *label },
        Body::BridgePort { port } => Body::BridgePort {
            port: ids.new_id(*port),
        },
        Body::VlanMember {
            vlan,
            bridge_port,
            tagging,
        } => vlan_member(ids, *vlan, *bridge_port, *tagging),
        Body::Rif { vr, on } => rif(ids, *vr, *on),
        Body::OwnAddress { vr, ip } => Body::OwnAddress {
            vr: vr_with_ids(ids, *vr),
            ip: *ip,
        },
        Body::Neighbor { rif, ip, mac } => neighbor(ids, *rif, *ip, *mac),
        Body::NextHop { rif, ip } => next_hop(ids, *rif, *ip),
        Body::Group => Body::Group,
        Body::GroupMember {
            group,
            next_hop,
            weight,
        } => group_member(ids, *group, *next_hop, *weight),
        Body::Route { vr, prefix, to } => route(ids, *vr, *prefix, *to),
    })
}

/// A port.
fn port<J>(lanes: &Lanes, speed: u32, mtu: u32, up: bool) -> Result<Body<J>, OutOfMemory>
    ensures { IfOk result (λ other. other ≡ Body.Port lanes.now speed mtu up) }
{
    let lanes = lanes.copy()?;
    Ok(Body::Port {
        lanes,
        speed,
        mtu,
        up,
    })
}

/// A member of a VLAN.
fn vlan_member<I, J, N: NewIds<I, J>>(ids: &N, vlan: I, bridge_port: I, tagging: Tagging) -> Body<J>
    ensures { result ≡ body_renamed (N.new_id ids.now) (Body.VlanMember vlan bridge_port tagging) }
{
    Body::VlanMember {
        vlan: ids.new_id(vlan),
        bridge_port: ids.new_id(bridge_port),
        tagging,
    }
}

/// A router interface.
fn rif<I, J, N: NewIds<I, J>>(ids: &N, vr: Option<I>, on: RifOn<I>) -> Body<J>
    ensures { result ≡ body_renamed (N.new_id ids.now) (Body.Rif vr on) }
{
    Body::Rif {
        vr: vr_with_ids(ids, vr),
        on: on_with_ids(ids, on),
    }
}

/// A neighbour.
fn neighbor<I, J, N: NewIds<I, J>>(ids: &N, rif: I, ip: Ip, mac: Mac) -> Body<J>
    ensures { result ≡ body_renamed (N.new_id ids.now) (Body.Neighbor rif ip mac) }
{
    let rif = ids.new_id(rif);
    Body::Neighbor { rif, ip, mac }
}

/// A next hop.
fn next_hop<I, J, N: NewIds<I, J>>(ids: &N, rif: I, ip: Ip) -> Body<J>
    ensures { result ≡ body_renamed (N.new_id ids.now) (Body.NextHop rif ip) }
{
    let rif = ids.new_id(rif);
    Body::NextHop { rif, ip }
}

/// A member of a group.
fn group_member<I, J, N: NewIds<I, J>>(ids: &N, group: I, next_hop: I, weight: Weight) -> Body<J>
    ensures { result ≡ body_renamed (N.new_id ids.now) (Body.GroupMember group next_hop weight) }
{
    Body::GroupMember {
        group: ids.new_id(group),
        next_hop: ids.new_id(next_hop),
        weight,
    }
}

/// A route.
fn route<I, J, N: NewIds<I, J>>(ids: &N, vr: Option<I>, prefix: Prefix, to: To<I>) -> Body<J>
    ensures { result ≡ body_renamed (N.new_id ids.now) (Body.Route vr prefix to) }
{
    Body::Route {
        vr: vr_with_ids(ids, vr),
        prefix,
        to: to_with_ids(ids, to),
    }
}

/// An entry by the other identifiers.
pub fn entry_with_ids<I, J, N: NewIds<I, J>>(ids: &N, entry: Entry<I>) -> Entry<J>
    ensures { result ≡ entry_renamed (N.new_id ids.now) entry }
{
    match entry {
        Entry::Oid(id) => Entry::Oid(ids.new_id(id)),
        Entry::Own(vr, ip) => Entry::Own(vr_with_ids(ids, vr), ip),
        Entry::Neigh(rif, ip) => Entry::Neigh(ids.new_id(rif), ip),
        Entry::Route(vr, prefix) => Entry::Route(vr_with_ids(ids, vr), prefix),
    }
}

/// A value of an attribute by the other identifiers.
pub fn attr_with_ids<I, J, N: NewIds<I, J>>(ids: &N, attr: Attr<I>) -> Attr<J>
    ensures { result ≡ attr_renamed (N.new_id ids.now) attr }
{
    match attr {
        Attr::Speed(speed) => Attr::Speed(speed),
        Attr::Mtu(mtu) => Attr::Mtu(mtu),
        Attr::Up(up) => Attr::Up(up),
        Attr::Tagging(tagging) => Attr::Tagging(tagging),
        Attr::Mac(mac) => Attr::Mac(mac),
        Attr::To(to) => Attr::To(to_with_ids(ids, to)),
    }
}

/// A call by the other identifiers.
pub fn call_with_ids<I: Copy, J, N: NewIds<I, J>>(
    ids: &N,
    call: &Call<I>,
) -> Result<Call<J>, OutOfMemory>
    ensures { IfOk result (λ other. other ≡ call_renamed (N.new_id ids.now) call.now) }
{
    Ok(match call {
        Call::Create(body) => Call::Create(body_with_ids(ids, body)?),
        Call::Set(entry, attr) => {
            Call::Set(entry_with_ids(ids, *entry), attr_with_ids(ids, *attr))
        }
        Call::Remove(entry) => Call::Remove(entry_with_ids(ids, *entry)),
    })
}
