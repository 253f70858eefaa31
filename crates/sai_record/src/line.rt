// The line of a call.
ghost use Rattle.std.specs.Prelude.{◌≡◌, [], ◌∷◌, ◌++◌, codes, OnOk};
ghost use Rattle.std.specs.Fmt.{decimal};
ghost use Rattle.sai_record.specs.Line.{attr_words, base_words, body_words, entry_words, id_or_none, id_word, call_line, spaced, admin_word, target_words};
ghost use Rattle.swss_types.specs.Ip.{ip_text};
ghost use Rattle.swss_types.specs.Lanes.{lanes_text};
ghost use Rattle.swss_types.specs.Mac.{mac_text};
ghost use Rattle.swss_types.specs.Prefix.{prefix_text};
ghost use Rattle.swss_types.specs.Tagging.{tagging_text};
ghost use Rattle.swss_types.specs.VrfNames.{vrf_name_text};

use crate::Recorded;
use sai_types::{Attr, Body, Call, Entry, Rid, RifOn, To, Weight};
use swss_types::{Ip, Lanes, Mac, OutOfMemory, Prefix, Tagging, VrfName, write_number};

/// Appends the line of a call, without its end. An Err may leave a part of it.
pub(crate) fn write_line(out: &mut Vec<u8>, recorded: &Recorded) -> Result<(), OutOfMemory>
    ensures { OnOk result (out.new.items ≡ out.old.items ++ call_line recorded.now) }
{
    match &recorded.call {
        Call::Create(body) => {
            out.push(b'c')?;
            write_id_or_none(out, recorded.made)?;
            write_body(out, body)
        }
        Call::Set(entry, attr) => {
            out.push(b's')?;
            write_entry(out, *entry)?;
            write_attr(out, *attr)
        }
        Call::Remove(entry) => {
            out.push(b'r')?;
            write_entry(out, *entry)
        }
    }
}

/// Appends the words of a body.
fn write_body(out: &mut Vec<u8>, body: &Body<Rid>) -> Result<(), OutOfMemory>
    ensures { OnOk result (out.new.items ≡ out.old.items ++ spaced (body_words body.now)) }
{
    match body {
        Body::Port {
            lanes,
            speed,
            mtu,
            up,
        } => write_port(out, lanes, *speed, *mtu, *up),
        Body::Vlan { vlan } => {
            out.extend_from_slice(b" VLAN ")?;
            write_number(out, u64::from(*vlan))
        }
        Body::VirtualRouter { label } => write_router(out, *label),
        Body::BridgePort { port } => {
            out.extend_from_slice(b" BRIDGE_PORT")?;
            write_id(out, *port)
        }
        Body::VlanMember {
            vlan,
            bridge_port,
            tagging,
        } => write_vlan_member(out, *vlan, *bridge_port, *tagging),
        Body::Rif { vr, on } => write_rif(out, *vr, *on),
        Body::OwnAddress { vr, ip } => write_own_address(out, *vr, *ip),
        Body::Neighbor { rif, ip, mac } => write_neighbor(out, *rif, *ip, *mac),
        Body::NextHop { rif, ip } => {
            out.extend_from_slice(b" NEXT_HOP")?;
            write_id(out, *rif)?;
            write_ip(out, *ip)
        }
        Body::Group => {
            out.extend_from_slice(b" GROUP")?;
            Ok(())
        }
        Body::GroupMember {
            group,
            next_hop,
            weight,
        } => write_group_member(out, *group, *next_hop, *weight),
        Body::Route { vr, prefix, to } => write_route(out, *vr, *prefix, *to),
    }
}

/// Appends the words of a port.
fn write_port(
    out: &mut Vec<u8>,
    lanes: &Lanes,
    speed: u32,
    mtu: u32,
    up: bool,
) -> Result<(), OutOfMemory>
    ensures { OnOk result (out.new.items ≡ out.old.items ++ spaced (body_words (Body.Port lanes.now speed mtu up))) }
{
    out.extend_from_slice(b" PORT ")?;
    lanes.write(out)?;
    write_value(out, u64::from(speed))?;
    write_value(out, u64::from(mtu))?;
    write_state(out, up)
}

/// Appends the words of a virtual router.
fn write_router(out: &mut Vec<u8>, label: VrfName) -> Result<(), OutOfMemory>
    ensures { OnOk result (out.new.items ≡ out.old.items ++ spaced (body_words (Body.VirtualRouter label))) }
{
    out.extend_from_slice(b" VIRTUAL_ROUTER")?;
    write_vrf_name(out, label)
}

/// Appends the words of a member of a VLAN.
fn write_vlan_member(
    out: &mut Vec<u8>,
    vlan: Rid,
    bridge_port: Rid,
    tagging: Tagging,
) -> Result<(), OutOfMemory>
    ensures { OnOk result (out.new.items ≡ out.old.items ++ spaced (body_words (Body.VlanMember vlan bridge_port tagging))) }
{
    out.extend_from_slice(b" VLAN_MEMBER")?;
    write_id(out, vlan)?;
    write_id(out, bridge_port)?;
    write_tagging(out, tagging)
}

/// Appends the words of a router interface.
fn write_rif(out: &mut Vec<u8>, vr: Option<Rid>, on: RifOn<Rid>) -> Result<(), OutOfMemory>
    ensures { OnOk result (out.new.items ≡ out.old.items ++ spaced (body_words (Body.Rif vr on))) }
{
    out.extend_from_slice(b" RIF")?;
    write_id_or_none(out, vr)?;
    match on {
        RifOn::Port(port) => {
            out.extend_from_slice(b" port")?;
            write_id(out, port)
        }
        RifOn::Vlan(vlan) => {
            out.extend_from_slice(b" vlan")?;
            write_id(out, vlan)
        }
    }
}

/// Appends the words of an address of the switch itself.
fn write_own_address(out: &mut Vec<u8>, vr: Option<Rid>, ip: Ip) -> Result<(), OutOfMemory>
    ensures { OnOk result (out.new.items ≡ out.old.items ++ spaced (body_words (Body.OwnAddress vr ip))) }
{
    out.extend_from_slice(b" OWN_ADDRESS")?;
    write_id_or_none(out, vr)?;
    write_ip(out, ip)
}

/// Appends the words of a neighbour.
fn write_neighbor(out: &mut Vec<u8>, rif: Rid, ip: Ip, mac: Mac) -> Result<(), OutOfMemory>
    ensures { OnOk result (out.new.items ≡ out.old.items ++ spaced (body_words (Body.Neighbor rif ip mac))) }
{
    out.extend_from_slice(b" NEIGHBOR")?;
    write_id(out, rif)?;
    write_ip(out, ip)?;
    write_mac(out, mac)
}

/// Appends the words of a member of a group.
fn write_group_member(
    out: &mut Vec<u8>,
    group: Rid,
    next_hop: Rid,
    weight: Weight,
) -> Result<(), OutOfMemory>
    ensures { OnOk result (out.new.items ≡ out.old.items ++ spaced (body_words (Body.GroupMember group next_hop weight))) }
{
    out.extend_from_slice(b" GROUP_MEMBER")?;
    write_id(out, group)?;
    write_id(out, next_hop)?;
    write_value(out, u64::from(weight.get()))
}

/// Appends the words of a route.
fn write_route(
    out: &mut Vec<u8>,
    vr: Option<Rid>,
    prefix: Prefix,
    to: To<Rid>,
) -> Result<(), OutOfMemory>
    ensures { OnOk result (out.new.items ≡ out.old.items ++ spaced (body_words (Body.Route vr prefix to))) }
{
    out.extend_from_slice(b" ROUTE")?;
    write_id_or_none(out, vr)?;
    write_prefix(out, prefix)?;
    write_target(out, to)
}

/// Appends the words of an entry.
fn write_entry(out: &mut Vec<u8>, entry: Entry<Rid>) -> Result<(), OutOfMemory>
    ensures { OnOk result (out.new.items ≡ out.old.items ++ spaced (entry_words entry)) }
{
    match entry {
        Entry::Oid(id) => {
            out.extend_from_slice(b" oid")?;
            write_id(out, id)
        }
        Entry::Own(vr, ip) => {
            out.extend_from_slice(b" own")?;
            write_id_or_none(out, vr)?;
            write_ip(out, ip)
        }
        Entry::Neigh(rif, ip) => {
            out.extend_from_slice(b" neigh")?;
            write_id(out, rif)?;
            write_ip(out, ip)
        }
        Entry::Route(vr, prefix) => {
            out.extend_from_slice(b" route")?;
            write_id_or_none(out, vr)?;
            write_prefix(out, prefix)
        }
    }
}

/// Appends the words of a new value of an attribute.
fn write_attr(out: &mut Vec<u8>, attr: Attr<Rid>) -> Result<(), OutOfMemory>
    ensures { OnOk result (out.new.items ≡ out.old.items ++ spaced (attr_words attr)) }
{
    match attr {
        Attr::Speed(speed) => {
            out.extend_from_slice(b" speed")?;
            write_value(out, u64::from(speed))
        }
        Attr::Mtu(mtu) => {
            out.extend_from_slice(b" mtu")?;
            write_value(out, u64::from(mtu))
        }
        Attr::Up(up) => write_state(out, up),
        Attr::Tagging(tagging) => {
            out.extend_from_slice(b" tagging ")?;
            tagging.write(out)
        }
        Attr::Mac(mac) => {
            out.extend_from_slice(b" mac")?;
            write_mac(out, mac)
        }
        Attr::To(to) => {
            out.extend_from_slice(b" to")?;
            write_target(out, to)
        }
    }
}

/// Appends the words of where a route points.
fn write_target(out: &mut Vec<u8>, to: To<Rid>) -> Result<(), OutOfMemory>
    ensures { OnOk result (out.new.items ≡ out.old.items ++ spaced (target_words to)) }
{
    match to {
        To::Drop => {
            out.extend_from_slice(b" drop")?;
            Ok(())
        }
        To::Rif(rif) => {
            out.extend_from_slice(b" rif")?;
            write_id(out, rif)
        }
        To::NextHop(next_hop) => {
            out.extend_from_slice(b" hop")?;
            write_id(out, next_hop)
        }
        To::Group(group) => {
            out.extend_from_slice(b" group")?;
            write_id(out, group)
        }
    }
}

/// Appends an identifier behind a space.
fn write_id(out: &mut Vec<u8>, id: Rid) -> Result<(), OutOfMemory>
    ensures { OnOk result (out.new.items ≡ out.old.items ++ 32 ∷ id_word id) }
{
    write_value(out, id.0)
}

/// Appends an identifier behind a space, or `-` where there is none.
fn write_id_or_none(out: &mut Vec<u8>, id: Option<Rid>) -> Result<(), OutOfMemory>
    ensures { OnOk result (out.new.items ≡ out.old.items ++ 32 ∷ id_or_none id) }
{
    match id {
        None => {
            out.extend_from_slice(b" -")?;
            Ok(())
        }
        Some(id) => write_id(out, id),
    }
}

/// Appends whether a port is administratively up, behind a space.
fn write_state(out: &mut Vec<u8>, up: bool) -> Result<(), OutOfMemory>
    ensures { OnOk result (out.new.items ≡ out.old.items ++ 32 ∷ admin_word up) }
{
    out.extend_from_slice(if up { b" up" } else { b" down" })?;
    Ok(())
}

/// Appends an address behind a space.
fn write_ip(out: &mut Vec<u8>, ip: Ip) -> Result<(), OutOfMemory>
    ensures { OnOk result (out.new.items ≡ out.old.items ++ 32 ∷ ip_text ip) }
{
    out.push(b' ')?;
    ip.write(out)
}

/// Appends an Ethernet address behind a space.
fn write_mac(out: &mut Vec<u8>, mac: Mac) -> Result<(), OutOfMemory>
    ensures { OnOk result (out.new.items ≡ out.old.items ++ 32 ∷ mac_text mac) }
{
    out.push(b' ')?;
    mac.write(out)
}

/// Appends a tagging behind a space.
fn write_tagging(out: &mut Vec<u8>, tagging: Tagging) -> Result<(), OutOfMemory>
    ensures { OnOk result (out.new.items ≡ out.old.items ++ 32 ∷ tagging_text tagging) }
{
    out.push(b' ')?;
    tagging.write(out)
}

/// Appends the name of a virtual router behind a space.
fn write_vrf_name(out: &mut Vec<u8>, name: VrfName) -> Result<(), OutOfMemory>
    ensures { OnOk result (out.new.items ≡ out.old.items ++ 32 ∷ vrf_name_text name) }
{
    out.push(b' ')?;
    name.write(out)
}

/// Appends a prefix behind a space.
fn write_prefix(out: &mut Vec<u8>, prefix: Prefix) -> Result<(), OutOfMemory>
    ensures { OnOk result (out.new.items ≡ out.old.items ++ 32 ∷ prefix_text prefix) }
{
    out.push(b' ')?;
    prefix.write(out)
}

/// Appends a number behind a space.
pub(crate) fn write_value(out: &mut Vec<u8>, number: u64) -> Result<(), OutOfMemory>
    ensures { OnOk result (out.new.items ≡ out.old.items ++ 32 ∷ decimal number) }
{
    out.push(b' ')?;
    write_number(out, number)
}
