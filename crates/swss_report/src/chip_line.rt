// The line of a thing that stands on the chip.
ghost use Rattle.std.specs.Prelude.{◌≡◌, ◌∷◌, ◌++◌, flat_map, OnOk};
ghost use Rattle.swss_report.specs.ChipLine.{base_text, chip_line, goal_text, hop_text, hops_text, membership_text, port_line, port_text, within_text, thing_text, weight_text, whop_text};
ghost use Rattle.swss_types.specs.Tagging.{tagging_text};
ghost use Rattle.table_schema.specs.Plan.{port_named};

use sai_types::{Base, Goal, Hop, PortThing, Thing, WHop, Weight};
use swss_types::{IfName, Mac, OutOfMemory, Tagging, Vrf, write_number};
use table_schema::PortPlan;

/// Appends the line of a thing, with its end. Ports go by their names in the plan. An Err may leave a part of it.
pub fn write_chip_line(out: &mut Vec<u8>, plan: &PortPlan, thing: &Thing) -> Result<(), OutOfMemory>
    ensures { OnOk result (out.new.items ≡ out.old.items ++ chip_line plan.now thing.now) }
{
    write_thing(out, plan, thing)?;
    out.push(b'\n')?;
    Ok(())
}

/// Appends the words of a thing.
pub(crate) fn write_thing(
    out: &mut Vec<u8>,
    plan: &PortPlan,
    thing: &Thing,
) -> Result<(), OutOfMemory>
    ensures { OnOk result (out.new.items ≡ out.old.items ++ thing_text plan.now thing.now) }
{
    match thing {
        Thing::Port(port) => write_port(out, plan, port)?,
        Thing::Vlan(vlan) => {
            out.extend_from_slice(b"VLAN ")?;
            IfName::Vlan(*vlan).write(out)?;
        }
        Thing::VirtualRouter(label) => {
            out.extend_from_slice(b"VIRTUAL_ROUTER ")?;
            label.write(out)?;
        }
        Thing::BridgePort(lane) => write_bridge_port(out, plan, *lane)?,
        Thing::VlanMember(vlan, lane, tagging) => write_member(out, plan, *vlan, *lane, *tagging)?,
        Thing::Rif(base, vrf) => {
            out.extend_from_slice(b"RIF ")?;
            write_base(out, plan, base)?;
            write_router(out, vrf)?;
        }
        Thing::Own(vrf, ip) => {
            out.extend_from_slice(b"OWN_ADDRESS ")?;
            ip.write(out)?;
            write_router(out, vrf)?;
        }
        Thing::Neighbor(hop, mac) => write_neighbor(out, plan, hop, mac)?,
        Thing::NextHop(hop) => {
            out.extend_from_slice(b"NEXT_HOP ")?;
            write_hop(out, plan, hop)?;
        }
        Thing::Group(hops) => {
            out.extend_from_slice(b"GROUP ")?;
            write_hops(out, plan, hops.items())?;
        }
        Thing::GroupMember(hops, whop) => {
            out.extend_from_slice(b"GROUP_MEMBER ")?;
            write_hops(out, plan, hops.items())?;
            out.push(b' ')?;
            write_whop(out, plan, whop)?;
        }
        Thing::Route(vrf, prefix, goal) => {
            out.extend_from_slice(b"ROUTE ")?;
            prefix.write(out)?;
            write_router(out, vrf)?;
            write_goal(out, plan, goal)?;
        }
    }
    Ok(())
}

/// The virtual router that something is in, unless it is the default one.
fn write_router(out: &mut Vec<u8>, vrf: &Vrf) -> Result<(), OutOfMemory>
    ensures { OnOk result (out.new.items ≡ out.old.items ++ within_text vrf.now) }
{
    match vrf {
        Vrf::Default => Ok(()),
        Vrf::Named(label) => {
            out.extend_from_slice(b" in ")?;
            label.write(out)
        }
    }
}

/// A bridge port, by its port.
fn write_bridge_port(out: &mut Vec<u8>, plan: &PortPlan, lane: u16) -> Result<(), OutOfMemory>
    ensures { OnOk result (out.new.items ≡ out.old.items ++ thing_text plan.now (Thing.BridgePort lane)) }
{
    out.extend_from_slice(b"BRIDGE_PORT ")?;
    write_port_name(out, plan, lane)?;
    Ok(())
}

/// A member of a VLAN: the VLAN, the port and the tagging.
fn write_member(
    out: &mut Vec<u8>,
    plan: &PortPlan,
    vlan: u16,
    lane: u16,
    tagging: Tagging,
) -> Result<(), OutOfMemory>
    ensures { OnOk result (out.new.items ≡ out.old.items ++ thing_text plan.now (Thing.VlanMember vlan lane tagging)) }
{
    out.extend_from_slice(b"VLAN_MEMBER ")?;
    write_membership(out, plan, vlan, lane, tagging)?;
    Ok(())
}

/// A VLAN, a port and the tagging.
fn write_membership(
    out: &mut Vec<u8>,
    plan: &PortPlan,
    vlan: u16,
    lane: u16,
    tagging: Tagging,
) -> Result<(), OutOfMemory>
    ensures { OnOk result (out.new.items ≡ out.old.items ++ membership_text plan.now vlan lane tagging) }
{
    IfName::Vlan(vlan).write(out)?;
    out.push(b' ')?;
    write_tagged_port(out, plan, lane, tagging)
}

/// A port and the tagging.
fn write_tagged_port(
    out: &mut Vec<u8>,
    plan: &PortPlan,
    lane: u16,
    tagging: Tagging,
) -> Result<(), OutOfMemory>
    ensures { OnOk result (out.new.items ≡ out.old.items ++ (port_text (port_named plan.now lane) ++ 32 ∷ tagging_text tagging)) }
{
    write_port_name(out, plan, lane)?;
    out.push(b' ')?;
    tagging.write(out)
}

/// A port with its attributes.
fn write_port(out: &mut Vec<u8>, plan: &PortPlan, port: &PortThing) -> Result<(), OutOfMemory>
    ensures { OnOk result (out.new.items ≡ out.old.items ++ port_line plan.now port.now) }
{
    out.extend_from_slice(b"PORT ")?;
    write_port_name(out, plan, port.lanes.first())?;
    out.extend_from_slice(b" lanes ")?;
    port.lanes.write(out)?;
    out.extend_from_slice(b" speed ")?;
    write_number(out, u64::from(port.speed))?;
    out.extend_from_slice(b" mtu ")?;
    write_number(out, u64::from(port.mtu))?;
    out.extend_from_slice(if port.up {
        b" admin up"
    } else {
        b" admin down"
    })?;
    Ok(())
}

/// A neighbour: its interface, its address and its Ethernet address.
fn write_neighbor(
    out: &mut Vec<u8>,
    plan: &PortPlan,
    hop: &Hop,
    mac: &Mac,
) -> Result<(), OutOfMemory>
    ensures { OnOk result (out.new.items ≡ out.old.items ++ thing_text plan.now (Thing.Neighbor hop.now mac.now)) }
{
    out.extend_from_slice(b"NEIGHBOR ")?;
    write_base(out, plan, &hop.on)?;
    out.push(b' ')?;
    hop.ip.write(out)?;
    out.push(b' ')?;
    mac.write(out)
}

/// Where a route goes, behind a space.
fn write_goal(out: &mut Vec<u8>, plan: &PortPlan, goal: &Goal) -> Result<(), OutOfMemory>
    ensures { OnOk result (out.new.items ≡ out.old.items ++ goal_text plan.now goal.now) }
{
    match goal {
        Goal::Drop => {
            out.extend_from_slice(b" drop")?;
            Ok(())
        }
        Goal::Direct(base) => {
            out.extend_from_slice(b" direct ")?;
            write_base(out, plan, base)
        }
        Goal::Via(hop) => {
            out.extend_from_slice(b" via ")?;
            write_hop(out, plan, hop)
        }
        Goal::Group(hops) => {
            out.extend_from_slice(b" group ")?;
            write_hops(out, plan, hops.items())
        }
    }
}

/// The name of what an interface stands on: the port's in the plan, or the VLAN's.
pub(crate) fn write_base(out: &mut Vec<u8>, plan: &PortPlan, base: &Base) -> Result<(), OutOfMemory>
    ensures { OnOk result (out.new.items ≡ out.old.items ++ base_text plan.now base.now) }
{
    match base {
        Base::Port(lane) => write_port_name(out, plan, *lane),
        Base::Vlan(vlan) => IfName::Vlan(*vlan).write(out),
    }
}

/// The name of the port whose first lane this is.
fn write_port_name(out: &mut Vec<u8>, plan: &PortPlan, lane: u16) -> Result<(), OutOfMemory>
    ensures { OnOk result (out.new.items ≡ out.old.items ++ port_text (port_named plan.now lane)) }
{
    match plan.name_of(lane) {
        Some(port) => IfName::Ethernet(port).write(out),
        None => Ok(()),
    }
}

/// A hop: its address, `@` and its interface.
fn write_hop(out: &mut Vec<u8>, plan: &PortPlan, hop: &Hop) -> Result<(), OutOfMemory>
    ensures { OnOk result (out.new.items ≡ out.old.items ++ hop_text plan.now hop.now) }
{
    hop.ip.write(out)?;
    out.push(b'@')?;
    write_base(out, plan, &hop.on)
}

/// A hop, and behind it its weight.
pub(crate) fn write_whop(out: &mut Vec<u8>, plan: &PortPlan, whop: &WHop) -> Result<(), OutOfMemory>
    ensures { OnOk result (out.new.items ≡ out.old.items ++ whop_text plan.now whop.now) }
{
    write_hop(out, plan, &whop.hop)?;
    write_weight(out, whop.weight)
}

/// `*` and a weight, or nothing for 1.
fn write_weight(out: &mut Vec<u8>, weight: Weight) -> Result<(), OutOfMemory>
    ensures { OnOk result (out.new.items ≡ out.old.items ++ weight_text weight) }
{
    let number = weight.get();
    if number == 1 {
        return Ok(());
    }
    out.push(b'*')?;
    write_number(out, u64::from(number))
}

/// Hops with their weights, joined by commas, or `-` for none.
fn write_hops(out: &mut Vec<u8>, plan: &PortPlan, hops: &[WHop]) -> Result<(), OutOfMemory>
    ensures { OnOk result (out.new.items ≡ out.old.items ++ hops_text plan.now hops.now) }
{
    match hops {
        [] => {
            out.push(b'-')?;
            Ok(())
        }
        [first, others @ ..] => {
            write_whop(out, plan, first)?;
            write_behind(out, plan, others)
        }
    }
}

/// Each hop behind a comma.
fn write_behind(out: &mut Vec<u8>, plan: &PortPlan, hops: &[WHop]) -> Result<(), OutOfMemory>
    ensures { OnOk result (out.new.items ≡ out.old.items ++ flat_map (λ h. 44 ∷ whop_text plan.now h) hops.now) }
{
    for hop in hops {
        out.push(b',')?;
        write_whop(out, plan, hop)?;
    }
    Ok(())
}
