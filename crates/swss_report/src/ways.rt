// Where the packets of an address go, as the report says it.
ghost use Rattle.std.specs.Prelude.{◌≡◌, ◌++◌, flat_map, OnOk};
ghost use Rattle.sai_types.specs.Forwarding.{forward};
ghost use Rattle.sai_types.specs.Named.{named, those};
ghost use Rattle.sai_chip.specs.Forward.{answer_of};
ghost use Rattle.swss_report.specs.Ways.{answer_text, asked_text, forward_text, way_text};

use crate::chip_line::{write_base, write_whop};
use sai_chip::{Forward, SimChip};
use sai_types::WHop;
use std::alloc::Global;
use swss_types::{Ip, Mac, OutOfMemory, Vrf};
use table_schema::PortPlan;

/// Appends the line of an address in a virtual router: where the chip sends its packets. An Err may leave a part of it.
pub(crate) fn write_forward(
    alloc: Global,
    out: &mut Vec<u8>,
    plan: &PortPlan,
    chip: &SimChip,
    vrf: &Vrf,
    ip: &Ip,
) -> Result<(), OutOfMemory>
    ensures { OnOk result (out.new.items ≡ out.old.items ++ forward_text plan.now vrf.now ip.now (answer_of (forward (those (named chip.now.objects)) (record { vrf = vrf.now; to = ip.now })))) }
{
    let answer = chip.forward(alloc, *vrf, *ip)?;
    out.extend_from_slice(b"forward ")?;
    write_asked(out, vrf)?;
    ip.write(out)?;
    write_answer(out, plan, &answer)?;
    out.push(b'\n')?;
    Ok(())
}

/// Appends the virtual router that was asked, unless it is the default one.
fn write_asked(out: &mut Vec<u8>, vrf: &Vrf) -> Result<(), OutOfMemory>
    ensures { OnOk result (out.new.items ≡ out.old.items ++ asked_text vrf.now) }
{
    match vrf {
        Vrf::Default => Ok(()),
        Vrf::Named(label) => {
            label.write(out)?;
            out.push(b' ')?;
            Ok(())
        }
    }
}

/// Appends where packets go.
fn write_answer(out: &mut Vec<u8>, plan: &PortPlan, answer: &Forward) -> Result<(), OutOfMemory>
    ensures { OnOk result (out.new.items ≡ out.old.items ++ answer_text plan.now answer.now) }
{
    match answer {
        Forward::Cpu => out.extend_from_slice(b" cpu")?,
        Forward::Drop => out.extend_from_slice(b" drop")?,
        Forward::Direct(base) => {
            out.extend_from_slice(b" direct ")?;
            write_base(out, plan, base)?;
        }
        Forward::Via(ways) => {
            out.extend_from_slice(b" via")?;
            write_ways(out, plan, ways.items())?;
        }
    }
    Ok(())
}

/// Appends hops with their weights and Ethernet addresses.
fn write_ways(out: &mut Vec<u8>, plan: &PortPlan, ways: &[(WHop, Mac)]) -> Result<(), OutOfMemory>
    ensures { OnOk result (out.new.items ≡ out.old.items ++ flat_map (way_text plan.now) ways.now) }
{
    for (whop, mac) in ways {
        write_way(out, plan, whop, mac)?;
    }
    Ok(())
}

/// Appends a hop with its weight and its Ethernet address, behind a blank.
fn write_way(out: &mut Vec<u8>, plan: &PortPlan, whop: &WHop, mac: &Mac) -> Result<(), OutOfMemory>
    ensures { OnOk result (out.new.items ≡ out.old.items ++ way_text plan.now (whop.now, mac.now)) }
{
    out.push(b' ')?;
    write_whop(out, plan, whop)?;
    out.push(b'/')?;
    mac.write(out)
}
