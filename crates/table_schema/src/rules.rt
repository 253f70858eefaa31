// The rules by which a row reads.
ghost use Rattle.std.specs.Prelude.{◌≡◌, IfOk, codes, option_map};
ghost use Rattle.table_schema.specs.Fields.{value_of};
ghost use Rattle.table_schema.specs.Plan.{lanes_in_plan};
ghost use Rattle.table_schema.specs.Rules.{intf_row_of, member_row_of, neigh_row_of, number_or, other_row, port_lanes, port_row_of, port_row_with, row_of, up_of, vrf_of};
ghost use Rattle.table_schema.specs.Split.{split_once};

use crate::broken::bad;
use crate::key_text::split_router;
use crate::route_rules::read_route;
use crate::row::BadWhy::{BadValue, HostBits, LanesDiffer, MissingField, Unsupported};
use crate::split::split_once;
use crate::{BadRow, Fields, Key, PortPlan, PortRow, Row, field};
use std::alloc::Global;
use swss_types::{
    Lanes, Mac, OutOfMemory, Tagging, Text, Vrf, VrfName, has_host_bits, read_number,
};

/// The row of a key, or the first rule that it breaks (docs/FORMATS.md has the rules in their order).
pub fn read_row(
    alloc: Global,
    plan: &PortPlan,
    key: &Key,
    fields: &Fields,
) -> Result<Result<Row, BadRow>, OutOfMemory>
    ensures { IfOk result (λ row. row ≡ row_of plan.now key.now fields.now) }
{
    match key {
        Key::Port(port) => read_port(alloc, plan, *port, fields),
        Key::Vlan(_) => Ok(Ok(Row::Vlan)),
        Key::Vrf(_) => Ok(Ok(Row::Vrf)),
        Key::Member(..) => Ok(read_member(fields)),
        Key::Intf(_) => Ok(read_intf(fields)),
        Key::Addr(..) => Ok(Ok(Row::Addr)),
        Key::Neigh(..) => Ok(read_neigh(fields)),
        Key::Route(..) => Ok(read_route(alloc, fields)?.map(Row::Route)),
        Key::Other(text) => Ok(read_other(text.bytes())),
    }
}

/// A port's row.
fn read_port(
    alloc: Global,
    plan: &PortPlan,
    port: u32,
    fields: &Fields,
) -> Result<Result<Row, BadRow>, OutOfMemory>
    ensures { IfOk result (λ row. row ≡ port_row_of plan.now port fields.now) }
{
    let lanes = match read_lanes(alloc, plan.lanes_of(port), fields.get(b"lanes"))? {
        Ok(lanes) => lanes,
        Err(broken) => return Ok(Err(broken)),
    };
    Ok(read_port_with(lanes, fields))
}

/// A port's row with these lanes.
fn read_port_with(lanes: Lanes, fields: &Fields) -> Result<Row, BadRow>
    ensures { result ≡ port_row_with lanes fields.now }
{
    let speed = read_number_or(field::SPEED, 1, 1_600_000, 100_000, fields.get(b"speed"))?;
    let mtu = read_number_or(field::MTU, 68, 9216, 9100, fields.get(b"mtu"))?;
    let up = read_up(fields.get(b"admin_status"))?;
    Ok(Row::Port(PortRow {
        lanes,
        speed,
        mtu,
        up,
    }))
}

/// A port's lanes, which are those that the plan has.
fn read_lanes(
    alloc: Global,
    planned: Option<&Lanes>,
    text: Option<&Text>,
) -> Result<Result<Lanes, BadRow>, OutOfMemory>
    ensures { IfOk result (λ lanes. lanes ≡ port_lanes (option_map (λ l. l.now) planned.entry) (option_map (λ t. t.now) text.entry)) }
{
    let Some(text) = text else {
        return Ok(Err(bad(MissingField, field::LANES)));
    };
    let Some(lanes) = Lanes::read(alloc, text.bytes())? else {
        return Ok(Err(bad(BadValue, field::LANES)));
    };
    match planned {
        Some(there) if *there == lanes => Ok(Ok(lanes)),
        _ => Ok(Err(bad(LanesDiffer, field::LANES))),
    }
}

/// A number in a range, or a default where the field is absent.
fn read_number_or(
    field: u8,
    least: u32,
    most: u32,
    default: u32,
    text: Option<&Text>,
) -> Result<u32, BadRow>
    ensures { result ≡ number_or field least most default (option_map (λ t. t.now) text.entry) }
{
    let Some(text) = text else {
        return Ok(default);
    };
    match read_number(text.bytes(), most) {
        Some(number) if number >= least => Ok(number),
        _ => Err(bad(BadValue, field)),
    }
}

/// Whether a port is administratively up.
fn read_up(text: Option<&Text>) -> Result<bool, BadRow>
    ensures { result ≡ up_of (option_map (λ t. t.now) text.entry) }
{
    let Some(text) = text else {
        return Ok(false);
    };
    match text.bytes() {
        b"up" => Ok(true),
        b"down" => Ok(false),
        _ => Err(bad(BadValue, field::ADMIN_STATUS)),
    }
}

/// A VLAN member's row.
fn read_member(fields: &Fields) -> Result<Row, BadRow>
    ensures { result ≡ member_row_of fields.now }
{
    let Some(text) = fields.get(b"tagging_mode") else {
        return Ok(Row::Member(Tagging::Untagged));
    };
    match Tagging::read(text.bytes()) {
        Some(tagging) => Ok(Row::Member(tagging)),
        None => Err(bad(BadValue, field::TAGGING_MODE)),
    }
}

/// An interface's row.
fn read_intf(fields: &Fields) -> Result<Row, BadRow>
    ensures { result ≡ intf_row_of fields.now }
{
    let Some(text) = fields.get(b"vrf_name") else {
        return Ok(Row::Intf(Vrf::Default));
    };
    match read_vrf(text.bytes()) {
        Some(vrf) => Ok(Row::Intf(vrf)),
        None => Err(bad(Unsupported, field::VRF_NAME)),
    }
}

/// The virtual router that a word names: an empty word and `default` name the default one.
fn read_vrf(text: &[u8]) -> Option<Vrf>
    ensures { result ≡ vrf_of text.now }
{
    if text.is_empty() || text == b"default".as_slice() {
        return Some(Vrf::Default);
    }
    VrfName::read(text).map(Vrf::Named)
}

/// A neighbour's row.
fn read_neigh(fields: &Fields) -> Result<Row, BadRow>
    ensures { result ≡ neigh_row_of fields.now }
{
    let Some(text) = fields.get(b"neigh") else {
        return Err(bad(MissingField, field::NEIGH));
    };
    match Mac::read(text.bytes()) {
        Some(mac) => Ok(Row::Neigh(mac)),
        None => Err(bad(BadValue, field::NEIGH)),
    }
}

/// Why a key that does not read has no row.
fn read_other(text: &[u8]) -> Result<Row, BadRow>
    ensures { result ≡ other_row (split_once 58 text.now) }
{
    let why = match split_once(text, b':') {
        Some((table, rest))
            if table == b"ROUTE_TABLE".as_slice() && has_host_bits(split_router(rest).1) =>
            HostBits,
        _ => Unsupported,
    };
    Err(bad(why, field::KEY))
}
