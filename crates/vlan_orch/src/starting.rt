// How the operation of a VLAN, or of a member of one, starts.
ghost use Rattle.std.specs.Prelude.{◌≡◌, Some, is_some, option_map, IfOk, OnErr};
ghost use Rattle.table_schema.specs.declared.key.Key.{Key};
ghost use Rattle.swss_types.specs.declared.vrf.Vrf.TheVariants as vrf;
ghost use Rattle.switch_model.specs.Placed.{place};
ghost use Rattle.row_layout.specs.Shared.{uses};
ghost use Rattle.orch_flight.specs.Needing.{to_build};
ghost use Rattle.orch_flight.specs.Sharing.{MayStart, owners_of};
ghost use Rattle.orch_flight.specs.Starting.{IsBegunBy, in_default};
ghost use Rattle.vlan_orch.specs.Vlans.{IsOfVlan, IsVlanKey, places_of_member, places_of_vlan};

use orch_flight::{bridge_of, lacks, start_row, start_sharing, try_remove};
use ref_counts::{Name, Registry, Room};
use sai_types::{KINDS, KindCounts};
use switch_model::Wait;
use swss_types::OutOfMemory;
use table_schema::{Key, PortPlan, Row};

/// No place.
const NONE: KindCounts = [0; KINDS];

/// A place for a VLAN.
const VLAN: KindCounts = [0, 1, 0, 0, 0, 0, 0, 0, 0, 0, 0, 0];

/// A place for a member.
const MEMBER: KindCounts = [0, 0, 0, 0, 1, 0, 0, 0, 0, 0, 0, 0];

/// Places for a bridge port and a member.
const BRIDGE_AND_MEMBER: KindCounts = [0, 0, 0, 1, 1, 0, 0, 0, 0, 0, 0, 0];

/// Starts the operation of a row, but for the operation itself.
pub fn begin(
    plan: &PortPlan,
    reg: &mut Registry,
    room: &mut Room,
    used: &KindCounts,
    worker: u32,
    key: &Key,
    old: Option<&Row>,
    new: Option<&Row>,
) -> Result<Result<(), Wait>, OutOfMemory>
    requires vlan { IsVlanKey key.now }
    requires may { MayStart plan.now reg.old worker key.now (in_default (option_map (λ r. r.now) old)) (in_default (option_map (λ r. r.now) new)) }
    ensures begun { IfOk result (λ answer. IsBegunBy plan.now reg.old room.old used.now worker key.now (in_default (option_map (λ r. r.now) old.entry)) (in_default (option_map (λ r. r.now) new.entry)) answer reg.new room.new) }
    ensures err { OnErr result (reg.new ≡ reg.old) }
    ensures err_room { OnErr result (room.new ≡ room.old) }
{
    match new {
        Some(new) => begin_new(plan, reg, room, used, worker, key, old, new),
        None => try_remove(reg, worker, key),
    }
}

/// Starts the operation of a row that is to be applied.
fn begin_new(
    plan: &PortPlan,
    reg: &mut Registry,
    room: &mut Room,
    used: &KindCounts,
    worker: u32,
    key: &Key,
    old: Option<&Row>,
    new: &Row,
) -> Result<Result<(), Wait>, OutOfMemory>
    requires vlan { IsVlanKey key.now }
    requires may { MayStart plan.now reg.old worker key.now (in_default (option_map (λ r. r.now) old)) (in_default (Some new.now)) }
    ensures begun { IfOk result (λ answer. IsBegunBy plan.now reg.old room.old used.now worker key.now (in_default (option_map (λ r. r.now) old.entry)) (in_default (Some new.now)) answer reg.new room.new) }
    ensures err { OnErr result (reg.new ≡ reg.old) }
    ensures err_room { OnErr result (room.new ≡ room.old) }
{
    match key {
        Key::Vlan(_) => begin_vlan(plan, reg, room, used, worker, key, old, new),
        Key::Member(vlan, port) => {
            begin_member(plan, reg, room, used, worker, key, *vlan, *port, old, new)
        }
        _ => unreachable!(),
    }
}

/// Starts the operation of a VLAN's row.
fn begin_vlan(
    _plan: &PortPlan,
    reg: &mut Registry,
    room: &mut Room,
    used: &KindCounts,
    worker: u32,
    key: &Key,
    old: Option<&Row>,
    _new: &Row,
) -> Result<Result<(), Wait>, OutOfMemory>
    requires vlan { IsOfVlan key.now }
    requires may { MayStart _plan.now reg.old worker key.now (in_default (option_map (λ r. r.now) old)) (in_default (Some _new.now)) }
    ensures begun { IfOk result (λ answer. IsBegunBy _plan.now reg.old room.old used.now worker key.now (in_default (option_map (λ r. r.now) old.entry)) (in_default (Some _new.now)) answer reg.new room.new) }
    ensures err { OnErr result (reg.new ≡ reg.old) }
    ensures err_room { OnErr result (room.new ≡ room.old) }
{
    let applied = old.is_some();
    let need = vlan_places(applied);
    start_row(reg, room, used, worker, key, &[], applied, &None, need)
}

/// Starts the operation of a member's row, which names its VLAN and its port.
fn begin_member(
    plan: &PortPlan,
    reg: &mut Registry,
    room: &mut Room,
    used: &KindCounts,
    worker: u32,
    key: &Key,
    vlan: u16,
    port: u32,
    old: Option<&Row>,
    new: &Row,
) -> Result<Result<(), Wait>, OutOfMemory>
    requires member { key.now ≡ Key.Member vlan port }
    requires may { MayStart plan.now reg.old worker key.now (in_default (option_map (λ r. r.now) old)) (in_default (Some new.now)) }
    ensures begun { IfOk result (λ answer. IsBegunBy plan.now reg.old room.old used.now worker key.now (in_default (option_map (λ r. r.now) old.entry)) (in_default (Some new.now)) answer reg.new room.new) }
    ensures err { OnErr result (reg.new ≡ reg.old) }
    ensures err_room { OnErr result (room.new ≡ room.old) }
{
    let applied = old.is_some();
    let names = [Key::Vlan(vlan), Key::Port(port)];
    let shared = shared_by(plan, key, new);
    let need = member_places(applied, false);
    let need_built = member_places(applied, true);
    let started = start_sharing(
        reg, room, used, worker, key, &names, applied, &shared, need, need_built,
    )?;
    Ok(started.and(Ok(())))
}

/// The bridge port that a row shares: none of a VLAN, nor of a member on a port that is not in the plan.
fn shared_by(plan: &PortPlan, key: &Key, row: &Row) -> Option<Name>
    requires { IsVlanKey key.now }
    ensures { uses plan.now key.now (place vrf.Default row.now) ≡ owners_of result }
{
    match (key, row) {
        (Key::Member(_, port), Row::Member(_)) => bridge_of(plan, *port),
        _ => None,
    }
}

/// Whether nothing is there of the bridge port that the row shares which is to be applied.
pub fn builds_bridge(plan: &PortPlan, reg: &Registry, key: &Key, new: Option<&Row>) -> bool
    requires { IsVlanKey key.now }
    ensures { result ≡ is_some (to_build plan.now reg.now key.now (in_default (option_map (λ r. r.now) new.entry))) }
{
    match new {
        Some(row) => lacks(reg, &shared_by(plan, key, row)),
        None => false,
    }
}

/// The places that a VLAN's row needs.
fn vlan_places(applied: bool) -> &'static KindCounts
    ensures { result.now ≡ places_of_vlan applied }
{
    if applied { &NONE } else { &VLAN }
}

/// The places that a member's row needs.
fn member_places(applied: bool, builds: bool) -> &'static KindCounts
    ensures { result.now ≡ places_of_member applied builds }
{
    if applied {
        &NONE
    } else if builds {
        &BRIDGE_AND_MEMBER
    } else {
        &MEMBER
    }
}
