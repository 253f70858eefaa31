// How the operation of a route starts.
ghost use Rattle.std.specs.Prelude.{◌≡◌, None, Some, option_map, IfOk, OnErr};
ghost use Rattle.row_layout.specs.Operations.{uses_of};
ghost use Rattle.orch_flight.specs.Sharing.{MayStart, owners_of};
ghost use Rattle.orch_flight.specs.Starting.{IsBegunBy, in_default};
ghost use Rattle.route_orch.specs.Targets.{AreGroups, IsRouteKey};
ghost use Rattle.route_orch.specs.Routes.{places_needed};

use orch_flight::{start_sharing, try_remove};
use ref_counts::{Name, Registry, Room};
use sai_types::KindCounts;
use std::alloc::Global;
use switch_model::Wait;
use swss_types::OutOfMemory;
use table_schema::{Key, PortPlan, Row, names};

/// Begins the operation of a route whose new row has this group.
pub fn begin(
    alloc: Global,
    plan: &PortPlan,
    reg: &mut Registry,
    room: &mut Room,
    used: &KindCounts,
    worker: u32,
    key: &Key,
    old: Option<&Row>,
    new: Option<&Row>,
    group: &Option<Name>,
) -> Result<Result<(), Wait>, OutOfMemory>
    requires key { IsRouteKey key.now }
    requires may { MayStart plan.now reg.old worker key.now (in_default (option_map (λ r. r.now) old)) (in_default (option_map (λ r. r.now) new)) }
    requires shares { uses_of plan.now key.now (in_default (option_map (λ r. r.now) new)) ≡ owners_of group.now }
    requires groups { AreGroups group.now }
    ensures begun { IfOk result (λ answer. IsBegunBy plan.now reg.old room.old used.now worker key.now (in_default (option_map (λ r. r.now) old.entry)) (in_default (option_map (λ r. r.now) new.entry)) answer reg.new room.new) }
    ensures err { OnErr result (reg.new ≡ reg.old) }
    ensures err_room { OnErr result (room.new ≡ room.old) }
{
    match (old, new) {
        (old, Some(new)) => bring(alloc, plan, reg, room, used, worker, key, old, new, group),
        (Some(old), None) => remove(plan, reg, room, used, worker, key, old),
        (None, None) => unreachable!(),
    }
}

/// Begins the operation of a route that is made, or set to a new target.
fn bring(
    alloc: Global,
    _plan: &PortPlan,
    reg: &mut Registry,
    room: &mut Room,
    used: &KindCounts,
    worker: u32,
    key: &Key,
    old: Option<&Row>,
    new: &Row,
    group: &Option<Name>,
) -> Result<Result<(), Wait>, OutOfMemory>
    requires key { IsRouteKey key.now }
    requires may { MayStart _plan.now reg.old worker key.now (in_default (option_map (λ r. r.now) old)) (in_default (Some new.now)) }
    requires shares { uses_of _plan.now key.now (in_default (Some new.now)) ≡ owners_of group.now }
    requires groups { AreGroups group.now }
    ensures begun { IfOk result (λ answer. IsBegunBy _plan.now reg.old room.old used.now worker key.now (in_default (option_map (λ r. r.now) old.entry)) (in_default (Some new.now)) answer reg.new room.new) }
    ensures err { OnErr result (reg.new ≡ reg.old) }
    ensures err_room { OnErr result (room.new ≡ room.old) }
{
    let keys = names(alloc, key, new)?;
    let applied = old.is_some();
    let need = places_needed(false, group, applied);
    let need_built = places_needed(true, group, applied);
    let started = start_sharing(
        reg,
        room,
        used,
        worker,
        key,
        keys.as_slice(),
        applied,
        group,
        &need,
        &need_built,
    )?;
    Ok(started.and(Ok(())))
}

/// The places that a route needs: one for itself where it is new, and those of its group where that is built.
fn places_needed(builds: bool, group: &Option<Name>, applied: bool) -> KindCounts
    ensures { result ≡ places_needed builds group.now applied }
{
    let routes = if applied { 0 } else { 1 };
    match group {
        Some(Name::Group(hops)) if builds => {
            let members = hops.items().len() as u64;
            [0, 0, 0, 0, 0, 0, 0, 0, 0, 1, members, routes]
        }
        _ => [0, 0, 0, 0, 0, 0, 0, 0, 0, 0, 0, routes],
    }
}

/// Begins the operation of a route that is removed.
fn remove(
    _plan: &PortPlan,
    reg: &mut Registry,
    room: &Room,
    used: &KindCounts,
    worker: u32,
    key: &Key,
    _old: &Row,
) -> Result<Result<(), Wait>, OutOfMemory>
    requires key { IsRouteKey key.now }
    requires may { MayStart _plan.now reg.old worker key.now (in_default (Some _old.now)) None }
    ensures begun { IfOk result (λ answer. IsBegunBy _plan.now reg.old room.now used.now worker key.now (in_default (Some _old.now)) None answer reg.new room.now) }
    ensures err { OnErr result (reg.new ≡ reg.old) }
{
    try_remove(reg, worker, key)
}
