// The operation of a virtual router: how it starts, its call, and what becomes of its name.
ghost use Rattle.std.specs.Prelude.{◌≡◌, true, false, None, Some, IfOk, OnErr};
ghost use Rattle.switch_model.specs.Placed.{place};
ghost use Rattle.orch_flight.specs.Sharing.{MayStart};
ghost use Rattle.orch_flight.specs.Starting.{IsStartedBy, answered};
ghost use Rattle.intf_orch.specs.Interfaces.{intf_operation};
ghost use Rattle.intf_orch.specs.Routers.{IsRouterNext, KnowsRouter, MayBuildRouter, names_after_router, router_places};

use crate::stage::{RouterStage, Subject};
use orch_flight::{start_row, try_remove, vid};
use ref_counts::{Name, Next, Registry, Room};
use sai_types::{Body, Call, Entry, KINDS, KindCounts, Vid};
use switch_model::Wait;
use swss_types::{OutOfMemory, Vrf, VrfName};
use table_schema::{Key, PortPlan, Row};

/// Starts the operation of a virtual router that is added. Its row names no other.
pub fn add(
    _plan: &PortPlan,
    reg: &mut Registry,
    room: &mut Room,
    used: &KindCounts,
    worker: u32,
    label: VrfName,
    _new: &Row,
    _router: &Vrf,
) -> Result<Result<Subject, Wait>, OutOfMemory>
    requires may { MayStart _plan.now reg.old worker (Key.Vrf label) None (Some (place _router.now _new.now)) }
    ensures started { IfOk result (λ answer. IsStartedBy _plan.now reg.old room.old used.now worker (Key.Vrf label) None (Some (place _router.now _new.now)) (answered (intf_operation worker false true) answer) reg.new room.new) }
    ensures err { OnErr result (reg.new ≡ reg.old) }
    ensures err_room { OnErr result (room.new ≡ room.old) }
{
    let key = Key::Vrf(label);
    let need = router_places();
    let begun = start_row(reg, room, used, worker, &key, &[], false, &None, &need)?;
    Ok(begun.and(Ok(Subject::Vrf(label, RouterStage::Comes))))
}

/// The place that a virtual router needs which is made.
fn router_places() -> KindCounts
    ensures { result ≡ router_places }
{
    [0, 0, 1, 0, 0, 0, 0, 0, 0, 0, 0, 0]
}

/// Starts the operation of a virtual router whose row is replaced, which is the same.
pub fn change(
    _plan: &PortPlan,
    reg: &mut Registry,
    room: &mut Room,
    used: &KindCounts,
    worker: u32,
    label: VrfName,
    _old: &Row,
    _new: &Row,
    _router: &Vrf,
) -> Result<Result<Subject, Wait>, OutOfMemory>
    requires may { MayStart _plan.now reg.old worker (Key.Vrf label) (Some (place _router.now _old.now)) (Some (place _router.now _new.now)) }
    ensures started { IfOk result (λ answer. IsStartedBy _plan.now reg.old room.old used.now worker (Key.Vrf label) (Some (place _router.now _old.now)) (Some (place _router.now _new.now)) (answered (intf_operation worker true true) answer) reg.new room.new) }
    ensures err { OnErr result (reg.new ≡ reg.old) }
    ensures err_room { OnErr result (room.new ≡ room.old) }
{
    let key = Key::Vrf(label);
    let begun = start_row(reg, room, used, worker, &key, &[], true, &None, &[0; KINDS])?;
    Ok(begun.and(Ok(Subject::Vrf(label, RouterStage::Stays))))
}

/// Starts the operation of a virtual router that is removed.
pub fn remove(
    _plan: &PortPlan,
    reg: &mut Registry,
    room: &Room,
    used: &KindCounts,
    worker: u32,
    label: VrfName,
    _old: &Row,
    _router: &Vrf,
) -> Result<Result<Subject, Wait>, OutOfMemory>
    requires may { MayStart _plan.now reg.old worker (Key.Vrf label) (Some (place _router.now _old.now)) None }
    ensures started { IfOk result (λ answer. IsStartedBy _plan.now reg.old room.now used.now worker (Key.Vrf label) (Some (place _router.now _old.now)) None (answered (intf_operation worker true false) answer) reg.new room.now) }
    ensures err { OnErr result (reg.new ≡ reg.old) }
{
    let begun = try_remove(reg, worker, &Key::Vrf(label))?;
    Ok(begun.and(Ok(Subject::Vrf(label, RouterStage::Goes))))
}

/// The call that is due for a virtual router, or the end.
pub fn next_router(reg: &Registry, label: VrfName, stage: RouterStage) -> Next
    requires { KnowsRouter reg.now label stage }
    ensures { IsRouterNext reg.now label stage result }
{
    match stage {
        RouterStage::Comes => Next::Call(Call::Create(Body::VirtualRouter { label })),
        RouterStage::Goes => {
            Next::Call(Call::Remove(Entry::Oid(vid(reg, &Name::Row(Key::Vrf(label))))))
        }
        RouterStage::Stays => Next::End,
    }
}

/// Makes the name of a virtual router live once the router is made.
pub fn took_router(
    worker: u32,
    label: VrfName,
    stage: RouterStage,
    made: Option<Vid>,
    reg: &mut Registry,
)
    requires { MayBuildRouter reg.old worker label stage made }
    ensures { reg.new ≡ names_after_router reg.old label stage made }
{
    if let RouterStage::Comes = stage {
        if let Some(vid) = made {
            reg.built(worker, &Name::Row(Key::Vrf(label)), &[vid]);
        }
    }
}
