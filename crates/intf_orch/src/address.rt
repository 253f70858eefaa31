// How the operation of an interface's address starts.
ghost use Rattle.std.specs.Prelude.{◌≡◌, true, false, None, Some, IfOk, IfErr, OnOk, OnErr, if◌then◌else◌};
ghost use Rattle.ref_counts.specs.declared.name.NameState.TheVariants.{Live};
ghost use Rattle.ref_counts.specs.Registered.{begun_to_go};
ghost use Rattle.ref_counts.specs.Registry.{changed, retire_refusal_at, state_of};
ghost use Rattle.switch_model.specs.Placed.{place};
ghost use Rattle.row_layout.specs.Shared.{uses};
ghost use Rattle.orch_flight.specs.Sharing.{AreOfShared, MayStart, owners_of};
ghost use Rattle.orch_flight.specs.Starting.{IsStartedBy, answered};
ghost use Rattle.intf_orch.specs.Interfaces.{IsLive, IsRetired, intf_operation, left_shared};

use crate::stage::{OwnStage, Subject, own_places, own_stage};
use orch_flight::{leave, own_of, start_row, start_sharing, try_remove};
use ref_counts::{Name, Registry, Room};
use sai_types::{KINDS, KindCounts};
use switch_model::Wait;
use swss_types::{IfName, Ip, OutOfMemory, Vrf};
use table_schema::{Key, PortPlan, Row};

/// Starts the operation of an interface's address that is added: its own address comes with the first row of the address.
pub fn add(
    plan: &PortPlan,
    reg: &mut Registry,
    room: &mut Room,
    used: &KindCounts,
    worker: u32,
    on: IfName,
    ip: &Ip,
    len: u8,
    new: &Row,
    router: &Vrf,
) -> Result<Result<Subject, Wait>, OutOfMemory>
    requires may { MayStart plan.now reg.old worker (Key.Addr on ip.now len) None (Some (place router.now new.now)) }
    ensures started { IfOk result (λ answer. IsStartedBy plan.now reg.old room.old used.now worker (Key.Addr on ip.now len) None (Some (place router.now new.now)) (answered (intf_operation worker false true) answer) reg.new room.new) }
    ensures err { OnErr result (reg.new ≡ reg.old) }
    ensures err_room { OnErr result (room.new ≡ room.old) }
{
    let shared = shared_by(plan, router, on, ip, len, new);
    let key = Key::Addr(on, *ip, len);
    let need = own_places(router, ip, false);
    let need_built = own_places(router, ip, true);
    let started = start_sharing(
        reg,
        room,
        used,
        worker,
        &key,
        &[Key::Intf(on)],
        false,
        &shared,
        &need,
        &need_built,
    )?;
    match started {
        Ok(builds) => Ok(Ok(Subject::Addr(*router, on, *ip, len, own_stage(builds)))),
        Err(wait) => Ok(Err(wait)),
    }
}

/// Starts the operation of an address whose row is replaced, which is the same.
pub fn change(
    plan: &PortPlan,
    reg: &mut Registry,
    room: &mut Room,
    used: &KindCounts,
    worker: u32,
    on: IfName,
    ip: &Ip,
    len: u8,
    _old: &Row,
    new: &Row,
    router: &Vrf,
) -> Result<Result<Subject, Wait>, OutOfMemory>
    requires may { MayStart plan.now reg.old worker (Key.Addr on ip.now len) (Some (place router.now _old.now)) (Some (place router.now new.now)) }
    ensures started { IfOk result (λ answer. IsStartedBy plan.now reg.old room.old used.now worker (Key.Addr on ip.now len) (Some (place router.now _old.now)) (Some (place router.now new.now)) (answered (intf_operation worker true true) answer) reg.new room.new) }
    ensures err { OnErr result (reg.new ≡ reg.old) }
    ensures err_room { OnErr result (room.new ≡ room.old) }
{
    let shared = shared_by(plan, router, on, ip, len, new);
    let key = Key::Addr(on, *ip, len);
    let names = [Key::Intf(on)];
    let begun = start_row(
        reg,
        room,
        used,
        worker,
        &key,
        &names,
        true,
        &shared,
        &[0; KINDS],
    )?;
    Ok(begun.and(Ok(Subject::Addr(*router, on, *ip, len, OwnStage::Stays))))
}

/// Starts the operation of an address that is removed. It has no object of its own, so it leaves its own address at once, which
/// goes with the last row of the address.
pub fn remove(
    plan: &PortPlan,
    reg: &mut Registry,
    room: &Room,
    used: &KindCounts,
    worker: u32,
    on: IfName,
    ip: &Ip,
    len: u8,
    old: &Row,
    router: &Vrf,
) -> Result<Result<Subject, Wait>, OutOfMemory>
    requires may { MayStart plan.now reg.old worker (Key.Addr on ip.now len) (Some (place router.now old.now)) None }
    ensures started { IfOk result (λ answer. IsStartedBy plan.now reg.old room.now used.now worker (Key.Addr on ip.now len) (Some (place router.now old.now)) None (answered (intf_operation worker true false) answer) reg.new room.now) }
    ensures err { OnErr result (reg.new ≡ reg.old) }
{
    let shared = shared_by(plan, router, on, ip, len, old);
    match try_leave(reg, worker, &Key::Addr(on, *ip, len), &shared)? {
        Ok(stage) => Ok(Ok(Subject::Addr(*router, on, *ip, len, stage))),
        Err(wait) => Ok(Err(wait)),
    }
}

/// Begins to take the applied row of a key away, which then leaves what it shared, or tells why it has to wait.
fn try_leave(
    reg: &mut Registry,
    worker: u32,
    key: &Key,
    shared: &Option<Name>,
) -> Result<Result<OwnStage, Wait>, OutOfMemory>
    requires row { state_of reg.old (Name.Row key.now) ≡ Live }
    requires live { IsLive reg.old shared.now }
    requires kind { AreOfShared shared.now }
    ensures free { IfOk result (λ answer. OnOk answer (retire_refusal_at reg.old worker (Name.Row key.now) ≡ None)) }
    ensures names { IfOk result (λ answer. OnOk answer (reg.new ≡ left_shared (changed reg.old (Name.Row key.now) (begun_to_go worker)) worker key.now shared.now)) }
    ensures stage { IfOk result (λ answer. IfOk answer (λ stage. IsRetired (changed reg.old (Name.Row key.now) (begun_to_go worker)) worker key.now shared.now stage)) }
    ensures wait { IfOk result (λ answer. IfErr answer (λ wait. retire_refusal_at reg.old worker (Name.Row key.now) ≡ Some wait)) }
    ensures none { IfOk result (λ answer. OnErr answer (reg.new ≡ reg.old)) }
    ensures err { OnErr result (reg.new ≡ reg.old) }
{
    match try_remove(reg, worker, key)? {
        Ok(()) => Ok(Ok(leave_shared(reg, worker, key, shared))),
        Err(wait) => Ok(Err(wait)),
    }
}

/// What a row of an interface's address shares: the own address in its virtual router, unless the interface is on a port that is not in the plan.
fn shared_by(plan: &PortPlan, router: &Vrf, on: IfName, ip: &Ip, len: u8, row: &Row) -> Option<Name>
    ensures value { uses plan.now (Key.Addr on ip.now len) (place router.now row.now) ≡ owners_of result }
    ensures kind { AreOfShared result }
{
    let _len = len;
    match row {
        Row::Addr => own_of(plan, router, on, *ip),
        _ => None,
    }
}

/// The key leaves what its row shared, and what nobody uses any more begins to go.
fn leave_shared(reg: &mut Registry, worker: u32, key: &Key, shared: &Option<Name>) -> OwnStage
    requires { IsLive reg.old shared.now }
    ensures names { reg.new ≡ left_shared reg.old worker key.now shared.now }
    ensures stage { IsRetired reg.old worker key.now shared.now result }
{
    match shared {
        Some(name) => stage_of(leave(reg, worker, key, name)),
        None => OwnStage::Stays,
    }
}

/// What becomes of an own address that a row has left, be it the last one or not.
fn stage_of(last: bool) -> OwnStage
    ensures { result ≡ (if last then OwnStage.Goes else OwnStage.Stays) }
{
    if last {
        OwnStage::Goes
    } else {
        OwnStage::Stays
    }
}
