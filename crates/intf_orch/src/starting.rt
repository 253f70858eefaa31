// How an operation of INTF_TABLE or VRF_TABLE starts.
ghost use Rattle.std.specs.Prelude.{◌≡◌, is_some, option_map, IfOk, OnErr};
ghost use Rattle.orch_flight.specs.Sharing.{MayStart};
ghost use Rattle.orch_flight.specs.Starting.{IsStartedBy, answered, in_place};
ghost use Rattle.intf_orch.specs.Interfaces.{intf_operation};

use crate::stage::Subject;
use crate::{address, interface, router};
use ref_counts::{Registry, Room};
use sai_types::KindCounts;
use switch_model::Wait;
use swss_types::{IfName, Ip, OutOfMemory, Vrf, VrfName};
use table_schema::{Key, PortPlan, Row};

/// Starts the operation of an interface.
pub fn start_interface(
    plan: &PortPlan,
    reg: &mut Registry,
    room: &mut Room,
    used: &KindCounts,
    worker: u32,
    on: IfName,
    old: Option<&Row>,
    new: Option<&Row>,
    router: &Vrf,
) -> Result<Result<Subject, Wait>, OutOfMemory>
    requires may { MayStart plan.now reg.old worker (Key.Intf on) (in_place router.now (option_map (λ r. r.now) old)) (in_place router.now (option_map (λ r. r.now) new)) }
    ensures started { IfOk result (λ answer. IsStartedBy plan.now reg.old room.old used.now worker (Key.Intf on) (in_place router.now (option_map (λ r. r.now) old.entry)) (in_place router.now (option_map (λ r. r.now) new.entry)) (answered (intf_operation worker (is_some (option_map (λ r. r.now) old.entry)) (is_some (option_map (λ r. r.now) new.entry))) answer) reg.new room.new) }
    ensures err { OnErr result (reg.new ≡ reg.old) }
    ensures err_room { OnErr result (room.new ≡ room.old) }
{
    match (old, new) {
        (None, Some(new)) => interface::add(plan, reg, room, used, worker, on, new, router),
        (Some(old), Some(new)) => {
            interface::change(plan, reg, room, used, worker, on, old, new, router)
        }
        (Some(old), None) => interface::remove(plan, reg, room, used, worker, on, old, router),
        (None, None) => unreachable!(),
    }
}

/// Starts the operation of an interface's address, which is in this virtual router.
pub fn start_address(
    plan: &PortPlan,
    reg: &mut Registry,
    room: &mut Room,
    used: &KindCounts,
    worker: u32,
    on: IfName,
    ip: &Ip,
    len: u8,
    old: Option<&Row>,
    new: Option<&Row>,
    router: &Vrf,
) -> Result<Result<Subject, Wait>, OutOfMemory>
    requires may { MayStart plan.now reg.old worker (Key.Addr on ip.now len) (in_place router.now (option_map (λ r. r.now) old)) (in_place router.now (option_map (λ r. r.now) new)) }
    ensures started { IfOk result (λ answer. IsStartedBy plan.now reg.old room.old used.now worker (Key.Addr on ip.now len) (in_place router.now (option_map (λ r. r.now) old.entry)) (in_place router.now (option_map (λ r. r.now) new.entry)) (answered (intf_operation worker (is_some (option_map (λ r. r.now) old.entry)) (is_some (option_map (λ r. r.now) new.entry))) answer) reg.new room.new) }
    ensures err { OnErr result (reg.new ≡ reg.old) }
    ensures err_room { OnErr result (room.new ≡ room.old) }
{
    match (old, new) {
        (None, Some(new)) => address::add(plan, reg, room, used, worker, on, ip, len, new, router),
        (Some(old), Some(new)) => address::change(
            plan, reg, room, used, worker, on, ip, len, old, new, router,
        ),
        (Some(old), None) => address::remove(
            plan, reg, room, used, worker, on, ip, len, old, router,
        ),
        (None, None) => unreachable!(),
    }
}

/// Starts the operation of a virtual router.
pub fn start_router(
    plan: &PortPlan,
    reg: &mut Registry,
    room: &mut Room,
    used: &KindCounts,
    worker: u32,
    label: VrfName,
    old: Option<&Row>,
    new: Option<&Row>,
    router: &Vrf,
) -> Result<Result<Subject, Wait>, OutOfMemory>
    requires may { MayStart plan.now reg.old worker (Key.Vrf label) (in_place router.now (option_map (λ r. r.now) old)) (in_place router.now (option_map (λ r. r.now) new)) }
    ensures started { IfOk result (λ answer. IsStartedBy plan.now reg.old room.old used.now worker (Key.Vrf label) (in_place router.now (option_map (λ r. r.now) old.entry)) (in_place router.now (option_map (λ r. r.now) new.entry)) (answered (intf_operation worker (is_some (option_map (λ r. r.now) old.entry)) (is_some (option_map (λ r. r.now) new.entry))) answer) reg.new room.new) }
    ensures err { OnErr result (reg.new ≡ reg.old) }
    ensures err_room { OnErr result (room.new ≡ room.old) }
{
    match (old, new) {
        (None, Some(new)) => router::add(plan, reg, room, used, worker, label, new, router),
        (Some(old), Some(new)) => {
            router::change(plan, reg, room, used, worker, label, old, new, router)
        }
        (Some(old), None) => router::remove(plan, reg, room, used, worker, label, old, router),
        (None, None) => unreachable!(),
    }
}
