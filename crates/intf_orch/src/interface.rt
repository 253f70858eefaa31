// How the operation of an interface starts.
ghost use Rattle.std.specs.Prelude.{◌≡◌, ◌<◌, ◌≤◌, true, false, [], ◌∷◌, None, Some, take, IfOk, IfErr, OnOk, OnErr};
ghost use Rattle.swss_types.specs.declared.interface.IfName.{IfName};
ghost use Rattle.swss_types.specs.declared.vrf.Vrf.{Vrf};
ghost use Rattle.table_schema.specs.Names.{intf_names, router_names};
ghost use Rattle.switch_model.specs.Placed.{place, router_of_row};
ghost use Rattle.ref_counts.specs.declared.name.NameState.TheVariants.{Live};
ghost use Rattle.ref_counts.specs.Registered.{begun_to_go};
ghost use Rattle.ref_counts.specs.Registry.{changed, pinned, registered_at, state_of};
ghost use Rattle.ref_counts.specs.Room.{Reserves};
ghost use Rattle.switch_machine.specs.Flights.{goes_over};
ghost use Rattle.orch_flight.specs.Needing.{moved_reason, row_reason};
ghost use Rattle.orch_flight.specs.Sharing.{HasNoPins, MayStart, begun_by};
ghost use Rattle.orch_flight.specs.Starting.{IsStartedBy, answered};
ghost use Rattle.intf_orch.specs.Interfaces.{intf_operation};

use crate::stage::{RifStage, Subject, coming, going, moving, rif_places};
use orch_flight::{base_of, start_moved, start_row, try_remove};
use ref_counts::{Name, Registry, Room};
use sai_types::{KINDS, KindCounts};
use switch_model::Wait;
use swss_types::{IfName, OutOfMemory, Vrf};
use table_schema::{Key, PortPlan, Row};

/// Starts the operation of an interface that is added: its router interface comes with its row. A Loopback has none.
pub fn add(
    plan: &PortPlan,
    reg: &mut Registry,
    room: &mut Room,
    used: &KindCounts,
    worker: u32,
    on: IfName,
    new: &Row,
    _router: &Vrf,
) -> Result<Result<Subject, Wait>, OutOfMemory>
    requires may { MayStart plan.now reg.old worker (Key.Intf on) None (Some (place _router.now new.now)) }
    ensures started { IfOk result (λ answer. IsStartedBy plan.now reg.old room.old used.now worker (Key.Intf on) None (Some (place _router.now new.now)) (answered (intf_operation worker false true) answer) reg.new room.new) }
    ensures err { OnErr result (reg.new ≡ reg.old) }
    ensures err_room { OnErr result (room.new ≡ room.old) }
{
    let router = router_of(new);
    let base = base_of(plan, on);
    let need = rif_places(base, router);
    let begun = begin(reg, room, used, worker, on, router, false, &need)?;
    Ok(begun.and(Ok(Subject::Intf(on, router, router, coming(base)))))
}

/// Starts the operation of an interface whose row is replaced, which stays as it is or goes over to another virtual router.
pub fn change(
    plan: &PortPlan,
    reg: &mut Registry,
    room: &mut Room,
    used: &KindCounts,
    worker: u32,
    on: IfName,
    old: &Row,
    new: &Row,
    router: &Vrf,
) -> Result<Result<Subject, Wait>, OutOfMemory>
    requires may { MayStart plan.now reg.old worker (Key.Intf on) (Some (place router.now old.now)) (Some (place router.now new.now)) }
    ensures started { IfOk result (λ answer. IsStartedBy plan.now reg.old room.old used.now worker (Key.Intf on) (Some (place router.now old.now)) (Some (place router.now new.now)) (answered (intf_operation worker true true) answer) reg.new room.new) }
    ensures err { OnErr result (reg.new ≡ reg.old) }
    ensures err_room { OnErr result (room.new ≡ room.old) }
{
    if goes_over(old, new) {
        go_over(plan, reg, room, used, worker, on, old, new, router)
    } else {
        keep(plan, reg, room, used, worker, on, old, new, router)
    }
}

/// Starts the operation of an interface that stays in its virtual router.
fn keep(
    _plan: &PortPlan,
    reg: &mut Registry,
    room: &mut Room,
    used: &KindCounts,
    worker: u32,
    on: IfName,
    old: &Row,
    new: &Row,
    _router: &Vrf,
) -> Result<Result<Subject, Wait>, OutOfMemory>
    requires may { MayStart _plan.now reg.old worker (Key.Intf on) (Some (place _router.now old.now)) (Some (place _router.now new.now)) }
    requires stays { goes_over (Key.Intf on) (Some (place _router.now old.now)) (Some (place _router.now new.now)) ≡ false }
    ensures started { IfOk result (λ answer. IsStartedBy _plan.now reg.old room.old used.now worker (Key.Intf on) (Some (place _router.now old.now)) (Some (place _router.now new.now)) (answered (intf_operation worker true true) answer) reg.new room.new) }
    ensures err { OnErr result (reg.new ≡ reg.old) }
    ensures err_room { OnErr result (room.new ≡ room.old) }
{
    let (from, to) = (router_of(old), router_of(new));
    let begun = begin(reg, room, used, worker, on, to, true, &[0; KINDS])?;
    Ok(begun.and(Ok(Subject::Intf(on, from, to, RifStage::Stays))))
}

/// Starts the operation of an interface that goes over to another virtual router: its router interface is removed, and made
/// there. Its name goes until that is done.
fn go_over(
    plan: &PortPlan,
    reg: &mut Registry,
    _room: &Room,
    _used: &KindCounts,
    worker: u32,
    on: IfName,
    old: &Row,
    new: &Row,
    _router: &Vrf,
) -> Result<Result<Subject, Wait>, OutOfMemory>
    requires may { MayStart plan.now reg.old worker (Key.Intf on) (Some (place _router.now old.now)) (Some (place _router.now new.now)) }
    requires goes { goes_over (Key.Intf on) (Some (place _router.now old.now)) (Some (place _router.now new.now)) ≡ true }
    ensures started { IfOk result (λ answer. IsStartedBy plan.now reg.old _room.now _used.now worker (Key.Intf on) (Some (place _router.now old.now)) (Some (place _router.now new.now)) (answered (intf_operation worker true true) answer) reg.new _room.now) }
    ensures err { OnErr result (reg.new ≡ reg.old) }
{
    let (from, to) = (router_of(old), router_of(new));
    let begun = begin_moved(reg, worker, on, to)?;
    Ok(begun.and(Ok(Subject::Intf(on, from, to, moving(base_of(plan, on))))))
}

/// Starts the operation of an interface that is removed, with its router interface.
pub fn remove(
    plan: &PortPlan,
    reg: &mut Registry,
    room: &Room,
    used: &KindCounts,
    worker: u32,
    on: IfName,
    old: &Row,
    _router: &Vrf,
) -> Result<Result<Subject, Wait>, OutOfMemory>
    requires may { MayStart plan.now reg.old worker (Key.Intf on) (Some (place _router.now old.now)) None }
    ensures started { IfOk result (λ answer. IsStartedBy plan.now reg.old room.now used.now worker (Key.Intf on) (Some (place _router.now old.now)) None (answered (intf_operation worker true false) answer) reg.new room.now) }
    ensures err { OnErr result (reg.new ≡ reg.old) }
{
    let router = router_of(old);
    let begun = try_remove(reg, worker, &Key::Intf(on))?;
    Ok(begun.and(Ok(Subject::Intf(on, router, router, going(base_of(plan, on))))))
}

/// Begins the operation of a row of an interface in a virtual router.
fn begin(
    reg: &mut Registry,
    room: &mut Room,
    used: &KindCounts,
    worker: u32,
    on: IfName,
    router: Vrf,
    applied: bool,
    need: &KindCounts,
) -> Result<Result<(), Wait>, OutOfMemory>
    requires worker { worker < 4 }
    requires unpinned { HasNoPins reg.old worker }
    requires own { applied ≡ false → registered_at reg.old (Name.Row (Key.Intf on)) ≡ None }
    ensures free { IfOk result (λ answer. OnOk answer (row_reason reg.old room.old used.now (intf_names on router) [] need.now ≡ None)) }
    ensures names { IfOk result (λ answer. OnOk answer (reg.new ≡ begun_by reg.old worker (Key.Intf on) (intf_names on router) applied None false)) }
    ensures places { IfOk result (λ answer. OnOk answer (Reserves room.old worker need.now room.new)) }
    ensures wait { IfOk result (λ answer. IfErr answer (λ wait. row_reason reg.old room.old used.now (intf_names on router) [] need.now ≡ Some wait)) }
    ensures none { IfOk result (λ answer. OnErr answer (reg.new ≡ reg.old)) }
    ensures none_room { IfOk result (λ answer. OnErr answer (room.new ≡ room.old)) }
    ensures err { OnErr result (reg.new ≡ reg.old) }
    ensures err_room { OnErr result (room.new ≡ room.old) }
{
    let key = Key::Intf(on);
    let (keys, count) = named(on, router);
    let names = &keys[..count];
    start_row(reg, room, used, worker, &key, names, applied, &None, need)
}

/// Begins the operation of an interface that goes over to this virtual router.
fn begin_moved(
    reg: &mut Registry,
    worker: u32,
    on: IfName,
    router: Vrf,
) -> Result<Result<(), Wait>, OutOfMemory>
    requires unpinned { HasNoPins reg.old worker }
    requires live { state_of reg.old (Name.Row (Key.Intf on)) ≡ Live }
    ensures free { IfOk result (λ answer. OnOk answer (moved_reason reg.old worker (Key.Intf on) (intf_names on router) ≡ None)) }
    ensures names { IfOk result (λ answer. OnOk answer (reg.new ≡ changed (pinned reg.old worker (Key.Intf on) (intf_names on router)) (Name.Row (Key.Intf on)) (begun_to_go worker))) }
    ensures wait { IfOk result (λ answer. IfErr answer (λ wait. moved_reason reg.old worker (Key.Intf on) (intf_names on router) ≡ Some wait)) }
    ensures none { IfOk result (λ answer. OnErr answer (reg.new ≡ reg.old)) }
    ensures err { OnErr result (reg.new ≡ reg.old) }
{
    let (keys, count) = named(on, router);
    start_moved(reg, worker, &Key::Intf(on), &keys[..count])
}

/// The keys that a row of an interface in a virtual router names: so many of these, its port or VLAN first.
fn named(on: IfName, router: Vrf) -> ([Key; 2], usize)
    ensures fits { result.1 ≤ 2 }
    ensures value { take result.1 result.0 ≡ intf_names on router }
{
    match on {
        IfName::Ethernet(port) => named_behind(Key::Port(port), router),
        IfName::Vlan(vlan) => named_behind(Key::Vlan(vlan), router),
        IfName::Loopback(_) => match router {
            Vrf::Named(label) => ([Key::Vrf(label), Key::Intf(on)], 1),
            Vrf::Default => ([Key::Intf(on), Key::Intf(on)], 0),
        },
    }
}

/// A key, and the virtual router behind it, unless that is the default one: so many of these.
fn named_behind(base: Key, router: Vrf) -> ([Key; 2], usize)
    ensures fits { result.1 ≤ 2 }
    ensures value { take result.1 result.0 ≡ base ∷ router_names router }
{
    match router {
        Vrf::Named(label) => ([base, Key::Vrf(label)], 2),
        Vrf::Default => ([base, Key::Port(0)], 1),
    }
}

/// The virtual router of an interface's row.
fn router_of(row: &Row) -> Vrf
    ensures { result ≡ router_of_row (Some row.now) }
{
    match row {
        Row::Intf(router) => *router,
        _ => Vrf::Default,
    }
}

/// Whether a row of an interface is in another virtual router than one before it.
fn goes_over(old: &Row, new: &Row) -> bool
    ensures { (on : IfName) (v : Vrf) → goes_over (Key.Intf on) (Some (place v old.now)) (Some (place v new.now)) ≡ result }
{
    match (old, new) {
        (Row::Intf(from), Row::Intf(to)) => from != to,
        _ => false,
    }
}
