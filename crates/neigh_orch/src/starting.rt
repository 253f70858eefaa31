// How the operation of a neighbour starts.
ghost use Rattle.std.specs.Prelude.{◌≡◌, None, Some, option_map, IfOk, OnErr};
ghost use Rattle.orch_flight.specs.Sharing.{MayStart};
ghost use Rattle.orch_flight.specs.Starting.{IsBegunBy, in_default};

use orch_flight::{start_row, try_remove};
use ref_counts::{Registry, Room};
use sai_types::{KINDS, KindCounts};
use switch_model::Wait;
use swss_types::{IfName, Ip, OutOfMemory};
use table_schema::{Key, PortPlan, Row};

/// A neighbour that is made takes a place of its kind, and one of a next hop.
const MADE: KindCounts = [0, 0, 0, 0, 0, 0, 0, 1, 1, 0, 0, 0];

/// A neighbour whose Ethernet address is set takes none.
const SET: KindCounts = [0; KINDS];

/// Starts the operation of a neighbour that is added.
pub fn add(
    _plan: &PortPlan,
    reg: &mut Registry,
    room: &mut Room,
    used: &KindCounts,
    worker: u32,
    on: IfName,
    ip: &Ip,
    _new: &Row,
) -> Result<Result<(), Wait>, OutOfMemory>
    requires may { MayStart _plan.now reg.old worker (Key.Neigh on ip.now) None (in_default (Some _new.now)) }
    ensures begun { IfOk result (λ answer. IsBegunBy _plan.now reg.old room.old used.now worker (Key.Neigh on ip.now) None (in_default (Some _new.now)) answer reg.new room.new) }
    ensures err { OnErr result (reg.new ≡ reg.old) }
    ensures err_room { OnErr result (room.new ≡ room.old) }
{
    let key = Key::Neigh(on, *ip);
    start_row(
        reg,
        room,
        used,
        worker,
        &key,
        &[Key::Intf(on)],
        false,
        &None,
        &MADE,
    )
}

/// Starts the operation of a neighbour whose Ethernet address changes.
pub fn change(
    _plan: &PortPlan,
    reg: &mut Registry,
    room: &mut Room,
    used: &KindCounts,
    worker: u32,
    on: IfName,
    ip: &Ip,
    _old: &Row,
    _new: &Row,
) -> Result<Result<(), Wait>, OutOfMemory>
    requires may { MayStart _plan.now reg.old worker (Key.Neigh on ip.now) (in_default (Some _old.now)) (in_default (Some _new.now)) }
    ensures begun { IfOk result (λ answer. IsBegunBy _plan.now reg.old room.old used.now worker (Key.Neigh on ip.now) (in_default (Some _old.now)) (in_default (Some _new.now)) answer reg.new room.new) }
    ensures err { OnErr result (reg.new ≡ reg.old) }
    ensures err_room { OnErr result (room.new ≡ room.old) }
{
    let key = Key::Neigh(on, *ip);
    start_row(
        reg,
        room,
        used,
        worker,
        &key,
        &[Key::Intf(on)],
        true,
        &None,
        &SET,
    )
}

/// Starts the operation of a neighbour that is removed.
pub fn remove(
    _plan: &PortPlan,
    reg: &mut Registry,
    room: &Room,
    used: &KindCounts,
    worker: u32,
    on: IfName,
    ip: &Ip,
    _old: &Row,
) -> Result<Result<(), Wait>, OutOfMemory>
    requires may { MayStart _plan.now reg.old worker (Key.Neigh on ip.now) (in_default (Some _old.now)) None }
    ensures begun { IfOk result (λ answer. IsBegunBy _plan.now reg.old room.now used.now worker (Key.Neigh on ip.now) (in_default (Some _old.now)) None answer reg.new room.now) }
    ensures err { OnErr result (reg.new ≡ reg.old) }
{
    try_remove(reg, worker, &Key::Neigh(on, *ip))
}
