// How the operation of a port starts.
ghost use Rattle.std.specs.Prelude.{◌≡◌, None, Some, option_map, IfOk, OnErr};
ghost use Rattle.orch_flight.specs.Sharing.{MayStart};
ghost use Rattle.orch_flight.specs.Starting.{IsBegunBy, in_default};
ghost use Rattle.port_orch.specs.Ports.{IsPortKey};

use orch_flight::{start_row, try_remove};
use ref_counts::{Registry, Room};
use sai_types::{KINDS, KindCounts};
use switch_model::Wait;
use swss_types::OutOfMemory;
use table_schema::{Key, PortPlan, Row};

/// A port that is made takes a place of its kind.
const MADE: KindCounts = [1, 0, 0, 0, 0, 0, 0, 0, 0, 0, 0, 0];

/// A port whose values are set takes none.
const SET: KindCounts = [0; KINDS];

/// Starts the operation of a port that is added.
pub fn add(
    _plan: &PortPlan,
    reg: &mut Registry,
    room: &mut Room,
    used: &KindCounts,
    worker: u32,
    key: &Key,
    _new: &Row,
) -> Result<Result<(), Wait>, OutOfMemory>
    requires port { IsPortKey key.now }
    requires may { MayStart _plan.now reg.old worker key.now None (in_default (Some _new.now)) }
    ensures begun { IfOk result (λ answer. IsBegunBy _plan.now reg.old room.old used.now worker key.now None (in_default (Some _new.now)) answer reg.new room.new) }
    ensures err { OnErr result (reg.new ≡ reg.old) }
    ensures err_room { OnErr result (room.new ≡ room.old) }
{
    start_row(reg, room, used, worker, key, &[], false, &None, &MADE)
}

/// Starts the operation of a port whose values change.
pub fn change(
    _plan: &PortPlan,
    reg: &mut Registry,
    room: &mut Room,
    used: &KindCounts,
    worker: u32,
    key: &Key,
    _old: &Row,
    _new: &Row,
) -> Result<Result<(), Wait>, OutOfMemory>
    requires port { IsPortKey key.now }
    requires may { MayStart _plan.now reg.old worker key.now (in_default (Some _old.now)) (in_default (Some _new.now)) }
    ensures begun { IfOk result (λ answer. IsBegunBy _plan.now reg.old room.old used.now worker key.now (in_default (Some _old.now)) (in_default (Some _new.now)) answer reg.new room.new) }
    ensures err { OnErr result (reg.new ≡ reg.old) }
    ensures err_room { OnErr result (room.new ≡ room.old) }
{
    start_row(reg, room, used, worker, key, &[], true, &None, &SET)
}

/// Starts the operation of a port that is removed.
pub fn remove(
    _plan: &PortPlan,
    reg: &mut Registry,
    room: &Room,
    used: &KindCounts,
    worker: u32,
    key: &Key,
    _old: &Row,
) -> Result<Result<(), Wait>, OutOfMemory>
    requires port { IsPortKey key.now }
    requires may { MayStart _plan.now reg.old worker key.now (in_default (Some _old.now)) None }
    ensures begun { IfOk result (λ answer. IsBegunBy _plan.now reg.old room.now used.now worker key.now (in_default (Some _old.now)) None answer reg.new room.now) }
    ensures err { OnErr result (reg.new ≡ reg.old) }
{
    try_remove(reg, worker, key)
}
