// How the operation of a row starts.
ghost use Rattle.std.specs.Prelude.{◌≡◌, ◌<◌, ◌↔◌, false, None, Some, IfOk, IfErr, IsTrue, OnOk, OnErr, if◌then◌else◌};
ghost use Rattle.ref_counts.specs.Registered.{IsReadable};
ghost use Rattle.ref_counts.specs.Registry.{owner_in, registered_at};
ghost use Rattle.ref_counts.specs.Room.{Reserves, lacking};
ghost use Rattle.orch_flight.specs.Needing.{row_reason};
ghost use Rattle.orch_flight.specs.Sharing.{HasNoPins, MayShare, begun_by, is_absent, lacks_shared, shared_state};
ghost use Rattle.orch_flight.specs.Taking.{to_list};

use crate::beginning::begin;
use crate::reasons::{owner, reason};
use ref_counts::{Name, NameState, Registry, Room};
use sai_types::KindCounts;
use switch_model::Wait;
use swss_types::OutOfMemory;
use table_schema::Key;

/// Whether nothing of what is shared is there, so that it has to be built.
pub fn lacks(reg: &Registry, shared: &Option<Name>) -> bool
    ensures { result ≡ lacks_shared reg.now shared.now }
{
    is_absent(state_of(reg, shared))
}

/// Starts the operation of a row that names these keys, shares this and needs these places, or tells the first reason why
/// it has to wait. A row of the key is applied, or none. The Wait and want of memory leave the registry and the room as they
/// are.
pub fn start_row(
    reg: &mut Registry,
    room: &mut Room,
    used: &KindCounts,
    worker: u32,
    key: &Key,
    keys: &[Key],
    applied: bool,
    shared: &Option<Name>,
    need: &KindCounts,
) -> Result<Result<(), Wait>, OutOfMemory>
    requires worker { worker < 4 }
    requires readable { IsReadable key.now }
    requires unpinned { HasNoPins reg.old worker }
    requires own { applied ≡ false → registered_at reg.old (Name.Row key.now) ≡ None }
    requires shared { MayShare reg.old shared.now }
    ensures free { IfOk result (λ answer. OnOk answer (row_reason reg.old room.old used.now keys.now (to_list shared.now) need.now ≡ None)) }
    ensures names { IfOk result (λ answer. OnOk answer (reg.new ≡ begun_by reg.old worker key.now keys.now applied shared.now (lacks_shared reg.old shared.now))) }
    ensures places { IfOk result (λ answer. OnOk answer (Reserves room.old worker need.now room.new)) }
    ensures wait { IfOk result (λ answer. IfErr answer (λ wait. row_reason reg.old room.old used.now keys.now (to_list shared.now) need.now ≡ Some wait)) }
    ensures none { IfOk result (λ answer. OnErr answer (reg.new ≡ reg.old)) }
    ensures none_room { IfOk result (λ answer. OnErr answer (room.new ≡ room.old)) }
    ensures err { OnErr result (reg.new ≡ reg.old) }
    ensures err_room { OnErr result (room.new ≡ room.old) }
{
    let state = state_of(reg, shared);
    start(
        reg, room, used, worker, key, keys, applied, shared, state, need,
    )
}

/// Starts the operation of a row as `start_row` does. It needs these places where what it shares is there, and the others
/// where nothing of that is, so that it has to be built: the answer tells whether it has.
pub fn start_sharing(
    reg: &mut Registry,
    room: &mut Room,
    used: &KindCounts,
    worker: u32,
    key: &Key,
    keys: &[Key],
    applied: bool,
    shared: &Option<Name>,
    need: &KindCounts,
    need_built: &KindCounts,
) -> Result<Result<bool, Wait>, OutOfMemory>
    requires worker { worker < 4 }
    requires readable { IsReadable key.now }
    requires unpinned { HasNoPins reg.old worker }
    requires own { applied ≡ false → registered_at reg.old (Name.Row key.now) ≡ None }
    requires shared { MayShare reg.old shared.now }
    ensures builds { IfOk result (λ answer. IfOk answer (λ builds. builds ≡ lacks_shared reg.old shared.now)) }
    ensures free { IfOk result (λ answer. OnOk answer (row_reason reg.old room.old used.now keys.now (to_list shared.now) (if lacks_shared reg.old shared.now then need_built.now else need.now) ≡ None)) }
    ensures names { IfOk result (λ answer. OnOk answer (reg.new ≡ begun_by reg.old worker key.now keys.now applied shared.now (lacks_shared reg.old shared.now))) }
    ensures places { IfOk result (λ answer. OnOk answer (Reserves room.old worker (if lacks_shared reg.old shared.now then need_built.now else need.now) room.new)) }
    ensures wait { IfOk result (λ answer. IfErr answer (λ wait. row_reason reg.old room.old used.now keys.now (to_list shared.now) (if lacks_shared reg.old shared.now then need_built.now else need.now) ≡ Some wait)) }
    ensures none { IfOk result (λ answer. OnErr answer (reg.new ≡ reg.old)) }
    ensures none_room { IfOk result (λ answer. OnErr answer (room.new ≡ room.old)) }
    ensures err { OnErr result (reg.new ≡ reg.old) }
    ensures err_room { OnErr result (room.new ≡ room.old) }
{
    let state = state_of(reg, shared);
    let builds = is_absent(state);
    let due = places_due(builds, need, need_built);
    let started = start(
        reg, room, used, worker, key, keys, applied, shared, state, due,
    )?;
    Ok(started.and(Ok(builds)))
}

/// The places that are needed, where what is shared has to be built, or is there.
fn places_due<'a>(builds: bool, need: &'a KindCounts, need_built: &'a KindCounts) -> &'a KindCounts
    ensures { result.now ≡ (if builds then need_built.now else need.now) }
{
    if builds { need_built } else { need }
}

/// Starts the operation of a row that shares what stands so, which is not looked up again unless the row has to wait. Each
/// key is looked up once, unless one is not live.
fn start(
    reg: &mut Registry,
    room: &mut Room,
    used: &KindCounts,
    worker: u32,
    key: &Key,
    keys: &[Key],
    applied: bool,
    shared: &Option<Name>,
    state: NameState,
    need: &KindCounts,
) -> Result<Result<(), Wait>, OutOfMemory>
    requires worker { worker < 4 }
    requires readable { IsReadable key.now }
    requires unpinned { HasNoPins reg.old worker }
    requires own { applied ≡ false → registered_at reg.old (Name.Row key.now) ≡ None }
    requires shared { MayShare reg.old shared.now }
    requires stands { state ≡ shared_state reg.old shared.now }
    ensures free { IfOk result (λ answer. OnOk answer (row_reason reg.old room.old used.now keys.now (to_list shared.now) need.now ≡ None)) }
    ensures names { IfOk result (λ answer. OnOk answer (reg.new ≡ begun_by reg.old worker key.now keys.now applied shared.now (lacks_shared reg.old shared.now))) }
    ensures places { IfOk result (λ answer. OnOk answer (Reserves room.old worker need.now room.new)) }
    ensures wait { IfOk result (λ answer. IfErr answer (λ wait. row_reason reg.old room.old used.now keys.now (to_list shared.now) need.now ≡ Some wait)) }
    ensures none { IfOk result (λ answer. OnErr answer (reg.new ≡ reg.old)) }
    ensures none_room { IfOk result (λ answer. OnErr answer (room.new ≡ room.old)) }
    ensures err { OnErr result (reg.new ≡ reg.old) }
    ensures err_room { OnErr result (room.new ≡ room.old) }
{
    if !may_begin(state, room, used, need) {
        return Ok(Err(wait_for(reg, room, used, keys, shared, need)?));
    }
    match begin(reg, worker, key, keys, applied, shared)? {
        Ok(()) => {}
        Err(_) => return Ok(Err(wait_for(reg, room, used, keys, shared, need)?)),
    }
    match room.reserve(worker, need, used) {
        None => Ok(Ok(())),
        Some(_) => unreachable!(),
    }
}

/// Whether no worker builds what stands so, or takes it away, and there is room for the places that are needed.
fn may_begin(state: NameState, room: &Room, used: &KindCounts, need: &KindCounts) -> bool
    ensures { IsTrue result ↔ (owner_in state ≡ None) × (lacking room.now need.now used.now ≡ None) }
{
    owner(state).is_none() && room.lacking(need, used).is_none()
}

/// The first reason why a row has to wait for which there is one.
fn wait_for(
    reg: &Registry,
    room: &Room,
    used: &KindCounts,
    keys: &[Key],
    shared: &Option<Name>,
    need: &KindCounts,
) -> Result<Wait, OutOfMemory>
    requires { ¬ (row_reason reg.now room.now used.now keys.now (to_list shared.now) need.now ≡ None) }
    ensures { IfOk result (λ wait. row_reason reg.now room.now used.now keys.now (to_list shared.now) need.now ≡ Some wait) }
{
    match reason(reg, room, used, keys, shared, need)? {
        Some(wait) => Ok(wait),
        None => unreachable!(),
    }
}

/// How what is shared stands. Where nothing is, it is as if it were live: nobody has to build it.
fn state_of(reg: &Registry, shared: &Option<Name>) -> NameState
    ensures { result ≡ shared_state reg.now shared.now }
{
    match shared {
        Some(name) => reg.state(name),
        None => NameState::Live,
    }
}

/// Whether nothing is there of what stands so.
fn is_absent(state: NameState) -> bool
    ensures { result ≡ is_absent state }
{
    match state {
        NameState::Absent => true,
        NameState::Building(_) | NameState::Live | NameState::Retiring(_) => false,
    }
}
