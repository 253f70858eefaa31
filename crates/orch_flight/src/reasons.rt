// Why a row has to wait.
ghost use Rattle.std.specs.Prelude.{◌≡◌, [], ◌∷◌, ◌++◌, map, None, Some, IfOk, IfErr, OnOk};
ghost use Rattle.ref_counts.specs.Registered.{lesser};
ghost use Rattle.ref_counts.specs.Registry.{owner_in, state_of};
ghost use Rattle.orch_flight.specs.Needing.{first_unapplied, least_of, row_reason, workers_on};
ghost use Rattle.orch_flight.specs.Taking.{to_list};

use ref_counts::{Name, NameState, Registry, Room};
use sai_types::KindCounts;
use switch_model::Wait;
use swss_types::OutOfMemory;
use table_schema::Key;

/// The first reason that holds for a row that names these keys, shares this and needs these places: a key that is not
/// applied; the least worker whose operation builds or takes away what is needed; a kind of which there is too little room.
pub fn reason(
    reg: &Registry,
    room: &Room,
    used: &KindCounts,
    keys: &[Key],
    shared: &Option<Name>,
    need: &KindCounts,
) -> Result<Option<Wait>, OutOfMemory>
    ensures { IfOk result (λ wait. wait ≡ row_reason reg.now room.now used.now keys.now (to_list shared.now) need.now) }
{
    match least_on(reg, keys, shared)? {
        Err(key) => Ok(Some(Wait::Missing(key))),
        Ok(Some(worker)) => Ok(Some(Wait::Busy(worker))),
        Ok(None) => match room.lacking(need, used) {
            Some(kind) => Ok(Some(Wait::NoRoom(kind))),
            None => Ok(None),
        },
    }
}

/// A key, where it is not applied.
pub fn unapplied(reg: &Registry, key: &Key) -> Result<Option<Key>, OutOfMemory>
    ensures { IfOk result (λ found. found ≡ first_unapplied reg.now (key.now ∷ [])) }
{
    match reg.row_state(key) {
        NameState::Live | NameState::Retiring(_) => Ok(None),
        NameState::Absent | NameState::Building(_) => Ok(Some(key.copy()?)),
    }
}

/// The least worker whose operation builds the rows of some keys and what is shared, or takes them away. Err is the first of
/// the keys that is not applied. Each name is looked up once.
pub fn least_on(
    reg: &Registry,
    keys: &[Key],
    shared: &Option<Name>,
) -> Result<Result<Option<u32>, Key>, OutOfMemory>
    ensures applied { IfOk result (λ found. OnOk found (first_unapplied reg.now keys.now ≡ None)) }
    ensures least { IfOk result (λ found. IfOk found (λ worker. worker ≡ least_of (workers_on reg.now (map Name.Row keys.now ++ to_list shared.now)))) }
    ensures unapplied { IfOk result (λ found. IfErr found (λ key. first_unapplied reg.now keys.now ≡ Some key)) }
{
    match keys {
        [] => match shared {
            Some(name) => Ok(Ok(worker_on(reg, name))),
            None => Ok(Ok(None)),
        },
        [key, others @ ..] => match reg.row_state(key) {
            NameState::Live => least_on(reg, others, shared),
            NameState::Retiring(worker) => match least_on(reg, others, shared)? {
                Ok(least) => Ok(Ok(Some(lesser(worker, least)))),
                Err(key) => Ok(Err(key)),
            },
            NameState::Absent | NameState::Building(_) => Ok(Err(key.copy()?)),
        },
    }
}

/// The worker whose operation builds a name or takes it away.
fn worker_on(reg: &Registry, name: &Name) -> Option<u32>
    ensures { result ≡ owner_in (state_of reg.now name.now) }
{
    owner(reg.state(name))
}

/// The worker whose operation builds what stands so, or takes it away.
pub fn owner(state: NameState) -> Option<u32>
    ensures { result ≡ owner_in state }
{
    match state {
        NameState::Building(worker) | NameState::Retiring(worker) => Some(worker),
        NameState::Absent | NameState::Live => None,
    }
}

/// The lesser of a worker and another, where there is one.
pub fn lesser(worker: u32, other: Option<u32>) -> u32
    ensures { result ≡ lesser worker other }
{
    match other {
        Some(other) => worker.min(other),
        None => worker,
    }
}
