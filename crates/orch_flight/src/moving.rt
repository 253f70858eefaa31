// How the operation of a row starts whose applied row goes first.
ghost use Rattle.std.specs.Prelude.{◌≡◌, None, Some, IfOk, IfErr, OnOk, OnErr};
ghost use Rattle.ref_counts.specs.declared.name.NameState.TheVariants.{Live};
ghost use Rattle.ref_counts.specs.Registered.{IsReadable, begun_to_go};
ghost use Rattle.ref_counts.specs.Registry.{changed, pinned, state_of};
ghost use Rattle.orch_flight.specs.Needing.{moved_reason, refusal_with};
ghost use Rattle.orch_flight.specs.Sharing.{HasNoPins};

use crate::reasons::{least_on, lesser};
use ref_counts::{Name, Registry, copied};
use switch_model::Wait;
use swss_types::OutOfMemory;
use table_schema::Key;

/// Starts the operation of a row that names these keys and comes in the place of an applied row that goes, or tells the first
/// reason why it has to wait. The key's name begins to go, until it comes back. The Wait and want of memory leave the registry
/// as it is.
pub fn start_moved(
    reg: &mut Registry,
    worker: u32,
    key: &Key,
    keys: &[Key],
) -> Result<Result<(), Wait>, OutOfMemory>
    requires readable { IsReadable key.now }
    requires unpinned { HasNoPins reg.old worker }
    requires live { state_of reg.old (Name.Row key.now) ≡ Live }
    ensures free { IfOk result (λ answer. OnOk answer (moved_reason reg.old worker key.now keys.now ≡ None)) }
    ensures names { IfOk result (λ answer. OnOk answer (reg.new ≡ changed (pinned reg.old worker key.now keys.now) (Name.Row key.now) (begun_to_go worker))) }
    ensures wait { IfOk result (λ answer. IfErr answer (λ wait. moved_reason reg.old worker key.now keys.now ≡ Some wait)) }
    ensures none { IfOk result (λ answer. OnErr answer (reg.new ≡ reg.old)) }
    ensures err { OnErr result (reg.new ≡ reg.old) }
{
    if let Some(wait) = moved_wait(reg, worker, key, keys)? {
        return Ok(Err(wait));
    }
    match reg.pin(worker, key, keys)? {
        Ok(()) => {}
        Err(_) => unreachable!(),
    }
    match reg.try_retire(worker, &Name::Row(copied(key))) {
        Ok(()) => Ok(Ok(())),
        Err(_) => unreachable!(),
    }
}

/// The first reason why it has to wait: a key that is not applied; the least key whose row names it; the least worker that
/// pins it, or whose operation builds a row of these keys or takes it away.
fn moved_wait(
    reg: &Registry,
    worker: u32,
    key: &Key,
    keys: &[Key],
) -> Result<Option<Wait>, OutOfMemory>
    requires { IsReadable key.now }
    ensures { IfOk result (λ wait. wait ≡ moved_reason reg.now worker key.now keys.now) }
{
    match least_on(reg, keys, &None)? {
        Err(missing) => Ok(Some(Wait::Missing(missing))),
        Ok(least) => {
            let refusal = reg.refusal(worker, &Name::Row(copied(key)));
            Ok(refusal_with(refusal, least))
        }
    }
}

/// Why a row may not be taken away, where the least of the workers that are in the way otherwise is known.
fn refusal_with(refusal: Option<Wait>, other: Option<u32>) -> Option<Wait>
    ensures { result ≡ refusal_with refusal other }
{
    match refusal {
        Some(Wait::Busy(worker)) => Some(Wait::Busy(lesser(worker, other))),
        Some(refusal) => Some(refusal),
        None => match other {
            Some(worker) => Some(Wait::Busy(worker)),
            None => None,
        },
    }
}
