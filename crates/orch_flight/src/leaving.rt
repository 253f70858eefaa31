// What an operation takes away or leaves, and what it finds.
ghost use Rattle.std.specs.Prelude.{◌≡◌, ◌↔◌, None, Some, IsSome, IsTrue, OnOk, OnErr, IfOk, IfErr, if◌then◌else◌};
ghost use Rattle.ref_counts.specs.declared.name.NameState.TheVariants.{Live};
ghost use Rattle.ref_counts.specs.Registered.{first_of, begun_to_go};
ghost use Rattle.ref_counts.specs.Registry.{changed, ids_of, retire_refusal_at, state_of};
ghost use Rattle.orch_flight.specs.Calling.{router_vid};
ghost use Rattle.orch_flight.specs.Starting.{left_names, retired_by};
ghost use Rattle.orch_flight.specs.Sharing.{owner_for};

use ref_counts::{Name, Registry};
use sai_types::Vid;
use switch_model::Wait;
use swss_types::{OutOfMemory, Vrf};
use table_schema::Key;

/// Begins to take the applied row of a key away, or tells why it has to wait: the least key whose row names it, or else the
/// least other worker that pins it.
pub fn try_remove(
    reg: &mut Registry,
    worker: u32,
    key: &Key,
) -> Result<Result<(), Wait>, OutOfMemory>
    requires { state_of reg.old (Name.Row key.now) ≡ Live }
    ensures free { IfOk result (λ answer. OnOk answer (retire_refusal_at reg.old worker (Name.Row key.now) ≡ None)) }
    ensures ok { IfOk result (λ answer. OnOk answer (reg.new ≡ changed reg.old (Name.Row key.now) (begun_to_go worker))) }
    ensures wait { IfOk result (λ answer. IfErr answer (λ wait. retire_refusal_at reg.old worker (Name.Row key.now) ≡ Some wait)) }
    ensures none { IfOk result (λ answer. OnErr answer (reg.new ≡ reg.old)) }
    ensures err { OnErr result (reg.new ≡ reg.old) }
{
    let name = Name::Row(key.copy()?);
    Ok(reg.try_retire(worker, &name))
}

/// A key leaves what it shared. The answer is true exactly where nobody uses that any more: it then begins to go.
pub fn leave(reg: &mut Registry, worker: u32, key: &Key, name: &Name) -> bool
    requires { state_of reg.old name.now ≡ Live }
    ensures names { reg.new ≡ left_names reg.old worker key.now (owner_for name.now) }
    ensures last { retired_by reg.old worker key.now (owner_for name.now) ≡ (if result then Some (owner_for name.now) else None) }
{
    reg.drop_user(name, key);
    match reg.try_retire(worker, name) {
        Ok(()) => true,
        Err(_) => false,
    }
}

/// The identifier of a name that has one.
pub fn vid(reg: &Registry, name: &Name) -> Vid
    requires { IsSome (first_of (ids_of reg.now name.now)) }
    ensures { first_of (ids_of reg.now name.now) ≡ Some result }
{
    match reg.vid_of(name) {
        Some(vid) => vid,
        None => unreachable!(),
    }
}

/// The identifier of a virtual router, which the default one has not.
pub fn router_vid(reg: &Registry, router: Vrf) -> Option<Vid>
    ensures { result ≡ router_vid reg.now router }
{
    match router {
        Vrf::Default => None,
        Vrf::Named(label) => reg.vid_of(&Name::Row(Key::Vrf(label))),
    }
}
