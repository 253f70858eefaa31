// What becomes of an operation when the call that was due has taken effect.
ghost use Rattle.std.specs.Prelude.{◌≡◌, ◌≤◌, length, IsSome, None, Some, if◌then◌else◌};
ghost use Rattle.orch_flight.specs.Starting.{left_names, retired_by};
ghost use Rattle.orch_flight.specs.Taking.{IsTook, MayTake, to_list};
ghost use Rattle.ref_counts.specs.Registered.{made_live};
ghost use Rattle.ref_counts.specs.Registry.{changed, places_of, state_of};
ghost use Rattle.row_layout.specs.Rows.{Bridge};
ghost use Rattle.vlan_orch.specs.Vlans.{member_left_by, member_operation, subject_operation, vlan_operation};

use crate::steps::{MemberStep, Membership, VlanStep, VlanSubject};
use orch_flight::leave;
use ref_counts::{Name, NameState, Registry};
use sai_types::Vid;
use swss_types::Tagging;
use table_schema::Key;

/// The call that was due has taken effect.
pub fn took(worker: u32, subject: VlanSubject, made: Option<Vid>, reg: &mut Registry) -> VlanSubject
    requires { MayTake (subject_operation worker subject) made reg.old }
    ensures { IsTook (subject_operation worker subject) made reg.old (subject_operation worker result) reg.new }
{
    match subject {
        VlanSubject::Vlan(vlan, step) => VlanSubject::Vlan(
            vlan,
            vlan_took(worker, vlan, step, made, reg),
        ),
        VlanSubject::Member(at, step) => VlanSubject::Member(
            at,
            member_took(worker, at, step, made, reg),
        ),
    }
}

/// The call that was due of a VLAN's operation has taken effect.
fn vlan_took(
    worker: u32,
    vlan: u16,
    step: VlanStep,
    made: Option<Vid>,
    reg: &mut Registry,
) -> VlanStep
    requires { MayTake (vlan_operation worker vlan step) made reg.old }
    ensures { IsTook (vlan_operation worker vlan step) made reg.old (vlan_operation worker vlan result) reg.new }
{
    match step {
        VlanStep::Add => {
            row_built(reg, worker, Key::Vlan(vlan), made);
            VlanStep::Added
        }
        VlanStep::Remove => VlanStep::Removed,
        VlanStep::Added | VlanStep::Removed | VlanStep::Keep => unreachable!(),
    }
}

/// The call that was due of a member's operation has taken effect.
fn member_took(
    worker: u32,
    at: Membership,
    step: MemberStep,
    made: Option<Vid>,
    reg: &mut Registry,
) -> MemberStep
    requires { MayTake (member_operation worker at step) made reg.old }
    ensures { IsTook (member_operation worker at step) made reg.old (member_operation worker at result) reg.new }
{
    match step {
        MemberStep::AddBridge(tagging) => {
            built(reg, worker, &Name::BridgePort(at.lane), made);
            MemberStep::Add(tagging)
        }
        MemberStep::Add(tagging) => {
            row_built(reg, worker, Key::Member(at.vlan, at.port), made);
            MemberStep::Added(tagging)
        }
        MemberStep::Set(_, new) => MemberStep::Keep(new),
        MemberStep::Remove(old) => left_by(old, leave_bridge(worker, at, reg)),
        MemberStep::RemoveBridge(old) => {
            reg.gone(&Name::BridgePort(at.lane));
            MemberStep::Retired(old)
        }
        MemberStep::Added(_) | MemberStep::Keep(_) => unreachable!(),
        MemberStep::Removed(_) | MemberStep::Retired(_) => unreachable!(),
    }
}

/// A member leaves its bridge port. The answer is true exactly where no other member uses that: it then begins to go.
fn leave_bridge(worker: u32, at: Membership, reg: &mut Registry) -> bool
    requires { state_of reg.old (Name.BridgePort at.lane) ≡ NameState.Live }
    ensures names { reg.new ≡ left_names reg.old worker (Key.Member at.vlan at.port) (Bridge at.lane) }
    ensures last { retired_by reg.old worker (Key.Member at.vlan at.port) (Bridge at.lane) ≡ (if result then Some (Bridge at.lane) else None) }
{
    leave(
        reg,
        worker,
        &Key::Member(at.vlan, at.port),
        &Name::BridgePort(at.lane),
    )
}

/// How far the operation of a removed member is: its bridge port is to be removed where it was the last to use it.
fn left_by(tagging: Tagging, last: bool) -> MemberStep
    ensures { result ≡ member_left_by tagging last }
{
    if last {
        MemberStep::RemoveBridge(tagging)
    } else {
        MemberStep::Removed(tagging)
    }
}

/// A row's object is made: its name is live.
fn row_built(reg: &mut Registry, worker: u32, key: Key, made: Option<Vid>)
    requires some { IsSome made }
    requires builds { state_of reg.old (Name.Row key) ≡ NameState.Building worker }
    requires places { length (to_list made) ≤ places_of reg.old (Name.Row key) }
    ensures { reg.new ≡ changed reg.old (Name.Row key) (made_live (to_list made)) }
{
    built(reg, worker, &Name::Row(key), made);
}

/// An object is made: its name is live.
fn built(reg: &mut Registry, worker: u32, name: &Name, made: Option<Vid>)
    requires some { IsSome made }
    requires builds { state_of reg.old name.now ≡ NameState.Building worker }
    requires places { length (to_list made) ≤ places_of reg.old name.now }
    ensures { reg.new ≡ changed reg.old name.now (made_live (to_list made)) }
{
    match made {
        Some(vid) => reg.built(worker, name, &[vid]),
        None => unreachable!(),
    }
}
