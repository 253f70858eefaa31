// How far an operation is when it starts.
ghost use Rattle.std.specs.Prelude.{◌≡◌, None, Some, IsSome, option_map};
ghost use Rattle.switch_machine.specs.Flights.{Fits};
ghost use Rattle.switch_model.specs.Things.{lane_of};
ghost use Rattle.switch_model.specs.Placed as placed;
ghost use Rattle.switch_model.specs.Placed.{Placed};
ghost use Rattle.vlan_orch.specs.Vlans.{IsVlanStart, IsFirstMember, IsMemberRow, IsVlanKey, first_vlan};
ghost use Rattle.orch_flight.specs.Starting.{in_default};

use crate::steps::{MemberStep, Membership, VlanStep, VlanSubject};
use orch_flight::lane_of;
use swss_types::Tagging;
use table_schema::{Key, PortPlan, Row};

/// The operation of which nothing is made yet, by whether the bridge port has to be built.
pub fn first(
    plan: &PortPlan,
    key: &Key,
    old: Option<&Row>,
    new: Option<&Row>,
    builds: bool,
) -> VlanSubject
    requires vlan { IsVlanKey key.now }
    requires some { in_default (option_map (λ r. r.now) old) ≡ None → in_default (option_map (λ r. r.now) new) ≡ None → ⊥ }
    requires old { (r : Placed) → in_default (option_map (λ r. r.now) old) ≡ Some r → Fits plan.now key.now r }
    requires new { (r : Placed) → in_default (option_map (λ r. r.now) new) ≡ Some r → Fits plan.now key.now r }
    ensures { IsVlanStart plan.now key.now (in_default (option_map (λ r. r.now) old.entry)) (in_default (option_map (λ r. r.now) new.entry)) builds result }
{
    match key {
        Key::Vlan(vlan) => VlanSubject::Vlan(*vlan, first_vlan(old, new)),
        Key::Member(vlan, port) => {
            let at = Membership {
                vlan: *vlan,
                port: *port,
                lane: lane(plan, *port),
            };
            VlanSubject::Member(at, first_member(tagging_of(old), tagging_of(new), builds))
        }
        _ => unreachable!(),
    }
}

/// How far a VLAN's operation is that starts.
fn first_vlan(old: Option<&Row>, new: Option<&Row>) -> VlanStep
    ensures { result ≡ first_vlan (in_default (option_map (λ r. r.now) old.entry)) (in_default (option_map (λ r. r.now) new.entry)) }
{
    match (old, new) {
        (None, _) => VlanStep::Add,
        (Some(_), None) => VlanStep::Remove,
        (Some(_), Some(_)) => VlanStep::Keep,
    }
}

/// How far a member's operation is that starts.
fn first_member(old: Option<Tagging>, new: Option<Tagging>, builds: bool) -> MemberStep
    requires { old ≡ None → new ≡ None → ⊥ }
    ensures { IsFirstMember old new builds result }
{
    match (old, new) {
        (None, Some(new)) => {
            if builds {
                MemberStep::AddBridge(new)
            } else {
                MemberStep::Add(new)
            }
        }
        (Some(old), Some(new)) => {
            if old == new {
                MemberStep::Keep(new)
            } else {
                MemberStep::Set(old, new)
            }
        }
        (Some(old), None) => MemberStep::Remove(old),
        (None, None) => unreachable!(),
    }
}

/// The tagging of a member's row, where there is one.
fn tagging_of(row: Option<&Row>) -> Option<Tagging>
    requires { IsMemberRow (in_default (option_map (λ r. r.now) row)) }
    ensures { option_map placed.Member result ≡ in_default (option_map (λ r. r.now) row.entry) }
{
    match row {
        Some(Row::Member(tagging)) => Some(*tagging),
        Some(_) => unreachable!(),
        None => None,
    }
}

/// The first lane of a port of the plan.
fn lane(plan: &PortPlan, port: u32) -> u16
    requires { IsSome (lane_of plan.now port) }
    ensures { lane_of plan.now port ≡ Some result }
{
    match lane_of(plan, port) {
        Some(lane) => lane,
        None => unreachable!(),
    }
}
