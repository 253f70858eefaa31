// The call that is due.
ghost use Rattle.std.specs.Prelude.{◌≡◌, ℕ, Some, IsSome};
ghost use Rattle.table_schema.specs.Plan.{Ports};
ghost use Rattle.orch_flight.specs.Calling.{IsNextOf, IsOver, KnowsIds};
ghost use Rattle.ref_counts.specs.Registered.{first_of};
ghost use Rattle.ref_counts.specs.Registry.{ids_of};
ghost use Rattle.vlan_orch.specs.Vlans.{member_operation, vlan_operation};

use crate::steps::{MemberStep, Membership, VlanStep};
use orch_flight::vid;
use ref_counts::{Name, Next, Registry};
use sai_types::{Attr, Body, Call, Entry, Vid};
use table_schema::Key;

/// The call that is due of a VLAN's operation, or the end.
pub fn vlan_next(vlan: u16, step: VlanStep, reg: &Registry) -> Next
    requires { (worker : ℕ) → KnowsIds reg.now (vlan_operation worker vlan step) }
    ensures { (worker : ℕ) (plan : Ports) → IsOver plan (vlan_operation worker vlan step) → IsNextOf plan reg.now (vlan_operation worker vlan step) result }
{
    match step {
        VlanStep::Add => Next::Call(Call::Create(Body::Vlan { vlan })),
        VlanStep::Remove => Next::Call(Call::Remove(Entry::Oid(row_vid(reg, Key::Vlan(vlan))))),
        VlanStep::Added | VlanStep::Removed | VlanStep::Keep => Next::End,
    }
}

/// The call that is due of a member's operation, or the end.
pub fn member_next(at: Membership, step: MemberStep, reg: &Registry) -> Next
    requires { (worker : ℕ) → KnowsIds reg.now (member_operation worker at step) }
    ensures { (worker : ℕ) (plan : Ports) → IsOver plan (member_operation worker at step) → IsNextOf plan reg.now (member_operation worker at step) result }
{
    match step {
        MemberStep::AddBridge(_) => Next::Call(Call::Create(Body::BridgePort {
            port: row_vid(reg, Key::Port(at.port)),
        })),
        MemberStep::Add(tagging) => Next::Call(Call::Create(Body::VlanMember {
            vlan: row_vid(reg, Key::Vlan(at.vlan)),
            bridge_port: vid(reg, &Name::BridgePort(at.lane)),
            tagging,
        })),
        MemberStep::Set(_old, new) => {
            let member = row_vid(reg, Key::Member(at.vlan, at.port));
            Next::Call(Call::Set(Entry::Oid(member), Attr::Tagging(new)))
        }
        MemberStep::Remove(_) => {
            let member = row_vid(reg, Key::Member(at.vlan, at.port));
            Next::Call(Call::Remove(Entry::Oid(member)))
        }
        MemberStep::RemoveBridge(_) => {
            let bridge_port = vid(reg, &Name::BridgePort(at.lane));
            Next::Call(Call::Remove(Entry::Oid(bridge_port)))
        }
        MemberStep::Added(_) | MemberStep::Keep(_) => Next::End,
        MemberStep::Removed(_) | MemberStep::Retired(_) => Next::End,
    }
}

/// The identifier of a row's object.
fn row_vid(reg: &Registry, key: Key) -> Vid
    requires { IsSome (first_of (ids_of reg.now (Name.Row key))) }
    ensures { first_of (ids_of reg.now (Name.Row key)) ≡ Some result }
{
    vid(reg, &Name::Row(key))
}
