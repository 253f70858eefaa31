// The operation of a VLAN, or of a member of one.
ghost use Rattle.std.specs.Prelude.{◌≡◌, ◌↔◌, [], option_map, IfOk, OnErr, IsTrue};
ghost use Rattle.table_schema.specs.Plan.{Ports};
ghost use Rattle.orch_flight.specs.Calling.{IsNextOf, IsOver, KnowsIds};
ghost use Rattle.orch_flight.specs.Sharing.{MayStart};
ghost use Rattle.orch_flight.specs.Starting.{IsStartedBy, in_default};
ghost use Rattle.orch_flight.specs.Taking.{IsTook, MayTake};
ghost use Rattle.vlan_orch.specs.Vlans.{IsVlanKey};

use crate::calls::{member_next, vlan_next};
use crate::firsts::first;
use crate::starting::{begin, builds_bridge};
use crate::steps::{MemberStep, VlanStep, VlanSubject};
use crate::taking::took;
use ref_counts::{Next, Registry, Room};
use sai_types::{KindCounts, Vid};
use std::marker::Model;
use switch_model::Wait;
use swss_types::OutOfMemory;
use table_schema::{Key, PortPlan, Row};

/// The operation of a VLAN, which is made or removed, or of a member of one: it is made, after its bridge port where the port
/// has none, its tagging is set, or it is removed, and then its bridge port where no other member uses that.
#[derive(Debug, Drop)]
pub struct VlanFlight {
    worker: u32,
    subject: VlanSubject,
}

impl Model for VlanFlight {
    ghost use Rattle.orch_flight.specs.Operation.{Operation};
    ghost use Rattle.vlan_orch.specs.Vlans.{subject_operation};

    ghost Value = { Operation };

    ghost view = { λ f. subject_operation f.worker f.subject };
}

impl VlanFlight {
    /// Starts the operation that brings a VLAN or a member from its applied row to its new one, or tells the first reason why
    /// it has to wait, and changes nothing then. The worker is below 4 and has no operation.
    pub fn start(
        plan: &PortPlan,
        reg: &mut Registry,
        room: &mut Room,
        used: &KindCounts,
        worker: u32,
        key: &Key,
        old: Option<&Row>,
        new: Option<&Row>,
    ) -> Result<Result<VlanFlight, Wait>, OutOfMemory>
        requires vlan { IsVlanKey key.now }
        requires may { MayStart plan.now reg.old worker key.now (in_default (option_map (λ r. r.now) old)) (in_default (option_map (λ r. r.now) new)) }
        ensures started { IfOk result (λ answer. IsStartedBy plan.now reg.old room.old used.now worker key.now (in_default (option_map (λ r. r.now) old.entry)) (in_default (option_map (λ r. r.now) new.entry)) answer reg.new room.new) }
        ensures err { OnErr result (reg.new ≡ reg.old) }
        ensures err_room { OnErr result (room.new ≡ room.old) }
    {
        let builds = builds_bridge(plan, reg, key, new);
        match begin(plan, reg, room, used, worker, key, old, new)? {
            Ok(()) => Ok(Ok(VlanFlight {
                worker,
                subject: first(plan, key, old, new, builds),
            })),
            Err(wait) => Ok(Err(wait)),
        }
    }

    /// The call that is due, or the end. It takes no memory.
    pub fn next(&self, reg: &Registry) -> Result<Next, OutOfMemory>
        requires { KnowsIds reg.now self.now }
        ensures { IfOk result (λ next. (plan : Ports) → IsOver plan self.now → IsNextOf plan reg.now self.now next) }
    {
        match self.subject {
            VlanSubject::Vlan(vlan, step) => Ok(vlan_next(vlan, step, reg)),
            VlanSubject::Member(at, step) => Ok(member_next(at, step, reg)),
        }
    }

    /// The call that was due has taken effect: `made` is the identifier of what it made, where it made something.
    pub fn took(&mut self, made: Option<Vid>, reg: &mut Registry)
        requires { MayTake self.old made reg.old }
        ensures { IsTook self.old made reg.old self.new reg.new }
    {
        self.subject = took(self.worker, self.subject, made, reg);
    }

    /// Whether no change is due any more.
    pub fn is_over(&self) -> bool
        ensures { IsTrue result ↔ (self.now.due ≡ []) }
    {
        match self.subject {
            VlanSubject::Vlan(_, step) => match step {
                VlanStep::Add | VlanStep::Remove => false,
                VlanStep::Added | VlanStep::Removed | VlanStep::Keep => true,
            },
            VlanSubject::Member(_, step) => match step {
                MemberStep::AddBridge(_) | MemberStep::Add(_) => false,
                MemberStep::Set(..) | MemberStep::Remove(_) | MemberStep::RemoveBridge(_) => false,
                MemberStep::Added(_) | MemberStep::Keep(_) => true,
                MemberStep::Removed(_) | MemberStep::Retired(_) => true,
            },
        }
    }
}
