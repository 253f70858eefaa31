// The operation of an interface, of an interface's address or of a virtual router.
ghost use Rattle.std.specs.Prelude.{◌≡◌, ◌↔◌, ◌≤◌, [], ◌∷◌, length, is_some, option_map, IfOk, IsSome, IsTrue, OnErr};
ghost use Rattle.table_schema.specs.Plan.{Ports};
ghost use Rattle.ref_counts.specs.Registered.{made_live};
ghost use Rattle.ref_counts.specs.Registry.{changed, ids_of, places_of, state_of};
ghost use Rattle.ref_counts.specs.declared.name.NameState.TheVariants.{Building, Retiring};
ghost use Rattle.orch_flight.specs.Calling.{HaveIds, IsNextOf, IsOver, KnowsIds};
ghost use Rattle.orch_flight.specs.Operation.{is_between};
ghost use Rattle.orch_flight.specs.Sharing.{MayStart};
ghost use Rattle.orch_flight.specs.Starting.{IsStartedBy, answered, in_place};
ghost use Rattle.orch_flight.specs.Taking.{IsTook, MayTake, to_list};
ghost use Rattle.intf_orch.specs.Interfaces.{IsIntfKey, IsMadeOn, IsRemovedOf, IsRifNext, KnowsRif, MayBeLiveRif, MayBuildOwn, MayBuildRif, intf_keys, intf_operation, own_after, names_after_own, own_next, rif_names};

use crate::router::{next_router, took_router};
use crate::stage::{OwnStage, RifStage, RouterStage, Subject, rif_after};
use crate::starting::{start_address, start_interface, start_router};
use orch_flight::{router_vid, vid};
use ref_counts::{Name, Next, Registry, Room};
use sai_types::{Body, Call, Entry, KindCounts, RifOn, Vid};
use std::marker::Model;
use switch_model::Wait;
use swss_types::{IfName, Ip, OutOfMemory, Vrf};
use table_schema::{Key, PortPlan, Row};

/// The operation of an interface, whose router interface is made, or removed, or removed and made in another virtual router;
/// of an interface's address, whose own address is made with its first row and removed with its last one; or of a virtual
/// router, which is made or removed.
#[derive(Debug, Drop)]
pub struct IntfFlight {
    worker: u32,
    // whether a row of the key is applied, and whether one is to be
    applied: bool,
    wanted: bool,
    subject: Subject,
}

impl Model for IntfFlight {
    ghost use Rattle.orch_flight.specs.Operation.{Operation};
    ghost use Rattle.intf_orch.specs.Interfaces.{intf_operation};

    ghost Value = { Operation };

    ghost view = { λ f. intf_operation f.worker f.applied f.wanted f.subject };
}

impl IntfFlight {
    /// Starts the operation that brings a key of INTF_TABLE or VRF_TABLE from its applied row to its new one, or tells the
    /// first reason why it has to wait, and changes nothing then. The worker is below 4 and has no operation. An address is in
    /// this virtual router, that of its interface's applied row; for any other key it is not looked at.
    pub fn start(
        plan: &PortPlan,
        reg: &mut Registry,
        room: &mut Room,
        used: &KindCounts,
        worker: u32,
        key: &Key,
        old: Option<&Row>,
        new: Option<&Row>,
        router: &Vrf,
    ) -> Result<Result<IntfFlight, Wait>, OutOfMemory>
        requires table { IsIntfKey key.now }
        requires may { MayStart plan.now reg.old worker key.now (in_place router.now (option_map (λ r. r.now) old)) (in_place router.now (option_map (λ r. r.now) new)) }
        ensures started { IfOk result (λ answer. IsStartedBy plan.now reg.old room.old used.now worker key.now (in_place router.now (option_map (λ r. r.now) old.entry)) (in_place router.now (option_map (λ r. r.now) new.entry)) answer reg.new room.new) }
        ensures err { OnErr result (reg.new ≡ reg.old) }
        ensures err_room { OnErr result (room.new ≡ room.old) }
    {
        match key {
            Key::Intf(on) => {
                let begun = start_interface(plan, reg, room, used, worker, *on, old, new, router)?;
                Ok(IntfFlight::of(worker, old, new, begun))
            }
            Key::Addr(on, ip, len) => {
                let begun = start_address(
                    plan, reg, room, used, worker, *on, ip, *len, old, new, router,
                )?;
                Ok(IntfFlight::of(worker, old, new, begun))
            }
            Key::Vrf(label) => {
                let begun = start_router(plan, reg, room, used, worker, *label, old, new, router)?;
                Ok(IntfFlight::of(worker, old, new, begun))
            }
            _ => unreachable!(),
        }
    }

    /// The operation, where it could begin.
    fn of(
        worker: u32,
        old: Option<&Row>,
        new: Option<&Row>,
        begun: Result<Subject, Wait>,
    ) -> Result<IntfFlight, Wait>
        ensures { result ≡ answered (intf_operation worker (is_some (option_map (λ r. r.now) old.entry)) (is_some (option_map (λ r. r.now) new.entry))) begun }
    {
        match begun {
            Ok(subject) => Ok(IntfFlight {
                worker,
                applied: old.is_some(),
                wanted: new.is_some(),
                subject,
            }),
            Err(wait) => Err(wait),
        }
    }

    /// The call that is due, or the end. It takes no memory where none is due.
    pub fn next(&self, reg: &Registry) -> Result<Next, OutOfMemory>
        requires { KnowsIds reg.now self.now }
        ensures { IfOk result (λ next. (plan : Ports) → IsOver plan self.now → IsNextOf plan reg.now self.now next) }
    {
        match &self.subject {
            Subject::Intf(on, _, router, stage) => Ok(next_rif(reg, *on, *router, *stage)),
            Subject::Addr(router, _, ip, _, stage) => Ok(next_own(reg, *router, ip, *stage)),
            Subject::Vrf(label, stage) => Ok(next_router(reg, *label, *stage)),
        }
    }

    /// The call that was due has taken effect: `made` is the identifier of what it made, where it made a router interface or
    /// a virtual router.
    pub fn took(&mut self, made: Option<Vid>, reg: &mut Registry)
        requires { MayTake self.old made reg.old }
        ensures { IsTook self.old made reg.old self.new reg.new }
    {
        match &mut self.subject {
            Subject::Intf(on, _, _, stage) => {
                took_rif(self.worker, *on, self.applied, *stage, made, reg);
                *stage = rif_after(*stage);
            }
            Subject::Addr(router, _, ip, _, stage) => {
                *stage = took_own(self.worker, *router, ip, *stage, reg);
            }
            Subject::Vrf(label, stage) => {
                took_router(self.worker, *label, *stage, made, reg);
                *stage = RouterStage::Stays;
            }
        }
    }

    /// Whether it stands between the removal of its router interface and the creation of it in another virtual router.
    pub fn is_between(&self) -> bool
        ensures { result ≡ is_between self.now }
    {
        match self.subject {
            Subject::Intf(_, _, _, RifStage::Comes(_)) => self.applied,
            _ => false,
        }
    }

    /// Whether no call is due any more.
    pub fn is_over(&self) -> bool
        ensures { IsTrue result ↔ (self.now.due ≡ []) }
    {
        match self.subject {
            Subject::Intf(_, _, _, stage) => matches!(stage, RifStage::Stays),
            Subject::Addr(_, _, _, _, stage) => matches!(stage, OwnStage::Stays | OwnStage::Gone),
            Subject::Vrf(_, stage) => matches!(stage, RouterStage::Stays),
        }
    }
}

/// The call that is due for the router interface of an interface, or the end.
fn next_rif(reg: &Registry, on: IfName, router: Vrf, stage: RifStage) -> Next
    requires { KnowsRif reg.now on router stage }
    ensures { IsRifNext reg.now on router stage result }
{
    match stage {
        RifStage::Comes(_) => make_rif(reg, on, router),
        RifStage::Goes(_) | RifStage::Moves(_) => remove_rif(reg, on),
        RifStage::Stays => Next::End,
    }
}

/// The call that removes the router interface of an interface.
fn remove_rif(reg: &Registry, on: IfName) -> Next
    requires { HaveIds reg.now (Name.Row (Key.Intf on) ∷ []) }
    ensures { IsRemovedOf reg.now on result }
{
    Next::Call(Call::Remove(Entry::Oid(vid(reg, &Name::Row(Key::Intf(on))))))
}

/// The call that is due for an own address, or the end.
fn next_own(reg: &Registry, router: Vrf, ip: &Ip, stage: OwnStage) -> Next
    ensures { result ≡ own_next reg.now router ip.now stage }
{
    let vr = router_vid(reg, router);
    match stage {
        OwnStage::Comes => Next::Call(Call::Create(Body::OwnAddress { vr, ip: *ip })),
        OwnStage::Goes => Next::Call(Call::Remove(Entry::Own(vr, *ip))),
        OwnStage::Stays | OwnStage::Gone => Next::End,
    }
}

/// The call that makes the router interface of an interface in a virtual router; the end for a Loopback, which has none.
fn make_rif(reg: &Registry, on: IfName, router: Vrf) -> Next
    requires { HaveIds reg.now (intf_keys on router) }
    ensures { IsMadeOn reg.now on router result }
{
    let vr = router_vid(reg, router);
    let on = match on {
        IfName::Ethernet(port) => RifOn::Port(vid(reg, &Name::Row(Key::Port(port)))),
        IfName::Vlan(vlan) => RifOn::Vlan(vid(reg, &Name::Row(Key::Vlan(vlan)))),
        IfName::Loopback(_) => return Next::End,
    };
    Next::Call(Call::Create(Body::Rif { vr, on }))
}

/// Makes an interface's name live once its router interface is made, or brings it back once it is made in another virtual
/// router.
fn took_rif(
    worker: u32,
    on: IfName,
    applied: bool,
    stage: RifStage,
    made: Option<Vid>,
    reg: &mut Registry,
)
    requires { MayBuildRif reg.old worker on applied stage made }
    ensures { reg.new ≡ rif_names reg.old on stage made }
{
    if let RifStage::Comes(_) = stage {
        if let Some(vid) = made {
            make_live(worker, on, applied, vid, reg);
        }
    }
}

/// Makes an interface's name live with an identifier, or brings it back where a row of the interface is applied.
fn make_live(worker: u32, on: IfName, applied: bool, vid: Vid, reg: &mut Registry)
    requires { MayBeLiveRif applied reg.old worker on (vid ∷ []) }
    ensures { reg.new ≡ changed reg.old (Name.Row (Key.Intf on)) (made_live (vid ∷ [])) }
{
    let name = Name::Row(Key::Intf(on));
    if applied {
        reg.back(worker, &name, &[vid]);
    } else {
        reg.built(worker, &name, &[vid]);
    }
}

/// Makes an own address live once it is made, and absent once it is removed.
fn took_own(worker: u32, router: Vrf, ip: &Ip, stage: OwnStage, reg: &mut Registry) -> OwnStage
    requires { MayBuildOwn reg.old worker router ip.now stage }
    ensures names { reg.new ≡ names_after_own reg.old router ip.now stage }
    ensures stage { result ≡ own_after stage }
{
    match stage {
        OwnStage::Comes => {
            reg.built(worker, &Name::Own(router, *ip), &[]);
            OwnStage::Stays
        }
        _ => {
            reg.gone(&Name::Own(router, *ip));
            OwnStage::Gone
        }
    }
}
