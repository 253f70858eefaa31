// The operation of a neighbour.
ghost use Rattle.std.specs.Prelude.{◌≡◌, ◌↔◌, [], false, Some, option_map, IfOk, IsTrue, OnOk, OnErr};
ghost use Rattle.ref_counts.specs.Registered.{first_of};
ghost use Rattle.ref_counts.specs.Registry.{ids_of};
ghost use Rattle.table_schema.specs.Plan.{Ports};
ghost use Rattle.orch_flight.specs.Calling.{IsNextOf, IsOver, KnowsIds};
ghost use Rattle.orch_flight.specs.Sharing.{MayStart};
ghost use Rattle.orch_flight.specs.Starting.{IsStartedBy, in_default};
ghost use Rattle.orch_flight.specs.Taking.{IsTook, MayTake};
ghost use Rattle.neigh_orch.specs.Neighbours.{HaveFit, IsNeighborStart, IsNeighborFlown, IsMadeNext, IsNeighKey, IsSetNext, IsTakenNext, KnowsInterface, KnowsMade, KnowsTaken, MayBuild, fewer, row_mac, names_made, same_mac};

use crate::left::Left;
use crate::starting::{add, change, remove};
use orch_flight::{base_of, vid};
use ref_counts::{Name, Next, Registry, Room};
use sai_types::{Attr, Base, Body, Call, Entry, KindCounts, Vid};
use std::marker::Model;
use switch_model::Wait;
use swss_types::{IfName, Ip, Mac, OutOfMemory};
use table_schema::{Key, PortPlan, Row};

/// The operation of a neighbour: it is made, and then its next hop; its Ethernet address is set where it differs; or its next
/// hop is removed, and then it.
#[derive(Debug, Drop)]
pub struct NeighFlight {
    worker: u32,
    on: IfName,
    ip: Ip,
    // what the interface stands on
    base: Base,
    // the Ethernet address that the neighbour has now, and the one that it is to have
    current: Option<Mac>,
    target: Option<Mac>,
    left: Left,
}

impl Model for NeighFlight {
    ghost use Rattle.orch_flight.specs.Operation.{Operation};
    ghost use Rattle.neigh_orch.specs.Neighbours.{neigh_operation};

    ghost Value = { Operation };

    ghost view = { λ f. neigh_operation f.worker f.on f.ip f.base f.left f.current f.target };
}

impl NeighFlight {
    /// Starts the operation that brings a neighbour from its applied row to its new one, or tells the first reason why it has to
    /// wait, and changes nothing then. The worker is below 4 and has no operation.
    pub fn start(
        plan: &PortPlan,
        reg: &mut Registry,
        room: &mut Room,
        used: &KindCounts,
        worker: u32,
        key: &Key,
        old: Option<&Row>,
        new: Option<&Row>,
    ) -> Result<Result<NeighFlight, Wait>, OutOfMemory>
        requires table { IsNeighKey key.now }
        requires may { MayStart plan.now reg.old worker key.now (in_default (option_map (λ r. r.now) old)) (in_default (option_map (λ r. r.now) new)) }
        ensures started { IfOk result (λ answer. IsStartedBy plan.now reg.old room.old used.now worker key.now (in_default (option_map (λ r. r.now) old.entry)) (in_default (option_map (λ r. r.now) new.entry)) answer reg.new room.new) }
        ensures err { OnErr result (reg.new ≡ reg.old) }
        ensures err_room { OnErr result (room.new ≡ room.old) }
    {
        match key {
            Key::Neigh(on, ip) => {
                NeighFlight::start_at(plan, reg, room, used, worker, *on, ip, old, new)
            }
            _ => unreachable!(),
        }
    }

    /// Starts the operation of the neighbour with this address on this interface.
    fn start_at(
        plan: &PortPlan,
        reg: &mut Registry,
        room: &mut Room,
        used: &KindCounts,
        worker: u32,
        on: IfName,
        ip: &Ip,
        old: Option<&Row>,
        new: Option<&Row>,
    ) -> Result<Result<NeighFlight, Wait>, OutOfMemory>
        requires may { MayStart plan.now reg.old worker (Key.Neigh on ip.now) (in_default (option_map (λ r. r.now) old)) (in_default (option_map (λ r. r.now) new)) }
        ensures started { IfOk result (λ answer. IsStartedBy plan.now reg.old room.old used.now worker (Key.Neigh on ip.now) (in_default (option_map (λ r. r.now) old.entry)) (in_default (option_map (λ r. r.now) new.entry)) answer reg.new room.new) }
        ensures err { OnErr result (reg.new ≡ reg.old) }
        ensures err_room { OnErr result (room.new ≡ room.old) }
    {
        match (old, new) {
            (None, Some(row)) => {
                let begun = add(plan, reg, room, used, worker, on, ip, row)?;
                Ok(NeighFlight::of(plan, worker, on, ip, old, new, begun))
            }
            (Some(before), Some(row)) => {
                let begun = change(plan, reg, room, used, worker, on, ip, before, row)?;
                Ok(NeighFlight::of(plan, worker, on, ip, old, new, begun))
            }
            (Some(before), None) => {
                let begun = remove(plan, reg, room, used, worker, on, ip, before)?;
                Ok(NeighFlight::of(plan, worker, on, ip, old, new, begun))
            }
            (None, None) => unreachable!(),
        }
    }

    /// The operation, where it could begin.
    fn of(
        plan: &PortPlan,
        worker: u32,
        on: IfName,
        ip: &Ip,
        old: Option<&Row>,
        new: Option<&Row>,
        begun: Result<(), Wait>,
    ) -> Result<NeighFlight, Wait>
        requires { OnOk begun (HaveFit plan.now on ip.now (in_default (option_map (λ r. r.now) old)) (in_default (option_map (λ r. r.now) new))) }
        ensures { IsNeighborFlown plan.now worker on ip.now (in_default (option_map (λ r. r.now) old.entry)) (in_default (option_map (λ r. r.now) new.entry)) begun result }
    {
        match begun {
            Ok(()) => Ok(NeighFlight::first(plan, worker, on, ip, old, new)),
            Err(wait) => Err(wait),
        }
    }

    /// The operation of which nothing is made yet.
    fn first(
        plan: &PortPlan,
        worker: u32,
        on: IfName,
        ip: &Ip,
        old: Option<&Row>,
        new: Option<&Row>,
    ) -> NeighFlight
        requires { HaveFit plan.now on ip.now (in_default (option_map (λ r. r.now) old)) (in_default (option_map (λ r. r.now) new)) }
        ensures { IsNeighborStart plan.now worker on ip.now (in_default (option_map (λ r. r.now) old.entry)) (in_default (option_map (λ r. r.now) new.entry)) result }
    {
        match base_of(plan, on) {
            Some(base) => NeighFlight {
                worker,
                on,
                ip: *ip,
                base,
                current: mac_of(old),
                target: mac_of(new),
                left: Left::Both,
            },
            None => unreachable!(),
        }
    }

    /// The call that is due, or the end. It takes no memory where none is due.
    pub fn next(&self, reg: &Registry) -> Result<Next, OutOfMemory>
        requires { KnowsIds reg.now self.now }
        ensures { IfOk result (λ next. (plan : Ports) → IsOver plan self.now → IsNextOf plan reg.now self.now next) }
    {
        match (&self.current, &self.target) {
            (None, Some(mac)) => Ok(next_made(reg, self.on, &self.ip, mac, self.left)),
            (Some(now), Some(mac)) => Ok(next_set(reg, self.on, &self.ip, now, mac)),
            (Some(_), None) => Ok(next_taken(reg, self.on, &self.ip, self.left)),
            (None, None) => Ok(Next::End),
        }
    }

    /// The call that was due has taken effect: `made` is the identifier of what it made, where it made a next hop.
    pub fn took(&mut self, made: Option<Vid>, reg: &mut Registry)
        requires { MayTake self.old made reg.old }
        ensures { IsTook self.old made reg.old self.new reg.new }
    {
        match (&mut self.current, &self.target) {
            (Some(now), Some(mac)) => *now = *mac,
            (None, Some(_)) => {
                took_made(self.worker, self.on, &self.ip, self.left, made, reg);
                self.left = fewer(self.left);
            }
            (Some(_), None) => self.left = fewer(self.left),
            (None, None) => {}
        }
    }

    /// Whether no call is due any more.
    pub fn is_over(&self) -> bool
        ensures { IsTrue result ↔ (self.now.due ≡ []) }
    {
        match (&self.current, &self.target) {
            (None, None) => true,
            (Some(now), Some(mac)) => now == mac,
            (None, Some(_)) | (Some(_), None) => matches!(self.left, Left::Neither),
        }
    }
}

/// The Ethernet address of a neighbour's row, where there is one.
fn mac_of(row: Option<&Row>) -> Option<Mac>
    ensures { result ≡ row_mac (in_default (option_map (λ r. r.now) row.entry)) }
{
    match row {
        Some(Row::Neigh(mac)) => Some(*mac),
        _ => None,
    }
}

/// The identifier of a neighbour's interface.
fn interface(reg: &Registry, on: IfName) -> Vid
    requires { KnowsInterface reg.now on }
    ensures { first_of (ids_of reg.now (Name.Row (Key.Intf on))) ≡ Some result }
{
    vid(reg, &Name::Row(Key::Intf(on)))
}

/// The call that is due for a neighbour that is made, or the end.
fn next_made(reg: &Registry, on: IfName, ip: &Ip, mac: &Mac, left: Left) -> Next
    requires { KnowsMade reg.now on left }
    ensures { IsMadeNext reg.now on ip.now mac.now left result }
{
    match left {
        Left::Both => Next::Call(Call::Create(Body::Neighbor {
            rif: interface(reg, on),
            ip: *ip,
            mac: *mac,
        })),
        Left::One => Next::Call(Call::Create(Body::NextHop {
            rif: interface(reg, on),
            ip: *ip,
        })),
        Left::Neither => Next::End,
    }
}

/// The call that sets a neighbour's Ethernet address, or the end where it is the same.
fn next_set(reg: &Registry, on: IfName, ip: &Ip, now: &Mac, mac: &Mac) -> Next
    requires { same_mac now.now mac.now ≡ false → KnowsInterface reg.now on }
    ensures { IsSetNext reg.now on ip.now mac.now (same_mac now.now mac.now) result }
{
    if now == mac {
        Next::End
    } else {
        Next::Call(Call::Set(Entry::Neigh(interface(reg, on), *ip), Attr::Mac(*mac)))
    }
}

/// The call that is due for a neighbour that is removed, or the end.
fn next_taken(reg: &Registry, on: IfName, ip: &Ip, left: Left) -> Next
    requires { KnowsTaken reg.now on ip.now left }
    ensures { IsTakenNext reg.now on ip.now left result }
{
    match left {
        Left::Both => {
            Next::Call(Call::Remove(Entry::Oid(vid(reg, &Name::Row(Key::Neigh(on, *ip))))))
        }
        Left::One => Next::Call(Call::Remove(Entry::Neigh(interface(reg, on), *ip))),
        Left::Neither => Next::End,
    }
}

/// What is still left once the call that was due has taken effect.
fn fewer(left: Left) -> Left
    ensures { result ≡ fewer left }
{
    match left {
        Left::Both => Left::One,
        Left::One | Left::Neither => Left::Neither,
    }
}

/// Makes a neighbour's name live once its next hop is made.
fn took_made(worker: u32, on: IfName, ip: &Ip, left: Left, made: Option<Vid>, reg: &mut Registry)
    requires { MayBuild reg.old worker on ip.now left made }
    ensures { reg.new ≡ names_made reg.old on ip.now left made }
{
    if let Left::One = left {
        if let Some(vid) = made {
            reg.built(worker, &Name::Row(Key::Neigh(on, *ip)), &[vid]);
        }
    }
}
