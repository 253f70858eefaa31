// The operation of a port.
ghost use Rattle.std.specs.Prelude.{◌≡◌, ◌↔◌, [], ◌∷◌, IsSome, IsTrue, Some, None, option_map, IfOk, OnErr};
ghost use Rattle.table_schema.specs.Plan.{Ports};
ghost use Rattle.switch_model.specs.Placed as placed;
ghost use Rattle.orch_flight.specs.Calling.{IsNextOf, IsOver, KnowsIds};
ghost use Rattle.orch_flight.specs.Sharing.{MayStart};
ghost use Rattle.orch_flight.specs.Starting.{IsStartedBy, flown, in_default};
ghost use Rattle.orch_flight.specs.Taking.{IsTook, MayTake};
ghost use Rattle.ref_counts.specs.Registered.{first_of};
ghost use Rattle.ref_counts.specs.Registry.{ids_of};
ghost use Rattle.sai_types.specs.declared.ids.Vid.{Vid};
ghost use Rattle.port_orch.specs.Ports.{IsPortStart, IsPortKey, IsPortRow, first_attr, port_body, stepped};

use crate::starting::{add, change, remove};
use orch_flight::vid;
use ref_counts::{Name, Next, Registry, Room};
use sai_types::{Attr, Body, Call, Entry, KindCounts, Vid};
use std::marker::Model;
use switch_model::Wait;
use swss_types::OutOfMemory;
use table_schema::{Key, PortPlan, PortRow, Row};

/// The operation of a port: it is made, its speed, its mtu and whether it is up are set one after the other, each where it
/// differs, or it is removed.
#[derive(Debug, Drop)]
pub struct PortFlight {
    worker: u32,
    port: u32,
    // the values that the port has now, and those that it is to have
    current: Option<PortRow>,
    target: Option<PortRow>,
    // whether the port was made or removed
    done: bool,
}

impl Model for PortFlight {
    ghost use Rattle.orch_flight.specs.Operation.{Operation};
    ghost use Rattle.port_orch.specs.Ports.{port_operation};

    ghost Value = { Operation };

    ghost view = { λ f. port_operation f.worker f.port f.done f.current f.target };
}

impl PortFlight {
    /// Starts the operation that brings a port from its applied row to its new one, or tells the first reason why it has to
    /// wait, and changes nothing then. The worker is below 4 and has no operation.
    pub fn start(
        plan: &PortPlan,
        reg: &mut Registry,
        room: &mut Room,
        used: &KindCounts,
        worker: u32,
        key: &Key,
        old: Option<&Row>,
        new: Option<&Row>,
    ) -> Result<Result<PortFlight, Wait>, OutOfMemory>
        requires port { IsPortKey key.now }
        requires may { MayStart plan.now reg.old worker key.now (in_default (option_map (λ r. r.now) old)) (in_default (option_map (λ r. r.now) new)) }
        ensures started { IfOk result (λ answer. IsStartedBy plan.now reg.old room.old used.now worker key.now (in_default (option_map (λ r. r.now) old.entry)) (in_default (option_map (λ r. r.now) new.entry)) answer reg.new room.new) }
        ensures err { OnErr result (reg.new ≡ reg.old) }
        ensures err_room { OnErr result (room.new ≡ room.old) }
    {
        let flight = PortFlight::of(worker, key, old, new)?;
        match (old, new) {
            (None, Some(new)) => { Ok(flight.begun(add(plan, reg, room, used, worker, key, new)?)) }
            (Some(old), Some(new)) => {
                Ok(flight.begun(change(plan, reg, room, used, worker, key, old, new)?))
            }
            (Some(old), None) => {
                Ok(flight.begun(remove(plan, reg, room, used, worker, key, old)?))
            }
            (None, None) => unreachable!(),
        }
    }

    /// The operation of which nothing is made yet.
    fn of(
        worker: u32,
        key: &Key,
        old: Option<&Row>,
        new: Option<&Row>,
    ) -> Result<PortFlight, OutOfMemory>
        requires port { IsPortKey key.now }
        requires old { IsPortRow (in_default (option_map (λ r. r.now) old)) }
        requires new { IsPortRow (in_default (option_map (λ r. r.now) new)) }
        ensures { IfOk result (IsPortStart worker key.now (in_default (option_map (λ r. r.now) old.entry)) (in_default (option_map (λ r. r.now) new.entry))) }
    {
        let Key::Port(port) = key else {
            unreachable!();
        };
        Ok(PortFlight {
            worker,
            port: *port,
            current: port_row(old)?,
            target: port_row(new)?,
            done: false,
        })
    }

    /// The operation, where it could begin.
    fn begun(self, begun: Result<(), Wait>) -> Result<PortFlight, Wait>
        ensures { result ≡ flown self begun }
    {
        match begun {
            Ok(()) => Ok(self),
            Err(wait) => Err(wait),
        }
    }

    /// The call that is due, or the end. It takes no memory where none is due.
    pub fn next(&self, reg: &Registry) -> Result<Next, OutOfMemory>
        requires { KnowsIds reg.now self.now }
        ensures { IfOk result (λ next. (plan : Ports) → IsOver plan self.now → IsNextOf plan reg.now self.now next) }
    {
        if self.done {
            return Ok(Next::End);
        }
        match (&self.current, &self.target) {
            (None, Some(row)) => Ok(Next::Call(Call::Create(body(row)?))),
            (Some(now), Some(new)) => match first_attr(now, new) {
                Some(attr) => Ok(Next::Call(Call::Set(self.entry(reg), attr))),
                None => Ok(Next::End),
            },
            (Some(_), None) => Ok(Next::Call(Call::Remove(self.entry(reg)))),
            (None, None) => Ok(Next::End),
        }
    }

    /// The entry of the port's object.
    fn entry(&self, reg: &Registry) -> Entry<Vid>
        requires { IsSome (first_of (ids_of reg.now (Name.Row self.now.key))) }
        ensures { (v : Vid) → first_of (ids_of reg.now (Name.Row self.now.key)) ≡ Some v → result ≡ Entry.Oid v }
    {
        Entry::Oid(vid(reg, &Name::Row(Key::Port(self.port))))
    }

    /// The call that was due has taken effect: `made` is the identifier of what it made, where it made a port.
    pub fn took(&mut self, made: Option<Vid>, reg: &mut Registry)
        requires { MayTake self.old made reg.old }
        ensures { IsTook self.old made reg.old self.new reg.new }
    {
        match (&mut self.current, &self.target) {
            (Some(now), Some(new)) => step(now, new),
            (None, Some(_)) => {
                self.done = true;
                if let Some(vid) = made {
                    reg.built(self.worker, &Name::Row(Key::Port(self.port)), &[vid]);
                }
            }
            _ => self.done = true,
        }
    }

    /// Whether no call is due.
    pub fn is_over(&self) -> bool
        ensures { IsTrue result ↔ (self.now.due ≡ []) }
    {
        if self.done {
            return true;
        }
        match (&self.current, &self.target) {
            (None, Some(_)) | (Some(_), None) => false,
            (Some(now), Some(new)) => first_attr(now, new).is_none(),
            (None, None) => true,
        }
    }
}

/// A copy of a port's row, where there is one.
fn port_row(given: Option<&Row>) -> Result<Option<PortRow>, OutOfMemory>
    requires { IsPortRow (in_default (option_map (λ r. r.now) given)) }
    ensures { IfOk result (λ port. option_map placed.Port port ≡ in_default (option_map (λ r. r.now) given.entry)) }
{
    match given {
        Some(Row::Port(row)) => Ok(Some(row.copy()?)),
        Some(_) => unreachable!(),
        None => Ok(None),
    }
}

/// The body of a port's object.
fn body(row: &PortRow) -> Result<Body<Vid>, OutOfMemory>
    ensures { IfOk result (λ body. body ≡ port_body row.now) }
{
    Ok(Body::Port {
        lanes: row.lanes.copy()?,
        speed: row.speed,
        mtu: row.mtu,
        up: row.up,
    })
}

/// The first value that differs, as it is to be.
fn first_attr(now: &PortRow, new: &PortRow) -> Option<Attr<Vid>>
    ensures { result ≡ first_attr now.now new.now }
{
    if now.speed != new.speed {
        Some(Attr::Speed(new.speed))
    } else if now.mtu != new.mtu {
        Some(Attr::Mtu(new.mtu))
    } else if now.up != new.up {
        Some(Attr::Up(new.up))
    } else {
        None
    }
}

/// Sets the first value that differs.
fn step(now: &mut PortRow, new: &PortRow)
    ensures { now.new ≡ stepped now.old new.now }
{
    if now.speed != new.speed {
        now.speed = new.speed;
    } else if now.mtu != new.mtu {
        now.mtu = new.mtu;
    } else {
        now.up = new.up;
    }
}
