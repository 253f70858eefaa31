// The operation of a row of any table.
ghost use Rattle.std.specs.Prelude.{◌≡◌, ◌↔◌, [], IsTrue, IfOk, OnErr, Option, option_map};
ghost use Rattle.table_schema.specs.Plan.{Ports};
ghost use Rattle.switch_model.specs.Placed.{bare};
ghost use Rattle.row_layout.specs.Operations.{uses_of};
ghost use Rattle.orch_flight.specs.Calling.{IsNextOf, IsOver, KnowsIds};
ghost use Rattle.orch_flight.specs.Operation.{is_between};
ghost use Rattle.orch_flight.specs.Sharing.{MayStart};
ghost use Rattle.orch_flight.specs.Starting.{IsStartedBy, answered, in_place};
ghost use Rattle.orch_flight.specs.Taking.{IsTook, MayTake};
ghost use Rattle.registry_laws.specs.Flown.{group_in, group_to_take};
ghost use Rattle.flight_board.specs.Flights.{HasGroupsOnly, HasRow, HasTable, IsPlaceOf, operation_of, shared_group};

use intf_orch::IntfFlight;
use neigh_orch::NeighFlight;
use port_orch::PortFlight;
use ref_counts::{Name, Next, Registry, Room};
use route_orch::RouteFlight;
use sai_types::{Hops, KindCounts, Vid};
use std::alloc::Global;
use switch_model::Wait;
use swss_types::{OutOfMemory, Vrf};
use table_schema::{Key, PortPlan, Row};
use vlan_orch::VlanFlight;

/// The operation of a row, by its table, with the row that the key is to have: that of a route has it itself.
#[derive(Drop)]
pub enum RowFlight {
    /// Of a port.
    Port(PortFlight, Option<Row>),
    /// Of a VLAN, or of a member of one.
    Vlan(VlanFlight, Option<Row>),
    /// Of an interface, of an address of one, or of a virtual router.
    Intf(IntfFlight, Option<Row>),
    /// Of a neighbour.
    Neigh(NeighFlight, Option<Row>),
    /// Of a route.
    Route(RouteFlight),
}

impl RowFlight {
    /// Starts the operation that brings a key from its applied row to its new one, or tells the first reason why it has to
    /// wait, and changes nothing then. The operation takes the new row. An address is in this virtual router, and any other
    /// key has the default one here.
    pub fn start(
        alloc: Global,
        plan: &PortPlan,
        reg: &mut Registry,
        room: &mut Room,
        used: &KindCounts,
        worker: u32,
        key: &Key,
        old: Option<&Row>,
        new: &mut Option<Row>,
        router: &Vrf,
    ) -> Result<Result<RowFlight, Wait>, OutOfMemory>
        requires router { IsPlaceOf key.now router.now }
        requires may { MayStart plan.now reg.old worker key.now (in_place router.now (option_map (λ r. r.now) old)) (in_place router.now new.old) }
        ensures started { IfOk result (λ answer. IsStartedBy plan.now reg.old room.old used.now worker key.now (in_place router.now (option_map (λ r. r.now) old.entry)) (in_place router.now new.old) (answered operation_of answer) reg.new room.new) }
        ensures groups { IfOk result (λ answer. IfOk answer HasGroupsOnly) }
        ensures table { IfOk result (λ answer. IfOk answer HasTable) }
        ensures shared { IfOk result (λ answer. IfOk answer (λ f. group_in (uses_of plan.now key.now (in_place router.now new.old)) ≡ shared_group f)) }
        ensures row { IfOk result (λ answer. IfOk answer (λ f. HasRow f new.old)) }
        ensures err { OnErr result (reg.new ≡ reg.old) }
        ensures err_room { OnErr result (room.new ≡ room.old) }
    {
        match key {
            Key::Port(_) => {
                let given = new.as_ref();
                match PortFlight::start(plan, reg, room, used, worker, key, old, given)? {
                    Ok(flight) => Ok(Ok(RowFlight::Port(flight, new.take()))),
                    Err(wait) => Ok(Err(wait)),
                }
            }
            Key::Vlan(_) | Key::Member(..) => {
                let given = new.as_ref();
                match VlanFlight::start(plan, reg, room, used, worker, key, old, given)? {
                    Ok(flight) => Ok(Ok(RowFlight::Vlan(flight, new.take()))),
                    Err(wait) => Ok(Err(wait)),
                }
            }
            Key::Intf(_) | Key::Addr(..) | Key::Vrf(_) => {
                let given = new.as_ref();
                match IntfFlight::start(plan, reg, room, used, worker, key, old, given, router)? {
                    Ok(flight) => Ok(Ok(RowFlight::Intf(flight, new.take()))),
                    Err(wait) => Ok(Err(wait)),
                }
            }
            Key::Neigh(..) => {
                let given = new.as_ref();
                match NeighFlight::start(plan, reg, room, used, worker, key, old, given)? {
                    Ok(flight) => Ok(Ok(RowFlight::Neigh(flight, new.take()))),
                    Err(wait) => Ok(Err(wait)),
                }
            }
            Key::Route(..) => {
                let new = new.take();
                match RouteFlight::start(alloc, plan, reg, room, used, worker, key, old, new)? {
                    Ok(flight) => Ok(Ok(RowFlight::Route(flight))),
                    Err(wait) => Ok(Err(wait)),
                }
            }
            Key::Other(_) => unreachable!(),
        }
    }

    /// The call that is due, or the end. It takes no memory where none is due.
    pub fn next(&self, reg: &Registry) -> Result<Next, OutOfMemory>
        requires { KnowsIds reg.now (operation_of self.now) }
        ensures { IfOk result (λ next. (plan : Ports) → IsOver plan (operation_of self.now) → IsNextOf plan reg.now (operation_of self.now) next) }
    {
        match self {
            RowFlight::Port(flight, _) => flight.next(reg),
            RowFlight::Vlan(flight, _) => flight.next(reg),
            RowFlight::Intf(flight, _) => flight.next(reg),
            RowFlight::Neigh(flight, _) => flight.next(reg),
            RowFlight::Route(flight) => flight.next(reg),
        }
    }

    /// The call that was due has taken effect: `made` is the identifier of what it made, where that has one.
    pub fn took(&mut self, made: Option<Vid>, reg: &mut Registry)
        requires { MayTake (operation_of self.old) made reg.old }
        ensures took { IsTook (operation_of self.old) made reg.old (operation_of self.new) reg.new }
        ensures groups { HasGroupsOnly self.old → HasGroupsOnly self.new }
        ensures table { HasTable self.old → HasTable self.new }
        ensures shared { shared_group self.new ≡ shared_group self.old }
        ensures row { HasRow self.old (option_map bare (operation_of self.old).new) → HasRow self.new (option_map bare (operation_of self.new).new) }
    {
        match self {
            RowFlight::Port(flight, _) => flight.took(made, reg),
            RowFlight::Vlan(flight, _) => flight.took(made, reg),
            RowFlight::Intf(flight, _) => flight.took(made, reg),
            RowFlight::Neigh(flight, _) => flight.took(made, reg),
            RowFlight::Route(flight) => flight.took(made, reg),
        }
    }

    /// Whether no call of its own is due.
    pub fn is_over(&self) -> bool
        ensures { IsTrue result ↔ ((operation_of self.now).due ≡ []) }
    {
        match self {
            RowFlight::Port(flight, _) => flight.is_over(),
            RowFlight::Vlan(flight, _) => flight.is_over(),
            RowFlight::Intf(flight, _) => flight.is_over(),
            RowFlight::Neigh(flight, _) => flight.is_over(),
            RowFlight::Route(flight) => flight.is_over(),
        }
    }

    /// Whether it stands between the removal of an interface's router interface and its creation in another virtual router.
    pub fn is_between(&self) -> bool
        requires { HasTable self.now }
        ensures { result ≡ is_between (operation_of self.now) }
    {
        match self {
            RowFlight::Intf(flight, _) => flight.is_between(),
            _ => false,
        }
    }

    /// The row that the key is to have.
    pub fn into_row(self) -> Option<Row>
        ensures { (row : Option Row) → HasRow self row → result ≡ row }
    {
        match self {
            RowFlight::Port(_, row) => row,
            RowFlight::Vlan(_, row) => row,
            RowFlight::Intf(_, row) => row,
            RowFlight::Neigh(_, row) => row,
            RowFlight::Route(flight) => flight.into_row(),
        }
    }

    /// The name of the group that its new row shares: only routes share groups.
    pub fn group(&self) -> Option<&Name>
        ensures { option_map (λ name. name.now) result ≡ option_map Name.Group (shared_group self.now) }
    {
        match self {
            RowFlight::Route(flight) => flight.group(),
            _ => None,
        }
    }

    /// The group that it takes away, where it was the last to leave one.
    pub fn retired_group(&self) -> Option<&Hops>
        requires { HasGroupsOnly self.now }
        ensures { option_map (λ hops. hops.now) result ≡ group_to_take (operation_of self.now) }
    {
        match self {
            RowFlight::Route(flight) => flight.retired(),
            _ => None,
        }
    }
}
