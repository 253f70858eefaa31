// Where packets go, as a table for each virtual router has it.
ghost use Rattle.std.specs.Prelude.{◌≡◌, List, IfOk, OnOk};
ghost use Rattle.std.specs.List.{AllByRecursion};
ghost use Rattle.swss_types.specs.Address.{IsProperPrefix};
ghost use Rattle.sai_types.specs.Forwarding.{forward};
ghost use Rattle.sai_types.specs.Named.{named, those};
ghost use Rattle.sai_types.specs.declared.thing.Thing.{Thing};
ghost use Rattle.chip_names.specs.Naming.{entries_of};
ghost use Rattle.sai_chip.specs.Forward.{answer_of};
ghost use Rattle.packet_walk.specs.Sends.{send_by};
ghost use Rattle.packet_walk.specs.Tables.{AreTablesOf, IsProperThing, answer, put_row, table_row, tables_of, with_thing_told};

use crate::router_table::{RouterTable, Row};
use crate::sends::{Macs, macs_of, send};
use chip_names::Names;
use sai_chip::Forward;
use sai_types::{Object, Rid, Thing};
use std::alloc::Global;
use std::collections::BTreeMap;
use std::marker::Model;
use swss_types::{OutOfMemory, Packet, Prefix, Vrf};

/// Where packets go: a table for each virtual router that has an address of the switch or a route, the forwarding information
/// base of RFC 1812.
#[derive(Drop)]
pub struct Fib {
    alloc: Global,
    tables: BTreeMap<Vrf, RouterTable>,
}

impl Model for Fib {
    ghost use Rattle.packet_walk.specs.Tables.{Tables};

    ghost Value = { Tables };

    ghost view = { λ f. f.tables.entries };
}

impl Fib {
    /// The tables of a chip's objects.
    pub fn new(alloc: Global, objects: &[Object<Rid>]) -> Result<Fib, OutOfMemory>
        ensures { IfOk result (λ fib. AreTablesOf (those (named (entries_of objects.now))) fib) }
    {
        let things = things_of(alloc, objects)?;
        let macs = macs_of(alloc, &things)?;
        Fib::of(alloc, &macs, &things)
    }

    /// The tables of things, where goals send by these addresses.
    fn of(alloc: Global, macs: &Macs, things: &[Thing]) -> Result<Fib, OutOfMemory>
        ensures made { IfOk result (λ fib. fib ≡ tables_of (send_by macs.now.entries) things.now) }
        ensures proper { IfOk result (λ fib. AllByRecursion IsProperThing things.now) }
    {
        let mut fib = Fib {
            alloc,
            tables: BTreeMap::new(alloc),
        };
        let mut left = things.len();
        while 0 < left {
            left -= 1;
            fib.add(macs, &things[left])?;
        }
        Ok(fib)
    }

    /// Puts what a thing says of packets.
    fn add(&mut self, macs: &Macs, thing: &Thing) -> Result<(), OutOfMemory>
        ensures put { OnOk result (self.new ≡ with_thing_told (send_by macs.now.entries) self.old thing.now) }
        ensures proper { IsProperThing thing.now }
    {
        match table_row(self.alloc, macs, thing)? {
            Some((vrf, row)) => self.put(vrf, row),
            None => Ok(()),
        }
    }

    /// Puts a row into the table of a router.
    fn put(&mut self, vrf: Vrf, row: Row) -> Result<(), OutOfMemory>
        ensures { OnOk result (self.new ≡ put_row self.old vrf row) }
    {
        if let Some(table) = self.tables.get_mut(&vrf) {
            return table.put(row);
        }
        let mut table = RouterTable::new(self.alloc);
        table.put(row)?;
        self.tables.insert(vrf, table)?;
        Ok(())
    }

    /// Where a packet goes: to the switch itself where its address is the switch's own in its router, else where the route of
    /// the longest prefix there points, else nowhere; the hops rise.
    pub fn answer(&self, packet: &Packet) -> Result<Forward, OutOfMemory>
        ensures exact { IfOk result (λ found. found ≡ answer self.now packet.now) }
        ensures forwards { IfOk result (λ found. (things : List Thing) → AreTablesOf things self.now → found ≡ answer_of (forward things packet.now)) }
    {
        match self.tables.get(&packet.vrf) {
            Some(table) => table.answer(packet.to),
            None => Ok(Forward::Drop),
        }
    }
}

/// What a thing says of packets, and in which router: None where it says nothing.
fn table_row(alloc: Global, macs: &Macs, thing: &Thing) -> Result<Option<(Vrf, Row)>, OutOfMemory>
    ensures row { IfOk result (λ row. row ≡ table_row (send_by macs.now.entries) thing.now) }
    ensures proper { IsProperThing thing.now }
{
    Ok(match thing {
        Thing::Own(vrf, ip) => Some((*vrf, Row::Own(*ip))),
        Thing::Route(vrf, prefix, goal) => {
            is_proper(prefix);
            let forward = send(alloc, macs, goal)?;
            Some((*vrf, Row::Route(*prefix, forward)))
        }
        _ => None,
    })
}

/// The prefix has no host bits. A law: it does nothing.
fn is_proper(prefix: &Prefix)
    ensures { IsProperPrefix prefix.now }
{
    let _len = prefix.len;
}

/// What the objects stand for, in their order.
fn things_of(alloc: Global, objects: &[Object<Rid>]) -> Result<Vec<Thing>, OutOfMemory>
    ensures { IfOk result (λ things. things.items ≡ those (named (entries_of objects.now))) }
{
    let names = Names::of(alloc, objects)?;
    let mut things = Vec::new(alloc);
    for object in objects {
        if let Some(thing) = names.thing(object)? {
            things.push(thing)?;
        }
    }
    Ok(things)
}
