// What a virtual router does with packets.
ghost use Rattle.std.specs.Prelude.{◌≡◌, IfOk, OnOk};
ghost use Rattle.packet_walk.specs.Tables.{answer_in, no_table, with_table_row};

use lpm_table::Lpm;
use sai_chip::Forward;
use std::alloc::Global;
use std::collections::{BTreeMap, BTreeSet};
use std::marker::Model;
use swss_types::{Ip, OutOfMemory, Prefix};

/// What a router knows of packets, piece by piece.
#[derive(Drop)]
pub enum Row {
    /// An address of the switch itself.
    Own(Ip),
    /// Where packets of this prefix go, but for those of a longer one.
    Route(Prefix, Forward),
}

/// The switch's own addresses in a router, the prefixes of its routes, and where each of them sends.
#[derive(Drop)]
pub struct RouterTable {
    own: BTreeSet<Ip>,
    prefixes: Lpm,
    sends: BTreeMap<Prefix, Forward>,
}

impl Model for RouterTable {
    ghost use Rattle.packet_walk.specs.Tables.{TableParts};

    ghost Value = { TableParts };

    ghost view = { λ t. record { own = t.own.keys; prefixes = t.prefixes; sends = t.sends.entries } };
}

impl RouterTable {
    /// No address and no route.
    pub fn new(alloc: Global) -> RouterTable
        ensures { result ≡ no_table }
    {
        RouterTable {
            own: BTreeSet::new(alloc),
            prefixes: Lpm::new(alloc),
            sends: BTreeMap::new(alloc),
        }
    }

    /// Puts a row; a route takes the place of one of the same prefix.
    pub fn put(&mut self, row: Row) -> Result<(), OutOfMemory>
        ensures { OnOk result (self.new ≡ with_table_row self.old row) }
    {
        match row {
            Row::Own(ip) => {
                self.own.insert(ip)?;
            }
            Row::Route(prefix, forward) => {
                self.prefixes.put(prefix)?;
                self.sends.insert(prefix, forward)?;
            }
        }
        Ok(())
    }

    /// Where packets to an address go: to the switch itself where the address is its own, else where the route of the longest
    /// prefix sends that covers it, else nowhere.
    pub fn answer(&self, ip: Ip) -> Result<Forward, OutOfMemory>
        ensures { IfOk result (λ forward. forward ≡ answer_in self.now ip) }
    {
        if self.own.contains(&ip) {
            return Ok(Forward::Cpu);
        }
        if let Some(prefix) = self.prefixes.best(ip)
            && let Some(forward) = self.sends.get(&prefix)
        {
            return copy(forward);
        }
        Ok(Forward::Drop)
    }
}

/// The same once more.
fn copy(forward: &Forward) -> Result<Forward, OutOfMemory>
    ensures { IfOk result (λ same. same ≡ forward.now) }
{
    Ok(match forward {
        Forward::Cpu => Forward::Cpu,
        Forward::Drop => Forward::Drop,
        Forward::Direct(base) => Forward::Direct(*base),
        Forward::Via(ways) => Forward::Via(ways.copy()?),
    })
}
