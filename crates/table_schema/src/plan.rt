// The port plan: which ports a switch has, and their lanes.
ghost use Rattle.std.specs.Prelude.{◌≡◌, [], ◌<◌, false, length, slice_index_or, slice_index, option_map, Ok, Err, IfOk, OnOk, OnErr, All, find, MatchResult};
ghost use Rattle.std.specs.BTreeMap.{insert_entry};
ghost use Rattle.std.specs.Ordering.{nat_cmp};
ghost use Rattle.table_schema.specs.Plan.{IsPlan, first_taken, has_lane, lanes_in_plan, line_of, plan_from, plan_of, plan_step, port_fault, port_named};
ghost use Rattle.table_schema.specs.PlanIndex.{marked};

use crate::split::split_once;
use std::alloc::Global;
use std::collections::BTreeMap;
use std::marker::Model;
use swss_types::{IfName, LANE_BOUND, Lanes, OutOfMemory, Text};

/// How many ports a switch has at most.
pub const MOST_PORTS: usize = 256;

/// The ports of a switch with their lanes, at most `MOST_PORTS` of them and no lane in two.
#[derive(Debug, Drop)]
pub struct PortPlan {
    ports: BTreeMap<u32, Lanes>,
    // of each lane, whether a port has it
    taken: Vec<bool>,
    // of each lane, the port whose first lane it is
    names: Vec<Option<u32>>,
}

impl Model for PortPlan {
    ghost use Rattle.std.specs.Prelude.{List, ℕ};
    ghost use Rattle.table_schema.specs.PlanIndex.{IsIndexed};

    ghost Value = { List (ℕ × List ℕ) };

    ghost view = { λ p. p.ports.entries };

    ghost invariant = { λ p. IsIndexed p.ports.entries p.taken.items p.names.items };
}

/// Why a line of a port plan is refused.
#[derive(Clone, Copy, Debug, PartialEq, Eq)]
pub enum PlanWhy {
    /// The name is no Ethernet name.
    BadName,
    /// The lanes do not read.
    BadLanes,
    /// This lane is in an earlier port.
    LaneTwice(u16),
    /// The name is that of an earlier port.
    NameTwice,
    /// There are more than `MOST_PORTS` ports.
    TooManyPorts,
}

impl PortPlan {
    /// The plan without a port.
    pub fn new(alloc: Global) -> Result<PortPlan, OutOfMemory>
        ensures { IfOk result (λ plan. plan ≡ []) }
    {
        Ok(PortPlan {
            ports: BTreeMap::new(alloc),
            taken: vec![in alloc; false; LANE_BOUND as usize]?,
            names: vec![in alloc; None; LANE_BOUND as usize]?,
        })
    }

    /// The plan of these lines, each a name, a space and lanes: or the number of the first faulty line, from 1, and its
    /// first fault in the order BadName, BadLanes, NameTwice, LaneTwice, TooManyPorts.
    pub fn read(
        alloc: Global,
        lines: &[Text],
    ) -> Result<Result<PortPlan, (u64, PlanWhy)>, OutOfMemory>
        ensures { IfOk result (λ plan. plan ≡ plan_of lines.now) }
    {
        let mut plan = PortPlan::new(alloc)?;
        match plan.put_lines(lines) {
            Ok(Ok(())) => Ok(Ok(plan)),
            Ok(Err(fault)) => {
                drop(plan);
                Ok(Err(fault))
            }
            Err(error) => {
                drop(plan);
                Err(error)
            }
        }
    }

    /// Adds the ports of lines, up to the first faulty one, or tells the number of that, from 1, and its first fault.
    fn put_lines(&mut self, lines: &[Text]) -> Result<Result<(), (u64, PlanWhy)>, OutOfMemory>
        ensures { IfOk result (λ answer. MatchResult answer (λ _. plan_from (Ok self.old) 0 lines.now ≡ Ok self.new) (λ fault. plan_from (Ok self.old) 0 lines.now ≡ Err fault)) }
    {
        for (at, line) in lines.iter().enumerate() {
            if let Err(why) = self.put(line.bytes())? {
                return Ok(Err((at as u64 + 1, why)));
            }
        }
        Ok(Ok(()))
    }

    /// Adds the port of one more line, or tells the line's first fault in the order BadName, BadLanes, NameTwice,
    /// LaneTwice, TooManyPorts, and leaves the plan as it is.
    pub fn put(&mut self, line: &[u8]) -> Result<Result<(), PlanWhy>, OutOfMemory>
        ensures ok { IfOk result (λ answer. MatchResult answer (λ _. plan_step self.old line.now ≡ Ok self.new) (λ why. (plan_step self.old line.now ≡ Err why) × (self.new ≡ self.old))) }
        ensures err { OnErr result (self.new ≡ self.old) }
    {
        let (port, lanes) = match read_line(*self.taken.allocator(), line)? {
            Ok(read) => read,
            Err(why) => return Ok(Err(why)),
        };
        if let Some(why) = self.fault(port, &lanes) {
            return Ok(Err(why));
        }
        self.add(port, lanes)?;
        Ok(Ok(()))
    }

    /// The lanes of a port: None exactly where the plan has no such port.
    pub fn lanes_of(&self, port: u32) -> Option<&Lanes>
        ensures { option_map (λ lanes. lanes.now) result ≡ lanes_in_plan self.now port }
    {
        self.ports.get(&port)
    }

    /// The port whose first lane it is: None exactly where there is none.
    pub fn name_of(&self, first: u16) -> Option<u32>
        ensures { result ≡ port_named self.now first }
    {
        let at = usize::from(first);
        if at < self.names.len() {
            self.names[at]
        } else {
            None
        }
    }

    /// How many ports there are.
    pub fn len(&self) -> usize
        ensures count { result ≡ length self.now }
        ensures plan { IsPlan self.now }
    {
        self.ports.len()
    }

    /// Why a port cannot be added.
    fn fault(&self, port: u32, lanes: &Lanes) -> Option<PlanWhy>
        ensures { result ≡ port_fault self.now (port, lanes.now) }
    {
        if self.ports.contains_key(&port) {
            return Some(PlanWhy::NameTwice);
        }
        if let Some(lane) = self.first_taken(lanes) {
            return Some(PlanWhy::LaneTwice(lane));
        }
        if self.ports.len() < MOST_PORTS {
            None
        } else {
            Some(PlanWhy::TooManyPorts)
        }
    }

    /// The first of the lanes that a port has.
    fn first_taken(&self, lanes: &Lanes) -> Option<u16>
        ensures { result ≡ first_taken self.now lanes.now }
    {
        find_taken(self.taken.as_slice(), lanes.items())
    }

    /// Adds a port that can be added.
    fn add(&mut self, port: u32, lanes: Lanes) -> Result<(), OutOfMemory>
        requires { port_fault self.old (port, lanes) ≡ None }
        ensures ok { OnOk result (self.new ≡ insert_entry nat_cmp self.old port lanes) }
        ensures err { OnErr result (self.new ≡ self.old) }
    {
        self.ports.insert(port, lanes.copy()?)?;
        mark(&mut self.taken, lanes.items());
        self.names[usize::from(lanes.first())] = Some(port);
        Ok(())
    }
}

/// The port and the lanes of a line, or its first fault: BadName or BadLanes.
fn read_line(alloc: Global, line: &[u8]) -> Result<Result<(u32, Lanes), PlanWhy>, OutOfMemory>
    ensures { IfOk result (λ read. read ≡ line_of line.now) }
{
    let (name, rest) = match split_once(line, b' ') {
        Some((name, rest)) => (name, Some(rest)),
        None => (line, None),
    };
    let Some(IfName::Ethernet(port)) = IfName::read(name) else {
        return Ok(Err(PlanWhy::BadName));
    };
    let Some(rest) = rest else {
        return Ok(Err(PlanWhy::BadLanes));
    };
    match Lanes::read(alloc, rest)? {
        Some(lanes) => Ok(Ok((port, lanes))),
        None => Ok(Err(PlanWhy::BadLanes)),
    }
}

/// The first of the lanes that is taken.
fn find_taken(taken: &[bool], lanes: &[u16]) -> Option<u16>
    requires count { length taken.now ≡ LANE_BOUND }
    requires lanes { All (λ lane. lane < LANE_BOUND) lanes.now }
    ensures { result ≡ find (λ lane. slice_index_or taken.now lane false) lanes.now }
{
    lanes.iter().copied().find(|lane| taken[usize::from(*lane)])
}

/// Takes the lanes.
fn mark(taken: &mut Vec<bool>, lanes: &[u16])
    requires count { length taken.old.items ≡ LANE_BOUND }
    requires lanes { All (λ lane. lane < LANE_BOUND) lanes.now }
    ensures { taken.new.items ≡ marked taken.old.items lanes.now }
{
    for lane in lanes {
        taken[usize::from(*lane)] = true;
    }
}
