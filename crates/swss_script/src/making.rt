// Scripts that are made: a load of routes.
ghost use Rattle.std.specs.Prelude.{◌≡◌, [], ◌∷◌, ◌++◌, ◌+◌, ◌<◌, ◌≤◌, IfOk, OnOk, codes};
ghost use Rattle.std.specs.List.{AllByRecursion};
ghost use Rattle.table_schema.specs.Plan.{IsPlan};
ghost use Rattle.table_schema.specs.Writes.{HasReadKey};
ghost use Rattle.swss_script.specs.Generated.{address_row, base_rows, each_from, generated, generated_caps, generated_plan, interface_row, loading_round, neighbour_row, port_in_plan, port_row, restart_round, routes_from};
ghost use Rattle.swss_script.specs.Sent.{writes_in};
ghost use Rattle.swss_script.specs.Stage.{IsOfStage};

use crate::draws::Draws;
use crate::fields::copy_text;
use crate::made_rows::{
    address_row, interface_row, neighbour_row, planned_line, port_row, route_row,
};
use crate::{
    Act, Acts, DEFAULT_CAPS, Fails, Producers, Round, RoundList, Script, Section, Sections, Show,
    Shows,
};
use row_store::Rows;
use sai_types::{Caps, Kind};
use std::alloc::Global;
use std::mem::drop;
use swss_types::OutOfMemory;
use table_schema::PortPlan;

/// How many ports the script has.
const PORTS: u32 = 64;

/// How many neighbours are on them.
const NEIGHBOURS: u32 = 256;

/// The script with so many routes, over neighbours that follow from the seed: its first round writes the rows, and its
/// second restarts the service. It has what a script that is read has: the forms of this stage alone, and keys that were
/// read.
pub fn generate(alloc: Global, n: u64, seed: u64) -> Result<Script, OutOfMemory>
    requires few { n ≤ 60000 }
    ensures script { IfOk result (λ script. script ≡ generated n seed) }
    ensures stage { IfOk result IsOfStage }
    ensures plan { IfOk result (λ script. IsPlan script.plan) }
    ensures read { IfOk result (λ script. AllByRecursion (λ r. AllByRecursion (λ w. HasReadKey w.1) (writes_in r.sections)) script.rounds) }
{
    let script = made_script(alloc, n, seed)?;
    Ok(script)
}

/// The script alone.
fn made_script(alloc: Global, n: u64, seed: u64) -> Result<Script, OutOfMemory>
    requires few { n ≤ 60000 }
    ensures { IfOk result (λ script. script ≡ generated n seed) }
{
    let producers = producers(alloc)?;
    let rounds = rounds(alloc, n, seed)?;
    Ok(Script {
        plan: port_plan(alloc)?,
        caps: caps(),
        fails: Fails::new(alloc),
        image: Rows::new(alloc),
        producers,
        rounds,
    })
}

/// The ports.
fn port_plan(alloc: Global) -> Result<PortPlan, OutOfMemory>
    ensures { IfOk result (λ plan. plan ≡ generated_plan) }
{
    let mut plan = PortPlan::new(alloc)?;
    match put_ports(alloc, &mut plan) {
        Ok(()) => Ok(plan),
        Err(error) => {
            drop(plan);
            Err(error)
        }
    }
}

/// Puts the ports into a plan without one.
fn put_ports(alloc: Global, plan: &mut PortPlan) -> Result<(), OutOfMemory>
    requires { plan.old ≡ [] }
    ensures { OnOk result (plan.new ≡ generated_plan) }
{
    for k in 0..PORTS {
        put_port(alloc, plan, k)?;
    }
    Ok(())
}

/// Puts port `k` into a plan of those before it.
fn put_port(alloc: Global, plan: &mut PortPlan, k: u32) -> Result<(), OutOfMemory>
    requires few { k < 64 }
    requires before { plan.old ≡ each_from port_in_plan 0 k }
    ensures { OnOk result (plan.new ≡ each_from port_in_plan 0 (k + 1)) }
{
    let line = planned_line(alloc, k)?;
    let answer = plan.put(line.as_bytes())?;
    match answer {
        Ok(()) => Ok(()),
        Err(_) => unreachable!(),
    }
}

/// The capacities: those of every chip, but for groups.
fn caps() -> Caps
    ensures { result ≡ generated_caps }
{
    let mut caps = DEFAULT_CAPS;
    caps.0[Kind::Group.index()] = 1024;
    caps
}

/// The names of the producers.
fn producers(alloc: Global) -> Result<Producers, OutOfMemory>
    ensures { IfOk result (λ producers. producers ≡ codes "base" ∷ codes "routes" ∷ []) }
{
    let mut producers = Producers::new(alloc);
    producers.push(copy_text(alloc, "base")?)?;
    producers.push(copy_text(alloc, "routes")?)?;
    Ok(producers)
}

/// The two rounds.
fn rounds(alloc: Global, n: u64, seed: u64) -> Result<RoundList, OutOfMemory>
    requires few { n ≤ 60000 }
    ensures { IfOk result (λ rounds. rounds ≡ loading_round n seed ∷ restart_round ∷ []) }
{
    let mut rounds = RoundList::new(alloc);
    rounds.push(loading_round(alloc, n, seed)?)?;
    rounds.push(restart_round(alloc)?)?;
    Ok(rounds)
}

/// The round that writes the rows, and shows the counts.
fn loading_round(alloc: Global, n: u64, seed: u64) -> Result<Round, OutOfMemory>
    requires few { n ≤ 60000 }
    ensures { IfOk result (λ round. round ≡ loading_round n seed) }
{
    let mut shows = Shows::new(alloc);
    shows.push(Show::Counts)?;
    let mut sections = Sections::new(alloc);
    sections.push(Section {
        producer: 1,
        acts: base_acts(alloc)?,
    })?;
    sections.push(Section {
        producer: 2,
        acts: route_acts(alloc, n, seed)?,
    })?;
    Ok(Round { sections, shows })
}

/// The round that restarts the service, and shows whether it is ready.
fn restart_round(alloc: Global) -> Result<Round, OutOfMemory>
    ensures { IfOk result (λ round. round ≡ restart_round) }
{
    let mut shows = Shows::new(alloc);
    shows.push(Show::Ready)?;
    let mut acts = Acts::new(alloc);
    acts.push(Act::Restart)?;
    let mut sections = Sections::new(alloc);
    sections.push(Section { producer: 1, acts })?;
    Ok(Round { sections, shows })
}

/// The rows of the ports, and of what stands on them.
fn base_acts(alloc: Global) -> Result<Acts, OutOfMemory>
    ensures { IfOk result (λ acts. acts ≡ base_rows) }
{
    let mut acts = Acts::new(alloc);
    push_ports(alloc, &mut acts)?;
    push_interfaces(alloc, &mut acts)?;
    push_addresses(alloc, &mut acts)?;
    push_neighbours(alloc, &mut acts)?;
    Ok(acts)
}

/// Puts the rows of the ports last.
fn push_ports(alloc: Global, acts: &mut Acts) -> Result<(), OutOfMemory>
    ensures { OnOk result (acts.new ≡ acts.old ++ each_from port_row 0 64) }
{
    for k in 0..PORTS {
        let row = port_row(alloc, k)?;
        acts.push(row)?;
    }
    Ok(())
}

/// Puts the rows of the interfaces last.
fn push_interfaces(alloc: Global, acts: &mut Acts) -> Result<(), OutOfMemory>
    ensures { OnOk result (acts.new ≡ acts.old ++ each_from interface_row 0 64) }
{
    for k in 0..PORTS {
        let row = interface_row(alloc, k)?;
        acts.push(row)?;
    }
    Ok(())
}

/// Puts the rows of their addresses last.
fn push_addresses(alloc: Global, acts: &mut Acts) -> Result<(), OutOfMemory>
    ensures { OnOk result (acts.new ≡ acts.old ++ each_from address_row 0 64) }
{
    for k in 0..PORTS {
        let row = address_row(alloc, k)?;
        acts.push(row)?;
    }
    Ok(())
}

/// Puts the rows of the neighbours last.
fn push_neighbours(alloc: Global, acts: &mut Acts) -> Result<(), OutOfMemory>
    ensures { OnOk result (acts.new ≡ acts.old ++ each_from neighbour_row 0 256) }
{
    for j in 0..NEIGHBOURS {
        let row = neighbour_row(alloc, j)?;
        acts.push(row)?;
    }
    Ok(())
}

/// The rows of the routes.
fn route_acts(alloc: Global, n: u64, seed: u64) -> Result<Acts, OutOfMemory>
    requires few { n ≤ 60000 }
    ensures { IfOk result (λ acts. acts ≡ routes_from 0 seed n) }
{
    let mut acts = Acts::new(alloc);
    let mut draws = Draws::new(seed);
    for i in 0..n {
        let others = draws.draw() % 4;
        let first = draws.draw();
        let row = route_row(alloc, i, first, others)?;
        acts.push(row)?;
    }
    Ok(acts)
}
