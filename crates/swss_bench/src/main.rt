//! Times the parts of the service, and the whole. The words come in groups, a name and its numbers. With each number of a group the
//! same is timed anew; `plan` takes two:
//!
//! ```text
//! chip N..             N routes that are made, set and removed on a simulated chip
//! rounds N..           N rounds of one change each, over 250 ports with interfaces
//! writes N..           N writes in one round, over the same
//! waiting N..          N rounds in which 1,000 interfaces wait
//! fields N..           N writes that each set one more field of the same key
//! alone N..            N writes that one thread sends over the queue and takes
//! together N..         N writes that four producers send beside each other, where one who finds the queue full takes some
//! names N..            N names that are made, used and gone
//! keys N..             N keys that are written, popped and done
//! reasons N..          N reasons to wait that are put and woken
//! churn N..            N times 20,000 routes that are made and taken away again in one view
//! full N..             N rounds in which producers send more than the queue holds, while all workers are held
//! routes N..           N routes in one round, with one worker and up to four
//! slow N..             the same on a chip that sleeps 100 microseconds before each call
//! plan ROUTES GROUPS   the way from a view of so many routes and groups to one in which half of the routes moved
//! ```
//!
//! What was done goes to standard output, and times to standard error.
#![tactic(auto)]

mod chip;
mod churn;
mod plans;
mod queue;
mod rounds;
mod service;
mod tables;
mod timing;
mod words;

use anyhow::{Result, bail, ensure};
use chip::time_chip;
use churn::time_churn;
use plans::time_plan;
use queue::{time_alone, time_together};
use rounds::{fields_script, rounds_script, time_script, waiting_script, writes_script};
use service::{time_full, time_routes, time_slow};
use std::alloc::Global;
use std::env;
use std::sync::Wait;
use std::thread::Threads;
use std::time::Clock;
use tables::{time_keys, time_names, time_reasons};
use words::{Group, NAMES, groups_of};

fn main(rt: HostRuntime) -> Result<()> {
    let alloc = rt.alloc();
    let words = env::args(&rt)?.skip(1).collect::<Vec<String>>(alloc)?;
    let groups = groups_of(alloc, words)?;
    ensure!(!groups.is_empty(), "nothing to time: {NAMES}");
    for group in &groups {
        time_group(&rt, alloc, group)?;
    }
    Ok(())
}

/// Times what a group names with each of its numbers.
fn time_group(
    rt: &(impl Threads + Wait + Sync + Print + Eprint + Clock),
    alloc: Global,
    group: &Group,
) -> Result<()> {
    let name = group.name.as_str();
    ensure!(
        NAMES.split(", ").any(|known| known == name),
        "{name} is none of {NAMES}"
    );
    match group.numbers.as_slice() {
        [] => bail!("{name}: a number is missing"),
        [routes, groups] if name == "plan" => time_plan(rt, alloc, *routes, *groups),
        numbers => {
            for number in numbers {
                time(rt, alloc, name, *number)?;
            }
            Ok(())
        }
    }
}

/// Times what a name stands for with a number.
fn time(
    rt: &(impl Threads + Wait + Sync + Print + Eprint + Clock),
    alloc: Global,
    name: &str,
    number: u32,
) -> Result<()> {
    match name {
        "chip" => time_chip(rt, alloc, number),
        "rounds" => time_script(rt, alloc, name, number, rounds_script(alloc, number)?),
        "writes" => time_script(rt, alloc, name, number, writes_script(alloc, number)?),
        "waiting" => time_script(rt, alloc, name, number, waiting_script(alloc, number)?),
        "fields" => time_script(rt, alloc, name, number, fields_script(alloc, number)?),
        "alone" => time_alone(rt, alloc, number),
        "together" => time_together(rt, alloc, number),
        "names" => time_names(rt, alloc, number),
        "keys" => time_keys(rt, alloc, number),
        "reasons" => time_reasons(rt, alloc, number),
        "churn" => time_churn(rt, alloc, number),
        "full" => time_full(rt, alloc, number),
        "routes" => time_routes(rt, alloc, number),
        "slow" => time_slow(rt, alloc, number),
        _ => bail!("{name}: a number of routes and one of groups are wanted"),
    }
}
