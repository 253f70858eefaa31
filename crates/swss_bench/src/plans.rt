// The planner.
mod distinct;
mod views;

use anyhow::Result;
use apply_order::plan;
use distinct::find_distinct;
use sai_types::{Caps, KINDS, Object, Pairing, Rid, Vid};
use std::alloc::Global;
use std::mem::drop;
use std::time::{Clock, Instant};
use view_match::{as_listed, pair};
use views::objects;

/// Pairs a view of so many routes over so many groups with one in which each second route points to another group, plans the way
/// from the one to the other, and tells the time of both.
pub fn time_plan(
    rt: &(impl Print + Eprint + Clock),
    alloc: Global,
    routes: u32,
    groups: u32,
) -> Result<()> {
    let old = old_objects(alloc, routes, groups)?;
    let new = objects(alloc, routes, groups, 1);
    let timed = time_to(rt, alloc, old.as_slice(), new);
    drop(old);
    timed
}

/// The objects of the first view, as a chip lists them.
fn old_objects(alloc: Global, routes: u32, groups: u32) -> Result<Vec<Object<Rid>>> {
    let objects = objects(alloc, routes, groups, 0)?;
    let listed = as_listed(alloc, objects.as_slice());
    drop(objects);
    Ok(listed?)
}

/// The way to a view, where it was made.
fn time_to(
    rt: &(impl Print + Eprint + Clock),
    alloc: Global,
    old: &[Object<Rid>],
    new: Result<Vec<Object<Vid>>>,
) -> Result<()> {
    let new = new?;
    let timed = time_steps(rt, alloc, old, new.as_slice());
    drop(new);
    timed
}

/// The pairing and the planning.
fn time_steps(
    rt: &(impl Print + Eprint + Clock),
    alloc: Global,
    old: &[Object<Rid>],
    new: &[Object<Vid>],
) -> Result<()> {
    find_distinct(alloc, new)?;
    let start = Instant::now(rt)?;
    let pairing = pair(alloc, old, new)?;
    let paired = start.elapsed(rt);
    let timed = time_planning(rt, alloc, old, new, &pairing);
    drop(pairing);
    let (calls, planned) = timed?;
    let (objects, paired) = (new.len(), paired?.as_micros());
    println!(rt; "{objects} objects: {calls} calls")?;
    eprintln!(rt; "{objects} objects: paired in {paired} us, planned in {planned} us")?;
    Ok(())
}

/// How many calls the plan has, and how many microseconds it takes.
fn time_planning(
    rt: &(impl Print + Eprint + Clock),
    alloc: Global,
    old: &[Object<Rid>],
    new: &[Object<Vid>],
    pairing: &Pairing,
) -> Result<(usize, u128)> {
    let start = Instant::now(rt)?;
    let plan = plan(alloc, old, new, pairing, &Caps([1_000_000; KINDS]))?;
    let took = start.elapsed(rt);
    let calls = plan.calls.items().len();
    drop(plan);
    Ok((calls, took?.as_micros()))
}
