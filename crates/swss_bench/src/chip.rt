// The simulated chip: routes over 256 next hops and 500 groups.
mod network;
mod routes;

use crate::timing::print_time;
use anyhow::Result;
use network::Network;
use routes::{make_routes, remove_routes, set_routes};
use sai_chip::SimChip;
use sai_types::{Caps, Chip, Kind};
use std::alloc::Global;
use std::time::{Clock, Instant};

/// The capacities of a switch, in the order of `Kind`.
const CAPACITIES: Caps = Caps([
    256, 4094, 256, 256, 16_384, 1024, 2048, 16_384, 16_384, 512, 16_384, 65_536,
]);

/// Makes, sets and removes so many routes on a new chip, and tells the time of a call.
pub fn time_chip(rt: &(impl Print + Eprint + Clock), alloc: Global, routes: u32) -> Result<()> {
    // in a box, so that its destructor is proved once
    let mut chip = Box::new(alloc, SimChip::new(alloc, CAPACITIES, Vec::new(alloc)))?;
    time_routes(rt, alloc, &mut chip, routes)
}

/// The calls, each for all routes.
fn time_routes(
    rt: &(impl Print + Eprint + Clock),
    alloc: Global,
    chip: &mut SimChip,
    routes: u32,
) -> Result<()> {
    let network = Network::new(alloc, chip)?;
    let start = Instant::now(rt)?;
    make_routes(chip, &network, routes)?;
    set_routes(chip, &network, routes)?;
    remove_routes(chip, routes)?;
    print_time(rt, start, routes.saturating_mul(3), "calls to the chip")?;
    let effects = chip.effects();
    let left = chip.used(Kind::Route);
    println!(rt; "{routes} routes: {effects} effects, {left} routes left")?;
    Ok(())
}
