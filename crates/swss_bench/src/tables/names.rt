// The rows of ports and of one VLAN that all of them are members of.
ghost use Rattle.std.specs.Prelude.{◌≡◌};
ghost use Rattle.ref_counts.specs.Registered.{IsReadable};

use crate::tables::port;
use crate::timing::print_time;
use anyhow::{Result, bail};
use ref_counts::{Missing, Name, Registry, put_names_are_found};
use sai_types::Vid;
use std::alloc::Global;
use std::time::{Clock, Instant};
use table_schema::Key;

/// The worker whose operations are timed.
const WORKER: u32 = 0;

/// The VLAN that each port is a member of.
const VLAN: u16 = 1;

/// Makes the names of so many ports, pins and uses each together with the VLAN's, and takes all of them away again. In between
/// the VLAN's name has as many users.
pub fn time_names(rt: &(impl Print + Eprint + Clock), alloc: Global, number: u32) -> Result<()> {
    let mut registry = Registry::new(alloc);
    time_each(rt, &mut registry, number)
}

/// The steps, each over all names.
fn time_each(
    rt: &(impl Print + Eprint + Clock),
    registry: &mut Registry,
    number: u32,
) -> Result<()> {
    build(registry, &vlan(), Vid(0))?;
    let start = Instant::now(rt)?;
    build_each(registry, number)?;
    print_time(rt, start, number, "names made")?;
    let live = count_live(registry, number);
    let start = Instant::now(rt)?;
    use_each(registry, number)?;
    print_time(rt, start, number, "names pinned and used")?;
    let used = count_used(registry, number);
    let start = Instant::now(rt)?;
    end_each(registry, number)?;
    print_time(rt, start, number, "names retired and gone")?;
    retire(registry, &vlan())?;
    let left = count_live(registry, number);
    println!(rt; "{number} names: {live} live, {used} used, {left} left")?;
    Ok(())
}

/// The name of the VLAN's row.
fn vlan() -> Name {
    Name::Row(Key::Vlan(VLAN))
}

/// The name of the row of the port with a number.
fn row(number: u32) -> Name {
    Name::Row(Key::Port(port(number)))
}

/// The key that uses the rows of the VLAN and of the port with a number.
fn member(number: u32) -> Key
    ensures { IsReadable result }
{
    Key::Member(VLAN, port(number))
}

/// Builds a name with one identifier.
fn build(registry: &mut Registry, name: &Name, vid: Vid) -> Result<()> {
    put_names_are_found();
    let built = name.copy()?;
    if registry.live(&built) {
        bail!("live already");
    }
    match registry.start_build(WORKER, built, 1)? {
        Ok(()) => registry.built(WORKER, name, &[vid]),
        Err(wait) => bail!("{wait:?}"),
    }
    Ok(())
}

/// Builds the row of each port.
fn build_each(registry: &mut Registry, number: u32) -> Result<()> {
    for number in 0..number {
        build(registry, &row(number), Vid(u64::from(number)))?;
    }
    Ok(())
}

/// Pins the rows of each port and of the VLAN for the port's membership, which then uses them.
fn use_each(registry: &mut Registry, number: u32) -> Result<()> {
    for number in 0..number {
        let keys = [Key::Port(port(number)), Key::Vlan(VLAN)];
        if let Err(Missing(key)) = registry.pin(WORKER, &member(number), &keys)? {
            bail!("{key:?} is missing");
        }
        registry.release(WORKER, true);
    }
    Ok(())
}

/// Ends each membership, and then takes the port's row away.
fn end_each(registry: &mut Registry, number: u32) -> Result<()> {
    for number in 0..number {
        registry.drop_user(&vlan(), &member(number));
        registry.drop_user(&row(number), &member(number));
        retire(registry, &row(number))?;
    }
    Ok(())
}

/// Takes a live name away.
fn retire(registry: &mut Registry, name: &Name) -> Result<()> {
    if !registry.live(name) {
        bail!("not live");
    }
    if let Err(wait) = registry.try_retire(WORKER, name) {
        bail!("{wait:?}");
    }
    registry.gone(name);
    Ok(())
}

/// How many of the ports' rows are live.
fn count_live(registry: &Registry, number: u32) -> usize {
    (0..number)
        .filter(|number| registry.live(&row(*number)))
        .count()
}

/// How many of the ports' rows have a user.
fn count_used(registry: &Registry, number: u32) -> usize {
    (0..number)
        .filter(|number| registry.least_user(&row(*number)).is_some())
        .count()
}
