// Members of VLANs that wait for their ports.
use crate::tables::port;
use crate::timing::print_time;
use anyhow::Result;
use retry_list::{Event, Retry};
use std::alloc::Global;
use std::time::{Clock, Instant};
use switch_model::Wait;
use table_schema::Key;

/// How many members wait for each port.
const MEMBERS: u16 = 4;

/// Puts so many members on the list that wait for their ports, four for each port, and wakes them port by port.
pub fn time_reasons(rt: &(impl Print + Eprint + Clock), alloc: Global, number: u32) -> Result<()> {
    let mut retry = Retry::new(alloc);
    time_each(rt, &mut retry, number)
}

/// The steps, each over all members.
fn time_each(rt: &(impl Print + Eprint + Clock), retry: &mut Retry, number: u32) -> Result<()> {
    let ports = number / u32::from(MEMBERS);
    let start = Instant::now(rt)?;
    put_each(retry, ports)?;
    print_time(rt, start, number, "reasons put")?;
    let put = retry.list().count();
    let start = Instant::now(rt)?;
    let woken = wake_each(retry, ports)?;
    print_time(rt, start, number, "reasons woken")?;
    let left = retry.list().count();
    println!(rt; "{number} reasons: {put} put, {woken} woken, {left} left")?;
    Ok(())
}

/// Puts the members of each port on the list, those of one VLAN after the other.
fn put_each(retry: &mut Retry, ports: u32) -> Result<()> {
    for vlan in 0..MEMBERS {
        put_members(retry, ports, vlan)?;
    }
    Ok(())
}

/// Puts the member of a VLAN of each port on the list.
fn put_members(retry: &mut Retry, ports: u32, vlan: u16) -> Result<()> {
    for number in 0..ports {
        let port = port(number);
        retry.put(Key::Member(vlan, port), Wait::Missing(Key::Port(port)))?;
    }
    Ok(())
}

/// Wakes the members of each port. It tells how many woke.
fn wake_each(retry: &mut Retry, ports: u32) -> Result<usize> {
    let mut woken = 0usize;
    for number in 0..ports {
        let event = Event::Applied(Key::Port(port(number)));
        woken = woken.saturating_add(retry.woken(&event)?.len());
    }
    Ok(woken)
}
