// The scripts that are timed.
use std::alloc::Global;
use swss_types::{OutOfMemory, write_number};

/// How many ports there are.
const PORTS: u32 = 250;

/// How many interfaces wait.
const WAITING: u32 = 1000;

/// Each port and its interface in the first round, and then so many rounds that each change the MTU of one port.
pub fn rounds_script(alloc: Global, rounds: u32) -> Result<Vec<u8>, OutOfMemory> {
    let mut script = ports_script(alloc)?;
    script.extend_from_slice(b"settle\n")?;
    for round in 0..rounds {
        script.extend_from_slice(b"producer a\n")?;
        write_change(&mut script, round)?;
        script.extend_from_slice(b"settle\n")?;
    }
    Ok(script)
}

/// Each port and its interface, and so many changes of the ports' MTUs in the same round.
pub fn writes_script(alloc: Global, writes: u32) -> Result<Vec<u8>, OutOfMemory> {
    let mut script = ports_script(alloc)?;
    for write in 0..writes {
        write_change(&mut script, write)?;
    }
    Ok(script)
}

/// Interfaces whose ports have no row, and so many rounds in which they wait.
pub fn waiting_script(alloc: Global, rounds: u32) -> Result<Vec<u8>, OutOfMemory> {
    let mut script = Vec::from_slice(alloc, b"producer a\n")?;
    for number in 0..WAITING {
        write_line(
            &mut script,
            b"set INTF_TABLE:Ethernet",
            number,
            b" a=",
            number,
        )?;
    }
    for _round in 0..rounds {
        script.extend_from_slice(b"settle\n")?;
    }
    Ok(script)
}

/// So many writes to one key in one round, each of one more field, the names in no order.
pub fn fields_script(alloc: Global, fields: u32) -> Result<Vec<u8>, OutOfMemory> {
    let mut script = Vec::from_slice(alloc, b"producer a\n")?;
    for number in 0..fields {
        // An odd factor gives each number another name.
        let name = number.wrapping_mul(2_654_435_761);
        write_line(
            &mut script,
            b"set PORT_TABLE:Ethernet0 f",
            name,
            b"=",
            number,
        )?;
    }
    Ok(script)
}

/// The plan, and the rows of each port and its interface.
fn ports_script(alloc: Global) -> Result<Vec<u8>, OutOfMemory> {
    let mut script = Vec::new(alloc);
    for port in 0..PORTS {
        write_line(&mut script, b"port Ethernet", port, b" ", port)?;
    }
    script.extend_from_slice(b"producer a\n")?;
    for port in 0..PORTS {
        write_line(
            &mut script,
            b"set PORT_TABLE:Ethernet",
            port,
            b" lanes=",
            port,
        )?;
        write_line(&mut script, b"set INTF_TABLE:Ethernet", port, b" a=", port)?;
    }
    Ok(script)
}

/// A change of the MTU of one of the ports, another than the change of this port before it.
fn write_change(script: &mut Vec<u8>, number: u32) -> Result<(), OutOfMemory> {
    let mtu = 1500 + number / PORTS % 1000;
    write_line(
        script,
        b"set PORT_TABLE:Ethernet",
        number % PORTS,
        b" mtu=",
        mtu,
    )
}

/// A line of a text, a number, a text and a number.
fn write_line(
    script: &mut Vec<u8>,
    before: &[u8],
    first: u32,
    between: &[u8],
    second: u32,
) -> Result<(), OutOfMemory> {
    script.extend_from_slice(before)?;
    write_number(script, u64::from(first))?;
    script.extend_from_slice(between)?;
    write_number(script, u64::from(second))?;
    script.push(b'\n')?;
    Ok(())
}
