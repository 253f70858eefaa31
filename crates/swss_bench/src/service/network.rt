// The script of the rounds.
use anyhow::Result;
use std::alloc::Global;

/// How many ports there are, each with an interface and its address.
const PORTS: u32 = 64;

/// How many neighbours there are. Each port has as many of them.
const NEIGHBORS: u32 = 256;

/// How many producers there are.
const PRODUCERS: u32 = 4;

/// A first round of ports, interfaces, addresses and neighbours, and a second in which four producers set so many routes. Each
/// route goes over one to four neighbours that follow one another.
pub fn network_script(alloc: Global, routes: u32) -> Result<Vec<u8>> {
    let mut script = Vec::new(alloc);
    for port in 0..PORTS {
        let name = port * 4;
        let line = format!(in alloc; "port Ethernet{name} {port}\n")?;
        script.extend_from_slice(line.as_bytes())?;
    }
    script.extend_from_slice(b"chip GROUP 1024\n")?;
    write_base(alloc, &mut script)?;
    for producer in 0..PRODUCERS {
        let line = format!(in alloc; "producer p{producer}\n")?;
        script.extend_from_slice(line.as_bytes())?;
        write_routes(alloc, &mut script, producer, routes)?;
    }
    script.extend_from_slice(b"settle\n")?;
    Ok(script)
}

/// Writes the first round.
fn write_base(alloc: Global, script: &mut Vec<u8>) -> Result<()> {
    script.extend_from_slice(b"producer p0\n")?;
    for port in 0..PORTS {
        let name = port * 4;
        let line = format!(in alloc;
            "set PORT_TABLE:Ethernet{name} lanes={port}\nset INTF_TABLE:Ethernet{name}\nset INTF_TABLE:Ethernet{name}:10.0.{port}.1/24\n"
        )?;
        script.extend_from_slice(line.as_bytes())?;
    }
    for number in 0..NEIGHBORS {
        let (name, address) = neighbor(alloc, number)?;
        let line = format!(in alloc;
            "set NEIGH_TABLE:{name}:{address} neigh=02:00:00:00:00:{number:02x}\n"
        )?;
        script.extend_from_slice(line.as_bytes())?;
    }
    script.extend_from_slice(b"settle\n")?;
    Ok(())
}

/// Writes every fourth of so many routes.
fn write_routes(alloc: Global, script: &mut Vec<u8>, from: u32, routes: u32) -> Result<()> {
    for number in 0..routes {
        if number % PRODUCERS != from {
            continue;
        }
        let (high, low) = (number / 256 % 256, number % 256);
        let (mut hops, mut names) = (String::new(alloc), String::new(alloc));
        // An odd factor, so that routes that follow one another go over other neighbours.
        let first = number % NEIGHBORS * 101;
        for hop in 0..number / 4 % 4 + 1 {
            let (name, address) = neighbor(alloc, first + hop)?;
            let comma = if hop == 0 { "" } else { "," };
            hops.push_str(format!(in alloc; "{comma}{address}")?.as_str())?;
            names.push_str(format!(in alloc; "{comma}{name}")?.as_str())?;
        }
        let line = format!(in alloc;
            "set ROUTE_TABLE:20.{high}.{low}.0/24 nexthop={hops} ifname={names}\n"
        )?;
        script.extend_from_slice(line.as_bytes())?;
    }
    Ok(())
}

/// The interface and the address of a neighbour.
fn neighbor(alloc: Global, number: u32) -> Result<(String, String)> {
    let number = number % NEIGHBORS;
    let port = number % PORTS;
    let name = format!(in alloc; "Ethernet{}", port * 4)?;
    let address = format!(in alloc; "10.0.{port}.{}", 2 + number / PORTS)?;
    Ok((name, address))
}
