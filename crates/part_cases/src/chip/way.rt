// Where packets go, in words.
use crate::words::{ip, vrf_name};
use anyhow::{Context, Result, bail};
use sai_chip::{Forward, SimChip};
use sai_types::{Base, WHop};
use std::alloc::Global;
use swss_types::{Mac, Vrf};

/// Where packets of a chip go, where it is not as the words say: an address, `in` and a router's name where it is in a named
/// router, and a way.
pub fn other_way(alloc: Global, chip: &SimChip, words: &[&str]) -> Result<Option<String>> {
    match words {
        [address, "in", name, way @ ..] => {
            let vrf = Vrf::Named(vrf_name(name)?);
            other_way_in(alloc, chip, vrf, address, way)
        }
        [address, way @ ..] => other_way_in(alloc, chip, Vrf::Default, address, way),
        [] => bail!("an address"),
    }
}

/// Where packets to an address in a router go, where it is not as the words say.
fn other_way_in(
    alloc: Global,
    chip: &SimChip,
    vrf: Vrf,
    address: &str,
    wanted: &[&str],
) -> Result<Option<String>> {
    let found = chip.forward(alloc, vrf, ip(address)?)?;
    if is_way(&found, wanted)? {
        return Ok(None);
    }
    Ok(Some(format!(in alloc; "{found:?}")?))
}

/// Whether packets go as these words say.
fn is_way(found: &Forward, wanted: &[&str]) -> Result<bool> {
    match found {
        Forward::Cpu => Ok(matches!(wanted, ["cpu"])),
        Forward::Drop => Ok(matches!(wanted, ["drop"])),
        Forward::Direct(on) => is_direct(*on, wanted),
        Forward::Via(ways) => is_via(ways.items(), wanted),
    }
}

/// Whether the words are those of an interface on this base.
fn is_direct(on: Base, wanted: &[&str]) -> Result<bool> {
    match wanted {
        ["direct", "port", lane] => Ok(on == Base::Port(short(lane)?)),
        ["direct", "vlan", vlan] => Ok(on == Base::Vlan(short(vlan)?)),
        _ => Ok(false),
    }
}

/// A number of 16 bits.
fn short(word: &str) -> Result<u16> {
    word.parse::<u16>().context("a number")
}

/// Whether the words are those of these hops, by their addresses.
fn is_via(ways: &[(WHop, Mac)], wanted: &[&str]) -> Result<bool> {
    match wanted {
        ["via", hops @ ..] => have_addresses(ways, hops),
        _ => Ok(false),
    }
}

/// Whether these hops have these addresses.
fn have_addresses(ways: &[(WHop, Mac)], addresses: &[&str]) -> Result<bool> {
    for (way, address) in ways.iter().zip(addresses) {
        if way.0.hop.ip != ip(address)? {
            return Ok(false);
        }
    }
    Ok(ways.len() == addresses.len())
}
