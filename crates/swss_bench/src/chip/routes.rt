// Routes, each with a prefix of its own.
use crate::chip::network::{Network, act};
use anyhow::{Context, Result};
use sai_chip::SimChip;
use sai_types::{Attr, Body, Call, Entry};
use swss_types::{Bits, Family, Ip, Prefix};

/// The prefix of a route: one of 65,536 of 256 addresses each, from 11.0.0.0 on. Routes that follow one another are far
/// apart; the factor is odd, so 65,536 routes in a row have as many prefixes.
fn prefix(route: u32) -> Result<Prefix> {
    let place = u128::from(route) * 40_503 % 65_536;
    let ip = Ip {
        family: Family::V4,
        bits: Bits::new(0x0B00_0000 + place * 256),
    };
    Prefix::new(ip, 24).context("a proper prefix")
}

/// Makes so many routes over the next hops.
pub fn make_routes(chip: &mut SimChip, network: &Network, routes: u32) -> Result<()> {
    for route in 0..routes {
        let prefix = prefix(route)?;
        let to = network.next_hop_for(route)?;
        let body = Body::Route {
            vr: None,
            prefix,
            to,
        };
        act(chip, Call::Create(body))?;
    }
    Ok(())
}

/// Sets each of the routes over a group.
pub fn set_routes(chip: &mut SimChip, network: &Network, routes: u32) -> Result<()> {
    for route in 0..routes {
        let entry = Entry::Route(None, prefix(route)?);
        let to = network.group_for(route)?;
        act(chip, Call::Set(entry, Attr::To(to)))?;
    }
    Ok(())
}

/// Removes the routes.
pub fn remove_routes(chip: &mut SimChip, routes: u32) -> Result<()> {
    for route in 0..routes {
        act(chip, Call::Remove(Entry::Route(None, prefix(route)?)))?;
    }
    Ok(())
}
