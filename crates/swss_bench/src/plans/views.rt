// The views that are planned.
use anyhow::{Context, Result};
use sai_types::{Body, Entry, Object, RifOn, To, Vid, Weight};
use std::alloc::Global;
use swss_types::{Bits, Family, Ip, Lanes, Mac, Prefix};

/// How many next hops a group has.
const MEMBERS: u32 = 4;

/// The objects of a view, in which each second route is moved on by so many groups.
pub fn objects(alloc: Global, routes: u32, groups: u32, moved: u32) -> Result<Vec<Object<Vid>>> {
    let mut objects = Vec::new(alloc);
    let lanes = Lanes::read(alloc, b"0")?.context("lanes")?;
    let port = Body::Port {
        lanes,
        speed: 100_000,
        mtu: 9100,
        up: true,
    };
    let port = push(&mut objects, port)?;
    let rif = Body::Rif {
        vr: None,
        on: RifOn::Port(port),
    };
    let rif = push(&mut objects, rif)?;
    let groups = push_groups(alloc, &mut objects, rif, groups)?;
    push_routes(&mut objects, groups.as_slice(), routes, moved)?;
    Ok(objects)
}

/// Puts groups of next hops, each of others than the groups before, with the neighbours behind the interface.
fn push_groups(
    alloc: Global,
    objects: &mut Vec<Object<Vid>>,
    rif: Vid,
    number: u32,
) -> Result<Vec<Vid>> {
    let mut hops = Vec::new(alloc);
    for number in 0..number.saturating_add(MEMBERS) {
        let ip = address(0x0a00_0000 | number);
        let mac = Mac([2, 0, 0, 0, 0, 1]);
        push(objects, Body::Neighbor { rif, ip, mac })?;
        hops.push(push(objects, Body::NextHop { rif, ip })?)?;
    }
    let mut groups = Vec::new(alloc);
    for members in hops
        .as_slice()
        .windows(MEMBERS as usize)
        .take(number as usize)
    {
        groups.push(push_group(objects, members)?)?;
    }
    Ok(groups)
}

/// Puts a group of these next hops, each with the weight 1.
fn push_group(objects: &mut Vec<Object<Vid>>, members: &[Vid]) -> Result<Vid> {
    let group = push(objects, Body::Group)?;
    for member in members {
        let member = Body::GroupMember {
            group,
            next_hop: *member,
            weight: Weight::one(),
        };
        push(objects, member)?;
    }
    Ok(group)
}

/// Puts routes that point to the groups in turn, each second one so many groups on.
fn push_routes(
    objects: &mut Vec<Object<Vid>>,
    groups: &[Vid],
    routes: u32,
    moved: u32,
) -> Result<()> {
    for number in 0..routes {
        let place = number.wrapping_add(moved * (number & 1)) as usize;
        let group = groups.get(place % groups.len().max(1)).context("a group")?;
        let ip = address(number.wrapping_add(0x0014_0000).wrapping_mul(256));
        let prefix = Prefix::new(ip, 24).context("a proper prefix")?;
        let to = To::Group(*group);
        push(
            objects,
            Body::Route {
                vr: None,
                prefix,
                to,
            },
        )?;
    }
    Ok(())
}

/// Puts an object last, with its entry. It tells its number.
fn push(objects: &mut Vec<Object<Vid>>, body: Body<Vid>) -> Result<Vid> {
    let vid = Vid((objects.len() as u64).saturating_add(1));
    let entry = match &body {
        Body::Neighbor { rif, ip, .. } => Entry::Neigh(*rif, *ip),
        Body::Route { vr, prefix, .. } => Entry::Route(*vr, *prefix),
        _ => Entry::Oid(vid),
    };
    objects.push(Object { entry, body })?;
    Ok(vid)
}

fn address(number: u32) -> Ip {
    Ip {
        family: Family::V4,
        bits: Bits::new(u128::from(number)),
    }
}
