// Objects, and where routes point.
use crate::words::{id, ip, lanes, mac, prefix, vrf_name, weight};
use anyhow::{Context, Result, bail};
use sai_types::{Body, Rid, RifOn, To, Weight};
use std::alloc::Global;
use swss_types::{Lanes, Tagging};

/// The object of these words.
pub fn body(alloc: Global, words: &[&str]) -> Result<Body<Rid>> {
    match words {
        ["port" | "vlan" | "virtual_router", ..] => below(alloc, words),
        ["bridge_port" | "member" | "rif", ..] => below(alloc, words),
        _ => above(words),
    }
}

/// An object of the kinds up to router interfaces.
fn below(alloc: Global, words: &[&str]) -> Result<Body<Rid>> {
    match words {
        ["port", numbers] => Ok(port(lanes(alloc, numbers)?, false)),
        ["port", numbers, "up"] => Ok(port(lanes(alloc, numbers)?, true)),
        ["vlan", number] => Ok(Body::Vlan {
            vlan: number.parse::<u16>().context("a number")?,
        }),
        ["virtual_router", name] => Ok(Body::VirtualRouter {
            label: vrf_name(name)?,
        }),
        ["bridge_port", port] => Ok(Body::BridgePort { port: id(port)? }),
        ["member", vlan, bridge_port] => Ok(Body::VlanMember {
            vlan: id(vlan)?,
            bridge_port: id(bridge_port)?,
            tagging: Tagging::Tagged,
        }),
        ["rif", on, number] => rif(None, on, number),
        ["rif", on, number, "in", router] => rif(Some(id(router)?), on, number),
        _ => bail!("an object"),
    }
}

/// A port with the usual values.
fn port(lanes: Lanes, up: bool) -> Body<Rid> {
    Body::Port {
        lanes,
        speed: 100_000,
        mtu: 9100,
        up,
    }
}

/// A router interface.
fn rif(vr: Option<Rid>, on: &str, number: &str) -> Result<Body<Rid>> {
    Ok(Body::Rif {
        vr,
        on: rif_on(on, id(number)?)?,
    })
}

/// What a router interface is on.
fn rif_on(word: &str, number: Rid) -> Result<RifOn<Rid>> {
    match word {
        "port" => Ok(RifOn::Port(number)),
        "vlan" => Ok(RifOn::Vlan(number)),
        _ => bail!("what an interface is on"),
    }
}

/// An object of the kinds from own addresses on.
fn above(words: &[&str]) -> Result<Body<Rid>> {
    match words {
        ["own", address] => own(None, address),
        ["own", address, "in", router] => own(Some(id(router)?), address),
        ["neighbor", rif, address, to] => Ok(Body::Neighbor {
            rif: id(rif)?,
            ip: ip(address)?,
            mac: mac(to)?,
        }),
        ["next_hop", rif, address] => Ok(Body::NextHop {
            rif: id(rif)?,
            ip: ip(address)?,
        }),
        ["group"] => Ok(Body::Group),
        ["group_member", group, next_hop] => group_member(group, next_hop, Weight::one()),
        ["group_member", group, next_hop, number] => {
            group_member(group, next_hop, weight(number)?)
        }
        ["route", covers, "in", router, to @ ..] => route(Some(id(router)?), covers, to),
        ["route", covers, to @ ..] => route(None, covers, to),
        _ => bail!("an object"),
    }
}

/// An own address.
fn own(vr: Option<Rid>, address: &str) -> Result<Body<Rid>> {
    Ok(Body::OwnAddress {
        vr,
        ip: ip(address)?,
    })
}

/// A route.
fn route(vr: Option<Rid>, covers: &str, to: &[&str]) -> Result<Body<Rid>> {
    Ok(Body::Route {
        vr,
        prefix: prefix(covers)?,
        to: target(to)?,
    })
}

/// A member of a group.
fn group_member(group: &str, next_hop: &str, weight: Weight) -> Result<Body<Rid>> {
    Ok(Body::GroupMember {
        group: id(group)?,
        next_hop: id(next_hop)?,
        weight,
    })
}

/// Where a route points.
pub fn target(words: &[&str]) -> Result<To<Rid>> {
    match words {
        ["drop"] => Ok(To::Drop),
        ["rif", rif] => Ok(To::Rif(id(rif)?)),
        ["next_hop", next_hop] => Ok(To::NextHop(id(next_hop)?)),
        ["group", group] => Ok(To::Group(id(group)?)),
        _ => bail!("a target"),
    }
}
