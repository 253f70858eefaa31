// Views that are drawn.
use crate::draw::ViewDraw;
use crate::plans::case::Odd;
use anyhow::{Context, Result};
use sai_types::{Body, RifOn, To, Vid, Weight};
use std::alloc::Global;
use swss_types::{Bits, Family, Ip, Lanes, Mac, Prefix, Tagging, VrfName};

/// How often things of every kind are drawn.
const ROUNDS: u8 = 12;

/// The name of the first virtual router, where there are such.
pub const FIRST: VrfName = VrfName([b'a', 0, 0, 0, 0, 0, 0, 0, 0, 0, 0, 0]);

/// The name of the second.
pub const SECOND: VrfName = VrfName([b'b', 0, 0, 0, 0, 0, 0, 0, 0, 0, 0, 0]);

/// A view as far as it is drawn: objects that name those before them by their numbers, from 1.
#[derive(Drop)]
pub struct Drawn {
    alloc: Global,
    bodies: Vec<Body<Vid>>,
    most: usize,
    weights: bool,
    // by how many the routers of interfaces are moved on
    moved: u64,
    routers: Vec<Vid>,
    rifs: Vec<Vid>,
    hops: Vec<(u8, Vid)>,
    groups: Vec<Vid>,
    sets: Vec<u64>,
}

/// Draws a view of so many objects, each of which can be made after those before it. Where there are virtual routers, the
/// routers of interfaces are moved on by a number.
pub fn draw_view(
    alloc: Global,
    draw: &ViewDraw,
    most: usize,
    weights: bool,
    odd: Odd,
    routers: Option<u64>,
) -> Result<Vec<Body<Vid>>> {
    let mut view = Drawn {
        alloc,
        bodies: Vec::new(alloc),
        most,
        weights,
        moved: routers.unwrap_or(0),
        routers: Vec::new(alloc),
        rifs: Vec::new(alloc),
        hops: Vec::new(alloc),
        groups: Vec::new(alloc),
        sets: Vec::new(alloc),
    };
    if routers.is_some() {
        view.put_routers()?;
    }
    for round in 0..ROUNDS {
        view.draw_round(alloc, draw, round, odd)?;
    }
    Ok(view.bodies)
}

impl Drawn {
    /// Puts an object last, where the view is to have more. It tells the object's number.
    fn put(&mut self, body: Body<Vid>) -> Result<Option<Vid>> {
        if self.most <= self.bodies.len() {
            return Ok(None);
        }
        self.bodies.push(body)?;
        Ok(Some(Vid(self.bodies.len() as u64)))
    }

    /// Puts the virtual routers.
    fn put_routers(&mut self) -> Result<()> {
        for label in [FIRST, SECOND] {
            if let Some(router) = self.put(Body::VirtualRouter { label })? {
                self.routers.push(router)?;
            }
        }
        Ok(())
    }

    /// The router that a lot falls on: one of those that were put, or the default one.
    fn router(&self, lot: u64) -> Option<Vid> {
        self.routers.get((lot % 3) as usize).copied()
    }

    /// Draws things of every kind.
    fn draw_round(&mut self, alloc: Global, draw: &ViewDraw, round: u8, odd: Odd) -> Result<()> {
        if let Some(rif) = self.draw_base(alloc, draw, round)? {
            self.rifs.push(rif)?;
            self.draw_hops(draw, round, rif)?;
        }
        self.draw_group(draw, round, odd)?;
        self.draw_routes(draw, round)
    }

    /// Draws a port, a VLAN with the port as a member, and an interface on one of them, which it tells.
    fn draw_base(&mut self, alloc: Global, draw: &ViewDraw, round: u8) -> Result<Option<Vid>> {
        if !draw.has(round, 0) {
            return Ok(None);
        }
        let Some(port) = self.put(port(alloc, draw, round)?)? else {
            return Ok(None);
        };
        let number = 10 + u16::from(round);
        let vlan = self.put(Body::Vlan { vlan: number })?.unwrap_or(port);
        let bridge_port = self.put(Body::BridgePort { port })?.unwrap_or(port);
        let tagging = match draw.pick(round, 1, 3) {
            0 => Tagging::Tagged,
            1 => Tagging::Untagged,
            _ => Tagging::PriorityTagged,
        };
        if draw.has(round, 2) {
            self.put(Body::VlanMember {
                vlan,
                bridge_port,
                tagging,
            })?;
        }
        let on = match draw.pick(round, 3, 2) {
            0 => RifOn::Port(port),
            _ => RifOn::Vlan(vlan),
        };
        let lot = draw.shared(round, 8, 3).saturating_add(self.moved);
        let vr = self.router(lot);
        self.put(Body::Rif { vr, on })
    }

    /// Draws an own address, in two routers where there are several.
    fn draw_own(&mut self, draw: &ViewDraw, round: u8) -> Result<()> {
        let lot = draw.pick(round, 9, 3);
        self.put_own(round, lot)?;
        if !self.routers.is_empty() {
            self.put_own(round, lot.saturating_add(1))?;
        }
        Ok(())
    }

    /// Puts an own address in the router that a lot falls on.
    fn put_own(&mut self, round: u8, lot: u64) -> Result<()> {
        let vr = self.router(lot);
        let ip = host(round, 1);
        self.put(Body::OwnAddress { vr, ip })?;
        Ok(())
    }

    /// Draws an own address, and neighbours of an interface with their next hops.
    fn draw_hops(&mut self, draw: &ViewDraw, round: u8, rif: Vid) -> Result<()> {
        if draw.has(round, 4) {
            self.draw_own(draw, round)?;
        }
        for number in [2, 3, 4] {
            let lot = draw.pick(round, number << 4, 3) % 256;
            let mac = Mac([2, 0, 0, 0, number, lot as u8]);
            let ip = host(round, number);
            if draw.has(round, number << 4 | 1)
                && self.put(Body::Neighbor { rif, ip, mac })?.is_some()
            {
                self.draw_hop(draw, round, number, rif)?;
            }
        }
        Ok(())
    }

    /// Draws a next hop through a neighbour.
    fn draw_hop(&mut self, draw: &ViewDraw, round: u8, number: u8, rif: Vid) -> Result<()> {
        let ip = host(round, number);
        if !draw.has(round, number << 4 | 2) {
            return Ok(());
        }
        if let Some(hop) = self.put(Body::NextHop { rif, ip })? {
            self.hops.push(((round << 2 | number & 3) % 64, hop))?;
        }
        Ok(())
    }

    /// Draws a group of some of the next hops.
    fn draw_group(&mut self, draw: &ViewDraw, round: u8, odd: Odd) -> Result<()> {
        let mut set = 0;
        for (number, _) in self.hops.as_slice() {
            if draw.pick(round, 64 | *number, 3) == 0 {
                set |= bit(*number);
            }
        }
        if odd.half {
            self.put_group(draw, round, set & set.wrapping_sub(1))?;
        }
        if set == 0 || self.sets.as_slice().contains(&set) {
            return Ok(());
        }
        self.sets.push(set)?;
        if let Some(group) = self.put_group(draw, round, set)? {
            self.groups.push(group)?;
        }
        if odd.doubles
            && let Some(group) = self.put_group(draw, round, set)?
        {
            self.groups.push(group)?;
        }
        Ok(())
    }

    /// Puts a group of the next hops of a set, where all of it has room. It tells the group's number.
    fn put_group(&mut self, draw: &ViewDraw, round: u8, set: u64) -> Result<Option<Vid>> {
        let mut members = Vec::new(self.alloc);
        for (number, hop) in self.hops.as_slice() {
            if set & bit(*number) != 0 {
                members.push((*hop, self.weight(draw, round, *number)))?;
            }
        }
        if self.most.saturating_sub(self.bodies.len()) <= members.len() {
            return Ok(None);
        }
        let Some(group) = self.put(Body::Group)? else {
            return Ok(None);
        };
        for (next_hop, weight) in members {
            self.put(Body::GroupMember {
                group,
                next_hop,
                weight,
            })?;
        }
        Ok(Some(group))
    }

    /// The weight of the next hop of a number in the groups of a round.
    fn weight(&self, draw: &ViewDraw, round: u8, number: u8) -> Weight {
        if !self.weights {
            return Weight::one();
        }
        let weight = match draw.pick(round, 192 | number, 3) {
            0 => Weight::new(2),
            1 => Weight::new(255),
            _ => None,
        };
        weight.unwrap_or(Weight::one())
    }

    /// Draws routes.
    fn draw_routes(&mut self, draw: &ViewDraw, round: u8) -> Result<()> {
        for number in 0..8 {
            let place = 128 | number << 2;
            if draw.pick(round, place, 3) != 0 && is_first(round, number) {
                self.draw_route(draw, round, number)?;
            }
        }
        Ok(())
    }

    /// Draws a route, in two routers where there are several.
    fn draw_route(&mut self, draw: &ViewDraw, round: u8, number: u8) -> Result<()> {
        let place = 128 | number << 2;
        let lot = draw.pick(round, place | 3, 3);
        let to = self.target(draw, round, place);
        self.put_route(round, number, lot, to)?;
        if !self.routers.is_empty() {
            let to = self.target(draw, round, 160 | number << 2);
            self.put_route(round, number, lot.saturating_add(1), to)?;
        }
        Ok(())
    }

    /// Puts a route in the router that a lot falls on.
    fn put_route(&mut self, round: u8, number: u8, lot: u64, to: To<Vid>) -> Result<()> {
        let vr = self.router(lot);
        let prefix = prefix(round, number).context("a proper prefix")?;
        self.put(Body::Route { vr, prefix, to })?;
        Ok(())
    }

    /// Draws where a route points.
    fn target(&self, draw: &ViewDraw, round: u8, place: u8) -> To<Vid> {
        let lot = draw.pick(round, place | 1, 1000);
        let to = match draw.pick(round, place | 2, 8) {
            0 => To::Drop,
            1 => To::Rif(any(self.rifs.as_slice(), lot)),
            2 | 3 => match self.hops.get(place_of(lot, self.hops.len())) {
                Some((_, hop)) => To::NextHop(*hop),
                None => To::Drop,
            },
            _ => To::Group(any(self.groups.as_slice(), lot)),
        };
        match to {
            To::Rif(Vid(0)) | To::Group(Vid(0)) => To::Drop,
            to => to,
        }
    }
}

/// The set of the next hop of a number.
fn bit(number: u8) -> u64 {
    1 << (number % 64)
}

/// The place of a list of so many items that a lot falls on.
fn place_of(lot: u64, count: usize) -> usize {
    (lot % (count as u64).max(1)) as usize
}

/// The number of a list that a lot falls on, 0 where it has none.
fn any(list: &[Vid], lot: u64) -> Vid {
    list.get(place_of(lot, list.len()))
        .copied()
        .unwrap_or(Vid(0))
}

/// The port of a round, with four lanes.
fn port(alloc: Global, draw: &ViewDraw, round: u8) -> Result<Body<Vid>> {
    let first = u16::from(round) * 4;
    let text = format!(in alloc; "{first},{},{}", first + 1, first + 3)?;
    Ok(Body::Port {
        lanes: Lanes::read(alloc, text.as_bytes())?.context("lanes")?,
        speed: if draw.has(round, 5) { 100_000 } else { 40_000 },
        mtu: if draw.has(round, 6) { 9100 } else { 1500 },
        up: draw.has(round, 7),
    })
}

/// An address of the fourth version, by its four numbers.
fn address(first: u8, second: u8, third: u8, fourth: u8) -> Ip {
    let high = u128::from(first) << 24 | u128::from(second) << 16;
    Ip {
        family: Family::V4,
        bits: Bits::new(high | u128::from(third) << 8 | u128::from(fourth)),
    }
}

/// The address of a host behind the interface of a round.
fn host(round: u8, number: u8) -> Ip {
    address(10, 0, round, number)
}

/// Whether no round before has the prefix of this number too.
fn is_first(round: u8, number: u8) -> bool {
    round == 0 || number < 6 || number == 6 && round % 4 == 0
}

/// A prefix of a round, by its number. Most cover another.
fn prefix(round: u8, number: u8) -> Option<Prefix> {
    let (ip, len) = match number {
        0 => (address(20, round, 0, 0), 16),
        1 => (address(20, round, 128, 0), 17),
        2 => (address(20, round, 128, 0), 24),
        3 => (address(20, round, 128, 7), 32),
        4 => (host(round, 1), 32),
        5 => (wide(round), 48),
        6 => (address(20, round & 252, 0, 0), 14),
        _ => (address(0, 0, 0, 0), 0),
    };
    Prefix::new(ip, len)
}

/// An address of the sixth version.
fn wide(round: u8) -> Ip {
    Ip {
        family: Family::V6,
        bits: Bits::new(0x2001_0db8 << 96 | u128::from(round) << 80),
    }
}
