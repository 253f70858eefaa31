// What the routes point to.
use anyhow::{Context, Result, bail};
use sai_chip::SimChip;
use sai_types::{Body, Call, Chip, ChipAnswer, Rid, RifOn, To, Weight};
use std::alloc::Global;
use swss_types::{Bits, Family, Ip, Lanes, Mac};

/// How many next hops there are.
const NEXT_HOPS: usize = 256;

/// How many groups there are.
const GROUPS: usize = 500;

/// Next hops and groups of them, on one port.
#[derive(Drop)]
pub struct Network {
    next_hops: Vec<Rid>,
    groups: Vec<Rid>,
}

impl Network {
    /// Makes them on a chip.
    pub fn new(alloc: Global, chip: &mut SimChip) -> Result<Network> {
        let rif = make_interface(alloc, chip)?;
        let mut network = Network {
            next_hops: Vec::new(alloc),
            groups: Vec::new(alloc),
        };
        for number in 0..NEXT_HOPS {
            let next_hop = make_next_hop(chip, rif, number)?;
            network.next_hops.push(next_hop)?;
        }
        for number in 0..GROUPS {
            let group = network.make_group(chip, number)?;
            network.groups.push(group)?;
        }
        Ok(network)
    }

    /// A next hop by its number, which begins again behind the last.
    pub fn next_hop(&self, number: usize) -> Result<Rid> {
        let id = self.next_hops.get(number % NEXT_HOPS);
        id.copied().context("a next hop")
    }

    /// The next hop for a route with this number.
    pub fn next_hop_for(&self, route: u32) -> Result<To<Rid>> {
        Ok(To::NextHop(self.next_hop(route as usize)?))
    }

    /// The group for a route with this number.
    pub fn group_for(&self, route: u32) -> Result<To<Rid>> {
        let id = self.groups.get(route as usize % GROUPS);
        Ok(To::Group(id.copied().context("a group")?))
    }

    /// Makes a group of two next hops, each with the weight 1.
    fn make_group(&self, chip: &mut SimChip, number: usize) -> Result<Rid> {
        let group = make(chip, Body::Group)?;
        let first = self.next_hop(number)?;
        let second = self.next_hop(number % NEXT_HOPS + 1 + number / NEXT_HOPS)?;
        for next_hop in [first, second] {
            let member = Body::GroupMember {
                group,
                next_hop,
                weight: Weight::one(),
            };
            make(chip, member)?;
        }
        Ok(group)
    }
}

/// Makes a port and a router interface on it.
fn make_interface(alloc: Global, chip: &mut SimChip) -> Result<Rid> {
    let lanes = Lanes::read(alloc, b"0")?.context("lanes")?;
    let port = make(
        chip,
        Body::Port {
            lanes,
            speed: 100_000,
            mtu: 9100,
            up: true,
        },
    )?;
    let on = RifOn::Port(port);
    make(chip, Body::Rif { vr: None, on })
}

/// Makes a neighbour and a next hop through it.
fn make_next_hop(chip: &mut SimChip, rif: Rid, number: usize) -> Result<Rid> {
    let neighbor = Body::Neighbor {
        rif,
        ip: address(number),
        mac: Mac([2, 0, 0, 0, 0, 1]),
    };
    act(chip, Call::Create(neighbor))?;
    let ip = address(number);
    make(chip, Body::NextHop { rif, ip })
}

/// The address of a neighbour with this number.
fn address(number: usize) -> Ip {
    Ip {
        family: Family::V4,
        bits: Bits::new(0x0A00_0000 + number as u128),
    }
}

/// Makes an object of a kind with identifiers.
fn make(chip: &mut SimChip, body: Body<Rid>) -> Result<Rid> {
    match answer(chip, Call::Create(body)) {
        ChipAnswer::Made(id) => Ok(id),
        answer => bail!("the chip answers {answer:?}"),
    }
}

/// Makes a call that makes no identifier.
pub fn act(chip: &mut SimChip, call: Call<Rid>) -> Result<()> {
    match answer(chip, call) {
        ChipAnswer::Done => Ok(()),
        answer => bail!("the chip answers {answer:?}"),
    }
}

/// Makes a call, and gives it up here alone: its destructor is proved anew at each place where it goes.
fn answer(chip: &mut SimChip, call: Call<Rid>) -> ChipAnswer {
    chip.call(&call)
}
