// What may be seen of a chip while it is brought from an old view to a new one.
use crate::plans::drawn::{FIRST, SECOND};
use anyhow::{Result, ensure};
use sai_chip::{Forward, SimChip, named};
use sai_types::{Body, Entry, Rid, Thing, Vid, WHop};
use std::alloc::Global;
use swss_types::{Bits, Ip, Mac, Vrf};
use view_match::natural_keys;

/// The routers that addresses are looked at in.
const ROUTERS: [Vrf; 3] = [Vrf::Default, Vrf::Named(FIRST), Vrf::Named(SECOND)];

/// An address in a router with where its packets go by the old view and by the new one.
#[derive(Drop)]
struct Way {
    vrf: Vrf,
    ip: Ip,
    old: Forward,
    new: Forward,
    moved: bool,
}

/// What is seen of the chip by the old view and by the new one.
#[derive(Drop)]
pub struct Watch {
    hitless: bool,
    ways: Vec<Way>,
    old: Vec<Thing>,
    new: Vec<Thing>,
    doubles: Vec<Entry<Rid>>,
}

/// The addresses that are looked at: three of each route, and the own ones.
pub fn add_addresses(ips: &mut Vec<Ip>, bodies: &[Body<Vid>]) -> Result<()> {
    for body in bodies {
        match body {
            Body::OwnAddress { ip, .. } => ips.push(*ip)?,
            Body::Route { prefix, .. } => {
                ips.push(prefix.ip)?;
                ips.push(behind(prefix.ip, 0x85))?;
                ips.push(behind(prefix.ip, 0x185))?;
            }
            _ => {}
        }
    }
    Ok(())
}

/// An address with more bits.
fn behind(ip: Ip, more: u128) -> Ip {
    Ip {
        family: ip.family,
        bits: Bits::new(ip.bits.number() | more),
    }
}

impl Watch {
    /// A watch over these addresses of a chip, in each of the routers or in the default one, and of a second chip that holds
    /// the new view.
    pub fn new(
        alloc: Global,
        chip: &SimChip,
        second: &SimChip,
        ips: &[Ip],
        routers: bool,
        hitless: bool,
    ) -> Result<Watch> {
        let mut ways = Vec::new(alloc);
        for vrf in ROUTERS {
            if routers || vrf == Vrf::Default {
                add_ways(alloc, &mut ways, chip, second, &vrf, ips)?;
            }
        }
        Ok(Watch {
            hitless,
            ways,
            old: named(alloc, chip.objects(alloc)?.as_slice())?,
            new: named(alloc, second.objects(alloc)?.as_slice())?,
            doubles: doubles(alloc, chip)?,
        })
    }

    /// Looks at the chip after a call. What packets go by was there before or is of the new view, and where the plan is
    /// hitless each address goes as before, and then as in the new view.
    pub fn look(&mut self, alloc: Global, chip: &SimChip) -> Result<()> {
        self.look_at_things(alloc, chip)?;
        if self.hitless {
            self.look_at_ways(alloc, chip)?;
        }
        Ok(())
    }

    /// Looks at the neighbours, own addresses and routes.
    fn look_at_things(&self, alloc: Global, chip: &SimChip) -> Result<()> {
        for thing in named(alloc, chip.objects(alloc)?.as_slice())? {
            if let Thing::Own(..) | Thing::Neighbor(..) | Thing::Route(..) = thing {
                let known = self.old.contains(&thing) || self.new.contains(&thing);
                ensure!(known, "{thing:?} is of neither view");
            }
        }
        Ok(())
    }

    /// Looks at each address.
    fn look_at_ways(&mut self, alloc: Global, chip: &SimChip) -> Result<()> {
        for way in self.ways.iter_mut() {
            let now = chip.forward(alloc, way.vrf, way.ip)?;
            ensure!(
                way.allows(&now),
                "{:?} in {:?} goes {now:?}",
                way.ip,
                way.vrf
            );
            way.moved = way.moved || agree(&now, &way.new, false);
        }
        Ok(())
    }

    /// Whether the chip holds the things of the new view, and of groups of the same hops and weights the first at most.
    pub fn ends_at(&self, alloc: Global, chip: &SimChip) -> Result<bool> {
        let objects = chip.objects(alloc)?;
        for object in objects.as_slice() {
            if self.doubles.contains(&object.entry) {
                return Ok(false);
            }
        }
        Ok(named(alloc, objects.as_slice())? == self.new)
    }
}

/// Adds where packets to these addresses go in a router, by both chips.
fn add_ways(
    alloc: Global,
    ways: &mut Vec<Way>,
    chip: &SimChip,
    second: &SimChip,
    vrf: &Vrf,
    ips: &[Ip],
) -> Result<()> {
    for ip in ips {
        ways.push(Way {
            vrf: *vrf,
            ip: *ip,
            old: chip.forward(alloc, *vrf, *ip)?,
            new: second.forward(alloc, *vrf, *ip)?,
            moved: false,
        })?;
    }
    Ok(())
}

/// The groups of a chip that have the hops and weights of one that was made before.
fn doubles(alloc: Global, chip: &SimChip) -> Result<Vec<Entry<Rid>>> {
    let (mut doubles, mut seen) = (Vec::new(alloc), Vec::new(alloc));
    let objects = chip.objects(alloc)?;
    let keys = natural_keys(alloc, objects.as_slice())?;
    for (object, key) in objects.iter().zip(keys) {
        if matches!(object.body, Body::Group) {
            if seen.contains(&key) {
                doubles.push(object.entry)?;
            }
            seen.push(key)?;
        }
    }
    Ok(doubles)
}

impl Way {
    /// Whether the address may go so now: over the hops of the old view or of the new one, once over those of the new one
    /// always so, and where both views agree as both.
    fn allows(&self, now: &Forward) -> bool {
        if agree(&self.old, &self.new, true) {
            agree(now, &self.new, true)
        } else if agree(now, &self.new, false) {
            true
        } else {
            !self.moved && agree(now, &self.old, false)
        }
    }
}

/// Whether two answers have the same interface or hops with their weights, and where this is asked the same Ethernet
/// addresses.
fn agree(answer: &Forward, other: &Forward, macs: bool) -> bool {
    match (answer, other) {
        (Forward::Cpu, Forward::Cpu) | (Forward::Drop, Forward::Drop) => true,
        (Forward::Direct(on), Forward::Direct(other)) => on == other,
        (Forward::Via(ways), Forward::Via(others)) => {
            let (ways, others) = (ways.items(), others.items());
            ways.len() == others.len() && have_hops(ways, others, macs)
        }
        _ => false,
    }
}

/// Whether two lists as long as each other have the same hops with their weights, and where this is asked the same Ethernet
/// addresses.
fn have_hops(ways: &[(WHop, Mac)], others: &[(WHop, Mac)], macs: bool) -> bool {
    for (way, other) in ways.iter().zip(others) {
        if way.0 != other.0 || macs && way.1 != other.1 {
            return false;
        }
    }
    true
}
