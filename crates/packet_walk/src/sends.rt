// Where goals send, by the Ethernet addresses of neighbours.
ghost use Rattle.std.specs.Prelude.{◌≡◌, IfOk, OnOk};
ghost use Rattle.sai_chip.specs.Forward.{with_way};
ghost use Rattle.packet_walk.specs.Sends.{macs_in, neighbor_mac, send_by, addressed_ways, with_mac};

use sai_chip::{Forward, Ways};
use sai_types::{Goal, Hop, Thing, WHop, Weight};
use std::alloc::Global;
use std::collections::BTreeMap;
use swss_types::{Mac, OutOfMemory};

/// The Ethernet addresses of neighbours, by their hops.
pub type Macs = BTreeMap<Hop, Mac>;

/// The Ethernet addresses of the neighbours among these things; of several neighbours of one hop, that of the first.
pub fn macs_of(alloc: Global, things: &[Thing]) -> Result<Macs, OutOfMemory>
    ensures { IfOk result (λ macs. macs.entries ≡ macs_in things.now) }
{
    let mut macs = BTreeMap::new(alloc);
    let mut left = things.len();
    while 0 < left {
        left -= 1;
        put_mac(&mut macs, &things[left])?;
    }
    Ok(macs)
}

/// Puts the address of a neighbour; another thing changes nothing.
fn put_mac(macs: &mut Macs, thing: &Thing) -> Result<(), OutOfMemory>
    ensures { OnOk result (macs.new.entries ≡ with_mac macs.old.entries thing.now) }
{
    if let Thing::Neighbor(hop, mac) = thing {
        macs.insert(*hop, *mac)?;
    }
    Ok(())
}

/// Where a route to this goal sends.
pub fn send(alloc: Global, macs: &Macs, goal: &Goal) -> Result<Forward, OutOfMemory>
    ensures { IfOk result (λ forward. forward ≡ send_by macs.now.entries goal.now) }
{
    Ok(match goal {
        Goal::Drop => Forward::Drop,
        Goal::Direct(base) => Forward::Direct(*base),
        Goal::Via(hop) => {
            let alone = WHop {
                hop: *hop,
                weight: Weight::one(),
            };
            Forward::Via(ways(alloc, macs, &[alone])?)
        }
        Goal::Group(hops) => Forward::Via(ways(alloc, macs, hops.items())?),
    })
}

/// The hops that have an Ethernet address, with it.
fn ways(alloc: Global, macs: &Macs, hops: &[WHop]) -> Result<Ways, OutOfMemory>
    ensures { IfOk result (λ ways. ways ≡ addressed_ways macs.now.entries hops.now) }
{
    let mut ways = Ways::new(alloc);
    for whop in hops {
        if let Some(mac) = macs.get(&whop.hop) {
            ways.push((*whop, *mac))?;
        }
    }
    Ok(ways)
}
