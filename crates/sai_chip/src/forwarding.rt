// Where a chip sends packets.
ghost use Rattle.std.specs.Prelude.{◌≡◌, true, IfOk, option_copied, option_map};
ghost use Rattle.std.specs.Option.{is_some};
ghost use Rattle.sai_types.specs.Forwarding.{best_route, forward};
ghost use Rattle.sai_types.specs.Hop.{heavier};
ghost use Rattle.sai_types.specs.Made.{HaveOneEach, ReferWell};
ghost use Rattle.sai_types.specs.Named.{both, goal_by, hop_on, hops_at, named, those, whop_at};
ghost use Rattle.sai_types.specs.Objects.{body_at};
ghost use Rattle.sai_types.specs.declared.body.Entry.TheVariants as entry;
ghost use Rattle.sai_types.specs.declared.thing.Goal.{Goal};
ghost use Rattle.chip_names.specs.Members.{hops_by};
ghost use Rattle.sai_chip.specs.Forward.{answer_of, more_ways, sent, way_of, ways_by, ways_in, ways_of, weight_beside};

use crate::forward::Forward;
use crate::held::Held;
use crate::ways::Ways;
use chip_names::{hop_on, rif_at};
use sai_types::{Body, Hop, Rid, To, WHop, Weight};
use std::alloc::Global;
use std::collections::BTreeMap;
use swss_types::{Ip, Mac, OutOfMemory, Packet};

/// Hops, rising, each with its weight and its Ethernet address, where it has one.
type Macs = BTreeMap<Hop, (Weight, Option<Mac>)>;

/// Where a packet goes: to the switch itself where its address is the switch's own in its router, else where the route of
/// the longest prefix there points, else nowhere.
pub fn forward_by(alloc: Global, held: &Held, packet: &Packet) -> Result<Forward, OutOfMemory>
    requires refer { ReferWell held.now }
    requires one { HaveOneEach held.now }
    ensures { IfOk result (λ f. f ≡ answer_of (forward (those (named held.now)) packet.now)) }
{
    if held.bodies().is_own(packet) {
        return Ok(Forward::Cpu);
    }
    Ok(best_route(alloc, held, packet)?.unwrap_or(Forward::Drop))
}

/// Where the route of the packet's router with the longest prefix that covers its address sends: None where none does.
fn best_route(alloc: Global, held: &Held, packet: &Packet) -> Result<Option<Forward>, OutOfMemory>
    requires refer { ReferWell held.now }
    requires one { HaveOneEach held.now }
    ensures { IfOk result (λ best. best ≡ option_map (λ r. sent held.now r.1) (best_route (those (named held.now)) packet.now)) }
{
    match held.bodies().best(packet) {
        Some(to) => forward_to(alloc, held, to),
        None => Ok(None),
    }
}

/// Where a route with this target sends: None where a reference is absent.
fn forward_to(alloc: Global, held: &Held, to: To<Rid>) -> Result<Option<Forward>, OutOfMemory>
    requires refer { ReferWell held.now }
    requires one { HaveOneEach held.now }
    ensures { IfOk result (λ f. f ≡ option_map (sent held.now) (goal_by (hops_at held.now) held.now to)) }
{
    match to {
        To::Drop => Ok(Some(Forward::Drop)),
        To::Rif(rif) => Ok(rif_at(held.bodies().numbered(), rif).map(Forward::Direct)),
        To::NextHop(next_hop) => forward_via(alloc, held, &[(next_hop, Weight::one())]),
        To::Group(group) => forward_via(alloc, held, &held.members(group)?),
    }
}

/// Where a route over these next hops sends: None where a reference is absent.
fn forward_via(
    alloc: Global,
    held: &Held,
    next_hops: &[(Rid, Weight)],
) -> Result<Option<Forward>, OutOfMemory>
    requires refer { ReferWell held.now }
    requires one { HaveOneEach held.now }
    ensures { IfOk result (λ f. f ≡ option_map (λ hops. sent held.now (Goal.Group hops)) (hops_by held.now next_hops.now)) }
{
    match macs_of(alloc, held, next_hops)? {
        Some(macs) => Ok(Some(Forward::Via(ways_of(alloc, &macs)?))),
        None => Ok(None),
    }
}

/// The hops of these next hops with their weights and Ethernet addresses: None where a next hop is absent.
fn macs_of(
    alloc: Global,
    held: &Held,
    next_hops: &[(Rid, Weight)],
) -> Result<Option<Macs>, OutOfMemory>
    requires refer { ReferWell held.now }
    requires one { HaveOneEach held.now }
    ensures { IfOk result (λ macs. option_map (λ m. ways_in m.entries) macs ≡ ways_by held.now (hops_by held.now next_hops.now)) }
{
    let mut macs = Some(BTreeMap::new(alloc));
    let mut left = next_hops.len();
    while 0 < left {
        left -= 1;
        macs = add_way(macs, way_to(held, next_hops[left]))?;
    }
    Ok(macs)
}

/// Hops with one more, where there are both; of a hop that is there the greater weight is kept.
fn add_way(
    macs: Option<Macs>,
    way: Option<(WHop, Option<Mac>)>,
) -> Result<Option<Macs>, OutOfMemory>
    ensures { IfOk result (λ more. option_map (λ m. ways_in m.entries) more ≡ both more_ways (option_map (λ m. ways_in m.entries) macs) way) }
{
    let (Some(mut macs), Some((whop, mac))) = (macs, way) else {
        return Ok(None);
    };
    let weight = weight_beside(macs.get(&whop.hop), whop.weight);
    macs.insert(whop.hop, (weight, mac))?;
    Ok(Some(macs))
}

/// The weight of a hop that is put beside what is there of it: the greater.
fn weight_beside(there: Option<&(Weight, Option<Mac>)>, weight: Weight) -> Weight
    ensures { result ≡ weight_beside (option_copied there.entry) weight }
{
    match there {
        Some((other, _)) => heavier(*other, weight),
        None => weight,
    }
}

/// The greater of two weights.
fn heavier(a: Weight, b: Weight) -> Weight
    ensures { result ≡ heavier a b }
{
    if a < b { b } else { a }
}

/// The hop of a next hop, with its weight and its Ethernet address.
fn way_to(held: &Held, next_hop: (Rid, Weight)) -> Option<(WHop, Option<Mac>)>
    requires refer { ReferWell held.now }
    requires one { HaveOneEach held.now }
    ensures { result ≡ option_map (way_of held.now) (whop_at held.now next_hop.0 next_hop.1) }
{
    match held.bodies().get(next_hop.0) {
        Some(Body::NextHop { rif, ip }) => way_by(held, *rif, ip, next_hop.1),
        _ => None,
    }
}

/// The hop of a neighbour that stands, with a weight and its Ethernet address.
fn way_by(held: &Held, rif: Rid, ip: &Ip, weight: Weight) -> Option<(WHop, Option<Mac>)>
    requires one { HaveOneEach held.now }
    requires stands { is_some (body_at held.now (entry.Neigh rif ip.now)) ≡ true }
    ensures { result ≡ option_map (way_of held.now) (option_map (λ h. record { hop = h; weight = weight }) (hop_on held.now rif ip.now)) }
{
    match hop_on(held.bodies().numbered(), rif, *ip) {
        Some(hop) => Some((WHop { hop, weight }, held.bodies().mac(rif, *ip))),
        None => None,
    }
}

/// The hops that have an Ethernet address.
fn ways_of(alloc: Global, macs: &Macs) -> Result<Ways, OutOfMemory>
    ensures { IfOk result (λ ways. ways ≡ ways_of (ways_in macs.now.entries)) }
{
    let mut ways = Ways::new(alloc);
    for (hop, (weight, mac)) in macs {
        if let Some(mac) = mac {
            let whop = WHop {
                hop: *hop,
                weight: *weight,
            };
            ways.push((whop, *mac))?;
        }
    }
    Ok(ways)
}
