// The parts in which names stand.
ghost use Rattle.ref_counts.specs.Parted.{IsPart, IsPartOf};

use crate::Name;
use crate::destination::Destination;
use sai_types::Hops;
use swss_types::{IfName, Ip};
use table_schema::Key;

/// What stands for a name in its part. Names are in order, and so are their parts.
#[derive(Drop)]
pub enum Part<R, N, G> {
    /// The key of a row, which comes before the neighbours.
    Row(R),
    /// The interface and the address of a neighbour.
    Neighbor((IfName, Ip)),
    /// The virtual router and the prefix of a route.
    Route(Destination),
    /// A name that comes behind the routes and before the groups.
    Other(N),
    /// The hops of a group.
    Group(G),
}

/// The part of a name.
#[inline(always)]
pub fn part_of(name: &Name) -> Part<&Key, &Name, &Hops>
    ensures { IsPartOf result name.now }
{
    match name {
        Name::Row(Key::Neigh(on, ip)) => Part::Neighbor((*on, *ip)),
        Name::Row(Key::Route(vrf, prefix)) => Part::Route(Destination {
            vrf: *vrf,
            prefix: *prefix,
        }),
        Name::Row(Key::Other(_)) => Part::Other(name),
        Name::Row(key) => Part::Row(key),
        Name::Group(hops) => Part::Group(hops),
        _ => Part::Other(name),
    }
}

/// The part of a name that is handed over.
#[inline(always)]
pub fn into_part(name: Name) -> Part<Key, Name, Hops>
    ensures { IsPart result name }
{
    match name {
        Name::Row(key) => part_of_row(key),
        Name::Group(hops) => Part::Group(hops),
        other => Part::Other(other),
    }
}

/// The part of a row's name, by its key.
#[inline(always)]
fn part_of_row(key: Key) -> Part<Key, Name, Hops>
    ensures { IsPart result (Name.Row key) }
{
    match key {
        Key::Neigh(on, ip) => Part::Neighbor((on, ip)),
        Key::Route(vrf, prefix) => Part::Route(Destination { vrf, prefix }),
        Key::Other(text) => Part::Other(Name::Row(Key::Other(text))),
        key => Part::Row(key),
    }
}
