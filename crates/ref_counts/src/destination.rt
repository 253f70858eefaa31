// Where a route leads from: a prefix in a virtual router.
ghost use Rattle.ref_counts.specs.Destinations.{destination_cmp, destination_total, destinations_agree, destinations_tie};

use std::cmp::Ordering;
use swss_types::{Prefix, Vrf};

/// A prefix in a virtual router. They are ordered by router, and then by prefix.
#[derive(Clone, Copy, Debug, PartialEq, Eq, PartialOrd)]
pub struct Destination {
    /// The virtual router.
    pub vrf: Vrf,
    /// The prefix in it.
    pub prefix: Prefix,
}

impl Ord for Destination {
    ghost cmp = { destination_cmp };

    ghost total = { destination_total };

    ghost matches_partial_cmp = { destinations_agree };

    ghost matches_eq = { destinations_tie };

    // A map's search compares with many keys, so the comparison stands in it and is no call.
    #[inline(always)]
    fn cmp(&self, other: &Destination) -> Ordering {
        match self.vrf.cmp(&other.vrf) {
            Ordering::Equal => self.prefix.cmp(&other.prefix),
            order => order,
        }
    }
}
