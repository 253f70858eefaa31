// How a route's row keeps its hops.
ghost use Rattle.std.specs.Prelude.{◌≡◌, ◌<◌, IfOk, OnOk, OnErr};
ghost use Rattle.table_schema.specs.Hop.{AreRisingRowHops, HaveWeights, put_row_hop};
ghost use Rattle.table_schema.specs.HeldHops.{hops_in};

use crate::RowHop;
use std::alloc::Global;
use std::cmp::Ordering;
use std::{fmt, slice};
use swss_types::OutOfMemory;

/// Most routes have one hop, which stands in the row itself. Others stand in a list, which takes room of its own.
#[derive(Drop)]
pub(crate) enum HeldHops {
    /// One hop.
    One((RowHop, u8), Global),
    /// A list of hops.
    List(Vec<(RowHop, u8)>),
}

impl HeldHops {
    /// The hops.
    pub(crate) fn as_slice(&self) -> &[(RowHop, u8)]
        ensures { result.now ≡ hops_in self.now }
    {
        match self {
            HeldHops::One(hop, _) => slice::from_ref(hop),
            HeldHops::List(hops) => hops.as_slice(),
        }
    }

    /// The same hops once more.
    pub(crate) fn copy(&self) -> Result<HeldHops, OutOfMemory>
        ensures { IfOk result (λ copy. hops_in copy ≡ hops_in self.now) }
    {
        Ok(match self {
            HeldHops::One(hop, alloc) => HeldHops::One(*hop, *alloc),
            HeldHops::List(hops) => HeldHops::List(hops.clone()?),
        })
    }

    /// Puts a hop into its place among hops that rise; of one that is there the greater weight is kept.
    pub(crate) fn put(&mut self, hop: RowHop, weight: u8) -> Result<(), OutOfMemory>
        requires rising { AreRisingRowHops (hops_in self.old) }
        requires weights { HaveWeights (hops_in self.old) }
        requires weight { 0 < weight }
        ensures ok { OnOk result (hops_in self.new ≡ put_row_hop (hops_in self.old) hop weight) }
        ensures err { OnErr result (hops_in self.new ≡ hops_in self.old) }
        ensures rising { AreRisingRowHops (hops_in self.new) }
        ensures weights { HaveWeights (hops_in self.new) }
    {
        match self {
            HeldHops::List(hops) => put_row_hop(hops, hop, weight),
            HeldHops::One(first, alloc) => {
                let mut hops = Vec::new(*alloc);
                hops.push(*first)?;
                put_row_hop(&mut hops, hop, weight)?;
                *self = HeldHops::List(hops);
                Ok(())
            }
        }
    }
}

/// Puts a hop into its place in a list of hops that rise; of one that is there the greater weight is kept. The work is
/// linear in the list, which has at most `MOST_HOPS` hops.
fn put_row_hop(hops: &mut Vec<(RowHop, u8)>, hop: RowHop, weight: u8) -> Result<(), OutOfMemory>
    ensures ok { OnOk result (hops.new.items ≡ put_row_hop hops.old.items hop weight) }
    ensures err { OnErr result (hops.new.items ≡ hops.old.items) }
{
    let mut at = 0;
    while at < hops.len() {
        match hop.cmp(&hops[at].0) {
            Ordering::Less => break,
            Ordering::Equal => {
                if hops[at].1 < weight {
                    hops[at].1 = weight;
                }
                return Ok(());
            }
            Ordering::Greater => at += 1,
        }
    }
    hops.insert(at, (hop, weight))?;
    Ok(())
}

impl fmt::Debug for HeldHops {
    fn fmt<W: fmt::Write>(&self, f: &mut fmt::Formatter<W>) -> fmt::Result {
        self.as_slice().fmt(f)
    }
}
