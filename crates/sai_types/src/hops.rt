// The hops of a route.
ghost use Rattle.std.specs.Prelude.{◌≡◌, [], IfOk, OnOk, OnErr};
ghost use Rattle.std.proofs.Common.{rules};
ghost use Rattle.std.specs.Cmp.{partial_order_from_own_ties};
ghost use Rattle.std.specs.Cmp.Rules.{comparing};
ghost use Rattle.std.specs.Cmp.Lexicographic.{slice_cmp, pointwise, lists_ties};
ghost use Rattle.std.specs.Ordering.{as_partial_cmp};
ghost use Rattle.sai_types.specs.Hop.{AreRisingHops, put_hop};
ghost use Rattle.sai_types.specs.contracts.weight.WHopPartialEq.TheImpl.Laws as same_hop;
ghost use Rattle.sai_types.specs.contracts.weight.WHopEq.TheImpl.Laws as equal_hop;
ghost use Rattle.sai_types.specs.contracts.weight.WHopOrd.TheImpl.Laws as ordered_hop;

use crate::WHop;
use std::alloc::Global;
use std::cmp::Ordering;
use std::marker::Model;
use swss_types::OutOfMemory;

/// The hops of a group with their weights, the hops distinct and rising.
#[derive(Debug, Drop)]
pub struct Hops {
    hops: Vec<WHop>,
}

impl Model for Hops {
    ghost use Rattle.std.specs.Prelude.{List};
    ghost use Rattle.sai_types.specs.declared.weight.WHop.{WHop};

    ghost Value = { List WHop };

    ghost use Rattle.sai_types.specs.Hop.{AreRisingHops};

    ghost view = { λ h. h.hops.items };

    ghost invariant = { λ h. AreRisingHops h.hops.items };
}

impl Hops {
    /// No hop.
    pub fn new(alloc: Global) -> Hops
        ensures { result ≡ [] }
    {
        Hops {
            hops: Vec::new(alloc),
        }
    }

    /// Puts a hop in its place; of one that is there the greater weight is kept.
    pub fn put(&mut self, hop: WHop) -> Result<(), OutOfMemory>
        ensures ok { OnOk result (self.new ≡ put_hop self.old hop) }
        ensures err { OnErr result (self.new ≡ self.old) }
    {
        put_hop(&mut self.hops, hop)
    }

    /// The hops with their weights; the hops rise, so each stands once.
    pub fn items(&self) -> &[WHop]
        ensures value { result.now ≡ self.now }
        ensures rising { AreRisingHops result.now }
    {
        self.hops.as_slice()
    }

    /// The same hops once more.
    pub fn copy(&self) -> Result<Hops, OutOfMemory>
        ensures { IfOk result (λ hops. hops ≡ self.now) }
    {
        Ok(Hops {
            hops: self.hops.clone()?,
        })
    }
}

/// Puts a hop into its place among hops that rise; of one that is there the greater weight is kept.
fn put_hop(hops: &mut Vec<WHop>, hop: WHop) -> Result<(), OutOfMemory>
    requires { AreRisingHops hops.old.items }
    ensures ok { OnOk result (hops.new.items ≡ put_hop hops.old.items hop) }
    ensures err { OnErr result (hops.new.items ≡ hops.old.items) }
    ensures rising { AreRisingHops hops.new.items }
{
    let mut at = 0;
    while at < hops.len() {
        match hop.hop.cmp(&hops[at].hop) {
            Ordering::Less => break,
            Ordering::Equal => {
                if hops[at].weight < hop.weight {
                    hops[at].weight = hop.weight;
                }
                return Ok(());
            }
            Ordering::Greater => at += 1,
        }
    }
    hops.insert(at, hop)?;
    Ok(())
}

impl PartialEq for Hops {
    ghost eq = { pointwise ⟦<WHop as PartialEq>⟧.eq };

    ghost laws = { Prim.search (comparing, rules, same_hop.laws-law) };

    fn eq(&self, other: &Hops) -> bool {
        self.hops.as_slice() == other.hops.as_slice()
    }
}

impl Eq for Hops {
    ghost laws = { Prim.search (comparing, rules, equal_hop.laws-law) };
}

impl PartialOrd for Hops {
    ghost partial_cmp = { as_partial_cmp (slice_cmp ⟦<WHop as Ord>⟧.cmp) };

    ghost laws = { partial_order_from_own_ties (Prim.search (comparing, rules, ordered_hop.total-law)) (lists_ties _ ordered_hop.matches_eq-law) };

    fn partial_cmp(&self, other: &Hops) -> Option<Ordering> {
        Some(self.cmp(other))
    }
}

impl Ord for Hops {
    ghost cmp = { slice_cmp ⟦<WHop as Ord>⟧.cmp };

    ghost total = { Prim.search (comparing, rules, ordered_hop.total-law) };

    ghost matches_partial_cmp = { Prim.search (comparing, rules) };

    ghost matches_eq = { lists_ties _ ordered_hop.matches_eq-law };

    fn cmp(&self, other: &Hops) -> Ordering {
        self.hops.as_slice().cmp(other.hops.as_slice())
    }
}
