// Prefixes, of which the longest that covers an address is found.
ghost use Rattle.std.specs.Prelude.{◌≡◌, [], OnOk, OnErr};
ghost use Rattle.std.specs.BTreeMap.{is_at};
ghost use Rattle.std.specs.BTreeSet.{insert_key};
ghost use Rattle.std.specs.List.{list_any};
ghost use Rattle.std.specs.Set.{remove_key};
ghost use Rattle.swss_types.specs.Address.{IsProperPrefix};
ghost use Rattle.swss_types.specs.AddressOrder.{prefix_cmp};
ghost use Rattle.lpm_table.specs.Longest.{best_prefix};
ghost use Rattle.lpm_table.specs.Parts.{whole};
ghost use Rattle.lpm_table.specs.Trees.{AreOf, members};

use crate::parts::Parts;
use crate::tree::{self, Tree};
use std::alloc::Global;
use std::marker::Model;
use swss_types::{Family, Ip, OutOfMemory, Prefix};

/// A tree, or none.
type Link = Option<Box<Tree>>;

/// Prefixes, each once, in a tree for each family. Contracts see them in their order.
#[derive(Drop)]
pub struct Lpm {
    alloc: Global,
    fours: Link,
    sixes: Link,
}

impl Model for Lpm {
    ghost use Rattle.std.specs.Prelude.{List, ◌++◌};
    ghost use Rattle.swss_types.specs.declared.address.Prefix.{Prefix};
    ghost use Rattle.lpm_table.specs.Trees.{AreByFamily, members};

    ghost Value = { List Prefix };

    ghost view = { λ l. members l.fours ++ members l.sixes };

    ghost invariant = { λ l. AreByFamily (members l.fours) (members l.sixes) };
}

impl Lpm {
    /// No prefix.
    pub fn new(alloc: Global) -> Lpm
        ensures { result ≡ [] }
    {
        Lpm {
            alloc,
            fours: None,
            sixes: None,
        }
    }

    /// Puts a prefix. For want of memory nothing changes.
    pub fn put(&mut self, prefix: Prefix) -> Result<(), OutOfMemory>
        ensures ok { OnOk result (self.new ≡ insert_key prefix_cmp self.old prefix) }
        ensures err { OnErr result (self.new ≡ self.old) }
    {
        let parts = Parts::of(&prefix);
        match parts.family {
            Family::V4 => put(self.alloc, &mut self.fours, &parts),
            Family::V6 => put(self.alloc, &mut self.sixes, &parts),
        }
    }

    /// Removes a prefix, and answers whether it was there.
    pub fn remove(&mut self, prefix: &Prefix) -> bool
        ensures removed { self.new ≡ remove_key (is_at (prefix_cmp prefix.now)) self.old }
        ensures held { result ≡ list_any (is_at (prefix_cmp prefix.now)) self.old }
    {
        let parts = Parts::of(prefix);
        match parts.family {
            Family::V4 => remove(&mut self.fours, &parts),
            Family::V6 => remove(&mut self.sixes, &parts),
        }
    }

    /// The longest prefix that covers an address: None exactly where none does.
    pub fn best(&self, ip: Ip) -> Option<Prefix>
        ensures { result ≡ best_prefix self.now ip }
    {
        match ip.family {
            Family::V4 => best(&self.fours, ip),
            Family::V6 => best(&self.sixes, ip),
        }
    }
}

/// Puts a prefix into the tree of its family.
fn put(alloc: Global, link: &mut Link, prefix: &Parts) -> Result<(), OutOfMemory>
    requires proper { IsProperPrefix (whole prefix.now) }
    requires family { AreOf prefix.now.family (members link.old) }
    ensures ok { OnOk result (members link.new ≡ insert_key prefix_cmp (members link.old) (whole prefix.now)) }
    ensures err { OnErr result (members link.new ≡ members link.old) }
{
    match link {
        Some(tree) => tree.put(alloc, prefix),
        None => {
            *link = Some(Box::new(alloc, Tree::leaf(prefix))?);
            Ok(())
        }
    }
}

/// Removes a prefix from the tree of its family, and answers whether it was there.
fn remove(link: &mut Link, prefix: &Parts) -> bool
    requires proper { IsProperPrefix (whole prefix.now) }
    requires family { AreOf prefix.now.family (members link.old) }
    ensures removed { members link.new ≡ remove_key (is_at (prefix_cmp (whole prefix.now))) (members link.old) }
    ensures held { result ≡ list_any (is_at (prefix_cmp (whole prefix.now))) (members link.old) }
{
    match link {
        None => false,
        Some(tree) => {
            if tree.is_only(prefix) {
                *link = None;
                true
            } else {
                tree.remove(prefix)
            }
        }
    }
}

/// The longest prefix of the tree of a family that covers an address.
fn best(link: &Link, ip: Ip) -> Option<Prefix>
    requires { AreOf ip.family (members link.now) }
    ensures { result ≡ best_prefix (members link.now) ip }
{
    match link {
        Some(tree) => tree::best(tree, ip),
        None => None,
    }
}
