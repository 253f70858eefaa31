// A tree of prefixes of one family.
ghost use Rattle.std.specs.Prelude.{◌≡◌, ◌≢◌, ◌<◌, [], ◌∷◌, ◌↔◌, IsTrue, true, false, ◌++◌, OnOk, OnErr, length};
ghost use Rattle.std.specs.BTreeMap.{is_at};
ghost use Rattle.std.specs.BTreeSet.{insert_key};
ghost use Rattle.std.specs.List.{list_any};
ghost use Rattle.std.specs.Set.{remove_key};
ghost use Rattle.swss_types.specs.Address.{IsProperPrefix};
ghost use Rattle.swss_types.specs.AddressOrder.{prefix_cmp};
ghost use Rattle.lpm_table.specs.Longest.{best_prefix};
ghost use Rattle.lpm_table.specs.Parts.{whole};
ghost use Rattle.lpm_table.specs.Trees.{AreOf, IsAbove, IsApart, IsFork, IsNode, preorder, members, members_at, lent_members};

use crate::below::Below;
use crate::fronts::{agree, cleared, is_one, rest_apart};
use crate::parts::Parts;
use std::alloc::Global;
use std::marker::Model;
use std::mem::{replace, size_of, swap};
use swss_types::{Ip, OutOfMemory, Prefix};

/// A prefix, whether it was put, and the trees of the longer ones that begin as it does: those with a zero behind it, and
/// those with a one. One that was not put has both.
#[derive(Drop)]
pub(crate) struct Tree {
    parts: Parts,
    put: bool,
    below: Below<Box<Tree>>,
}

// With both boxes, too.
const _: () = prove!(size_of::<Tree>() == 48);

/// The trees below a node.
type Sides = Below<Box<Tree>>;

impl Model for Tree {
    ghost use Rattle.std.specs.Prelude.{List, length, true, false};
    ghost use Rattle.swss_types.specs.declared.address.Prefix.{Prefix};
    ghost use Rattle.lpm_table.specs.Parts.{whole};
    ghost use Rattle.lpm_table.specs.Trees.{IsNode, preorder, members_at};

    ghost Value = { List Prefix };

    ghost view = { λ t. preorder (whole t.parts) t.put (members_at false t.below) (members_at true t.below) };

    ghost invariant = { λ t. IsNode (whole t.parts) t.put (members_at false t.below) (members_at true t.below) };

    ghost size = { length };

    ghost use Rattle.std.proofs.Common.{arith, length-append};

    ghost size_decreases = { λ t h. Prim.grind (arith, length-append) };
}

impl Tree {
    /// The tree of one prefix.
    pub(crate) fn leaf(prefix: &Parts) -> Tree
        requires { IsProperPrefix (whole prefix.now) }
        ensures { result ≡ whole prefix.now ∷ [] }
    {
        Tree {
            parts: *prefix,
            put: true,
            below: Below::Neither,
        }
    }

    /// There is a prefix. A law: it does nothing.
    fn holds_some(&self)
        ensures { 0 < length self.now }
    {
        let _put = self.put;
    }

    /// Whether this is the one prefix.
    pub(crate) fn is_only(&self, prefix: &Parts) -> bool
        ensures { IsTrue result ↔ self.now ≡ whole prefix.now ∷ [] }
    {
        match &self.below {
            Below::Neither => {}
            Below::Zeros(tree) | Below::Ones(tree) | Below::Both(tree, _) => {
                tree.holds_some();
                return false;
            }
        }
        self.parts.len == prefix.len
            && self.parts.family == prefix.family
            && self.parts.bits == prefix.bits
    }

    /// Puts a prefix.
    pub(crate) fn put(&mut self, alloc: Global, prefix: &Parts) -> Result<(), OutOfMemory>
        requires proper { IsProperPrefix (whole prefix.now) }
        requires family { AreOf prefix.now.family self.old }
        ensures ok { OnOk result (self.new ≡ insert_key prefix_cmp self.old (whole prefix.now)) }
        ensures err { OnErr result (self.new ≡ self.old) }
    {
        let rest = self.parts.family.width() - self.parts.len;
        if prefix.len < self.parts.len || !agree(self.parts.bits, prefix.bits, rest) {
            let node = self.parts;
            return put_apart(self, alloc, prefix, &node);
        }
        if prefix.len == self.parts.len {
            self.put = true;
            return Ok(());
        }
        let one = is_one(prefix.bits, rest - 1);
        let (side, other) = replace(&mut self.below, Below::Neither).split(one);
        if let Some(mut tree) = side {
            let result = tree.put(alloc, prefix);
            self.below = Below::of(one, Some(tree), other);
            return result;
        }
        let (side, result) = planted(alloc, prefix);
        self.below = Below::of(one, side, other);
        result
    }

    /// Removes a prefix that is not the only one, and answers whether it was there.
    pub(crate) fn remove(&mut self, prefix: &Parts) -> bool
        requires proper { IsProperPrefix (whole prefix.now) }
        requires family { AreOf prefix.now.family self.old }
        requires others { self.old ≢ whole prefix.now ∷ [] }
        ensures removed { self.new ≡ remove_key (is_at (prefix_cmp (whole prefix.now))) self.old }
        ensures held { result ≡ list_any (is_at (prefix_cmp (whole prefix.now))) self.old }
        ensures some { 0 < length self.new }
    {
        let node = self.parts;
        let rest = node.family.width() - node.len;
        if prefix.len < node.len || !agree(node.bits, prefix.bits, rest) {
            return false;
        }
        if prefix.len == node.len {
            if !self.put {
                return false;
            }
            let below = replace(&mut self.below, Below::Neither);
            *self = without(&node, below);
            return true;
        }
        let one = is_one(prefix.bits, rest - 1);
        let (side, other) = replace(&mut self.below, Below::Neither).split(one);
        match side {
            None => {
                self.below = Below::of(one, None, other);
                false
            }
            Some(mut tree) => {
                if tree.is_only(prefix) {
                    let put = replace(&mut self.put, true);
                    *self = left(&node, put, Below::of(one, None, other));
                    true
                } else {
                    let held = tree.remove(prefix);
                    self.below = Below::of(one, Some(tree), other);
                    held
                }
            }
        }
    }
}

/// The tree of one prefix, in a box of its own.
fn planted(alloc: Global, prefix: &Parts) -> (Option<Box<Tree>>, Result<(), OutOfMemory>)
    requires { IsProperPrefix (whole prefix.now) }
    ensures ok { OnOk result.1 (members result.0 ≡ whole prefix.now ∷ []) }
    ensures err { OnErr result.1 (members result.0 ≡ []) }
{
    match Box::new(alloc, Tree::leaf(prefix)) {
        Ok(leaf) => (Some(leaf), Ok(())),
        Err(_) => (None, Err(OutOfMemory)),
    }
}

/// Puts a prefix that does not begin as a tree's own does.
fn put_apart(
    tree: &mut Tree,
    alloc: Global,
    prefix: &Parts,
    node: &Parts,
) -> Result<(), OutOfMemory>
    requires { IsApart (whole prefix.now) (whole node.now) tree.old }
    ensures ok { OnOk result (tree.new ≡ insert_key prefix_cmp tree.old (whole prefix.now)) }
    ensures err { OnErr result (tree.new ≡ tree.old) }
{
    let cut = rest_apart(node.bits, prefix.bits);
    if cut <= prefix.family.width() - prefix.len {
        put_above(tree, alloc, prefix, node)
    } else {
        put_beside(tree, alloc, prefix, node, cut)
    }
}

/// Puts a prefix above a tree, whose own prefix is longer and begins as it does.
fn put_above(
    tree: &mut Tree,
    alloc: Global,
    prefix: &Parts,
    node: &Parts,
) -> Result<(), OutOfMemory>
    requires { IsAbove (whole prefix.now) (whole node.now) tree.old }
    ensures ok { OnOk result (tree.new ≡ insert_key prefix_cmp tree.old (whole prefix.now)) }
    ensures err { OnErr result (tree.new ≡ tree.old) }
{
    let mut below = Box::new(alloc, Tree::leaf(prefix))?;
    swap(tree, &mut *below);
    *tree = above(prefix, node, below);
    Ok(())
}

/// Puts a prefix beside a tree, below what the two have in common.
fn put_beside(
    tree: &mut Tree,
    alloc: Global,
    prefix: &Parts,
    node: &Parts,
    cut: u8,
) -> Result<(), OutOfMemory>
    requires { IsFork (whole prefix.now) (whole node.now) tree.old cut }
    ensures ok { OnOk result (tree.new ≡ insert_key prefix_cmp tree.old (whole prefix.now)) }
    ensures err { OnErr result (tree.new ≡ tree.old) }
{
    let leaf = Box::new(alloc, Tree::leaf(prefix))?;
    let mut below = Box::new(alloc, Tree::leaf(prefix))?;
    swap(tree, &mut *below);
    *tree = fork(prefix, node, leaf, below, cut);
    Ok(())
}

/// A prefix above a tree, whose own prefix is longer and begins as it does.
fn above(prefix: &Parts, node: &Parts, below: Box<Tree>) -> Tree
    requires { IsAbove (whole prefix.now) (whole node.now) below.value }
    ensures { result ≡ insert_key prefix_cmp below.value (whole prefix.now) }
{
    let rest = prefix.family.width() - prefix.len;
    let one = is_one(node.bits, rest - 1);
    grown(prefix, true, Below::of(one, Some(below), None))
}

/// A tree and the leaf of a prefix, below what the two have in common.
fn fork(prefix: &Parts, node: &Parts, leaf: Box<Tree>, below: Box<Tree>, cut: u8) -> Tree
    requires fork { IsFork (whole prefix.now) (whole node.now) below.value cut }
    requires leaf { leaf.value ≡ whole prefix.now ∷ [] }
    ensures { result ≡ insert_key prefix_cmp below.value (whole prefix.now) }
{
    let common = Parts {
        bits: cleared(prefix.bits, cut),
        family: prefix.family,
        len: prefix.family.width() - cut,
    };
    let one = is_one(prefix.bits, cut - 1);
    grown(&common, false, Below::of(one, Some(leaf), Some(below)))
}

/// A node with these trees below it.
fn grown(prefix: &Parts, put: bool, below: Sides) -> Tree
    requires { IsNode (whole prefix.now) put (members_at false below) (members_at true below) }
    ensures { result ≡ preorder (whole prefix.now) put (members_at false below) (members_at true below) }
{
    Tree {
        parts: *prefix,
        put,
        below,
    }
}

/// The two trees below a prefix, without it.
fn without(prefix: &Parts, below: Sides) -> Tree
    requires node { IsNode (whole prefix.now) true (members_at false below) (members_at true below) }
    requires some { 0 < length (members_at false below ++ members_at true below) }
    ensures { result ≡ members_at false below ++ members_at true below }
{
    match below {
        Below::Both(zeros, ones) => {
            zeros.holds_some();
            ones.holds_some();
            grown(prefix, false, Below::Both(zeros, ones))
        }
        Below::Zeros(tree) => Box::into_inner(tree),
        Below::Ones(tree) => Box::into_inner(tree),
        Below::Neither => unreachable!(),
    }
}

/// What is left of a node that lost a tree below it.
fn left(prefix: &Parts, put: bool, below: Sides) -> Tree
    requires node { IsNode (whole prefix.now) true (members_at false below) (members_at true below) }
    requires some { 0 < length (preorder (whole prefix.now) put (members_at false below) (members_at true below)) }
    ensures { result ≡ preorder (whole prefix.now) put (members_at false below) (members_at true below) }
{
    if put {
        grown(prefix, true, below)
    } else {
        without(prefix, below)
    }
}

/// The tree on a side of a node, if there is one.
fn tree_at(below: &Sides, one: bool) -> Option<&Tree>
    ensures { lent_members result ≡ members_at one below.now }
{
    match below.at(one) {
        Some(tree) => Some(tree),
        None => None,
    }
}

/// The longest prefix of a tree that covers an address.
pub(crate) fn best(root: &Tree, ip: Ip) -> Option<Prefix>
    requires { AreOf ip.family root.now }
    ensures { result ≡ best_prefix root.now ip }
{
    let mut best = None;
    let mut link = Some(root);
    while let Some(tree) = link {
        let rest = tree.parts.family.width() - tree.parts.len;
        if !agree(tree.parts.bits, ip.bits, rest) {
            return best;
        }
        if tree.put {
            best = Some(tree.parts.whole());
        }
        if rest == 0 {
            return best;
        }
        link = tree_at(&tree.below, is_one(ip.bits, rest - 1));
    }
    best
}
