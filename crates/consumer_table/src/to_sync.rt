// The operations by key.
ghost use Rattle.std.specs.Prelude.{◌≡◌, ◌<◌, ◌^◌, [], ◌++◌, length, Some, None, option_map, is_some, if◌then◌else◌, IfOk, OnOk, OnErr};
ghost use Rattle.std.specs.List.Sorted.{IsStrictlySortedBy};
ghost use Rattle.std.specs.Map.{keys_of};
ghost use Rattle.std.specs.Ordering.{eq_by_cmp};
ghost use Rattle.std.specs.Set.{is_member};
ghost use Rattle.table_schema.specs.Key.{key_cmp};
ghost use Rattle.table_schema.specs.declared.key.Key.{Key};
ghost use Rattle.table_schema.specs.declared.write.Write.TheVariants as write;
ghost use Rattle.consumer_table.specs.Ops.{AreOpsInOrder, first_in, keys_behind, op_at, op_with_set, ops_after, ops_with, without_op};
ghost use Rattle.consumer_table.specs.declared.op.Op.TheVariants as op;

use crate::Op;
use late_maps::LateMap;
use producer_table::KeyOp;
use std::alloc::Global;
use std::marker::Model;
use swss_types::OutOfMemory;
use table_schema::{Fields, Key};

/// The keys that are to be brought to the chip, each with one operation: what was written to its row since the key was done.
/// In SONiC's words, a consumer's map of keys to sync.
#[derive(Debug, Drop)]
pub struct ToSync {
    ops: LateMap<Key, Op>,
    alloc: Global,
}

impl Model for ToSync {
    ghost use Rattle.std.specs.Prelude.{List};
    ghost use Rattle.table_schema.specs.declared.key.Key.{Key};
    ghost use Rattle.consumer_table.specs.declared.op.Op.{Op};
    ghost use Rattle.consumer_table.specs.Ops.{HaveOpNames};

    ghost Value = { List (Key × Op) };

    ghost view = { λ s. s.ops };

    ghost invariant = { λ s. HaveOpNames s.ops };
}

impl Op {
    /// Fields more: they are merged into those of a Set and of a Replace, and turn a Del into a Replace.
    fn lay(&mut self, fields: Fields) -> Result<(), OutOfMemory>
        ensures ok { OnOk result (self.new ≡ op_with_set (Some self.old) fields) }
        ensures err { OnErr result (self.new ≡ self.old) }
    {
        match self {
            Op::Set(held) => held.merge(&fields),
            Op::Replace(held) => held.merge(&fields),
            Op::Del => {
                *self = Op::Replace(fields.laid_over_none());
                Ok(())
            }
        }
    }
}

/// Merges fields into the operation of a key, and tells whether it had one.
fn lay(ops: &mut LateMap<Key, Op>, key: Key, fields: Fields) -> Result<bool, OutOfMemory>
    ensures ok { OnOk result (ops.new ≡ ops_after ops.old (write.Set key fields)) }
    ensures there { IfOk result (λ there. there ≡ is_some (op_at ops.old key)) }
    ensures err { OnErr result (ops.new ≡ ops.old) }
{
    match ops.get_mut(&key) {
        Some(op) => {
            op.lay(fields)?;
            Ok(true)
        }
        None => {
            ops.insert(key, Op::Set(fields.laid_over_none()))?;
            Ok(false)
        }
    }
}

/// Adds what was popped of a key, and tells whether it had an operation.
fn add(ops: &mut LateMap<Key, Op>, op: KeyOp) -> Result<bool, OutOfMemory>
    ensures ok { OnOk result (ops.new ≡ ops_with ops.old op) }
    ensures there { IfOk result (λ there. there ≡ is_some (op_at ops.old op.key)) }
    ensures err { OnErr result (ops.new ≡ ops.old) }
{
    let KeyOp {
        key,
        dropped,
        fields,
    } = op;
    match (dropped, fields) {
        (true, Some(fields)) => {
            let was = ops.insert(key, Op::Replace(fields.laid_over_none()))?;
            Ok(was.is_some())
        }
        (true, None) => {
            let was = ops.insert(key, Op::Del)?;
            Ok(was.is_some())
        }
        (false, Some(fields)) => lay(ops, key, fields),
        (false, None) => Ok(ops.contains_key(&key)),
    }
}

/// Appends the keys of a map, in order.
fn push_keys(keys: &mut Vec<Key>, ops: &LateMap<Key, Op>) -> Result<(), OutOfMemory>
    ensures { OnOk result (keys.new.items ≡ keys.old.items ++ keys_of ops.now) }
{
    for (key, _) in ops.iter() {
        keys.push(key.copy()?)?;
    }
    Ok(())
}

impl ToSync {
    /// No key.
    pub fn new(alloc: Global) -> ToSync
        ensures { result ≡ [] }
    {
        ToSync {
            ops: LateMap::new(alloc),
            alloc,
        }
    }

    /// A Set of no field for each of these keys, on the list's allocator.
    pub fn of_keys(keys: Vec<Key>) -> Result<ToSync, OutOfMemory>
        ensures ops { IfOk result (λ to_sync. (key : Key) → op_at to_sync key ≡ (if is_member (eq_by_cmp key_cmp) keys.items key then Some (op.Set []) else None)) }
        ensures order { IfOk result (λ to_sync. AreOpsInOrder to_sync) }
    {
        let alloc = *keys.allocator();
        let mut ops = LateMap::new(alloc);
        for key in keys {
            ops.insert(key, Op::Set(Fields::new(alloc)))?;
        }
        Ok(ToSync { ops, alloc })
    }

    /// Takes all keys off.
    pub fn forget_all(&mut self)
        ensures { self.new ≡ [] }
    {
        *self = ToSync::new(self.alloc);
    }

    /// Adds what was popped of a key: with a deletion mark a DEL, which takes the place of the operation that is there, and
    /// with fields a SET behind it, which is merged into a Set or a Replace and turns a Del into a Replace.
    pub fn add(&mut self, op: KeyOp) -> Result<(), OutOfMemory>
        ensures ok { OnOk result (self.new ≡ ops_with self.old op) }
        ensures err { OnErr result (self.new ≡ self.old) }
    {
        self.put(op)?;
        Ok(())
    }

    /// The same, which tells whether the key was to sync before.
    pub fn put(&mut self, op: KeyOp) -> Result<bool, OutOfMemory>
        ensures ok { OnOk result (self.new ≡ ops_with self.old op) }
        ensures there { IfOk result (λ there. there ≡ is_some (op_at self.old op.key)) }
        ensures err { OnErr result (self.new ≡ self.old) }
    {
        add(&mut self.ops, op)
    }

    /// The operation of a key: None exactly where the key is not to sync.
    pub fn op(&self, key: &Key) -> Option<&Op>
        ensures { option_map (λ op. op.now) result ≡ op_at self.now key.now }
    {
        self.ops.get(key)
    }

    /// Takes a key's operation off: the key is done.
    pub fn done(&mut self, key: &Key)
        ensures { self.new ≡ without_op self.old key.now }
    {
        self.ops.remove(key);
    }

    /// How many keys there are. What is held is in order, as `AreOpsInOrder` says.
    pub fn len(&self) -> usize
        ensures count { result ≡ length self.now }
        ensures small { result < 2 ^ 63 }
        ensures order { AreOpsInOrder self.now }
    {
        self.ops.len()
    }

    /// The keys, in order.
    pub fn keys(&self) -> Result<Vec<Key>, OutOfMemory>
        ensures keys { IfOk result (λ keys. keys.items ≡ keys_of self.now) }
        ensures rise { IfOk result (λ keys. IsStrictlySortedBy key_cmp keys.items) }
    {
        let mut keys = Vec::with_capacity(self.alloc, self.ops.len())?;
        push_keys(&mut keys, &self.ops)?;
        Ok(keys)
    }

    /// The first key, in key order, behind this one, and the first of all where none is given.
    pub fn next_key(&self, after: Option<&Key>) -> Option<&Key>
        ensures { option_map (λ key. key.now) result ≡ first_in (keys_behind (option_map (λ key. key.now) after.entry) (keys_of self.now)) }
    {
        match after {
            Some(key) => self.key_behind(key),
            None => self.first_key(),
        }
    }

    /// The first key.
    fn first_key(&self) -> Option<&Key>
        ensures { option_map (λ key. key.now) result ≡ first_in (keys_of self.now) }
    {
        match self.ops.first() {
            Some((key, _)) => Some(key),
            None => None,
        }
    }

    /// The first key behind this one.
    fn key_behind(&self, key: &Key) -> Option<&Key>
        ensures { option_map (λ key. key.now) result ≡ first_in (keys_behind (Some key.now) (keys_of self.now)) }
    {
        self.ops.behind(key)
    }
}
