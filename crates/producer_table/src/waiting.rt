// The table of the writes that wait.
ghost use Rattle.std.specs.Prelude.{◌≡◌, ◌⊎◌, ◌↔◌, [], ◌∷◌, take, drop, IsTrue, IfOk, IfSome, IfNone, OnOk, OnErr, option_map, slice_get};
ghost use Rattle.table_schema.specs.declared.write.Write.TheVariants as write;
ghost use Rattle.table_schema.specs.declared.key.Key.{Key};
ghost use Rattle.producer_table.specs.declared.waiting.Pending.{Pending};
ghost use Rattle.producer_table.specs.Pending.{ArePendingInOrder, laid_over, nothing_pending, op_of, ops_of, pending_after};

use crate::KeyOp;
use late_maps::LateMap;
use std::alloc::Global;
use std::marker::Model;
use swss_types::OutOfMemory;
use table_schema::{Fields, Key};

/// What waits of one key.
#[derive(Debug, Drop)]
pub struct Pending {
    /// The deletion mark.
    pub dropped: bool,
    /// The fields that were set, behind the deletion where there is one.
    pub fields: Option<Fields>,
}

/// The writes that wait to be taken out, by key: for each key that was written a deletion mark, and fields. In SONiC's words,
/// a producer table with its temporary fields, its set of keys and its set of deleted keys.
#[derive(Debug, Drop)]
pub struct Waiting {
    keys: LateMap<Key, Pending>,
    alloc: Global,
}

impl Model for Waiting {
    ghost use Rattle.std.specs.Prelude.{List};
    ghost use Rattle.table_schema.specs.declared.key.Key.{Key};
    ghost use Rattle.producer_table.specs.declared.waiting.Pending.{Pending};
    ghost use Rattle.producer_table.specs.Pending.{HaveRisingNames};

    ghost Value = { List (Key × Pending) };

    ghost view = { λ w. w.keys };

    ghost invariant = { λ w. HaveRisingNames w.keys };
}

impl Pending {
    /// Fields that wait alone.
    fn first(fields: Fields) -> Pending
        ensures { result ≡ laid_over nothing_pending fields }
    {
        Pending {
            dropped: false,
            fields: Some(fields.laid_over_none()),
        }
    }

    /// Merges fields into those that wait, later values winning.
    fn lay(&mut self, fields: Fields) -> Result<(), OutOfMemory>
        ensures ok { OnOk result (self.new ≡ laid_over self.old fields) }
        ensures err { OnErr result (self.new ≡ self.old) }
    {
        match &mut self.fields {
            Some(held) => held.merge(&fields),
            None => {
                self.fields = Some(fields.laid_over_none());
                Ok(())
            }
        }
    }
}

/// Merges fields into those that wait of a key.
fn lay(keys: &mut LateMap<Key, Pending>, key: Key, fields: Fields) -> Result<(), OutOfMemory>
    ensures ok { OnOk result (keys.new ≡ pending_after keys.old (write.Set key fields)) }
    ensures err { OnErr result (keys.new ≡ keys.old) }
{
    match keys.get_mut(&key) {
        Some(pending) => pending.lay(fields),
        None => {
            keys.insert(key, Pending::first(fields))?;
            Ok(())
        }
    }
}

impl Waiting {
    /// Nothing waits.
    pub fn new(alloc: Global) -> Waiting
        ensures { result ≡ [] }
    {
        Waiting {
            keys: LateMap::new(alloc),
            alloc,
        }
    }

    /// Lets a Set wait: its fields are merged into those that wait for its key, later values winning, and the key's deletion
    /// mark stays as it is. It takes a logarithm of the keys that wait, and for each field one of the fields.
    pub fn set(&mut self, key: Key, fields: Fields) -> Result<(), OutOfMemory>
        ensures ok { OnOk result (self.new ≡ pending_after self.old (write.Set key fields)) }
        ensures err { OnErr result (self.new ≡ self.old) }
    {
        lay(&mut self.keys, key, fields)
    }

    /// Lets a Del wait: the fields that wait for its key are dropped, and its deletion mark is set.
    pub fn del(&mut self, key: Key) -> Result<(), OutOfMemory>
        ensures ok { OnOk result (self.new ≡ pending_after self.old (write.Del key)) }
        ensures err { OnErr result (self.new ≡ self.old) }
    {
        self.keys.insert(
            key,
            Pending {
                dropped: true,
                fields: None,
            },
        )?;
        Ok(())
    }

    /// Takes out the first keys, at most so many, in key order, each with all that waits of it. It is empty exactly where
    /// nothing waits or none is asked for.
    pub fn pop(&mut self, max: u64) -> Result<Vec<KeyOp>, OutOfMemory>
        ensures first { IfOk result (λ ops. ops.items ≡ ops_of (take max self.old)) }
        ensures rest { OnOk result (self.new ≡ drop max self.old) }
        ensures empty { IfOk result (λ ops. (ops.items ≡ []) ↔ ((self.old ≡ []) ⊎ (max ≡ 0))) }
        ensures err { OnErr result (self.new ≡ self.old) }
    {
        let count = max.min(self.keys.len() as u64) as usize;
        let mut ops = Vec::with_capacity(self.alloc, count)?;
        for _ in 0..count {
            if let Some((key, pending)) = self.keys.pop_first() {
                ops.push(KeyOp {
                    key,
                    dropped: pending.dropped,
                    fields: pending.fields,
                })?;
            }
        }
        Ok(ops)
    }

    /// The first key with what waits of it: None exactly where nothing waits.
    pub fn first(&self) -> Option<(&Key, &Pending)>
        ensures { option_map (λ e. (e.0.now, e.1.now)) result ≡ slice_get self.now 0 }
    {
        self.keys.first()
    }

    /// Takes out the first key with all that waits of it, and no memory: None exactly where nothing waits.
    pub fn pop_first(&mut self) -> Option<KeyOp>
        ensures some { IfSome result (λ op. (e : Key × Pending) × (self.old ≡ e ∷ self.new) × (op ≡ op_of e)) }
        ensures none { IfNone result (self.old ≡ []) }
        ensures same { IfNone result (self.new ≡ []) }
    {
        match self.keys.pop_first() {
            Some((key, pending)) => Some(KeyOp {
                key,
                dropped: pending.dropped,
                fields: pending.fields,
            }),
            None => None,
        }
    }

    /// Whether nothing waits. What waits is in order, as `ArePendingInOrder` says.
    pub fn is_empty(&self) -> bool
        ensures empty { IsTrue result ↔ (self.now ≡ []) }
        ensures order { ArePendingInOrder self.now }
    {
        self.keys.len() == 0
    }
}
