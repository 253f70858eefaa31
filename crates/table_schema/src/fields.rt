// The fields of a row.
ghost use Rattle.std.specs.Prelude.{◌≡◌, [], ◌==◌, length, IfOk, IfSome, OnOk, OnErr, option_map};
ghost use Rattle.std.specs.Arc.{arc_value};
ghost use Rattle.table_schema.specs.Fields.{HasRisingNames, merged, value_of, with_pair};

use crate::Items;
use crate::own_fields::OwnFields;
use std::alloc::Global;
use std::marker::Model;
use std::mem::replace;
use std::sync::Arc;
use swss_types::{OutOfMemory, Text};

/// Pairs of a name and a value, the names distinct and rising by bytes. A copy shares them with its original until one of
/// the two is changed.
#[derive(Debug, Drop)]
pub struct Fields {
    // none of them where there is no pair
    shared: Option<Arc<OwnFields, Global>>,
    alloc: Global,
}

impl Model for Fields {
    ghost use Rattle.std.specs.Prelude.{List, ℕ};
    ghost use Rattle.table_schema.specs.Held.{pairs_shared};

    ghost Value = { List (List ℕ × List ℕ) };

    ghost view = { λ f. pairs_shared f.shared };
}

impl Fields {
    /// No pair.
    pub fn new(alloc: Global) -> Fields
        ensures { result ≡ [] }
    {
        Fields {
            shared: None,
            alloc,
        }
    }

    /// The fields of pairs in any order: the value of a name is its last one. It is what putting one pair after the other
    /// comes to, in n log n steps. Many pairs whose names rise stay the list that they are.
    pub fn from_pairs(alloc: Global, pairs: Vec<(Text, Text)>) -> Result<Fields, OutOfMemory>
        ensures { IfOk result (λ fields. fields ≡ merged [] pairs.items) }
    {
        let own = OwnFields::from_pairs(alloc, pairs)?;
        Ok(Fields {
            shared: Some(Arc::new(alloc, own)?),
            alloc,
        })
    }

    /// Puts a value under a name, in the place of one that is there.
    pub fn put(&mut self, name: Text, value: Text) -> Result<(), OutOfMemory>
        ensures ok { OnOk result (self.new ≡ with_pair self.old name value) }
        ensures err { OnErr result (self.new ≡ self.old) }
    {
        if let Some(shared) = &mut self.shared {
            return Arc::make_mut(shared)?.put(name, value);
        }
        let own = one_pair(self.alloc, name, value)?;
        drop(replace(&mut self.shared, Some(own)));
        Ok(())
    }

    /// The value under a name: None exactly where there is no such name.
    pub fn get(&self, name: &[u8]) -> Option<&Text>
        ensures { option_map (λ value. value.now) result ≡ value_of name.now self.now }
    {
        match &self.shared {
            Some(own) => own.get(name),
            None => None,
        }
    }

    /// The pairs, where they stand in a list.
    pub(crate) fn listed(&self) -> Option<&[(Text, Text)]>
        ensures { IfSome result (λ pairs. pairs.now ≡ self.now) }
    {
        match &self.shared {
            Some(own) => own.listed(),
            None => None,
        }
    }

    /// The pairs, their names rising.
    pub fn items(&self) -> Items<'_>
        ensures rest { result ≡ self.now }
        ensures names { HasRisingNames self.now }
    {
        match &self.shared {
            Some(own) => own.items(),
            None => Items::none(),
        }
    }

    /// Whether there is no pair.
    pub fn is_empty(&self) -> bool
        ensures { result ≡ (length self.now == 0) }
    {
        match &self.shared {
            Some(own) => own.is_empty(),
            None => true,
        }
    }

    /// Lays other fields over these: the value of a name that both have is then the other's. Each costs a few steps, and
    /// what is laid over nothing costs none.
    pub fn merge(&mut self, other: &Fields) -> Result<(), OutOfMemory>
        ensures ok { OnOk result (self.new ≡ merged self.old other.now) }
        ensures err { OnErr result (self.new ≡ self.old) }
    {
        let Some(shared) = &mut self.shared else {
            *self = other.copy()?.laid_over_none();
            return Ok(());
        };
        match &other.shared {
            Some(own) => Arc::make_mut(shared)?.merge(own),
            None => Ok(()),
        }
    }

    /// These fields laid over none: since their names rise, they stay what they are.
    pub fn laid_over_none(self) -> Fields
        ensures { result ≡ merged [] self }
    {
        // It says that the names rise.
        let _rising = self.items();
        self
    }

    /// The same fields once more. They are shared, so that it costs a few steps, however many they are.
    pub fn copy(&self) -> Result<Fields, OutOfMemory>
        ensures same { IfOk result (λ fields. fields ≡ self.now) }
        ensures names { HasRisingNames self.now }
    {
        // It says that the names rise.
        let _rising = self.items();
        Ok(Fields {
            shared: match &self.shared {
                Some(own) => Some(own.clone()?),
                None => None,
            },
            alloc: self.alloc,
        })
    }
}

/// One pair, to be shared.
fn one_pair(alloc: Global, name: Text, value: Text) -> Result<Arc<OwnFields, Global>, OutOfMemory>
    ensures { IfOk result (λ own. arc_value own ≡ with_pair [] name value) }
{
    let mut own = OwnFields::new(alloc);
    match own.put(name, value) {
        Ok(()) => Ok(Arc::new(alloc, own)?),
        Err(error) => {
            drop(own);
            Err(error)
        }
    }
}
