// The fields of a row that one owner may change.
ghost use Rattle.std.specs.Prelude.{◌≡◌, [], ◌==◌, length, IfOk, IfSome, OnOk, OnErr, option_map};
ghost use Rattle.table_schema.specs.Fields.{HasRisingNames, merged, restored, taken_back, value_of, with_pair};

use crate::Items;
use crate::few::{copy_few, have_rising_names};
use crate::held::{FEW, Held};
use crate::many::map_of;
use std::alloc::{AllocError, Global};
use std::marker::Model;
use swss_types::{OutOfMemory, Text};

/// Pairs of a name and a value, the names distinct and rising by bytes, with an owner of their own.
#[derive(Debug, Drop)]
pub(crate) struct OwnFields {
    held: Held,
    alloc: Global,
}

impl Model for OwnFields {
    ghost use Rattle.std.specs.Prelude.{List, ℕ};
    ghost use Rattle.table_schema.specs.Fields.{HasRisingNames};
    ghost use Rattle.table_schema.specs.Held.{pairs_in};

    ghost Value = { List (List ℕ × List ℕ) };

    ghost view = { λ f. pairs_in f.held };

    ghost invariant = { λ f. HasRisingNames (pairs_in f.held) };
}

impl OwnFields {
    /// No pair.
    pub(crate) fn new(alloc: Global) -> OwnFields
        ensures { result ≡ [] }
    {
        OwnFields {
            held: Held::Few(Vec::new(alloc)),
            alloc,
        }
    }

    /// The fields of pairs in any order: the value of a name is its last one. It is what putting one pair after the other
    /// comes to, in n log n steps. Many pairs whose names rise stay the list that they are.
    pub(crate) fn from_pairs(
        alloc: Global,
        pairs: Vec<(Text, Text)>,
    ) -> Result<OwnFields, OutOfMemory>
        ensures { IfOk result (λ fields. fields ≡ merged [] pairs.items) }
    {
        if pairs.len() > FEW && have_rising_names(pairs.as_slice()) {
            return Ok(OwnFields::from_rising(alloc, pairs));
        }
        let room = Vec::with_capacity(alloc, pairs.len().min(FEW))?;
        let mut fields = OwnFields {
            held: Held::Few(room),
            alloc,
        };
        for (name, value) in pairs {
            fields.put(name, value)?;
        }
        Ok(fields)
    }

    /// The fields of pairs whose names rise.
    fn from_rising(alloc: Global, mut pairs: Vec<(Text, Text)>) -> OwnFields
        requires { HasRisingNames pairs.items }
        ensures { result ≡ pairs.items }
    {
        pairs.shrink_to_fit();
        OwnFields {
            held: Held::Few(pairs),
            alloc,
        }
    }

    /// Puts a value under a name, in the place of one that is there.
    pub(crate) fn put(&mut self, name: Text, value: Text) -> Result<(), OutOfMemory>
        ensures ok { OnOk result (self.new ≡ with_pair self.old name value) }
        ensures err { OnErr result (self.new ≡ self.old) }
    {
        self.widen()?;
        self.held.put(name, value)?;
        Ok(())
    }

    /// The value under a name: None exactly where there is no such name.
    pub(crate) fn get(&self, name: &[u8]) -> Option<&Text>
        ensures { option_map (λ value. value.now) result ≡ value_of name.now self.now }
    {
        self.held.find(self.alloc, name)
    }

    /// The pairs, where they stand in a list.
    pub(crate) fn listed(&self) -> Option<&[(Text, Text)]>
        ensures { IfSome result (λ pairs. pairs.now ≡ self.now) }
    {
        match &self.held {
            Held::Few(pairs) => Some(pairs.as_slice()),
            Held::Many(_) => None,
        }
    }

    /// The pairs, their names rising.
    pub(crate) fn items(&self) -> Items<'_>
        ensures rest { result ≡ self.now }
        ensures names { HasRisingNames self.now }
    {
        Items::new(&self.held)
    }

    /// Whether there is no pair.
    pub(crate) fn is_empty(&self) -> bool
        ensures { result ≡ (length self.now == 0) }
    {
        match &self.held {
            Held::Few(pairs) => pairs.is_empty(),
            Held::Many(pairs) => pairs.is_empty(),
        }
    }

    /// Lays other fields over these: the value of a name that both have is then the other's. Each costs a few steps.
    pub(crate) fn merge(&mut self, other: &OwnFields) -> Result<(), OutOfMemory>
        ensures ok { OnOk result (self.new ≡ merged self.old other.now) }
        ensures err { OnErr result (self.new ≡ self.old) }
    {
        let mut laid = Vec::new(self.alloc);
        for (name, value) in other.items() {
            if let Err(error) = self.lay(&mut laid, name, value) {
                self.take_back(laid);
                return Err(error);
            }
        }
        Ok(())
    }

    /// The same fields once more.
    pub(crate) fn copy(&self) -> Result<OwnFields, OutOfMemory>
        ensures same { IfOk result (λ fields. fields ≡ self.now) }
        ensures names { HasRisingNames self.now }
    {
        Ok(OwnFields {
            held: match &self.held {
                Held::Few(pairs) if pairs.len() <= FEW => {
                    Held::Few(copy_few(self.alloc, pairs.as_slice())?)
                }
                _ => Held::Many(map_of(self.alloc, self.items())?),
            },
            alloc: self.alloc,
        })
    }

    /// Goes over to a map where the list is full.
    fn widen(&mut self) -> Result<(), OutOfMemory>
        ensures { self.new ≡ self.old }
    {
        let map = match &self.held {
            Held::Few(pairs) if pairs.len() >= FEW => map_of(self.alloc, self.items())?,
            _ => return Ok(()),
        };
        self.held = Held::Many(map);
        Ok(())
    }

    /// Lays a pair over these, and notes it among those that were laid.
    fn lay<'a>(
        &mut self,
        laid: &mut Vec<(&'a Text, Option<Text>)>,
        name: &'a Text,
        value: &Text,
    ) -> Result<(), OutOfMemory>
        ensures ok { OnOk result (self.new ≡ with_pair self.old name.now value.now) }
        ensures noted { taken_back self.new laid.new.items ≡ taken_back self.old laid.old.items }
    {
        laid.reserve(1)?;
        self.widen()?;
        let was = self.held.lay(name, value)?;
        laid.push((name, was))?;
        Ok(())
    }

    /// Takes back what was laid, the last pair first.
    fn take_back(&mut self, laid: Vec<(&Text, Option<Text>)>)
        ensures { self.new ≡ taken_back self.old laid.entry.items }
    {
        let mut laid = laid;
        while let Some((name, was)) = laid.pop() {
            self.restore(name, was);
        }
    }

    /// Takes a put under a name back: what stood there stands there again, or nothing.
    fn restore(&mut self, name: &Text, was: Option<Text>)
        ensures { self.new ≡ restored self.old name.now was }
    {
        self.held.restore(name, was);
    }
}

impl Clone for OwnFields {
    ghost is_clone = { ◌≡◌ };

    fn clone(&self) -> Result<OwnFields, AllocError> {
        self.copy().map_err(|_| AllocError)
    }
}
