// How a row keeps its fields.
ghost use Rattle.std.specs.Prelude.{◌≡◌, IfOk, OnOk, OnErr, option_map};
ghost use Rattle.table_schema.specs.Fields.{HasRisingNames, restored, value_of, with_pair};
ghost use Rattle.table_schema.specs.Held.{pairs_in};

use crate::few::{copy_pair, find_few, lay_few, put_few, restore_few};
use crate::many::{find_many, restore_many};
use std::alloc::Global;
use std::collections::BTreeMap;
use swss_types::{OutOfMemory, Text};

/// The most pairs of a list into which another one is put.
pub(crate) const FEW: usize = 32;

/// A few pairs, or more that came in order, stand in a list, which takes the room of its pairs. A map takes one more in few
/// steps.
#[derive(Debug, Drop)]
pub(crate) enum Held {
    /// A list of pairs, their names rising.
    Few(Vec<(Text, Text)>),
    /// A map from the names to the values.
    Many(BTreeMap<Text, Text>),
}

impl Held {
    /// The value under a name.
    pub(crate) fn find(&self, alloc: Global, name: &[u8]) -> Option<&Text>
        requires { HasRisingNames (pairs_in self.now) }
        ensures { option_map (λ value. value.now) result ≡ value_of name.now (pairs_in self.now) }
    {
        match self {
            Held::Few(pairs) => find_few(pairs.as_slice(), name),
            Held::Many(pairs) => find_many(alloc, pairs, name),
        }
    }

    /// Puts a value under a name, and answers the one that it replaced.
    pub(crate) fn put(&mut self, name: Text, value: Text) -> Result<Option<Text>, OutOfMemory>
        requires { HasRisingNames (pairs_in self.old) }
        ensures ok { OnOk result (pairs_in self.new ≡ with_pair (pairs_in self.old) name value) }
        ensures was { IfOk result (λ was. was ≡ value_of name (pairs_in self.old)) }
        ensures err { OnErr result (pairs_in self.new ≡ pairs_in self.old) }
    {
        match self {
            Held::Few(pairs) => put_few(pairs, name, value),
            Held::Many(pairs) => Ok(pairs.insert(name, value)?),
        }
    }

    /// Puts a copy of a value under a copy of a name, and answers the value that it replaced.
    pub(crate) fn lay(&mut self, name: &Text, value: &Text) -> Result<Option<Text>, OutOfMemory>
        requires { HasRisingNames (pairs_in self.old) }
        ensures ok { OnOk result (pairs_in self.new ≡ with_pair (pairs_in self.old) name.now value.now) }
        ensures was { IfOk result (λ was. was ≡ value_of name.now (pairs_in self.old)) }
        ensures err { OnErr result (pairs_in self.new ≡ pairs_in self.old) }
    {
        match self {
            Held::Few(pairs) => lay_few(pairs, name, value),
            Held::Many(pairs) => {
                let (name, value) = copy_pair(name, value)?;
                Ok(pairs.insert(name, value)?)
            }
        }
    }

    /// Takes a put under a name back: what stood there stands there again, or nothing.
    pub(crate) fn restore(&mut self, name: &Text, was: Option<Text>)
        requires { HasRisingNames (pairs_in self.old) }
        ensures { pairs_in self.new ≡ restored (pairs_in self.old) name.now was }
    {
        match self {
            Held::Few(pairs) => restore_few(pairs, name, was),
            Held::Many(pairs) => restore_many(pairs, name, was),
        }
    }
}
