// The pairs of a row, one after the other.
ghost use Rattle.std.specs.Prelude.{◌≡◌, [], length};
ghost use Rattle.std.specs.Iterator.{at_most};
ghost use Rattle.std.specs.Map.Iter.{TakesFirst, deref_pair};
ghost use Rattle.table_schema.specs.Held.{pairs_in};

use crate::held::Held;
use std::collections::btree_map;
use std::marker::Model;
use std::slice;
use swss_types::Text;

/// The pairs of a row that are left, their names rising.
#[derive(Drop)]
pub struct Items<'a> {
    left: Left<'a>,
}

/// The pairs that are left in a list or in a map.
#[derive(Drop)]
enum Left<'a> {
    Few(slice::Iter<'a, (Text, Text)>),
    Many(btree_map::Iter<'a, Text, Text>),
}

impl<'a> Model for Items<'a> {
    ghost use Rattle.std.specs.Prelude.{List, ℕ};
    ghost use Rattle.table_schema.specs.Held.{pairs_left};

    ghost Value = { List (List ℕ × List ℕ) };

    ghost view = { λ i. pairs_left i.left };
}

impl<'a> Items<'a> {
    /// No pair.
    pub(crate) fn none() -> Items<'a>
        ensures { result ≡ [] }
    {
        Items {
            left: Left::Few([].iter()),
        }
    }

    pub(crate) fn new(held: &'a Held) -> Items<'a>
        ensures { result ≡ pairs_in held.now }
    {
        Items {
            left: match held {
                Held::Few(pairs) => Left::Few(pairs.iter()),
                Held::Many(pairs) => Left::Many(pairs.iter()),
            },
        }
    }
}

impl<'a> Iterator for Items<'a> {
    type Item = (&'a Text, &'a Text);

    ghost next_gives = { TakesFirst deref_pair };

    ghost remaining = { λ s. at_most (length s) };

    fn next(&mut self) -> Option<(&'a Text, &'a Text)> {
        match &mut self.left {
            Left::Few(pairs) => {
                let pair = pairs.next()?;
                Some((&pair.0, &pair.1))
            }
            Left::Many(pairs) => pairs.next(),
        }
    }

    fn size_hint(&self) -> (usize, Option<usize>) {
        let len = self.len();
        (len, Some(len))
    }
}

impl<'a> ExactSizeIterator for Items<'a> {
    fn len(&self) -> usize {
        match &self.left {
            Left::Few(pairs) => pairs.len(),
            Left::Many(pairs) => pairs.len(),
        }
    }
}
