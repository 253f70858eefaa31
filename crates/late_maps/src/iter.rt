// The entries of a map that is searched from its greatest key on.
ghost use Rattle.std.specs.Prelude.{length};
ghost use Rattle.std.specs.Iterator.{at_most};
ghost use Rattle.std.specs.Map.Iter.{TakesFirst, deref_pair};

use std::iter::FusedIterator;
use std::marker::Model;
use std::slice;

/// The entries of a map, in rising order of their keys.
#[derive(Drop)]
pub struct Iter<'a, K, V> {
    pub(crate) front: slice::Iter<'a, (K, V)>,
    pub(crate) middle: slice::Iter<'a, Vec<(K, V)>>,
    pub(crate) left: usize,
}

impl<'a, K, V> Model for Iter<'a, K, V> {
    ghost use Rattle.std.specs.Prelude.{◌≡◌, List, length};
    ghost use Rattle.std.specs.Slice.Iter.{iter_rest};
    ghost use Rattle.late_maps.specs.Chunks.{AreFilled, rest_of};

    ghost Value = { List (K × V) };

    ghost view = { λ i. rest_of (iter_rest i.front) (iter_rest i.middle) };

    ghost invariant = { λ i. AreFilled (iter_rest i.middle) × (i.left ≡ length (rest_of (iter_rest i.front) (iter_rest i.middle))) };
}

impl<'a, K, V> Iterator for Iter<'a, K, V> {
    type Item = (&'a K, &'a V);

    ghost next_gives = { TakesFirst deref_pair };

    ghost remaining = { λ s. at_most (length s) };

    fn next(&mut self) -> Option<(&'a K, &'a V)> {
        if let Some(entry) = self.front.next() {
            self.left -= 1;
            return Some((&entry.0, &entry.1));
        }
        if let Some(chunk) = self.middle.next() {
            self.front = chunk.as_slice().iter();
            if let Some(entry) = self.front.next() {
                self.left -= 1;
                return Some((&entry.0, &entry.1));
            }
        }
        None
    }

    fn size_hint(&self) -> (usize, Option<usize>) {
        let len = self.len();
        (len, Some(len))
    }
}

impl<'a, K, V> ExactSizeIterator for Iter<'a, K, V> {
    fn len(&self) -> usize {
        self.left
    }
}

impl<'a, K, V> FusedIterator for Iter<'a, K, V> {}
