// The applied rows.
ghost use Rattle.std.specs.Prelude.{◌≡◌, [], None, Some, IsSome, IsTrue, IfOk, OnOk, OnErr, ◌↔◌, option_copied, option_map};
ghost use Rattle.flight_board.specs.Applied.{HasPlace, HasSameRows, KeepsOthers, SetsPlace, place_at, row_at};

use late_maps::LateMap;
use std::alloc::Global;
use std::marker::Model;
use std::mem::{drop, replace};
use swss_types::OutOfMemory;
use table_schema::{Key, Row};

/// The applied row of each key, with places for those of keys whose operations are under way.
#[derive(Drop)]
pub struct AppliedRows {
    rows: LateMap<Key, Option<Row>>,
}

impl Model for AppliedRows {
    ghost use Rattle.flight_board.specs.Applied.{Entries};

    ghost Value = { Entries };

    ghost view = { λ a. a.rows };
}

impl AppliedRows {
    /// No row is applied.
    pub fn new(alloc: Global) -> AppliedRows
        ensures { result ≡ [] }
    {
        AppliedRows {
            rows: LateMap::new(alloc),
        }
    }

    /// The applied row of a key.
    pub fn row(&self, key: &Key) -> Option<&Row>
        ensures { option_map (λ row. row.now) result ≡ row_at self.now key.now }
    {
        match self.place(key) {
            Some(Some(row)) => Some(row),
            _ => None,
        }
    }

    /// The applied row of a key of which it is known whether it has one.
    pub fn known_row(&self, key: &Key, has_row: bool) -> Option<&Row>
        requires { IsTrue has_row ↔ IsSome (row_at self.now key.now) }
        ensures { option_map (λ row. row.now) result ≡ row_at self.now key.now }
    {
        if has_row { self.row(key) } else { None }
    }

    /// Keeps a place for a key's row, and tells whether the key has one.
    pub fn keep_place(&mut self, key: &Key) -> Result<bool, OutOfMemory>
        ensures has { IfOk result (λ has. IsTrue has ↔ IsSome (row_at self.new key.now)) }
        ensures rows { HasSameRows self.old self.new }
        ensures place { OnOk result (HasPlace self.new key.now) }
        ensures others { KeepsOthers key.now self.old self.new }
        ensures err { OnErr result (self.new ≡ self.old) }
    {
        match self.place(key) {
            Some(place) => Ok(place.is_some()),
            None => {
                self.add_place(key)?;
                Ok(false)
            }
        }
    }

    /// Gives up the place of a key that has no row.
    pub fn forget_place(&mut self, key: &Key)
        ensures gone { row_at self.old key.now ≡ None → HasPlace self.new key.now → ⊥ }
        ensures rows { HasSameRows self.old self.new }
        ensures others { KeepsOthers key.now self.old self.new }
    {
        if self.row(key).is_none() {
            self.remove_place(key);
        }
    }

    /// Applies a row of a key, for which there is a place, or none.
    pub fn apply(&mut self, key: &Key, row: Option<Row>)
        requires { HasPlace self.old key.now }
        ensures own { row_at self.new key.now ≡ row }
        ensures others { KeepsOthers key.now self.old self.new }
    {
        match row {
            Some(row) => self.put(key, row),
            None => self.remove_place(key),
        }
    }

    /// What stands in a key's place.
    fn place(&self, key: &Key) -> Option<&Option<Row>>
        ensures { option_copied result ≡ place_at self.now key.now }
    {
        self.rows.get(key)
    }

    /// A key gets a place, without a row.
    #[tactic(auto, using(crate::proofs::Rows::place_put))]
    fn add_place(&mut self, key: &Key) -> Result<(), OutOfMemory>
        ensures ok { OnOk result (SetsPlace key.now (Some None) self.old self.new) }
        ensures err { OnErr result (self.new ≡ self.old) }
    {
        drop(self.rows.insert(key.copy()?, None)?);
        Ok(())
    }

    /// A key has no place any more.
    #[tactic(auto, using(crate::proofs::Rows::place_removed))]
    fn remove_place(&mut self, key: &Key)
        ensures { SetsPlace key.now None self.old self.new }
    {
        // Their number says that the rows are in order.
        let _rows = self.rows.len();
        drop(self.rows.remove(key));
    }

    /// Puts a row in its place.
    #[tactic(auto, using(crate::proofs::Rows::place_set))]
    fn put(&mut self, key: &Key, row: Row)
        requires { HasPlace self.old key.now }
        ensures { SetsPlace key.now (Some (Some row)) self.old self.new }
    {
        match self.rows.get_mut(key) {
            Some(place) => drop(Some(replace(place, Some(row)))),
            None => unreachable!(),
        }
    }
}
