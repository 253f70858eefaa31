// The rows that wait at a mark.
ghost use Rattle.std.specs.Prelude.{◌≡◌, IfOk};

use crate::Wait;
use std::alloc::Global;
use std::marker::Model;
use std::sync::ArcSlice;
use swss_types::OutOfMemory;
use table_schema::{Key, Row};

/// The keys that wait, in key order, each with its reason and the row that is applied for it, if one is. Marks at which
/// the same keys wait share their list.
#[derive(Debug, Drop)]
pub struct Waits {
    waits: ArcSlice<(Key, Wait, Option<Row>), Global>,
}

impl Model for Waits {
    ghost use Rattle.std.specs.Prelude.{List, Option};
    ghost use Rattle.std.specs.Arc.{arc_slice_items};
    ghost use Rattle.table_schema.specs.declared.key.Key.{Key};
    ghost use Rattle.table_schema.specs.declared.row.Row.{Row};
    ghost use Rattle.switch_model.specs.declared.wait.Wait.{Wait};

    ghost Value = { List (Key × Wait × Option Row) };

    ghost view = { λ w. arc_slice_items w.waits };
}

impl Waits {
    /// The list of these keys.
    pub fn from_vec(waits: Vec<(Key, Wait, Option<Row>)>) -> Result<Waits, OutOfMemory>
        ensures { IfOk result (λ list. list ≡ waits.items) }
    {
        Ok(Waits {
            waits: ArcSlice::from_vec(waits)?,
        })
    }

    /// The same list once more. Nothing of it is copied: both share it.
    pub fn share(&self) -> Result<Waits, OutOfMemory>
        ensures { IfOk result (λ list. list ≡ self.now) }
    {
        Ok(Waits {
            waits: self.waits.clone()?,
        })
    }

    /// The keys with their reasons and applied rows.
    pub fn items(&self) -> &[(Key, Wait, Option<Row>)]
        ensures { result.now ≡ self.now }
    {
        self.waits.as_slice()
    }
}
