// The rows of the application tables.
ghost use Rattle.std.specs.Prelude.{◌≡◌, [], ◌++◌, length, option_map, IfOk, OnOk, OnErr};
ghost use Rattle.std.specs.BTreeMap.{insert_entry, is_at};
ghost use Rattle.std.specs.List.{fold};
ghost use Rattle.std.specs.Map.{keys_of, remove_entry};
ghost use Rattle.table_schema.specs.Key.{key_cmp};
ghost use Rattle.table_schema.specs.Rows.{HasRisingRows, after_write, fields_at, with_fields};

use late_maps::{Iter, LateMap};
use std::alloc::Global;
use std::marker::Model;
use swss_types::OutOfMemory;
use table_schema::{Fields, Key, Write};

/// Rows by their keys: what a list of writes makes of no row.
#[derive(Debug, Drop)]
pub struct Rows {
    rows: LateMap<Key, Fields>,
    alloc: Global,
}

impl Model for Rows {
    ghost use Rattle.std.specs.Prelude.{List, ℕ};
    ghost use Rattle.table_schema.specs.declared.key.Key.{Key};

    ghost Value = { List (Key × List (List ℕ × List ℕ)) };

    ghost view = { λ r. r.rows };
}

impl Rows {
    /// No row.
    pub fn new(alloc: Global) -> Rows
        ensures { result ≡ [] }
    {
        Rows {
            rows: LateMap::new(alloc),
            alloc,
        }
    }

    /// Lays the fields of a Set over the key's row, later values winning, or takes the row of a Del away.
    pub fn apply(&mut self, write: &Write) -> Result<(), OutOfMemory>
        ensures ok { OnOk result (self.new ≡ after_write self.old write.now) }
        ensures err { OnErr result (self.new ≡ self.old) }
    {
        match write {
            Write::Set(key, fields) => self.set(key, fields),
            Write::Del(key) => {
                self.remove(key);
                Ok(())
            }
        }
    }

    /// Takes a key's row away, if it has one.
    pub fn remove(&mut self, key: &Key)
        ensures { self.new ≡ remove_entry (is_at (key_cmp key.now)) self.old }
    {
        self.rows.remove(key);
    }

    /// Makes these fields the key's row, in the place of the row that it has.
    pub fn replace(&mut self, key: &Key, fields: &Fields) -> Result<(), OutOfMemory>
        ensures ok { OnOk result (self.new ≡ insert_entry key_cmp self.old key.now fields.now) }
        ensures err { OnErr result (self.new ≡ self.old) }
    {
        self.rows.insert(key.copy()?, fields.copy()?)?;
        Ok(())
    }

    /// The fields of a row: None exactly where there is no row of this key.
    pub fn get(&self, key: &Key) -> Option<&Fields>
        ensures { option_map (λ fields. fields.now) result ≡ fields_at self.now key.now }
    {
        self.rows.get(key)
    }

    /// The keys, in order.
    pub fn keys(&self) -> Result<Vec<Key>, OutOfMemory>
        ensures { IfOk result (λ keys. keys.items ≡ keys_of self.now) }
    {
        let mut keys = Vec::with_capacity(self.alloc, self.rows.len())?;
        push_keys(&mut keys, &self.rows)?;
        Ok(keys)
    }

    /// The rows, in key order.
    pub fn iter(&self) -> Iter<'_, Key, Fields>
        ensures rest { result ≡ self.now }
        ensures rising { HasRisingRows self.now }
    {
        self.rows.iter()
    }

    /// How many rows there are.
    pub fn len(&self) -> usize
        ensures count { result ≡ length self.now }
        ensures rising { HasRisingRows self.now }
    {
        self.rows.len()
    }

    /// Lays fields over a key's row, or makes them the row where there is none.
    pub fn set(&mut self, key: &Key, fields: &Fields) -> Result<(), OutOfMemory>
        ensures ok { OnOk result (self.new ≡ with_fields self.old key.now fields.now) }
        ensures err { OnErr result (self.new ≡ self.old) }
    {
        match self.rows.get_mut(key) {
            Some(row) => row.merge(fields),
            None => {
                self.rows.insert(key.copy()?, fields.copy()?)?;
                Ok(())
            }
        }
    }

    /// The same rows once more. Their fields are shared until one of the two is changed.
    pub fn copy(&self) -> Result<Rows, OutOfMemory>
        ensures { IfOk result (λ rows. rows ≡ self.now) }
    {
        let mut rows = Rows::new(self.alloc);
        rows.replace_each(self.iter())?;
        Ok(rows)
    }

    /// Makes each of these rows the row of its key.
    fn replace_each(&mut self, rows: Iter<'_, Key, Fields>) -> Result<(), OutOfMemory>
        ensures { OnOk result (self.new ≡ fold (λ rows row. insert_entry key_cmp rows row.0 row.1) self.old rows.entry) }
    {
        for (key, fields) in rows {
            self.replace(key, fields)?;
        }
        Ok(())
    }
}

/// Appends the keys of a map, in order.
fn push_keys(keys: &mut Vec<Key>, rows: &LateMap<Key, Fields>) -> Result<(), OutOfMemory>
    ensures { OnOk result (keys.new.items ≡ keys.old.items ++ keys_of rows.now) }
{
    for (key, _) in rows.iter() {
        keys.push(key.copy()?)?;
    }
    Ok(())
}
