// Laws of keys, rows and plans. The functions do nothing; their contracts are the laws.
ghost use Rattle.std.specs.Prelude.{◌≡◌, ◌≤◌, ◌++◌, [], ◌∷◌, List, ℕ, Ok, Contains};
ghost use Rattle.std.specs.Cmp.{IsTotalOrder};
ghost use Rattle.std.specs.Str.{IsUtf8};
ghost use Rattle.std.proofs.lemmas.Map.Lookups.{CmpEqualImpliesEq};
ghost use Rattle.table_schema.specs.Fields.{HasRisingKeys, HasRisingNames, Pairs, merged, value_of};
ghost use Rattle.table_schema.specs.Hop.{AreRisingRowHops, put_row_hop, row_hop_cmp, row_hop_order};
ghost use Rattle.table_schema.specs.Key.{key_cmp};
ghost use Rattle.table_schema.specs.KeyText.{key_of, key_text};
ghost use Rattle.table_schema.specs.LastValue.{last_value};
ghost use Rattle.table_schema.specs.Names.{names_of};
ghost use Rattle.table_schema.specs.Plan.{IsPlan, Ports, plan_of};
ghost use Rattle.table_schema.specs.ProperKey.{AreProperKeys, IsProperKey, IsReadKey};
ghost use Rattle.table_schema.specs.Rows.{Rows, HasRisingRows, after_write, after_writes, rows_of};
ghost use Rattle.table_schema.specs.Rules.{row_of};
ghost use Rattle.table_schema.specs.declared.key.Key.{Key};
ghost use Rattle.table_schema.specs.declared.row.Row.{Row};
ghost use Rattle.table_schema.specs.declared.row_hop.RowHop.{RowHop};
ghost use Rattle.table_schema.specs.declared.write.Write.{Write};

/// Keys are in a total order, and keys that compare equal are equal.
pub fn keys_are_ordered()
    ensures order { IsTotalOrder key_cmp }
    ensures exact { CmpEqualImpliesEq key_cmp }
{}

/// The hops of rows are ordered by interface and then by address.
pub fn row_hops_are_ordered()
    ensures { (a b : RowHop) → row_hop_cmp a b ≡ row_hop_order a b }
{}

/// Each key that a text is is proper: its written form reads as the key again. So no two proper keys share one. Whatever the
/// bytes are, the parts of their key are in their ranges.
pub fn keys_read_back()
    ensures proper { (text : List ℕ) → IsUtf8 text → Contains text 58 → IsProperKey (key_of text) }
    ensures read { (text : List ℕ) → IsReadKey (key_of text) }
    ensures once { (a b : Key) → IsProperKey a → IsProperKey b → key_text a ≡ key_text b → a ≡ b }
{}

/// What a row of a proper key names are proper keys.
pub fn names_are_proper()
    ensures { (plan : Ports) (key : Key) (fields : Pairs) (row : Row) → IsProperKey key → row_of plan key fields ≡ Ok row → AreProperKeys (names_of key row) }
{}

/// Pairs that are laid one over the other have rising names, and the value of each name is its last one.
pub fn last_values_stay()
    ensures rising { (pairs : Pairs) → HasRisingNames (merged [] pairs) }
    ensures last { (pairs : Pairs) (name : List ℕ) → value_of name (merged [] pairs) ≡ last_value name pairs }
{}

/// A hop more keeps hops rising, and one that is there changes nothing, unless its new weight is greater.
pub fn hops_collapse()
    ensures rising { (hops : List (RowHop × ℕ)) (hop : RowHop) (weight : ℕ) → AreRisingRowHops hops → AreRisingRowHops (put_row_hop hops hop weight) }
    ensures once { (hops : List (RowHop × ℕ)) (hop : RowHop) (weight there : ℕ) → AreRisingRowHops hops → Contains hops (hop, there) → weight ≤ there → put_row_hop hops hop weight ≡ hops }
{}

/// The rows of writes rise by their keys, and one write more is applied to the rows of the others.
pub fn rows_are_a_fold()
    ensures rising { (writes : List Write) → HasRisingRows (rows_of writes) }
    ensures more { (writes : List Write) (write : Write) → rows_of (writes ++ write ∷ []) ≡ after_write (rows_of writes) write }
{}

/// What the lines of a plan read as is a plan.
pub fn plans_are_plans()
    ensures { (lines : List (List ℕ)) (ports : Ports) → plan_of lines ≡ Ok ports → IsPlan ports }
{}
