// How rows are named in their image.
ghost use Rattle.std.specs.Prelude.{◌≡◌};
ghost use Rattle.table_schema.specs.KeyText.{key_text};
ghost use Rattle.table_schema.specs.ProperKey.{IsProperKey};
ghost use Rattle.table_schema.specs.declared.key.Key.{Key};
ghost use Rattle.swss_image.specs.Saved.{row_name};

/// The name of a row whose key is proper is the written key, letter by letter.
pub fn rows_are_named_by_their_keys()
    ensures { (key : Key) → IsProperKey key → row_name key ≡ key_text key }
{}
