// The fields of a Set.
ghost use Rattle.std.specs.Prelude.{◌≡◌, IfOk, option_map};
ghost use Rattle.swss_script.specs.Fields.{field_of, fields_of, set_fields};
ghost use Rattle.swss_script.specs.Words.{words_in};

use crate::words::next_word;
use std::alloc::Global;
use swss_types::{OutOfMemory, Text};
use table_schema::Fields;

/// A text of a table with these characters.
pub fn copy_text(alloc: Global, text: &str) -> Result<Text, OutOfMemory>
    ensures { IfOk result (λ copy. copy ≡ text.now) }
{
    Text::from_str(alloc, text)
}

/// The fields that the words are, or None where one of them is no field.
pub fn read_fields(alloc: Global, text: &str) -> Result<Option<Vec<(Text, Text)>>, OutOfMemory>
    ensures { IfOk result (λ fields. option_map (λ f. f.items) fields ≡ fields_of (words_in text.now)) }
{
    let mut fields = Vec::new(alloc);
    let mut left = text;
    while let Some((word, behind)) = next_word(left) {
        match read_field(alloc, word)? {
            Some(field) => fields.push(field)?,
            None => return Ok(None),
        }
        left = behind;
    }
    Ok(Some(fields))
}

/// A name, which is not empty and ends at the first `=`, and a value.
fn read_field(alloc: Global, word: &str) -> Result<Option<(Text, Text)>, OutOfMemory>
    ensures { IfOk result (λ field. field ≡ field_of word.now) }
{
    match word.split_once('=') {
        Some((name, value)) if !name.is_empty() => Ok(Some((
            copy_text(alloc, name)?,
            copy_text(alloc, value)?,
        ))),
        _ => Ok(None),
    }
}

/// What a Set with these fields holds: of equal names the last value, and without a field the field NULL.
pub fn set_fields(alloc: Global, fields: Vec<(Text, Text)>) -> Result<Fields, OutOfMemory>
    ensures { IfOk result (λ set. set ≡ set_fields fields.items) }
{
    if !fields.is_empty() {
        return Fields::from_pairs(alloc, fields);
    }
    let mut set = Fields::new(alloc);
    set.put(copy_text(alloc, "NULL")?, copy_text(alloc, "NULL")?)?;
    Ok(set)
}
