// Keys and texts in JSON, as images and batches have them.
ghost use Rattle.std.specs.Prelude.{◌≡◌, IfOk, IfSome, option_map};
ghost use Rattle.serde_json.specs.Find.{as_str};
ghost use Rattle.serde_json.specs.View.{members_view, view};
ghost use Rattle.swss_image.specs.Texts.{key_in_word, texts_in};
ghost use Rattle.table_schema.specs.ProperKey.{IsProperKey};

use serde_json::{Map, Value};
use std::alloc::Global;
use swss_types::{OutOfMemory, Text};
use table_schema::{Key, read_key};

/// The key that a word is, or None where it has no colon.
pub fn key_in_word(alloc: Global, word: &str) -> Result<Option<Key>, OutOfMemory>
    ensures value { IfOk result (λ key. key ≡ key_in_word word.now) }
    ensures proper { IfOk result (λ key. IfSome key IsProperKey) }
{
    if word.as_bytes().contains(&b':') {
        Ok(Some(read_key(alloc, word.as_bytes())?))
    } else {
        Ok(None)
    }
}

/// The names and values of an object, or None where a value is no string.
pub fn read_texts(
    alloc: Global,
    members: Map<String, Value>,
) -> Result<Option<Vec<(Text, Text)>>, OutOfMemory>
    ensures { IfOk result (λ texts. option_map (λ t. t.items) texts ≡ texts_in (members_view members.entries)) }
{
    let mut texts = Vec::new(alloc);
    for (name, value) in members {
        let Some(text) = read_text(alloc, &value)? else {
            return Ok(None);
        };
        texts.push((Text::from_str(alloc, name.as_str())?, text))?;
    }
    Ok(Some(texts))
}

/// The text that a value is, or None where it is no string.
fn read_text(alloc: Global, value: &Value) -> Result<Option<Text>, OutOfMemory>
    ensures { IfOk result (λ text. text ≡ as_str (view value.now)) }
{
    match value.as_str() {
        Some(text) => Ok(Some(Text::from_str(alloc, text)?)),
        None => Ok(None),
    }
}
