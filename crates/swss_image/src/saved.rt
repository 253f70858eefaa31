// Rows as the text of their image.
ghost use Rattle.std.specs.Prelude.{◌≡◌, ◌≤◌, false, IfOk, OnOk, Ok, Some, string_bytes};
ghost use Rattle.std.specs.Str.{IsUtf8};
ghost use Rattle.serde_json.specs.Data.{depth, put};
ghost use Rattle.serde_json.specs.Read.{max_depth, read};
ghost use Rattle.serde_json.specs.Written.{compact_text, has_float};
ghost use Rattle.serde_json.specs.View.{members_view, view};
ghost use Rattle.swss_image.specs.Saved.{AreNamed, AreWhole, fields_members, image_data, image_text, row_name, rows_members};
ghost use Rattle.swss_image.specs.Loaded.{image_of};
ghost use Rattle.table_schema.specs.Rows.{HasRisingRows};
ghost use Rattle.table_schema.specs.Fields.{HasRisingNames};

use row_store::Rows;
use serde_json::{Map, Value};
use std::alloc::Global;
use std::str;
use swss_types::{OutOfMemory, Text};
use table_schema::{Fields, Key};

/// The version of the form in which images are written.
pub(crate) const VERSION: u64 = 2;

/// The text of the image of these rows. Where their keys are proper and each has a field, it is loaded as the same rows.
pub fn save(alloc: Global, rows: &Rows) -> Result<Vec<u8>, OutOfMemory>
    ensures text { IfOk result (λ bytes. bytes.items ≡ image_text rows.now) }
    ensures loads { IfOk result (λ bytes. AreWhole rows.now → image_of bytes.items ≡ Ok rows.now) }
{
    let image = image(alloc, rows)?;
    write_image(alloc, &image)
}

/// The text of an image.
fn write_image(alloc: Global, image: &Value) -> Result<Vec<u8>, OutOfMemory>
    ensures text { IfOk result (λ bytes. has_float (view image.now) ≡ false → bytes.items ≡ compact_text (view image.now)) }
    ensures utf8 { IfOk result (λ bytes. IsUtf8 bytes.items) }
    ensures reads_back { IfOk result (λ bytes. depth (view image.now) ≤ max_depth → read bytes.items ≡ Some (view image.now)) }
{
    Ok(image.to_vec(alloc)?)
}

/// The image of these rows.
fn image(alloc: Global, rows: &Rows) -> Result<Value, OutOfMemory>
    ensures value { IfOk result (λ value. view value ≡ image_data rows.now) }
    ensures named { IfOk result (λ value. AreNamed rows.now) }
    ensures rising { IfOk result (λ value. HasRisingRows rows.now) }
{
    let mut members = Map::new(alloc);
    let rows = rows_object(alloc, rows)?;
    put(
        &mut members,
        String::from_str(alloc, "rows")?,
        Value::Object(rows),
    )?;
    put(
        &mut members,
        String::from_str(alloc, "version")?,
        Value::from(VERSION),
    )?;
    Ok(Value::Object(members))
}

/// The members of the object of rows: each row under its written key.
fn rows_object(alloc: Global, rows: &Rows) -> Result<Map<String, Value>, OutOfMemory>
    ensures members { IfOk result (λ members. members_view members.entries ≡ rows_members rows.now) }
    ensures named { IfOk result (λ members. AreNamed rows.now) }
    ensures rising { IfOk result (λ members. HasRisingRows rows.now) }
{
    let mut members = Map::new(alloc);
    for (key, fields) in rows.iter() {
        let name = key_string(alloc, key)?;
        let fields = fields_object(alloc, fields)?;
        put(&mut members, name, Value::Object(fields))?;
    }
    Ok(members)
}

/// A key as it is written.
fn key_string(alloc: Global, key: &Key) -> Result<String, OutOfMemory>
    ensures { IfOk result (λ text. string_bytes text ≡ row_name key.now) }
{
    let mut text = Vec::new(alloc);
    key.write(&mut text)?;
    Ok(String::from_utf8_lossy(alloc, text.as_slice())?)
}

/// The members of the object of a row: each value under its name.
fn fields_object(alloc: Global, fields: &Fields) -> Result<Map<String, Value>, OutOfMemory>
    ensures members { IfOk result (λ members. members_view members.entries ≡ fields_members fields.now) }
    ensures named { IfOk result (λ members. HasRisingNames fields.now) }
{
    let mut members = Map::new(alloc);
    for (name, value) in fields.items() {
        let name = string_of(alloc, name)?;
        let value = string_of(alloc, value)?;
        put(&mut members, name, Value::String(value))?;
    }
    Ok(members)
}

/// A text as a string.
fn string_of(alloc: Global, text: &Text) -> Result<String, OutOfMemory>
    ensures { IfOk result (λ copy. string_bytes copy ≡ text.now) }
{
    match str::from_utf8(text.bytes()) {
        Ok(text) => Ok(String::from_str(alloc, text)?),
        Err(_) => unreachable!(),
    }
}

/// Puts a value under a name, in the place of one that is there.
#[tactic(auto, using(crate::proofs::Members::put_entry))]
fn put(members: &mut Map<String, Value>, name: String, value: Value) -> Result<(), OutOfMemory>
    ensures { OnOk result (members_view members.new.entries ≡ put (string_bytes name) (view value) (members_view members.old.entries)) }
{
    members.insert(name, value)?;
    Ok(())
}
