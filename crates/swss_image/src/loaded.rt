// Rows from the text of their image.
ghost use Rattle.std.specs.Prelude.{◌≡◌, ◌<◌, ◌==◌, [], false, true, length, IfOk, IfSome, None, Some};
ghost use Rattle.serde_json.specs.View.{members_view, view};
ghost use Rattle.swss_image.specs.Loaded.{image_of, image_rows, in_form, in_version, is_routed, is_version, row_fields, rows_in, rows_of_version, version_of, with_members, with_new_row};
ghost use Rattle.swss_image.specs.Saved.{AreWhole};
ghost use Rattle.table_schema.specs.ProperKey.{IsProperKey};

use crate::ImageFault;
use crate::saved::VERSION;
use crate::texts::{key_in_word, read_texts};
use row_store::Rows;
use serde_json::{Map, Value};
use std::alloc::Global;
use swss_types::{OutOfMemory, Vrf};
use table_schema::{Fields, Key};

/// The version of images whose routes in named virtual routers were kept as they were spelled.
const FIRST: u64 = 1;

/// The rows of the image that a text is, or the first of its faults.
pub fn load(alloc: Global, bytes: &[u8]) -> Result<Result<Rows, ImageFault>, OutOfMemory>
    ensures value { IfOk result (λ rows. rows ≡ image_of bytes.now) }
    ensures whole { IfOk result (λ rows. IfOk rows AreWhole) }
{
    match Value::from_slice(alloc, bytes) {
        Ok(value) => load_value(alloc, value),
        Err(error) if error.is_memory() => Err(OutOfMemory),
        Err(_) => Ok(Err(ImageFault::NotJson)),
    }
}

/// The rows of a value: what is wrong with its version comes before what is wrong with its form.
fn load_value(alloc: Global, value: Value) -> Result<Result<Rows, ImageFault>, OutOfMemory>
    ensures value { IfOk result (λ rows. rows ≡ in_version (version_of (view value)) (view value)) }
    ensures whole { IfOk result (λ rows. IfOk rows AreWhole) }
{
    match version_of(&value) {
        Some(version) if !is_version(version) => Ok(Err(ImageFault::BadVersion(version))),
        _ => load_form(alloc, value),
    }
}

/// Whether images have this version.
fn is_version(version: u64) -> bool
    ensures { result ≡ is_version version }
{
    version == FIRST || version == VERSION
}

/// The version of a value, where it is an unsigned whole number.
fn version_of(value: &Value) -> Option<u64>
    ensures { result ≡ version_of (view value.now) }
{
    value.get("version").and_then(Value::as_u64)
}

/// The rows of a value that has the form of an image.
fn load_form(alloc: Global, value: Value) -> Result<Result<Rows, ImageFault>, OutOfMemory>
    ensures value { IfOk result (λ rows. rows ≡ in_form (view value)) }
    ensures whole { IfOk result (λ rows. IfOk rows AreWhole) }
{
    let Value::Object(members) = value else {
        return Ok(Err(ImageFault::BadShape));
    };
    match load_members(alloc, members)? {
        Some(rows) => Ok(Ok(rows)),
        None => Ok(Err(ImageFault::BadShape)),
    }
}

/// The rows of an object of the members `rows` and `version`.
fn load_members(alloc: Global, members: Map<String, Value>) -> Result<Option<Rows>, OutOfMemory>
    ensures value { IfOk result (λ rows. rows ≡ image_rows (members_view members.entries)) }
    ensures whole { IfOk result (λ rows. IfSome rows AreWhole) }
{
    let mut members = members.into_iter();
    let Some((name, rows)) = members.next() else {
        return Ok(None);
    };
    let Some((other, version)) = members.next() else {
        return Ok(None);
    };
    if members.next().is_some() {
        return Ok(None);
    }
    if name.as_str() != "rows" || other.as_str() != "version" {
        return Ok(None);
    }
    load_version(alloc, version.as_u64(), rows)
}

/// The rows of an object in the form of a version.
fn load_version(
    alloc: Global,
    version: Option<u64>,
    rows: Value,
) -> Result<Option<Rows>, OutOfMemory>
    ensures value { IfOk result (λ loaded. loaded ≡ rows_of_version version (view rows)) }
    ensures whole { IfOk result (λ loaded. IfSome loaded AreWhole) }
{
    match version {
        Some(version) if is_version(version) => load_rows(alloc, version == FIRST, rows),
        _ => Ok(None),
    }
}

/// The rows of an object, whose routes in named virtual routers may be spelled twice where spellings are joined.
fn load_rows(alloc: Global, joins: bool, rows: Value) -> Result<Option<Rows>, OutOfMemory>
    ensures value { IfOk result (λ loaded. loaded ≡ rows_in joins (view rows)) }
    ensures whole { IfOk result (λ loaded. IfSome loaded AreWhole) }
{
    match rows {
        Value::Object(members) => load_each(alloc, joins, members),
        _ => Ok(None),
    }
}

/// The rows of members, one after the other.
fn load_each(
    alloc: Global,
    joins: bool,
    members: Map<String, Value>,
) -> Result<Option<Rows>, OutOfMemory>
    ensures value { IfOk result (λ rows. rows ≡ with_members joins (members_view members.entries) []) }
    ensures whole { IfOk result (λ rows. IfSome rows AreWhole) }
{
    let mut rows = Rows::new(alloc);
    for (name, row) in members {
        let Some(key) = key_in_word(alloc, name.as_str())? else {
            return Ok(None);
        };
        let Some(fields) = load_fields(alloc, row)? else {
            return Ok(None);
        };
        if !add_row(&mut rows, joins, &key, &fields)? {
            return Ok(None);
        }
    }
    Ok(Some(rows))
}

/// Adds a row and answers true, or false where its key has one already. Where spellings of one key are joined, a route of a
/// named virtual router has its fields laid over the ones that are there.
fn add_row(rows: &mut Rows, joins: bool, key: &Key, fields: &Fields) -> Result<bool, OutOfMemory>
    ensures added { IfOk result (λ added. added ≡ true → with_new_row joins (Some key.now) (Some fields.now) rows.old ≡ Some rows.new) }
    ensures refused { IfOk result (λ added. added ≡ false → with_new_row joins (Some key.now) (Some fields.now) rows.old ≡ None) }
    ensures whole { IfOk result (λ added. IsProperKey key.now → 0 < length fields.now → AreWhole rows.old → AreWhole rows.new) }
{
    if rows.get(key).is_none() {
        rows.replace(key, fields)?;
        return Ok(true);
    }
    if !joins || !is_routed(key) {
        return Ok(false);
    }
    rows.set(key, fields)?;
    Ok(true)
}

/// Whether a key is that of a route in a named virtual router.
fn is_routed(key: &Key) -> bool
    ensures { result ≡ is_routed key.now }
{
    matches!(key, Key::Route(Vrf::Named(_), _))
}

/// The fields of a row, or None where the value is none.
fn load_fields(alloc: Global, row: Value) -> Result<Option<Fields>, OutOfMemory>
    ensures { IfOk result (λ fields. fields ≡ row_fields (view row)) }
{
    let Value::Object(members) = row else {
        return Ok(None);
    };
    let Some(texts) = read_texts(alloc, members)? else {
        return Ok(None);
    };
    if texts.is_empty() {
        return Ok(None);
    }
    Ok(Some(Fields::from_pairs(alloc, texts)?))
}
