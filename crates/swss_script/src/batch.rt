// Batches: lists of writes in JSON.
ghost use Rattle.std.specs.Prelude.{◌≡◌, IfOk, option_and_then};
ghost use Rattle.serde_json.specs.Find.{as_object};
ghost use Rattle.serde_json.specs.View.{items_view, members_view, view};
ghost use Rattle.swss_script.specs.Batch.{batch_of, write_in, write_of, writes_of_items};

use crate::Writes;
use crate::fields::set_fields;
use serde_json::{Map, Value};
use std::alloc::Global;
use swss_image::{key_in_word, read_texts};
use swss_types::OutOfMemory;
use table_schema::Write;

/// The writes of a batch, or None where the text is none: a list of objects, each with the member `OP`, which is `SET`
/// or `DEL`, and one that is named by a key and holds an object of strings.
pub fn read_batch(alloc: Global, text: &[u8]) -> Result<Option<Writes>, OutOfMemory>
    ensures { IfOk result (λ writes. writes ≡ batch_of text.now) }
{
    let value = match Value::from_slice(alloc, text) {
        Ok(value) => value,
        Err(error) if error.is_memory() => return Err(OutOfMemory),
        Err(_) => return Ok(None),
    };
    match value {
        Value::Array(elements) => read_elements(alloc, elements),
        _ => Ok(None),
    }
}

/// The writes of a list, or None where one of its elements is none.
fn read_elements(alloc: Global, elements: Vec<Value>) -> Result<Option<Writes>, OutOfMemory>
    ensures { IfOk result (λ writes. writes ≡ writes_of_items (items_view elements.items)) }
{
    let mut writes = Writes::new(alloc);
    for element in elements {
        match read_element(alloc, element)? {
            Some(write) => writes.push(write)?,
            None => return Ok(None),
        }
    }
    Ok(Some(writes))
}

/// The write of an element.
fn read_element(alloc: Global, element: Value) -> Result<Option<Write>, OutOfMemory>
    ensures { IfOk result (λ write. write ≡ option_and_then write_in (as_object (view element))) }
{
    match element {
        Value::Object(members) => read_members(alloc, members),
        _ => Ok(None),
    }
}

/// The write of an object of two members, one of them `OP`.
fn read_members(alloc: Global, members: Map<String, Value>) -> Result<Option<Write>, OutOfMemory>
    ensures { IfOk result (λ write. write ≡ write_in (members_view members.entries)) }
{
    let mut members = members.into_iter();
    let Some((name, value)) = members.next() else {
        return Ok(None);
    };
    let Some((other, another)) = members.next() else {
        return Ok(None);
    };
    if members.next().is_some() {
        return Ok(None);
    }
    if name.as_str() == "OP" {
        read_write(alloc, &value, other.as_str(), another)
    } else if other.as_str() == "OP" {
        read_write(alloc, &another, name.as_str(), value)
    } else {
        Ok(None)
    }
}

/// The write of an operation, of a member's name as its key and of that member's value as its fields.
fn read_write(
    alloc: Global,
    operation: &Value,
    name: &str,
    fields: Value,
) -> Result<Option<Write>, OutOfMemory>
    ensures { IfOk result (λ write. write ≡ write_of (view operation.now) name.now (view fields)) }
{
    let Some(operation) = operation.as_str() else {
        return Ok(None);
    };
    let Some(key) = key_in_word(alloc, name)? else {
        return Ok(None);
    };
    let Value::Object(fields) = fields else {
        return Ok(None);
    };
    let Some(fields) = read_texts(alloc, fields)? else {
        return Ok(None);
    };
    match operation {
        "SET" => Ok(Some(Write::Set(key, set_fields(alloc, fields)?))),
        "DEL" => Ok(Some(Write::Del(key))),
        _ => Ok(None),
    }
}
