// The rows of the tables, as the report lists them.
ghost use Rattle.std.specs.Prelude.{◌≡◌, ◌++◌, flat_map, OnOk};
ghost use Rattle.table_schema.specs.KeyText.{key_text};
ghost use Rattle.swss_report.specs.Escaped.{escaped};
ghost use Rattle.swss_report.specs.Tables.{field_text, row_line, tables_text};

use crate::counted::write_count;
use crate::escaped::write_escaped;
use row_store::Rows;
use std::alloc::Global;
use swss_types::{OutOfMemory, Text};
use table_schema::{Fields, Key};

/// Appends how many rows there are, and their lines in key order. An Err may leave a part of it.
pub(crate) fn write_tables(alloc: Global, out: &mut Vec<u8>, rows: &Rows) -> Result<(), OutOfMemory>
    ensures { OnOk result (out.new.items ≡ out.old.items ++ tables_text rows.now) }
{
    write_count(out, b"tables ", rows.len() as u64)?;
    write_rows(alloc, out, rows)
}

/// Appends the lines of rows.
fn write_rows(alloc: Global, out: &mut Vec<u8>, rows: &Rows) -> Result<(), OutOfMemory>
    ensures { OnOk result (out.new.items ≡ out.old.items ++ flat_map row_line rows.now) }
{
    for (key, fields) in rows.iter() {
        write_row(alloc, out, key, fields)?;
    }
    Ok(())
}

/// Appends the line of a row.
fn write_row(
    alloc: Global,
    out: &mut Vec<u8>,
    key: &Key,
    fields: &Fields,
) -> Result<(), OutOfMemory>
    ensures { OnOk result (out.new.items ≡ out.old.items ++ row_line (key.now, fields.now)) }
{
    write_key(alloc, out, key)?;
    write_fields(out, fields)?;
    out.push(b'\n')?;
    Ok(())
}

/// Appends a written key, with escapes. An Err may leave a part of it.
pub(crate) fn write_key(alloc: Global, out: &mut Vec<u8>, key: &Key) -> Result<(), OutOfMemory>
    ensures { OnOk result (out.new.items ≡ out.old.items ++ escaped (key_text key.now)) }
{
    if let Key::Other(text) = key {
        return write_escaped(out, text.bytes());
    }
    let mut text = Vec::new(alloc);
    key.write(&mut text)?;
    write_escaped(out, text.as_slice())
}

/// Appends fields.
fn write_fields(out: &mut Vec<u8>, fields: &Fields) -> Result<(), OutOfMemory>
    ensures { OnOk result (out.new.items ≡ out.old.items ++ flat_map field_text fields.now) }
{
    for (name, value) in fields.items() {
        write_field(out, name, value)?;
    }
    Ok(())
}

/// Appends a field behind a blank.
fn write_field(out: &mut Vec<u8>, name: &Text, value: &Text) -> Result<(), OutOfMemory>
    ensures { OnOk result (out.new.items ≡ out.old.items ++ field_text (name.now, value.now)) }
{
    out.push(b' ')?;
    write_escaped(out, name.bytes())?;
    out.push(b'=')?;
    write_escaped(out, value.bytes())
}
