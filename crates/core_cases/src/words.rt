// Writes of a line.
ghost use Rattle.std.specs.Prelude.{IfOk};
ghost use Rattle.switch_model.specs.Marks.{written_key};
ghost use Rattle.machine_laws.specs.Reading.{IsOnSwitch};

use anyhow::{Result, bail};
use part_cases::words::{fields, key};
use std::alloc::Global;
use table_schema::Write;

/// The write of a line.
pub fn read_write(alloc: Global, line: &str) -> Result<Write>
    ensures { IfOk result (λ write. IsOnSwitch (written_key write)) }
{
    let words = line.split_whitespace().collect::<Vec<&str>>(alloc)?;
    match words.as_slice() {
        ["set", name, pairs @ ..] if !pairs.is_empty() => {
            let fields = fields(alloc, pairs)?;
            Ok(Write::Set(key(alloc, name)?, fields))
        }
        ["del", name] => Ok(Write::Del(key(alloc, name)?)),
        _ => bail!("a write"),
    }
}
