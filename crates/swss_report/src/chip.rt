// What stands on the chip, as the report lists it, and what is to stand on it.
ghost use Rattle.std.specs.Prelude.{◌≡◌, ◌++◌, flat_map, IfOk, OnOk};
ghost use Rattle.sai_types.specs.declared.thing.Thing.{Thing};
ghost use Rattle.swss_report.specs.ChipLine.{chip_line};
ghost use Rattle.swss_report.specs.Chip.{Stand, chip_text, things_text, view_text};

use crate::chip_line::write_chip_line;
use crate::counted::write_count;
use sai_chip::{SimChip, named};
use sai_types::Thing;
use std::alloc::Global;
use swss_types::OutOfMemory;
use table_schema::PortPlan;

/// What stands on the chip, in the order of the report.
pub(crate) fn standing(alloc: Global, chip: &SimChip) -> Result<Vec<Thing>, OutOfMemory>
    ensures { IfOk result (λ things. Stand chip.now.objects things.items) }
{
    let objects = chip.objects(alloc)?;
    let things = named(alloc, objects.as_slice())?;
    Ok(things)
}

/// Appends how many things there are, and their lines. An Err may leave a part of it.
pub(crate) fn write_chip(
    out: &mut Vec<u8>,
    plan: &PortPlan,
    things: &[Thing],
) -> Result<(), OutOfMemory>
    ensures { OnOk result (out.new.items ≡ out.old.items ++ chip_text plan.now things.now) }
{
    write_counted(out, b"chip ", plan, things)
}

/// The lines of what is to stand on the chip: how many things there are, and their lines, in the order of the things.
pub fn view_lines(alloc: Global, plan: &PortPlan, things: &[Thing]) -> Result<Vec<u8>, OutOfMemory>
    ensures { IfOk result (λ lines. lines.items ≡ view_text plan.now things.now) }
{
    let mut lines = Vec::new(alloc);
    write_counted(&mut lines, b"view ", plan, things)?;
    Ok(lines)
}

/// Appends behind a word how many things there are, and their lines.
fn write_counted(
    out: &mut Vec<u8>,
    word: &[u8],
    plan: &PortPlan,
    things: &[Thing],
) -> Result<(), OutOfMemory>
    ensures { OnOk result (out.new.items ≡ out.old.items ++ things_text word.now plan.now things.now) }
{
    write_count(out, word, things.len() as u64)?;
    write_things(out, plan, things)
}

/// Appends the lines of things.
fn write_things(out: &mut Vec<u8>, plan: &PortPlan, things: &[Thing]) -> Result<(), OutOfMemory>
    ensures { OnOk result (out.new.items ≡ out.old.items ++ flat_map (λ t. chip_line plan.now t) things.now) }
{
    for thing in things {
        write_chip_line(out, plan, thing)?;
    }
    Ok(())
}
