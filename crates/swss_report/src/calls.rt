// The calls of a round that took effect, as the report lists them.
ghost use Rattle.std.specs.Prelude.{◌≡◌, [], ◌∷◌, ◌-◌, ◌++◌, length, IfOk, OnOk, option_copied};
ghost use Rattle.std.specs.Fmt.{decimal};
ghost use Rattle.sai_chip.specs.Replay.{IsReplayOf};
ghost use Rattle.swss_report.specs.Calls.{about_text, call_lines, calls_text, verb_text};

use crate::chip_line::write_thing;
use crate::counted::write_count;
use sai_chip::{Replay, SimChip};
use sai_types::{Call, Chip, Rid, Thing};
use std::alloc::Global;
use swss_types::{OutOfMemory, write_number};
use table_schema::PortPlan;

/// Follows the chip to its last effect, and gives the lines of the effects on the way.
pub(crate) fn follow_with_lines(
    alloc: Global,
    plan: &PortPlan,
    chip: &SimChip,
    replay: &mut Replay,
) -> Result<Vec<u8>, OutOfMemory>
    ensures lines { IfOk result (λ lines. IsReplayOf replay.old chip.now.effects → lines.items ≡ calls_text plan.now replay.old.at chip.now.effects) }
    ensures followed { IfOk result (λ lines. IsReplayOf replay.old chip.now.effects → IsReplayOf replay.new chip.now.effects × (replay.new.at ≡ length chip.now.effects)) }
{
    let mut lines = Vec::new(alloc);
    write_count(
        &mut lines,
        b"calls ",
        chip.effects().saturating_sub(replay.at()),
    )?;
    write_calls(&mut lines, plan, chip, replay)?;
    Ok(lines)
}

/// Follows the chip to its last effect.
pub(crate) fn follow(chip: &SimChip, replay: &mut Replay) -> Result<(), OutOfMemory>
    ensures { OnOk result (IsReplayOf replay.old chip.now.effects → IsReplayOf replay.new chip.now.effects × (replay.new.at ≡ length chip.now.effects)) }
{
    for _before in replay.at()..chip.effects() {
        replay.follow(chip)?;
    }
    Ok(())
}

/// Follows the chip to its last effect, and appends a line for each effect on the way.
fn write_calls(
    out: &mut Vec<u8>,
    plan: &PortPlan,
    chip: &SimChip,
    replay: &mut Replay,
) -> Result<(), OutOfMemory>
    ensures lines { OnOk result (IsReplayOf replay.old chip.now.effects → out.new.items ≡ out.old.items ++ call_lines plan.now chip.now.effects replay.old.at (length chip.now.effects - replay.old.at)) }
    ensures followed { OnOk result (IsReplayOf replay.old chip.now.effects → IsReplayOf replay.new chip.now.effects × (replay.new.at ≡ length chip.now.effects)) }
{
    for before in replay.at()..chip.effects() {
        let thing = replay.advance(chip)?;
        write_call(out, plan, before + 1, chip.effect(before + 1), thing)?;
    }
    Ok(())
}

/// Appends the line of an effect with this number, and the thing that it was about.
fn write_call(
    out: &mut Vec<u8>,
    plan: &PortPlan,
    number: u64,
    effect: Option<&Call<Rid>>,
    thing: Option<Thing>,
) -> Result<(), OutOfMemory>
    ensures { OnOk result (out.new.items ≡ out.old.items ++ (decimal number ++ verb_text (option_copied effect.entry) ++ about_text plan.now thing ++ 10 ∷ [])) }
{
    write_number(out, number)?;
    out.extend_from_slice(verb(effect))?;
    write_about(out, plan, &thing)?;
    out.push(b'\n')?;
    Ok(())
}

/// Appends the words of the thing that an effect was about, where there is one.
fn write_about(out: &mut Vec<u8>, plan: &PortPlan, thing: &Option<Thing>) -> Result<(), OutOfMemory>
    ensures { OnOk result (out.new.items ≡ out.old.items ++ about_text plan.now thing.now) }
{
    match thing {
        Some(thing) => write_thing(out, plan, thing),
        None => Ok(()),
    }
}

/// The word for what a call did, between blanks.
fn verb(effect: Option<&Call<Rid>>) -> &'static [u8]
    ensures { result.now ≡ verb_text (option_copied effect.entry) }
{
    match effect {
        None => b"",
        Some(Call::Create(_)) => b" create ",
        Some(Call::Set(_, _)) => b" set ",
        Some(Call::Remove(_)) => b" remove ",
    }
}
