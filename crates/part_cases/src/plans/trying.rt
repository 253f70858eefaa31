// Calls that are tried on one chip before they are made on another, or in a view, so that each that is made is legal.
ghost use Rattle.std.specs.Prelude.{◌≡◌, IfOk};
ghost use Rattle.sai_types.specs.ChipState.{IsAnswered};
ghost use Rattle.asic_view.specs.View.{as_rid, entry_at};
ghost use Rattle.chip_layout.specs.Renamed.{call_renamed};
ghost use Rattle.part_cases.specs.Tested.{AreLinked, AreTwins, IsWholeChip, tested_answer};
ghost use Rattle.sai_types.specs.declared.body.Call.TheVariants as call;

use anyhow::{Context, Result, bail};
use asic_view::views_change_as_chips;
use sai_chip::SimChip;
use sai_types::{Body, Call, Chip, ChipAnswer, Entry, Object, Rid, SyncAnswer, Vid};
use std::alloc::Global;
use syncd_core::{ApplyStep, Syncd};
use view_match::as_listed;

/// The VLAN that is made and removed again where an identifier is used up.
const SPARE: u16 = 4094;

/// Makes a call, which is to take effect. It tells the identifier that the call makes, where it makes one.
pub fn make(chip: &mut SimChip, call: &Call<Rid>) -> Result<Option<Rid>>
    ensures { IfOk result (λ made. IsAnswered chip.old call.now (tested_answer made) chip.new) }
{
    match chip.call(call) {
        ChipAnswer::Made(id) => Ok(Some(id)),
        ChipAnswer::Done => Ok(None),
        answer => bail!("{answer:?} to {call:?}"),
    }
}

/// Makes a call on two chips.
pub fn make_both(chip: &mut SimChip, twin: &mut SimChip, call: &Call<Rid>) -> Result<Option<Rid>>
    requires { AreTwins chip.old twin.old }
    ensures { IfOk result (λ made. AreTwins chip.new twin.new) }
{
    let made = make(chip, call)?;
    let _twin = make(twin, call)?;
    Ok(made)
}

/// The call that makes a drawn object, with the numbers that it names as identifiers of a chip.
fn creation(alloc: Global, body: &Body<Vid>) -> Result<Call<Rid>>
    ensures { IfOk result (λ made. made ≡ call_renamed as_rid (call.Create body.now)) }
{
    let object = Object {
        entry: Entry::Oid(Vid(0)),
        body: body.copy()?,
    };
    let named = as_listed(alloc, &[object])?.pop().context("an object")?;
    Ok(Call::Create(named.body))
}

/// Whether objects of this kind have identifiers of the chip.
fn has_id(body: &Body<Vid>) -> bool {
    !matches!(
        body,
        Body::OwnAddress { .. } | Body::Neighbor { .. } | Body::Route { .. }
    )
}

/// Makes a drawn object on two chips. Where its kind has no identifier one is used up, so that the numbers of objects that are
/// drawn and of identifiers agree.
pub fn make_drawn(
    alloc: Global,
    chip: &mut SimChip,
    twin: &mut SimChip,
    body: &Body<Vid>,
) -> Result<()>
    requires { AreTwins chip.old twin.old }
    ensures { IfOk result (λ made. AreTwins chip.new twin.new) }
{
    if make_both(chip, twin, &creation(alloc, body)?)?.is_some() {
        return Ok(());
    }
    let spare = Call::Create(Body::Vlan { vlan: SPARE });
    let made = make_both(chip, twin, &spare)?.context("an identifier")?;
    make_both(chip, twin, &Call::Remove(Entry::Oid(made)))?;
    Ok(())
}

/// Uses up the next identifier of a chip, and leaves the objects as they are.
fn use_up(chip: &mut SimChip) -> Result<()>
    requires { IsWholeChip chip.old }
    ensures whole { IfOk result (λ done. IsWholeChip chip.new) }
    ensures same { IfOk result (λ done. chip.new.objects ≡ chip.old.objects) }
{
    let made = make(chip, &Call::Create(Body::Vlan { vlan: SPARE }))?.context("an identifier")?;
    make(chip, &Call::Remove(Entry::Oid(made)))?;
    Ok(())
}

/// By what an object is named in calls: its key, or where its kind has none its identifier.
fn entry_of(vid: Vid, body: &Body<Vid>) -> Entry<Vid>
    ensures { result ≡ entry_at vid body.now }
{
    match body {
        Body::OwnAddress { vr, ip } => Entry::Own(*vr, *ip),
        Body::Neighbor { rif, ip, .. } => Entry::Neigh(*rif, *ip),
        Body::Route { vr, prefix, .. } => Entry::Route(*vr, *prefix),
        _ => Entry::Oid(vid),
    }
}

/// Makes a drawn object in the temporary view, once it was made on the chip that holds the same, and lists it.
pub fn make_new(
    alloc: Global,
    syncd: &mut Syncd,
    chip: &mut SimChip,
    objects: &mut Vec<Object<Vid>>,
    body: &Body<Vid>,
) -> Result<()>
    requires { AreLinked syncd.old objects.old.items chip.old }
    ensures { IfOk result (λ done. AreLinked syncd.new objects.new.items chip.new) }
{
    views_change_as_chips();
    let made = make(chip, &creation(alloc, body)?)?;
    let answer = syncd.call(chip, &Call::Create(body.copy()?))?;
    match (answer, made) {
        (SyncAnswer::Made(vid), Some(rid)) if vid.0 == rid.0 => {
            objects.push(Object {
                entry: entry_of(vid, body),
                body: body.copy()?,
            })?;
        }
        (SyncAnswer::Done, None) => {
            use_up(chip)?;
            objects.push(Object {
                entry: entry_of(Vid(0), body),
                body: body.copy()?,
            })?;
        }
        _ => bail!("{answer:?} beside {made:?}"),
    }
    Ok(())
}

/// Makes the plan's next call, once it was made on the chip's twin.
pub fn apply_one(syncd: &mut Syncd, chip: &mut SimChip, twin: &mut SimChip) -> Result<ApplyStep>
    requires { AreTwins chip.old twin.old }
    ensures { IfOk result (λ step. AreTwins chip.new twin.new) }
{
    let Some(next) = syncd.next()? else {
        return Ok(ApplyStep::Ended);
    };
    make(twin, &next)?;
    match syncd.apply_one(chip)? {
        ApplyStep::Failed => bail!("failed at {next:?}"),
        step => Ok(step),
    }
}
