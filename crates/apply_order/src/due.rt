// The steps that are due, with their turns.
ghost use Rattle.std.specs.Prelude.{◌≡◌, ◌++◌, Option, length, IfOk, OnOk};
ghost use Rattle.std.specs.List.Sorted.{IsPermutation, IsSorted};
ghost use Rattle.sai_types.specs.declared.body.Object.{Object};
ghost use Rattle.sai_types.specs.declared.ids.Vid.{Vid};
ghost use Rattle.sai_types.specs.declared.plan.Mode.{Mode};
ghost use Rattle.view_match.specs.Keyed.{AreNaturalKeysOf, AreNewNames};
ghost use Rattle.view_match.specs.Pairs.{new_keys};
ghost use Rattle.view_match.specs.declared.key.NaturalKey.{NaturalKey};
ghost use Rattle.apply_order.specs.Due.{due_steps, entry_number, needed, new_step, new_steps, old_step, old_steps, paired_in};
ghost use Rattle.apply_order.specs.Places.{IsTable, Places, by_new, by_old};
ghost use Rattle.apply_order.specs.Ranks.{timed_cmp};
ghost use Rattle.apply_order.specs.declared.ranks.Timed.{Timed};

use crate::calls::is_needed;
use crate::naming::Names;
use crate::places::{Partners, by_new, by_old, partner};
use crate::ranks::{PlanStep, Timed, make_rank, remove_rank, set_rank};
use sai_types::{Entry, Mode, Object, Rid, Vid};
use std::alloc::Global;
use std::mem::drop;
use swss_types::OutOfMemory;
use view_match::{NaturalKey, NaturalKeys};

/// The steps of a plan that have anything to do, in their order.
pub(crate) fn steps_of(
    alloc: Global,
    mode: Mode,
    names: &Names,
    old: &[Object<Rid>],
    new: &[Object<Vid>],
    pairs: &[(u64, u64)],
    keys: NaturalKeys,
) -> Result<Vec<Timed>, OutOfMemory>
    requires keyed { AreNaturalKeysOf old.now new.now keys }
    ensures { IfOk result (λ steps. IsPermutation (needed names.now old.now new.now (due_steps mode old.now new.now pairs.now)) steps.items × IsSorted timed_cmp steps.items) }
{
    let mut steps = due_steps(alloc, mode, names, old, new, pairs, keys)?;
    steps.sort()?;
    Ok(steps)
}

/// The steps of a plan that have anything to do, in no order.
fn due_steps(
    alloc: Global,
    mode: Mode,
    names: &Names,
    old: &[Object<Rid>],
    new: &[Object<Vid>],
    pairs: &[(u64, u64)],
    keys: NaturalKeys,
) -> Result<Vec<Timed>, OutOfMemory>
    requires keyed { AreNaturalKeysOf old.now new.now keys }
    ensures { IfOk result (λ steps. steps.items ≡ needed names.now old.now new.now (due_steps mode old.now new.now pairs.now)) }
{
    let pairs = paired_in(mode, pairs);
    let mut steps = Vec::with_capacity(alloc, new.len())?;
    let new_places = by_new(alloc, new.len(), pairs)?;
    push_new(mode, names, &new_places, &keys, old, new, &mut steps)?;
    drop(new_places);
    let old_places = by_old(alloc, old.len(), pairs)?;
    push_old(mode, &old_places, keys.of_old, old, &mut steps)?;
    Ok(steps)
}

/// The pairs that a plan keeps: a cold plan keeps none.
fn paired_in(mode: Mode, pairs: &[(u64, u64)]) -> &[(u64, u64)]
    ensures { result.now ≡ paired_in mode pairs.now }
{
    match mode {
        Mode::Hitless => pairs,
        Mode::Cold => &[],
    }
}

/// Puts the steps of the new objects that have anything to do: of these alone the natural keys are made.
fn push_new(
    mode: Mode,
    names: &Names,
    paired: &Partners,
    keys: &NaturalKeys,
    old: &[Object<Rid>],
    new: &[Object<Vid>],
    steps: &mut Vec<Timed>,
) -> Result<(), OutOfMemory>
    requires named { AreNewNames new.now keys.now.new_names }
    requires counted { length paired.now.items ≡ length new.now }
    ensures { OnOk result ((known : Places) → IsTable known paired.now.items → steps.new.items ≡ steps.old.items ++ needed names.now old.now new.now (new_steps mode known (new_keys new.now) new.now 0)) }
{
    let mut place = 0;
    for object in new {
        let at = place as u64;
        let partner = partner(paired, place);
        if is_needed(names, old, new, step_of(at, partner)) {
            let key = keys.of_new(object)?;
            steps.push(new_step(mode, key, object, at, partner))?;
        }
        place += 1;
    }
    Ok(())
}

/// What is done for the new object at a place: it is made where it is not paired, else what differs is set.
fn step_of(place: u64, partner: Option<u64>) -> PlanStep
    ensures { (m : Mode) (key : Option NaturalKey) (n : Object Vid) → result ≡ (new_step m key n place partner).step }
{
    match partner {
        None => PlanStep::Make(place),
        Some(old) => PlanStep::Set(old, place),
    }
}

/// The step of a new object: that with its turn.
fn new_step(
    mode: Mode,
    key: Option<NaturalKey>,
    new: &Object<Vid>,
    place: u64,
    partner: Option<u64>,
) -> Timed
    ensures { result ≡ new_step mode key new.now place partner }
{
    let rank = match partner {
        None => make_rank(mode, &new.body),
        Some(_) => set_rank(&new.body),
    };
    let step = step_of(place, partner);
    Timed {
        rank,
        key,
        id: 0,
        step,
    }
}

/// Puts the steps of the old objects.
fn push_old(
    mode: Mode,
    paired: &Partners,
    keys: Vec<Option<NaturalKey>>,
    old: &[Object<Rid>],
    steps: &mut Vec<Timed>,
) -> Result<(), OutOfMemory>
    requires keyed { length keys.items ≡ length old.now }
    requires counted { length paired.now.items ≡ length old.now }
    ensures { OnOk result ((known : Places) → IsTable known paired.now.items → steps.new.items ≡ steps.old.items ++ old_steps mode known keys.items old.now 0) }
{
    let mut place = 0;
    for key in keys {
        let at = place as u64;
        push_old_step(mode, key, &old[place], at, partner(paired, place), steps)?;
        place += 1;
    }
    Ok(())
}

/// Puts the step of an old object: it is removed where it is not paired.
fn push_old_step(
    mode: Mode,
    key: Option<NaturalKey>,
    old: &Object<Rid>,
    place: u64,
    partner: Option<u64>,
    steps: &mut Vec<Timed>,
) -> Result<(), OutOfMemory>
    ensures { OnOk result (steps.new.items ≡ steps.old.items ++ old_step mode key old.now place partner) }
{
    if partner.is_some() {
        return Ok(());
    }
    steps.push(Timed {
        rank: remove_rank(mode, &old.body),
        key,
        id: entry_number(&old.entry),
        step: PlanStep::Remove(place),
    })?;
    Ok(())
}

/// The number of an entry's identifier, where it has one, else 0.
fn entry_number(entry: &Entry<Rid>) -> u64
    ensures { result ≡ entry_number entry.now }
{
    match entry {
        Entry::Oid(id) => id.0,
        _ => 0,
    }
}
