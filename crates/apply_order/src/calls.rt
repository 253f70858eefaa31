// The calls of a plan's steps.
ghost use Rattle.std.specs.Prelude.{◌≡◌, ◌++◌, IfOk, OnOk, option_copied};
ghost use Rattle.apply_order.specs.Attributes.{is_any};
ghost use Rattle.apply_order.specs.Calls.{both_calls, is_needed, made_id, make_calls, remove_calls, step_calls, steps_calls};

use crate::attributes::{differs, push_sets};
use crate::naming::{Names, new_body, old_entry};
use crate::ranks::{PlanStep, Timed};
use sai_types::{Call, Entry, Object, PlanCall, PlanCalls, Rid, Vid};
use std::alloc::Global;
use swss_types::OutOfMemory;

/// The calls of steps, in their order.
pub(crate) fn calls_of(
    alloc: Global,
    names: &Names,
    old: &[Object<Rid>],
    new: &[Object<Vid>],
    steps: &[Timed],
) -> Result<PlanCalls, OutOfMemory>
    ensures { IfOk result (λ calls. calls ≡ steps_calls names.now old.now new.now steps.now) }
{
    let mut calls = PlanCalls::new(alloc);
    for timed in steps {
        push_step(names, &mut calls, old, new, timed.step)?;
    }
    Ok(calls)
}

/// Puts the calls of a step.
fn push_step(
    names: &Names,
    calls: &mut PlanCalls,
    old: &[Object<Rid>],
    new: &[Object<Vid>],
    step: PlanStep,
) -> Result<(), OutOfMemory>
    ensures { OnOk result (calls.new ≡ calls.old ++ step_calls names.now old.now new.now step) }
{
    match step {
        PlanStep::Make(place) => push_make(names, calls, new.get(place as usize)),
        PlanStep::Set(from, to) => push_both(
            names,
            calls,
            old.get(from as usize),
            new.get(to as usize),
        ),
        PlanStep::Remove(place) => push_remove(calls, old.get(place as usize)),
    }
}

/// Whether a step has anything to do: one that sets what differs has not where nothing does.
pub(crate) fn is_needed(
    names: &Names,
    old: &[Object<Rid>],
    new: &[Object<Vid>],
    step: PlanStep,
) -> bool
    ensures { result ≡ is_needed names.now old.now new.now step }
{
    match step {
        PlanStep::Set(from, to) => both_differ(names, old.get(from as usize), new.get(to as usize)),
        _ => true,
    }
}

fn both_differ(names: &Names, old: Option<&Object<Rid>>, new: Option<&Object<Vid>>) -> bool
    ensures { result ≡ is_any (both_calls names.now (option_copied old.entry) (option_copied new.entry)) }
{
    match (old, new) {
        (Some(old), Some(new)) => differs(names, old, new),
        _ => false,
    }
}

fn push_make(
    names: &Names,
    calls: &mut PlanCalls,
    new: Option<&Object<Vid>>,
) -> Result<(), OutOfMemory>
    ensures { OnOk result (calls.new ≡ calls.old ++ make_calls names.now (option_copied new.entry)) }
{
    match new {
        Some(new) => calls.push(PlanCall {
            call: Call::Create(new_body(names, &new.body)?),
            makes: made_id(&new.entry),
        }),
        None => Ok(()),
    }
}

fn push_both(
    names: &Names,
    calls: &mut PlanCalls,
    old: Option<&Object<Rid>>,
    new: Option<&Object<Vid>>,
) -> Result<(), OutOfMemory>
    ensures { OnOk result (calls.new ≡ calls.old ++ both_calls names.now (option_copied old.entry) (option_copied new.entry)) }
{
    match (old, new) {
        (Some(old), Some(new)) => push_sets(names, calls, old, new),
        _ => Ok(()),
    }
}

fn push_remove(calls: &mut PlanCalls, old: Option<&Object<Rid>>) -> Result<(), OutOfMemory>
    ensures { OnOk result (calls.new ≡ calls.old ++ remove_calls (option_copied old.entry)) }
{
    match old {
        Some(old) => calls.push(PlanCall {
            call: Call::Remove(old_entry(&old.entry)),
            makes: None,
        }),
        None => Ok(()),
    }
}

/// The identifier that a call makes, where it makes one.
fn made_id(entry: &Entry<Vid>) -> Option<Vid>
    ensures { result ≡ made_id entry.now }
{
    match entry {
        Entry::Oid(id) => Some(*id),
        _ => None,
    }
}
