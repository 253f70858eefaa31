// The plan from what stands on a chip to a new view.
ghost use Rattle.std.specs.Prelude.{IfOk};
ghost use Rattle.view_match.specs.Keyed.{AreNaturalKeysOf};
ghost use Rattle.apply_order.specs.Planned.{IsPlanOf};

use crate::calls::calls_of;
use crate::due::steps_of;
use crate::naming::{names_if, names_of};
use crate::room::mode_of;
use sai_types::{Caps, Object, Pairing, Plan, Rid, Vid};
use std::alloc::Global;
use swss_types::OutOfMemory;
use view_match::{NaturalKeys, natural_keys_of};

/// The calls that bring a chip with the old objects to the new view. Where of each kind the old objects and the new ones
/// that are not paired number at most the capacity, and each paired interface is in the same virtual router, what is
/// paired stays: the others are made, what differs is set, and what is left over is removed, in an order by which the way
/// of each packet changes at most once. Else all is removed, and then all is made. An old object is named by its
/// identifier on the chip, and a new one by that of the view, unless it is paired and stays.
pub fn plan(
    alloc: Global,
    old: &[Object<Rid>],
    new: &[Object<Vid>],
    pairing: &Pairing,
    caps: &Caps,
) -> Result<Plan, OutOfMemory>
    ensures { IfOk result (λ plan. IsPlanOf old.now new.now pairing.now caps.now.0 plan) }
{
    let keys = natural_keys_of(alloc, old, new)?;
    plan_by(alloc, old, new, pairing, keys, caps)
}

/// The same by the natural keys of the objects, where these are at hand.
pub fn plan_by(
    alloc: Global,
    old: &[Object<Rid>],
    new: &[Object<Vid>],
    pairing: &Pairing,
    keys: NaturalKeys,
    caps: &Caps,
) -> Result<Plan, OutOfMemory>
    requires keyed { AreNaturalKeysOf old.now new.now keys }
    ensures { IfOk result (λ plan. IsPlanOf old.now new.now pairing.now caps.now.0 plan) }
{
    let pairs = pairing.items();
    let named = names_of(alloc, old, new, pairs)?;
    let mode = mode_of(alloc, &named, old, new, pairs, caps)?;
    let names = names_if(alloc, mode, named);
    let steps = steps_of(alloc, mode, &names, old, new, pairs, keys)?;
    let calls = calls_of(alloc, &names, old, new, steps.as_slice())?;
    Ok(Plan { mode, calls })
}
