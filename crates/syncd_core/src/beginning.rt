// The plan of an apply, and the ties of what stays.
ghost use Rattle.std.specs.Prelude.{◌≡◌, option_copied, slice_get, IfOk, OnErr};
ghost use Rattle.sai_types.specs.Named.{those};
ghost use Rattle.chip_layout.specs.Counted.{AreDistinct};
ghost use Rattle.view_match.specs.Pairs.{new_keys, pairs_of};
ghost use Rattle.apply_order.specs.Planned.{IsPlanOf};
ghost use Rattle.syncd_core.specs.Begun.{objects_listed, tied_entries, tied_in, tied_objects, tied_pairs};

use apply_order::plan_by;
use asic_view::View;
use sai_types::{Caps, Entry, Mode, Object, Plan, Rid, Vid};
use std::alloc::Global;
use swss_types::OutOfMemory;
use view_match::{natural_keys_of, pair_by};

/// Plans the way from the objects of the chip to a view, and ties what stays.
pub(crate) fn begin(
    alloc: Global,
    caps: &Caps,
    listed: &[Object<Rid>],
    view: &mut View,
) -> Result<Plan, OutOfMemory>
    requires { AreDistinct (those (new_keys (objects_listed view.old.objects))) }
    ensures plan { IfOk result (λ plan. IsPlanOf listed.now (objects_listed view.old.objects) (pairs_of listed.now (objects_listed view.old.objects)) caps.now.0 plan) }
    ensures ties { IfOk result (λ plan. view.new.objects ≡ tied_in plan.mode view.old.objects listed.now (objects_listed view.old.objects) (pairs_of listed.now (objects_listed view.old.objects))) }
    ensures err { OnErr result (view.new.objects ≡ view.old.objects) }
{
    let objects = view.objects()?;
    let keys = natural_keys_of(alloc, listed, objects.as_slice())?;
    let pairing = pair_by(alloc, listed, objects.as_slice(), &keys)?;
    let plan = plan_by(alloc, listed, objects.as_slice(), &pairing, keys, caps)?;
    tie_in(plan.mode, view, listed, objects.as_slice(), pairing.items());
    Ok(plan)
}

/// Ties each new object that is paired to the old one, unless the plan makes every object anew.
fn tie_in(
    mode: Mode,
    view: &mut View,
    old: &[Object<Rid>],
    new: &[Object<Vid>],
    pairs: &[(u64, u64)],
)
    ensures { view.new.objects ≡ tied_in mode view.old.objects old.now new.now pairs.now }
{
    match mode {
        Mode::Hitless => tie_pairs(view, old, new, pairs),
        Mode::Cold => {}
    }
}

/// Ties each new object that is paired to the old one.
fn tie_pairs(view: &mut View, old: &[Object<Rid>], new: &[Object<Vid>], pairs: &[(u64, u64)])
    ensures { view.new.objects ≡ tied_pairs view.old.objects old.now new.now pairs.now }
{
    for pair in pairs {
        tie_pair(view, old, new, *pair);
    }
}

/// Ties the new object of a pair to the old one.
fn tie_pair(view: &mut View, old: &[Object<Rid>], new: &[Object<Vid>], pair: (u64, u64))
    ensures { view.new.objects ≡ tied_objects view.old.objects (slice_get old.now pair.0) (slice_get new.now pair.1) }
{
    tie_objects(view, old.get(pair.0 as usize), new.get(pair.1 as usize));
}

/// Ties a new object to an old one, where both are there.
fn tie_objects(view: &mut View, old: Option<&Object<Rid>>, new: Option<&Object<Vid>>)
    ensures { view.new.objects ≡ tied_objects view.old.objects (option_copied old.entry) (option_copied new.entry) }
{
    if let (Some(old), Some(new)) = (old, new) {
        tie_entries(view, &old.entry, &new.entry);
    }
}

/// Ties a new object to an old one, where both have identifiers.
fn tie_entries(view: &mut View, old: &Entry<Rid>, new: &Entry<Vid>)
    ensures { view.new.objects ≡ tied_entries view.old.objects old.now new.now }
{
    if let (Entry::Oid(rid), Entry::Oid(vid)) = (old, new) {
        view.tie(*vid, *rid);
    }
}
