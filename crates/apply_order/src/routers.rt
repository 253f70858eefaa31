// Whether each interface stays in its virtual router.
ghost use Rattle.std.specs.Prelude.{◌≡◌, option_copied};
ghost use Rattle.std.specs.List.{list_all};
ghost use Rattle.apply_order.specs.Routers.{both_stay, is_same_router, pair_stays, stays_in_router};

use crate::attributes::is_old;
use crate::naming::{Names, new_name};
use sai_types::{Body, Object, Rid, Vid};

/// Whether each interface of these pairs stays in its virtual router, by the names of paired objects.
pub(crate) fn keep_routers(
    names: &Names,
    old: &[Object<Rid>],
    new: &[Object<Vid>],
    pairs: &[(u64, u64)],
) -> bool
    ensures { result ≡ list_all (λ p. pair_stays names.now old.now new.now p) pairs.now }
{
    for pair in pairs {
        if !pair_stays(names, old, new, *pair) {
            return false;
        }
    }
    true
}

/// Whether the objects of a pair are in one virtual router, where they are interfaces.
fn pair_stays(names: &Names, old: &[Object<Rid>], new: &[Object<Vid>], pair: (u64, u64)) -> bool
    ensures { result ≡ pair_stays names.now old.now new.now pair }
{
    both_stay(names, old.get(pair.0 as usize), new.get(pair.1 as usize))
}

/// The same of two objects, where both are there.
fn both_stay(names: &Names, old: Option<&Object<Rid>>, new: Option<&Object<Vid>>) -> bool
    ensures { result ≡ both_stay names.now (option_copied old.entry) (option_copied new.entry) }
{
    match (old, new) {
        (Some(old), Some(new)) => stays_in_router(names, &old.body, &new.body),
        _ => true,
    }
}

/// Whether an interface stays in its virtual router; no other object can move.
fn stays_in_router(names: &Names, old: &Body<Rid>, new: &Body<Vid>) -> bool
    ensures { result ≡ stays_in_router names.now old.now new.now }
{
    match (old, new) {
        (Body::Rif { vr: old, .. }, Body::Rif { vr: new, .. }) => {
            is_same_router(names, *old, *new)
        }
        _ => true,
    }
}

/// Whether an old virtual router and a new one are the default one both, or are paired.
fn is_same_router(names: &Names, old: Option<Rid>, new: Option<Vid>) -> bool
    ensures { result ≡ is_same_router names.now old new }
{
    match (old, new) {
        (None, None) => true,
        (Some(old), Some(new)) => is_old(old, new_name(names, new)),
        _ => false,
    }
}
