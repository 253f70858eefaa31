// When what stands can be kept until the new view stands too.
ghost use Rattle.std.specs.Prelude.{◌≡◌, ◌↔◌, ◌+◌, ◌^◌, ◌<◌, ◌≤◌, ◌==◌, ◌&&◌, [], length, slice_index, true, IfOk, if◌then◌else◌};
ghost use Rattle.std.specs.List.{list_all};
ghost use Rattle.sai_types.specs.declared.kind.Kind.{Kind};
ghost use Rattle.sai_types.specs.Objects.{kind_of, level};
ghost use Rattle.sai_types.specs.Refusal.{capacity_of};
ghost use Rattle.apply_order.specs.Naming.{names_from};
ghost use Rattle.apply_order.specs.Places.{IsTable, Places};
ghost use Rattle.apply_order.specs.Room.{FitTogether, has_room, is_lacking, lacking_from, old_count};
ghost use Rattle.apply_order.specs.Routers.{KeepRouters};

use crate::naming::Names;
use crate::places::{Partners, by_new, partner};
use crate::routers::keep_routers;
use sai_types::{Caps, KINDS, Kind, KindCounts, Mode, Object, Rid, Vid};
use std::alloc::Global;
use swss_types::OutOfMemory;

/// The mode of a plan: hitless where there is room and each interface stays in its virtual router.
pub(crate) fn mode_of(
    alloc: Global,
    names: &Names,
    old: &[Object<Rid>],
    new: &[Object<Vid>],
    pairs: &[(u64, u64)],
    caps: &Caps,
) -> Result<Mode, OutOfMemory>
    requires named { names.now ≡ names_from [] old.now new.now pairs.now }
    ensures { IfOk result (λ mode. (mode ≡ Mode.Hitless) ↔ (FitTogether caps.now.0 old.now new.now pairs.now × KeepRouters old.now new.now pairs.now)) }
{
    let paired = by_new(alloc, new.len(), pairs)?;
    let room = fits(&paired, old, new, caps);
    let kept = keep_routers(names, old, new, pairs);
    Ok(mode_if(room, kept))
}

/// The mode of a plan, by whether there is room and whether each interface is kept in its virtual router.
fn mode_if(room: bool, kept: bool) -> Mode
    ensures { (result ≡ Mode.Hitless) ↔ ((room && kept) ≡ true) }
{
    if room && kept {
        Mode::Hitless
    } else {
        Mode::Cold
    }
}

/// Whether there is room for the old objects of each kind and the new ones that are not paired.
fn fits(paired: &Partners, old: &[Object<Rid>], new: &[Object<Vid>], caps: &Caps) -> bool
    requires counted { length paired.now.items ≡ length new.now }
    ensures { (known : Places) → IsTable known paired.now.items → (result ≡ true) ↔ ((kind : Kind) → old_count kind old.now + lacking_from kind known new.now 0 ≤ capacity_of caps.now.0 kind) }
{
    have_room(&Kind::ALL, &held(old), &lacking(paired, new), caps)
}

/// Whether there is room for so many objects that are held and so many that are lacking, for each of these kinds.
fn have_room(kinds: &[Kind], held: &KindCounts, lacking: &KindCounts, caps: &Caps) -> bool
    ensures { result ≡ list_all (λ kind. has_room caps.now.0 held.now lacking.now kind) kinds.now }
{
    for kind in kinds {
        if !has_room(*kind, held, lacking, caps) {
            return false;
        }
    }
    true
}

/// Whether there is room for the objects of one kind.
fn has_room(kind: Kind, held: &KindCounts, lacking: &KindCounts, caps: &Caps) -> bool
    ensures { result ≡ has_room caps.now.0 held.now lacking.now kind }
{
    let place = kind.index();
    let room = caps.0[place];
    held[place] <= room && lacking[place] <= room - held[place]
}

/// How many old objects there are of each kind.
fn held(old: &[Object<Rid>]) -> KindCounts
    ensures { (kind : Kind) → slice_index result (level kind) ≡ old_count kind old.now }
{
    let mut counts = [0; KINDS];
    for object in old {
        raise(&mut counts, object.body.kind());
    }
    counts
}

/// How many new objects of each kind are not paired.
fn lacking(paired: &Partners, new: &[Object<Vid>]) -> KindCounts
    requires counted { length paired.now.items ≡ length new.now }
    ensures { (known : Places) → IsTable known paired.now.items → (kind : Kind) → slice_index result (level kind) ≡ lacking_from kind known new.now 0 }
{
    let mut counts = [0; KINDS];
    let mut place = 0;
    for object in new {
        raise_lacking(&mut counts, object, partner(paired, place));
        place += 1;
    }
    counts
}

/// One more of a new object's kind, where it is not paired.
fn raise_lacking(counts: &mut KindCounts, new: &Object<Vid>, partner: Option<u64>)
    requires { slice_index counts.old (level (kind_of new.now.body)) + 1 < 2 ^ 64 }
    ensures { (k : Kind) → slice_index counts.new (level k) ≡ slice_index counts.old (level k) + (if is_lacking k new.now partner then 1 else 0) }
{
    if partner.is_none() {
        raise(counts, new.body.kind());
    }
}

/// One more of a kind.
fn raise(counts: &mut KindCounts, kind: Kind)
    requires { slice_index counts.old (level kind) + 1 < 2 ^ 64 }
    ensures { (k : Kind) → slice_index counts.new (level k) ≡ slice_index counts.old (level k) + (if level kind == level k then 1 else 0) }
{
    let place = kind.index();
    counts[place] += 1;
}
