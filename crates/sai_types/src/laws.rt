// What holds of calls and of the states that they make. Each function is a law: it does nothing, and its contract is
// proved.
ghost use Rattle.std.specs.Prelude.{◌≡◌, ℕ, ◌+◌, Bool, true, false, List, [], Option, Some, None, option_map};
ghost use Rattle.sai_types.specs.declared.ids.Rid.{Rid};
ghost use Rattle.sai_types.specs.declared.body.Attr.{Attr};
ghost use Rattle.sai_types.specs.declared.body.Body.{Body};
ghost use Rattle.sai_types.specs.declared.body.Call.{Call};
ghost use Rattle.sai_types.specs.declared.body.Call.TheVariants as call;
ghost use Rattle.sai_types.specs.declared.body.Entry.{Entry};
ghost use Rattle.sai_types.specs.Objects.{Objects, body_at};
ghost use Rattle.sai_types.specs.Refusal.{IsLegal};
ghost use Rattle.sai_types.specs.After.{after_call, after_calls, entry_of, with_attr};
ghost use Rattle.swss_types.specs.declared.vrf.Packet.{Packet};
ghost use Rattle.sai_types.specs.declared.thing.Thing.{Thing};
ghost use Rattle.sai_types.specs.Decided.{AreRoutes, DecideAlike};
ghost use Rattle.sai_types.specs.Forwarding.{decide};
ghost use Rattle.std.specs.Ordering.{ordering_then};
ghost use Rattle.std.specs.declared.cmp.Ordering.{Ordering};
ghost use Rattle.sai_types.specs.declared.hop.Hop.{Hop};
ghost use Rattle.sai_types.specs.declared.weight.WHop.{WHop};
ghost use Rattle.sai_types.specs.Order.{hop_order, thing_order, whop_order};
ghost use Rattle.sai_types.specs.Made.{AreLegal, AreSorted, HaveLanes, HaveOneEach, IsWhole, entry_named, made_after, made_after_all, same_entry};

use crate::{Hop, Thing, WHop};

/// An object that was made is found under its entry.
pub fn made_is_found()
    ensures { (n : ℕ) (objects : Objects) (b : Body Rid) → body_at (after_call n objects (call.Create b)) (entry_of n b) ≡ Some b }
{}

/// An object is found with what was last set on it.
pub fn set_is_found()
    ensures { (n : ℕ) (objects : Objects) (e : Entry Rid) (a : Attr Rid) → body_at (after_call n objects (call.Set e a)) e ≡ option_map (λ b. with_attr b a) (body_at objects e) }
{}

/// A call leaves the objects that it does not name.
pub fn others_stay()
    ensures { (n : ℕ) (objects : Objects) (c : Call Rid) (e : Entry Rid) → AreSorted objects → same_entry e (entry_named n c) ≡ false → body_at (after_call n objects c) e ≡ body_at objects e }
{}

/// After a removal nothing is found under the entry.
pub fn removed_is_gone()
    ensures { (n : ℕ) (objects : Objects) (e : Entry Rid) → AreSorted objects → body_at (after_call n objects (call.Remove e)) e ≡ None }
{}

/// Every call leaves the entries in order.
pub fn entries_stay_sorted()
    ensures { (n : ℕ) (objects : Objects) (c : Call Rid) → AreSorted objects → AreSorted (after_call n objects c) }
{}

/// An entry names what each equal entry names.
pub fn equal_entries_find_alike()
    ensures { (objects : Objects) (e f : Entry Rid) → same_entry e f ≡ true → body_at objects e ≡ body_at objects f }
{}

/// The empty chip is whole.
pub fn empty_is_whole()
    ensures { IsWhole 0 [] }
{}

/// A legal call leaves a whole state whole: each reference of each object stands, and no two objects clash.
pub fn stays_whole()
    ensures { (capacities : List ℕ) (made : ℕ) (objects : Objects) (c : Call Rid) → IsWhole made objects → IsLegal capacities objects c → IsWhole (made_after made c) (after_call (made + 1) objects c) }
{}

/// Legal calls, one after another, leave a whole state whole.
pub fn calls_keep_whole()
    ensures { (capacities : List ℕ) (made : ℕ) (objects : Objects) (calls : List (Call Rid)) → IsWhole made objects → AreLegal capacities made objects calls → IsWhole (made_after_all made calls) (after_calls made objects calls) }
{}

/// In a whole state in which each port has a lane, two objects that stand for things of one name are one object,
/// but groups and their members.
pub fn keys_are_taken_once()
    ensures { (made : ℕ) (objects : Objects) → IsWhole made objects → HaveLanes objects → HaveOneEach objects }
{}

/// Things decide a packet alike where they hold its address as an own address of its router alike, and the same routes of
/// that router that cover it, in whatever order. So a packet has one answer, and stays decided as it was while no route of
/// its router that covers its address changes.
pub fn decided_by_what_stands()
    ensures { (things others : List Thing) (a : Packet) → AreRoutes others → DecideAlike things others a → decide things a ≡ decide others a }
{}

/// Hops are ordered by what their interfaces stand on, ports before VLANs, and then by address; with their weights, by the
/// hop and then by the weight. Things are ordered by their kinds, as the chip's table has them, then by their natural
/// keys, and then by what else they have: the router of an interface, and what can be set on them.
pub fn hops_and_things_are_ordered()
    ensures hops { (a b : Hop) → ⟦<Hop as Ord>⟧.cmp a b ≡ hop_order a b }
    ensures weighed { (a b : WHop) → ⟦<WHop as Ord>⟧.cmp a b ≡ whop_order a b }
    ensures things { (t u : Thing) → (rest : Ordering) × (⟦<Thing as Ord>⟧.cmp t u ≡ ordering_then (thing_order t u) rest) }
{}
