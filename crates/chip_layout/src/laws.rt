// What calls do to the things that stand. Each function is a law: it does nothing, and its contract is proved.
ghost use Rattle.std.specs.Prelude.{◌≡◌, ℕ, ◌+◌, true, List, ◌∷◌};
ghost use Rattle.swss_types.specs.declared.vrf.Packet.{Packet};
ghost use Rattle.sai_types.specs.declared.weight.WHop.{WHop};
ghost use Rattle.sai_types.specs.declared.ids.Rid.{Rid};
ghost use Rattle.sai_types.specs.declared.body.Attr.{Attr};
ghost use Rattle.sai_types.specs.declared.body.Body.{Body};
ghost use Rattle.sai_types.specs.declared.body.Call.{Call};
ghost use Rattle.sai_types.specs.declared.body.Call.TheVariants as call;
ghost use Rattle.sai_types.specs.declared.thing.Thing.{Thing};
ghost use Rattle.sai_types.specs.After.{after_call, entry_of};
ghost use Rattle.sai_types.specs.Alike.{IsAlike};
ghost use Rattle.sai_types.specs.Forwarding.{decide, forward};
ghost use Rattle.sai_types.specs.Made.{AreSorted, HaveLanes, IsWhole};
ghost use Rattle.sai_types.specs.Named.{named, those};
ghost use Rattle.sai_types.specs.Objects.{Objects};
ghost use Rattle.sai_types.specs.Refusal.{IsLegal, refusal_of};
ghost use Rattle.chip_layout.specs.Answered.{AreSame, HavePrefixes, HopsAreReached};
ghost use Rattle.chip_layout.specs.Bodies.{IsBody, IsChange};
ghost use Rattle.chip_layout.specs.Grouped.{AreGrouped};
ghost use Rattle.chip_layout.specs.Layout.{Has, HasRoom, IsFree, IsLaidOut, IsUnused, RefersWell, has_number, listed, next_rid, view_of, with_changed, without};
ghost use Rattle.chip_layout.specs.Renamed.{AreRenamed, call_renamed, things_renamed};
ghost use Rattle.chip_layout.specs.Seen.{seen};
ghost use Rattle.sai_types.specs.Names.{name_of};

/// A thing that is free, whose references stand, and for which there is room can be made, and then it stands too.
pub fn made_stands()
    ensures legal { (things : List (Rid × Thing)) (made : ℕ) (objects : Objects) (t : Thing) (b : Body Rid) (capacities : List ℕ) → IsWhole made objects → IsLaidOut (listed things) objects → IsBody (Has (listed things)) t b → IsFree (listed things) t → RefersWell (listed things) t → HasRoom capacities objects t → IsLegal capacities objects (call.Create b) }
    ensures stands { (things : List (Rid × Thing)) (made : ℕ) (objects : Objects) (i : Rid) (t : Thing) (b : Body Rid) → IsWhole made objects → IsLaidOut (listed things) objects → IsBody (Has (listed things)) t b → IsFree (listed things) t → (has_number t ≡ true → i ≡ next_rid made) → IsLaidOut (listed ((i, t) ∷ things)) (after_call (made + 1) objects (call.Create b)) }
{}

/// A thing to which nothing refers can be removed, and then the others stand.
pub fn removed_leaves()
    ensures legal { (things : List (Rid × Thing)) (made : ℕ) (objects : Objects) (i : Rid) (t : Thing) (b : Body Rid) (capacities : List ℕ) → IsWhole made objects → IsLaidOut (listed things) objects → listed things i t → IsBody (Has (listed things)) t b → IsUnused (listed things) (name_of t) → IsLegal capacities objects (call.Remove (entry_of i.0 b)) }
    ensures stands { (things : List (Rid × Thing)) (made : ℕ) (objects : Objects) (i : Rid) (t : Thing) (b : Body Rid) → IsWhole made objects → IsLaidOut (listed things) objects → listed things i t → IsBody (Has (listed things)) t b → IsUnused (listed things) (name_of t) → IsLaidOut (without (listed things) (name_of t)) (after_call (made + 1) objects (call.Remove (entry_of i.0 b))) }
{}

/// An attribute of a thing can be set where the new target of a route stands, and then the changed thing stands.
pub fn set_changes()
    ensures legal { (things : List (Rid × Thing)) (objects : Objects) (i : Rid) (t u : Thing) (b : Body Rid) (a : Attr Rid) (capacities : List ℕ) → IsLaidOut (listed things) objects → listed things i t → IsBody (Has (listed things)) t b → IsChange (Has (listed things)) t a u → IsLegal capacities objects (call.Set (entry_of i.0 b) a) }
    ensures stands { (things : List (Rid × Thing)) (made : ℕ) (objects : Objects) (i : Rid) (t u : Thing) (b : Body Rid) (a : Attr Rid) → IsLaidOut (listed things) objects → listed things i t → IsBody (Has (listed things)) t b → IsChange (Has (listed things)) t a u → IsLaidOut (with_changed (listed things) i u) (after_call (made + 1) objects (call.Set (entry_of i.0 b) a)) }
{}

/// A whole chip is laid out by what it shows itself, leftovers included: each object with what it stands for, and in the
/// place of a group's hops a tag of its own.
pub fn shown_is_laid()
    ensures { (tag : Rid → List WHop) (made : ℕ) (objects : Objects) → ((g h : Rid) → tag g ≡ tag h → g ≡ h) → IsWhole made objects → HaveLanes objects → IsLaidOut (seen tag objects) objects }
{}

/// In each state that legal calls made, where ports have lanes and prefixes are proper, an address has one answer,
/// whatever the order of the objects, and each hop of it has exactly one Ethernet address.
pub fn answers_once()
    ensures decided { (made : ℕ) (objects : Objects) (others : List Thing) (a : Packet) → IsWhole made objects → HaveLanes objects → HavePrefixes objects → AreSame (those (named objects)) others → decide others a ≡ decide (those (named objects)) a }
    ensures forwarded { (made : ℕ) (objects : Objects) (others : List Thing) (a : Packet) → IsWhole made objects → HaveLanes objects → HavePrefixes objects → AreSame (those (named objects)) others → forward others a ≡ forward (those (named objects)) a }
    ensures reached { (made : ℕ) (objects : Objects) (others : List Thing) (a : Packet) → IsWhole made objects → HaveLanes objects → HavePrefixes objects → AreSame (those (named objects)) others → HopsAreReached others (decide others a) }
{}

/// A chip is alike to the things that stand, where each group has all its members.
pub fn stands_alike()
    ensures { (things : List (Rid × Thing)) (made : ℕ) (objects : Objects) → IsWhole made objects → IsLaidOut (listed things) objects → AreGrouped (listed things) → IsAlike objects (view_of (listed things)) }
{}

/// With its identifiers changed one to one, a chip refuses a call for the same reason, or for none as before; and it is
/// laid out by the same things with theirs changed, so it shows the same things, and forwards alike.
pub fn renamed_stands()
    ensures refused { (f : Rid → Rid) (objects others : Objects) (capacities : List ℕ) (c : Call Rid) → AreRenamed f objects others → AreSorted objects → AreSorted others → refusal_of capacities others (call_renamed f c) ≡ refusal_of capacities objects c }
    ensures stands { (f : Rid → Rid) (things : List (Rid × Thing)) (objects others : Objects) → AreRenamed f objects others → IsLaidOut (listed things) objects → IsLaidOut (listed (things_renamed f things)) others }
{}
