// What holds of the applies of syncd. Each function is a law: it does nothing, and its contract is proved.
ghost use Rattle.std.specs.Prelude.{◌≡◌, ◌↔◌, ℕ, ◌++◌, List, ◌∷◌};
ghost use Rattle.sai_types.specs.declared.ids.Rid.{Rid};
ghost use Rattle.sai_types.specs.declared.ids.Vid.{Vid};
ghost use Rattle.sai_types.specs.declared.body.Call.{Call};
ghost use Rattle.sai_types.specs.declared.body.Object.{Object};
ghost use Rattle.sai_types.specs.declared.plan.Mode.TheVariants as mode;
ghost use Rattle.sai_types.specs.declared.plan.Plan.{Plan};
ghost use Rattle.sai_types.specs.declared.plan.PlanCall.{PlanCall};
ghost use Rattle.sai_types.specs.Refusal.{IsLegal};
ghost use Rattle.chip_layout.specs.Renamed.{call_renamed};
ghost use Rattle.sai_types.specs.declared.thing.Thing.{Thing};
ghost use Rattle.sai_types.specs.After.{after_calls};
ghost use Rattle.sai_types.specs.Alike.{IsAlike, IsIn};
ghost use Rattle.sai_types.specs.Made.{AreLegal};
ghost use Rattle.chip_names.specs.Naming.{entries_of};
ghost use Rattle.plan_laws.specs.Applied.{chip_things};
ghost use Rattle.plan_laws.specs.Steady.{IsHitless, IsOldOrNew, StaysNew};
ghost use Rattle.asic_view.specs.View.{ViewObjects, as_chip, shown_by};
ghost use Rattle.syncd_core.specs.Begun.{Begins, objects_listed};
ghost use Rattle.syncd_core.specs.Synced.{SyncState};
ghost use Rattle.sai_types.specs.declared.plan.Mode.{Mode};
ghost use Rattle.syncd_core.specs.Run.{AreInTime, tied_after, tied_calls};
ghost use Rattle.syncd_core.specs.Tied.{plan_tie, tie_of};
ghost use Rattle.apply_laws.specs.Apply.{IsApply, calls_by};
ghost use Rattle.apply_laws.specs.Viewed.{things_in};
ghost use Rattle.apply_laws.specs.Begun.{IsApplyBegun, IsApplyReady, calls_from, first_ties};

/// Where syncd begins an apply, from the list of a chip that legal calls left and to a view that legal calls made, the plan
/// that it begins with and its ties are of an apply to things that lay out the view: those that a chip with its objects shows.
pub fn begun_applies_are_ready()
    ensures { (made calls : ℕ) (s later : SyncState) (m : Mode) (begun : Begins s m later) → IsApplyReady s.capacities made begun.old calls begun.new → (things : List (Vid × Thing)) × IsApplyBegun s.capacities made begun.old begun.new things begun.plan × ((t : Thing) → IsIn t (things_in things) ↔ IsIn t (chip_things (as_chip begun.new))) × (later.view ≡ first_ties begun.old begun.new begun.plan) × (later.left ≡ begun.plan.calls) }
{}

/// Each call of a plan names what is tied by then, and makes what is not: where nothing of the new view was tied before.
pub fn plans_are_in_time()
    ensures { (capacities : List ℕ) (made : ℕ) (old : List (Object Rid)) (view : ViewObjects) (things : List (Vid × Thing)) (plan : Plan) → IsApplyBegun capacities made old view things plan → AreInTime made (first_ties old view plan) plan.calls }
{}

/// The calls that syncd makes of a plan, each by the ties of its moment, are those of an apply: what they make comes to the
/// identifiers that it is tied to. Each is legal on the chip as those before it left it, and after the last the chip is
/// alike to the new view.
pub fn ties_apply()
    ensures applies { (capacities : List ℕ) (made : ℕ) (old : List (Object Rid)) (view : ViewObjects) (things : List (Vid × Thing)) (plan : Plan) → IsApplyBegun capacities made old view things plan → IsApply capacities made old (objects_listed view) things plan (tie_of (tied_after made (first_ties old view plan) plan.calls)) }
    ensures calls { (capacities : List ℕ) (made : ℕ) (old : List (Object Rid)) (view : ViewObjects) (things : List (Vid × Thing)) (plan : Plan) → IsApplyBegun capacities made old view things plan → calls_from made old view plan ≡ calls_by (tie_of (tied_after made (first_ties old view plan) plan.calls)) plan }
    ensures legal { (capacities : List ℕ) (made : ℕ) (old : List (Object Rid)) (view : ViewObjects) (things : List (Vid × Thing)) (plan : Plan) → IsApplyBegun capacities made old view things plan → AreLegal capacities made (entries_of old) (calls_from made old view plan) }
    ensures alike { (capacities : List ℕ) (made : ℕ) (old : List (Object Rid)) (view : ViewObjects) (things : List (Vid × Thing)) (plan : Plan) → IsApplyBegun capacities made old view things plan → IsAlike (after_calls made (entries_of old) (calls_from made old view plan)) (λ t. IsIn t (things_in things)) }
{}

/// After each call that syncd makes of a hitless plan an address is decided as it was or as in the new view, once as in the
/// new view always so, and what both forward equally is forwarded so.
pub fn hitless_calls_are_steady()
    ensures decided { (capacities : List ℕ) (made : ℕ) (old : List (Object Rid)) (view : ViewObjects) (things : List (Vid × Thing)) (plan : Plan) (front rest : List (Call Rid)) → IsApplyBegun capacities made old view things plan → plan.mode ≡ mode.Hitless → calls_from made old view plan ≡ front ++ rest → IsOldOrNew (chip_things (entries_of old)) (things_in things) (chip_things (after_calls made (entries_of old) front)) }
    ensures stays { (capacities : List ℕ) (made : ℕ) (old : List (Object Rid)) (view : ViewObjects) (things : List (Vid × Thing)) (plan : Plan) (front more rest : List (Call Rid)) → IsApplyBegun capacities made old view things plan → plan.mode ≡ mode.Hitless → calls_from made old view plan ≡ front ++ (more ++ rest) → StaysNew (things_in things) (chip_things (after_calls made (entries_of old) front)) (chip_things (after_calls made (entries_of old) (front ++ more))) }
    ensures forwarded { (capacities : List ℕ) (made : ℕ) (old : List (Object Rid)) (view : ViewObjects) (things : List (Vid × Thing)) (plan : Plan) (front rest : List (Call Rid)) → IsApplyBegun capacities made old view things plan → plan.mode ≡ mode.Hitless → calls_from made old view plan ≡ front ++ rest → IsHitless (chip_things (entries_of old)) (things_in things) (chip_things (after_calls made (entries_of old) front)) }
{}

/// After the last call of an apply the view, by its ties, is the chip: each object of the view is tied to the object of the
/// chip that stands for the same thing, and the chip has no other.
pub fn ties_stand_for_the_chip()
    ensures { (capacities : List ℕ) (made : ℕ) (old : List (Object Rid)) (view : ViewObjects) (things : List (Vid × Thing)) (plan : Plan) → IsApplyBegun capacities made old view things plan → shown_by (tie_of (tied_after made (first_ties old view plan) plan.calls)) (tied_after made (first_ties old view plan) plan.calls) ≡ after_calls made (entries_of old) (calls_from made old view plan) }
{}

/// The next call of a plan, by the ties of its moment, is legal on the chip as the calls before it left it.
pub fn next_calls_are_legal()
    ensures { (capacities : List ℕ) (made : ℕ) (old : List (Object Rid)) (view : ViewObjects) (things : List (Vid × Thing)) (plan : Plan) (front rest : List PlanCall) (next : PlanCall) → IsApplyBegun capacities made old view things plan → plan.calls ≡ front ++ (next ∷ rest) → IsLegal capacities (after_calls made (entries_of old) (tied_calls made (first_ties old view plan) front)) (call_renamed (plan_tie (tied_after made (first_ties old view plan) front)) next.call) }
{}
