// What the changes and the calls of a plan do. Each function is a law: it does nothing, and its contract is proved.
ghost use Rattle.std.specs.Prelude.{◌≡◌, ◌⊎◌, ℕ, ◌+◌, ◌*◌, ◌≤◌, ◌++◌, List, [], length, map, count_by};
ghost use Rattle.sai_types.specs.declared.ids.Rid.{Rid};
ghost use Rattle.sai_types.specs.declared.ids.Vid.{Vid};
ghost use Rattle.sai_types.specs.declared.body.Call.{Call};
ghost use Rattle.sai_types.specs.declared.body.Call.TheVariants as call;
ghost use Rattle.sai_types.specs.declared.body.Entry.{Entry};
ghost use Rattle.sai_types.specs.declared.kind.Kind.{Kind};
ghost use Rattle.sai_types.specs.declared.plan.PlanId.{PlanId};
ghost use Rattle.sai_types.specs.declared.thing.Thing.{Thing};
ghost use Rattle.sai_types.specs.After.{after_calls};
ghost use Rattle.sai_types.specs.Alike.{IsAlike, IsIn};
ghost use Rattle.sai_types.specs.Made.{AreLegal, made_after_all};
ghost use Rattle.sai_types.specs.Names.{ThingName, name_of};
ghost use Rattle.sai_types.specs.Objects.{Objects};
ghost use Rattle.chip_layout.specs.Renamed.{call_renamed};
ghost use Rattle.plan_laws.specs.Applied.{AppliesCold, AppliesHitless, IsColdPlan, IsHitlessPlan, IsListedChip, IsView, chip_things, nothing};
ghost use Rattle.plan_laws.specs.Bounds.{IsUnwanted, makes_kind};
ghost use Rattle.plan_laws.specs.Calls.{PlansChanges, resolve, viewed};
ghost use Rattle.plan_laws.specs.Old.{old_layout, old_things};
ghost use Rattle.plan_laws.specs.Plans.{IsViewPlan, PlanChange, hitless_rank};
ghost use Rattle.plan_laws.specs.Steady.{ForwardsAfter, IsForwarding, IsHitless, IsOldOrNew, StaysNew};
ghost use Rattle.plan_laws.specs.Views.{AreLacking, HaveOwnNames, FitsHitless, HasRoomForPlan};

/// After each change of a hitless plan each address is decided as by the old things or as by the new ones, and once as
/// by the new ones always so. What both forward equally is forwarded so, with the same Ethernet addresses.
pub fn hitless_moves_once()
    ensures decided { (old new now : List Thing) (done due : List PlanChange) → HaveOwnNames old → HaveOwnNames new → IsViewPlan hitless_rank old new (done ++ due) → ForwardsAfter old done now → IsOldOrNew old new now }
    ensures stays { (old new now later : List Thing) (done more due : List PlanChange) → HaveOwnNames old → HaveOwnNames new → IsViewPlan hitless_rank old new (done ++ (more ++ due)) → ForwardsAfter old done now → ForwardsAfter old (done ++ more) later → StaysNew new now later }
    ensures forwarded { (old new now : List Thing) (done due : List PlanChange) → HaveOwnNames old → HaveOwnNames new → IsViewPlan hitless_rank old new (done ++ due) → ForwardsAfter old done now → IsHitless old new now }
{}

/// The calls of the first changes of a hitless plan, on a chip that was listed, leftovers and doubles included, are
/// legal, and after each of them the chip is steady: an address is decided as it was or as in the view, once as in the
/// view always so, and what both forward equally is forwarded so. After the last change the chip is alike to the view.
pub fn hitless_applies()
    ensures legal { (capacities : List ℕ) (made : ℕ) (objects : Objects) (new : List Thing) (todo due : List PlanChange) (calls : List (Call Rid)) → AppliesHitless capacities made objects new todo due calls → AreLegal capacities made objects calls }
    ensures alike { (capacities : List ℕ) (made : ℕ) (objects : Objects) (new : List Thing) (plan : List PlanChange) (calls : List (Call Rid)) → AppliesHitless capacities made objects new plan [] calls → IsAlike (after_calls made objects calls) (λ t. IsIn t new) }
    ensures decided { (capacities : List ℕ) (made : ℕ) (objects : Objects) (new : List Thing) (todo due : List PlanChange) (front rest : List (Call Rid)) → AppliesHitless capacities made objects new todo due (front ++ rest) → IsOldOrNew (chip_things objects) new (chip_things (after_calls made objects front)) }
    ensures stays { (capacities : List ℕ) (made : ℕ) (objects : Objects) (new : List Thing) (todo due : List PlanChange) (front more rest : List (Call Rid)) → AppliesHitless capacities made objects new todo due (front ++ (more ++ rest)) → StaysNew new (chip_things (after_calls made objects front)) (chip_things (after_calls made objects (front ++ more))) }
    ensures forwarded { (capacities : List ℕ) (made : ℕ) (objects : Objects) (new : List Thing) (todo due : List PlanChange) (front rest : List (Call Rid)) → AppliesHitless capacities made objects new todo due (front ++ rest) → IsHitless (chip_things objects) new (chip_things (after_calls made objects front)) }
{}

/// The calls of a cold plan are legal, and after the last of them the chip is alike to the view.
pub fn cold_applies()
    ensures legal { (capacities : List ℕ) (made : ℕ) (objects : Objects) (new : List Thing) (removes makes : List PlanChange) (front rest : List (Call Rid)) → AppliesCold capacities made objects new removes makes front rest → AreLegal capacities made objects (front ++ rest) }
    ensures alike { (capacities : List ℕ) (made : ℕ) (objects : Objects) (new : List Thing) (removes makes : List PlanChange) (front rest : List (Call Rid)) → AppliesCold capacities made objects new removes makes front rest → IsAlike (after_calls made objects (front ++ rest)) (λ t. IsIn t new) }
{}

/// The calls of a plan as they are made up, where old objects have the chip's identifiers and new ones the view's,
/// apply it with the identifiers that they come to.
pub fn named_calls_apply()
    ensures hitless { (capacities : List ℕ) (made : ℕ) (objects : Objects) (new : List Thing) (todo due : List PlanChange) (view : List (Vid × Thing)) (ids : Vid → Rid) (calls : List (Call PlanId)) → IsHitlessPlan capacities made objects new (todo ++ due) → PlansChanges (old_layout objects new) (viewed view) ids made todo calls → AppliesHitless capacities made objects new todo due (map (call_renamed (resolve ids)) calls) }
    ensures cold { (capacities : List ℕ) (made : ℕ) (objects : Objects) (new : List Thing) (removes makes : List PlanChange) (view : List (Vid × Thing)) (ids : Vid → Rid) (front rest : List (Call PlanId)) → IsColdPlan capacities made objects new removes makes → PlansChanges (old_layout objects new) (viewed view) ids made removes front → PlansChanges nothing (viewed view) ids (made_after_all made (map (call_renamed (resolve ids)) front)) makes rest → AppliesCold capacities made objects new removes makes (map (call_renamed (resolve ids)) front) (map (call_renamed (resolve ids)) rest) }
{}

/// Where of each kind the objects and the view's names that the chip does not show number at most the capacity, there is
/// room for all that a hitless plan makes.
pub fn fitting_has_room()
    ensures { (capacities : List ℕ) (made : ℕ) (objects : Objects) (new : List Thing) (plan : List PlanChange) → IsListedChip made objects → IsView new → IsViewPlan hitless_rank (old_things objects new) new plan → FitsHitless capacities objects (chip_things objects) new → HasRoomForPlan capacities objects plan }
{}

/// Of each kind a hitless plan makes at most as many objects as the view has names that the chip does not show, and it
/// removes nothing whose name the view has, but doubles: of several groups of the same hops all but the one with the
/// least identifier, and their members.
pub fn hitless_keeps()
    ensures made { (capacities : List ℕ) (made : ℕ) (objects : Objects) (new : List Thing) (todo due : List PlanChange) (calls : List (Call Rid)) (kind : Kind) → AppliesHitless capacities made objects new todo due calls → (names : List ThingName) × AreLacking (chip_things objects) new kind names × (count_by (makes_kind kind) calls ≡ length names) }
    ensures kept { (capacities : List ℕ) (made : ℕ) (objects : Objects) (new : List Thing) (todo due : List PlanChange) (calls : List (Call Rid)) (e : Entry Rid) → AppliesHitless capacities made objects new todo due calls → IsIn (call.Remove e) calls → IsUnwanted objects new e }
{}

/// A plan has at most one call for each object on the chip and three for each thing of the view.
pub fn plans_are_short()
    ensures hitless { (capacities : List ℕ) (made : ℕ) (objects : Objects) (new : List Thing) (todo due : List PlanChange) (calls : List (Call Rid)) → AppliesHitless capacities made objects new todo due calls → length calls ≤ length objects + 3 * length new }
    ensures cold { (capacities : List ℕ) (made : ℕ) (objects : Objects) (new : List Thing) (removes makes : List PlanChange) (front rest : List (Call Rid)) → AppliesCold capacities made objects new removes makes front rest → length (front ++ rest) ≤ length objects + 3 * length new }
{}

/// After each call of a plan, hitless or cold, whatever the chip shows of routes, own addresses and neighbours it showed before, or
/// the view has it. So no route ever stands that neither the chip that was listed had nor the view has.
pub fn plans_show_old_or_new()
    ensures hitless { (capacities : List ℕ) (made : ℕ) (objects : Objects) (new : List Thing) (todo due : List PlanChange) (front rest : List (Call Rid)) (t : Thing) → AppliesHitless capacities made objects new todo due (front ++ rest) → IsForwarding (name_of t) → IsIn t (chip_things (after_calls made objects front)) → IsIn t (chip_things objects) ⊎ IsIn t new }
    ensures cold { (capacities : List ℕ) (made : ℕ) (objects : Objects) (new : List Thing) (removes makes : List PlanChange) (front rest some more : List (Call Rid)) (t : Thing) → AppliesCold capacities made objects new removes makes front rest → front ++ rest ≡ some ++ more → IsForwarding (name_of t) → IsIn t (chip_things (after_calls made objects some)) → IsIn t (chip_things objects) ⊎ IsIn t new }
{}
