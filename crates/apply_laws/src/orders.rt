// What the plan of two views does. Each function is a law: it does nothing, and its contract is proved.
ghost use Rattle.std.specs.Prelude.{◌≡◌, ◌↔◌, ◌⊎◌, ℕ, ◌+◌, ◌*◌, ◌≤◌, ◌++◌, List, [], length, map, count_by};
ghost use Rattle.sai_types.specs.declared.ids.Rid.{Rid};
ghost use Rattle.sai_types.specs.declared.ids.Vid.{Vid};
ghost use Rattle.sai_types.specs.declared.body.Call.{Call};
ghost use Rattle.sai_types.specs.declared.body.Object.{Object};
ghost use Rattle.sai_types.specs.declared.plan.Mode.TheVariants as mode;
ghost use Rattle.sai_types.specs.declared.plan.Plan.{Plan};
ghost use Rattle.sai_types.specs.declared.plan.PlanId.{PlanId};
ghost use Rattle.sai_types.specs.declared.thing.Thing.{Thing};
ghost use Rattle.sai_types.specs.After.{after_calls};
ghost use Rattle.sai_types.specs.Alike.{IsAlike, IsIn};
ghost use Rattle.sai_types.specs.Made.{AreLegal, made_after_all};
ghost use Rattle.sai_types.specs.Names.{ThingName, name_of};
ghost use Rattle.sai_types.specs.declared.body.Call.TheVariants as call;
ghost use Rattle.sai_types.specs.declared.body.Entry.{Entry};
ghost use Rattle.sai_types.specs.declared.kind.Kind.{Kind};
ghost use Rattle.plan_laws.specs.Bounds.{IsUnwanted, makes_kind};
ghost use Rattle.chip_names.specs.Naming.{entries_of};
ghost use Rattle.chip_layout.specs.Renamed.{call_renamed};
ghost use Rattle.plan_laws.specs.Applied.{IsColdPlan, IsHitlessPlan, chip_things, nothing};
ghost use Rattle.plan_laws.specs.Calls.{PlansChanges, resolve, viewed};
ghost use Rattle.plan_laws.specs.Old.{old_layout};
ghost use Rattle.plan_laws.specs.Plans.{PlanChange};
ghost use Rattle.plan_laws.specs.Steady.{IsForwarding, IsHitless, IsOldOrNew, StaysNew};
ghost use Rattle.plan_laws.specs.Views.{AreLacking, FitsHitless, SameRouters};
ghost use Rattle.apply_laws.specs.Apply.{IsApply, IsPlannedFrom, calls_by, plan_calls};
ghost use Rattle.sai_types.specs.Objects.{Objects};
ghost use Rattle.apply_laws.specs.Viewed.{IsMadeView, IsViewOf, things_in};

/// The objects of a new view that legal calls made, no two with one natural key, are laid out by things, and those are the
/// things that a chip with these objects would show.
pub fn views_are_laid_out()
    ensures { (made : ℕ) (objects : Objects) (new : List (Object Vid)) → IsMadeView made objects new → (things : List (Vid × Thing)) × IsViewOf things new × ((t : Thing) → IsIn t (things_in things) ↔ IsIn t (chip_things objects)) }
{}

/// The calls of a plan are those of changes that lead from what stands to the new view: of a hitless plan in its order,
/// and of a cold one first those that remove all and then those that make all.
pub fn plans_are_of_the_views()
    ensures hitless { (capacities : List ℕ) (made : ℕ) (old : List (Object Rid)) (new : List (Object Vid)) (things : List (Vid × Thing)) (plan : Plan) (ids : Vid → Rid) → IsApply capacities made old new things plan ids → plan.mode ≡ mode.Hitless → (changes : List PlanChange) × IsHitlessPlan capacities made (entries_of old) (things_in things) changes × PlansChanges (old_layout (entries_of old) (things_in things)) (viewed things) ids made changes (plan_calls plan) }
    ensures cold { (capacities : List ℕ) (made : ℕ) (old : List (Object Rid)) (new : List (Object Vid)) (things : List (Vid × Thing)) (plan : Plan) (ids : Vid → Rid) → IsApply capacities made old new things plan ids → plan.mode ≡ mode.Cold → (removes : List PlanChange) × (makes : List PlanChange) × (front : List (Call PlanId)) × (rest : List (Call PlanId)) × (plan_calls plan ≡ front ++ rest) × IsColdPlan capacities made (entries_of old) (things_in things) removes makes × PlansChanges (old_layout (entries_of old) (things_in things)) (viewed things) ids made removes front × PlansChanges nothing (viewed things) ids (made_after_all made (map (call_renamed (resolve ids)) front)) makes rest }
{}

/// Each call of an apply is legal when it is made, hitless or cold.
pub fn applies_are_legal()
    ensures { (capacities : List ℕ) (made : ℕ) (old : List (Object Rid)) (new : List (Object Vid)) (things : List (Vid × Thing)) (plan : Plan) (ids : Vid → Rid) → IsApply capacities made old new things plan ids → AreLegal capacities made (entries_of old) (calls_by ids plan) }
{}

/// After the last call of an apply the chip is alike to the new view.
pub fn applies_lead_to_the_view()
    ensures { (capacities : List ℕ) (made : ℕ) (old : List (Object Rid)) (new : List (Object Vid)) (things : List (Vid × Thing)) (plan : Plan) (ids : Vid → Rid) → IsApply capacities made old new things plan ids → IsAlike (after_calls made (entries_of old) (calls_by ids plan)) (λ t. IsIn t (things_in things)) }
{}

/// After each call of a hitless apply an address is decided as it was or as in the new view, once as in the new view
/// always so, and what both forward equally is forwarded so.
pub fn hitless_applies_are_steady()
    ensures decided { (capacities : List ℕ) (made : ℕ) (old : List (Object Rid)) (new : List (Object Vid)) (things : List (Vid × Thing)) (plan : Plan) (ids : Vid → Rid) (front rest : List (Call Rid)) → IsApply capacities made old new things plan ids → plan.mode ≡ mode.Hitless → calls_by ids plan ≡ front ++ rest → IsOldOrNew (chip_things (entries_of old)) (things_in things) (chip_things (after_calls made (entries_of old) front)) }
    ensures stays { (capacities : List ℕ) (made : ℕ) (old : List (Object Rid)) (new : List (Object Vid)) (things : List (Vid × Thing)) (plan : Plan) (ids : Vid → Rid) (front more rest : List (Call Rid)) → IsApply capacities made old new things plan ids → plan.mode ≡ mode.Hitless → calls_by ids plan ≡ front ++ (more ++ rest) → StaysNew (things_in things) (chip_things (after_calls made (entries_of old) front)) (chip_things (after_calls made (entries_of old) (front ++ more))) }
    ensures forwarded { (capacities : List ℕ) (made : ℕ) (old : List (Object Rid)) (new : List (Object Vid)) (things : List (Vid × Thing)) (plan : Plan) (ids : Vid → Rid) (front rest : List (Call Rid)) → IsApply capacities made old new things plan ids → plan.mode ≡ mode.Hitless → calls_by ids plan ≡ front ++ rest → IsHitless (chip_things (entries_of old)) (things_in things) (chip_things (after_calls made (entries_of old) front)) }
{}

/// A plan has at most one call for each old object and three for each new one.
pub fn applies_are_short()
    ensures { (capacities : List ℕ) (made : ℕ) (old : List (Object Rid)) (new : List (Object Vid)) (things : List (Vid × Thing)) (plan : Plan) (ids : Vid → Rid) → IsApply capacities made old new things plan ids → length plan.calls ≤ length old + 3 * length new }
{}

/// After each call of an apply, hitless or cold, whatever the chip shows of routes, own addresses and neighbours it showed
/// before, or the new view has it.
pub fn applies_show_old_or_new()
    ensures { (capacities : List ℕ) (made : ℕ) (old : List (Object Rid)) (new : List (Object Vid)) (things : List (Vid × Thing)) (plan : Plan) (ids : Vid → Rid) (front rest : List (Call Rid)) (t : Thing) → IsApply capacities made old new things plan ids → calls_by ids plan ≡ front ++ rest → IsForwarding (name_of t) → IsIn t (chip_things (after_calls made (entries_of old) front)) → IsIn t (chip_things (entries_of old)) ⊎ IsIn t (things_in things) }
{}

/// A plan is hitless exactly where of each kind the old objects and the new names that the chip does not show number at
/// most the capacity, and no interface has to move to another virtual router.
pub fn modes_are_told()
    ensures { (capacities : List ℕ) (made : ℕ) (old : List (Object Rid)) (new : List (Object Vid)) (things : List (Vid × Thing)) (plan : Plan) → IsPlannedFrom capacities made old new things plan → (plan.mode ≡ mode.Hitless) ↔ (FitsHitless capacities (entries_of old) (chip_things (entries_of old)) (things_in things) × SameRouters (chip_things (entries_of old)) (things_in things)) }
{}

/// Of each kind a hitless apply makes at most as many objects as the view has names that the chip does not show, and it
/// removes nothing whose name the view has, but doubles.
pub fn hitless_applies_keep()
    ensures made { (capacities : List ℕ) (made : ℕ) (old : List (Object Rid)) (new : List (Object Vid)) (things : List (Vid × Thing)) (plan : Plan) (ids : Vid → Rid) (kind : Kind) → IsApply capacities made old new things plan ids → plan.mode ≡ mode.Hitless → (names : List ThingName) × AreLacking (chip_things (entries_of old)) (things_in things) kind names × (count_by (makes_kind kind) (calls_by ids plan) ≡ length names) }
    ensures kept { (capacities : List ℕ) (made : ℕ) (old : List (Object Rid)) (new : List (Object Vid)) (things : List (Vid × Thing)) (plan : Plan) (ids : Vid → Rid) (e : Entry Rid) → IsApply capacities made old new things plan ids → plan.mode ≡ mode.Hitless → IsIn (call.Remove e) (calls_by ids plan) → IsUnwanted (entries_of old) (things_in things) e }
{}
