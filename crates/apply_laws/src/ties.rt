// What holds of a view each of whose objects is tied to one of the chip. Each function is a law: it does nothing, and its
// contract is proved.
ghost use Rattle.std.specs.Prelude.{◌≡◌, ℕ, ◌+◌, ◌<◌, ◌≤◌, List, [], map, None, Some};
ghost use Rattle.std.specs.List.{AllByRecursion};
ghost use Rattle.std.specs.List.Sorted.{IsStrictlySortedBy};
ghost use Rattle.std.specs.Map.{keys_of};
ghost use Rattle.sai_types.specs.declared.answer.ChipAnswer.{ChipAnswer};
ghost use Rattle.sai_types.specs.declared.answer.SyncAnswer.{SyncAnswer};
ghost use Rattle.sai_types.specs.declared.answer.SyncAnswer.TheVariants as sync;
ghost use Rattle.sai_types.specs.declared.body.Body.{Body};
ghost use Rattle.sai_types.specs.declared.body.Call.{Call};
ghost use Rattle.sai_types.specs.declared.body.Entry.{Entry};
ghost use Rattle.sai_types.specs.declared.kind.Kind.{Kind};
ghost use Rattle.sai_types.specs.declared.ids.Rid.{Rid};
ghost use Rattle.sai_types.specs.declared.ids.Vid.{Vid};
ghost use Rattle.sai_types.specs.declared.thing.Thing.{Thing};
ghost use Rattle.sai_types.specs.After.{after_call, next_id};
ghost use Rattle.sai_types.specs.Alike.{IsIn};
ghost use Rattle.sai_types.specs.ChipState.{ChipState};
ghost use Rattle.sai_types.specs.Made.{AreSorted, IsWhole, made_after};
ghost use Rattle.sai_types.specs.Objects.{Objects, body_at, used};
ghost use Rattle.sai_types.specs.Refusal.{IsLegal};
ghost use Rattle.chip_layout.specs.Counted.{AreDistinct};
ghost use Rattle.chip_layout.specs.Layout.{IsLaidOut, listed};
ghost use Rattle.chip_layout.specs.Renamed.{call_renamed};
ghost use Rattle.asic_view.specs.declared.object.ViewObject.{ViewObject};
ghost use Rattle.asic_view.specs.Things.{StandFor};
ghost use Rattle.asic_view.specs.View.{IsLegalOn, IsLegalWith, ViewObjects, rid_at, used_of, vid_cmp};
ghost use Rattle.syncd_core.specs.Synced.{CanCall, AnswerFollows, IsMadeOnChip, SyncState, current};
ghost use Rattle.syncd_core.specs.Tied.{tie_of};
ghost use Rattle.apply_laws.specs.Following.{IsDone, TiesFollow};
ghost use Rattle.apply_laws.specs.Named.{InCall};
ghost use Rattle.apply_laws.specs.Standing.{AreThingsOf};
ghost use Rattle.apply_laws.specs.Ties.{AreTied, HasTie, IsTied, body_tied, entry_tied};

/// An empty view is tied to an empty chip.
pub fn nothing_is_tied()
    ensures { AreTied [] 0 [] }
{}

/// Each object of a view that is tied to a chip is found there, and each object of the chip is found in the view; ties are
/// numbers that the chip made, no two the same.
pub fn tied_views_are_alike()
    ensures there { (view : ViewObjects) (made : ℕ) (objects : Objects) (x : Vid × ViewObject) → AreTied view made objects → IsIn x view → body_at objects (entry_tied view x) ≡ Some (body_tied view x) }
    ensures back { (view : ViewObjects) (made : ℕ) (objects : Objects) (e : Entry Rid) (b : Body Rid) → AreTied view made objects → body_at objects e ≡ Some b → (x : Vid × ViewObject) × IsIn x view × (e ≡ entry_tied view x) × (b ≡ body_tied view x) }
    ensures one { (view : ViewObjects) (made : ℕ) (objects : Objects) (v w : Vid) (r : Rid) → AreTied view made objects → rid_at view v ≡ Some r → rid_at view w ≡ Some r → v ≡ w }
    ensures within { (view : ViewObjects) (made : ℕ) (objects : Objects) (v : Vid) (r : Rid) → AreTied view made objects → rid_at view v ≡ Some r → (0 < r.0) × (r.0 ≤ made) }
{}

/// So a view is tied to a chip where each object of the one is found in the other.
pub fn alike_views_are_tied()
    ensures { (view : ViewObjects) (made : ℕ) (objects : Objects) → IsStrictlySortedBy vid_cmp (keys_of view) → AllByRecursion (HasTie made) view → AreDistinct (map (entry_tied view) view) → AreSorted objects → ((x : Vid × ViewObject) → IsIn x view → body_at objects (entry_tied view x) ≡ Some (body_tied view x)) → ((e : Entry Rid) (b : Body Rid) → body_at objects e ≡ Some b → (x : Vid × ViewObject) × IsIn x view × (e ≡ entry_tied view x)) → AreTied view made objects }
{}

/// A call that is legal on the chip, with its identifiers replaced by their ties, is legal on the view, and each identifier
/// that it names is tied.
pub fn legal_calls_are_legal_on_views()
    ensures with_capacities { (view : ViewObjects) (made : ℕ) (objects : Objects) (capacities : List ℕ) (c : Call Vid) → AreTied view made objects → IsWhole made objects → IsLegal capacities objects (call_renamed (tie_of view) c) → IsLegalWith capacities view c }
    ensures legal { (view : ViewObjects) (made : ℕ) (objects : Objects) (capacities : List ℕ) (c : Call Vid) → AreTied view made objects → IsWhole made objects → IsLegal capacities objects (call_renamed (tie_of view) c) → IsLegalOn view c }
    ensures tied { (view : ViewObjects) (made : ℕ) (objects : Objects) (capacities : List ℕ) (c : Call Vid) → AreTied view made objects → IsWhole made objects → IsLegal capacities objects (call_renamed (tie_of view) c) → InCall (IsTied view) c }
    ensures can_call { (s : SyncState) (made : ℕ) (chip : ChipState) (c : Call Vid) → s.temporary ≡ None → AreTied s.view made chip.objects → IsWhole made chip.objects → IsLegal chip.capacities chip.objects (call_renamed (tie_of s.view) c) → CanCall s s.temporary chip c }
{}

/// After a legal call that was made on both, the view's objects are tied to the chip's again.
pub fn ties_follow()
    ensures follows { (view view' : ViewObjects) (made : ℕ) (objects : Objects) (capacities : List ℕ) (c : Call Vid) (answer : ChipAnswer) (a : SyncAnswer) → AreTied view made objects → IsWhole made objects → IsLegal capacities objects (call_renamed (tie_of view) c) → IsDone made (call_renamed (tie_of view) c) answer → AnswerFollows view c answer a view' → AreTied view' (made_after made (call_renamed (tie_of view) c)) (after_call (made + 1) objects (call_renamed (tie_of view) c)) }
    ensures made { (view view' : ViewObjects) (made : ℕ) (chip chip' : ChipState) (c : Call Vid) (a : SyncAnswer) → AreTied view made chip.objects → IsWhole made chip.objects → next_id chip.effects ≡ made + 1 → IsMadeOnChip view chip c a view' chip' → (a ≡ sync.Failed → ⊥) → AreTied view' (made_after made (call_renamed (tie_of view) c)) chip'.objects }
{}

/// An identifier that is tied stays tied to the same object of the chip, until its object is removed; what is made is tied
/// to what the chip made.
pub fn ties_stay()
    ensures { (view view' : ViewObjects) (made : ℕ) (objects : Objects) (capacities : List ℕ) (c : Call Vid) (answer : ChipAnswer) (a : SyncAnswer) → AreTied view made objects → IsWhole made objects → IsLegal capacities objects (call_renamed (tie_of view) c) → AnswerFollows view c answer a view' → TiesFollow view c answer a view' }
{}

/// A view that is tied to a chip stands for the things for which the chip's objects stand.
pub fn tied_views_stand()
    ensures { (view : ViewObjects) (made : ℕ) (objects : Objects) (stands : List (Rid × Thing)) → AreTied view made objects → IsWhole made objects → IsLaidOut (listed stands) objects → (things : List (Vid × Thing)) × StandFor (listed things) view × AreThingsOf view stands things }
{}

/// The view has as many objects of each kind as the chip.
pub fn views_count_as_chips()
    ensures { (view : ViewObjects) (made : ℕ) (objects : Objects) (kind : Kind) → AreTied view made objects → used_of view kind ≡ used objects kind }
{}

/// So what is counted without a temporary view is what stands on the chip.
pub fn syncd_counts()
    ensures { (s : SyncState) (made : ℕ) (objects : Objects) (kind : Kind) → s.temporary ≡ None → AreTied s.view made objects → used_of (current s) kind ≡ used objects kind }
{}
