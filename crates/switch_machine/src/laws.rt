// What holds of every run of the machine. Each function is a law: it does nothing, and its contract is proved.
ghost use Rattle.std.specs.Prelude.{◌≡◌, ◌⊎◌, ℕ, ◌+◌, Bool, false, take, ◌<◌, List, ◌∷◌, Option, Some, None};
ghost use Rattle.swss_types.specs.Vrf.{covers_in};
ghost use Rattle.swss_types.specs.declared.vrf.Vrf.{Vrf};
ghost use Rattle.swss_types.specs.declared.vrf.Packet.{Packet};
ghost use Rattle.swss_types.specs.declared.address.Prefix.{Prefix};
ghost use Rattle.table_schema.specs.Plan.{Ports, IsPlan};
ghost use Rattle.table_schema.specs.declared.key.Key.{Key};
ghost use Rattle.table_schema.specs.declared.key.Key.TheVariants as key;
ghost use Rattle.switch_model.specs.Placed.{Placed as Row, bare, bare_rows};
ghost use Rattle.table_schema.specs.declared.write.Sent.{Sent};
ghost use Rattle.sai_types.specs.declared.ids.Rid.{Rid};
ghost use Rattle.sai_types.specs.declared.body.Call.{Call};
ghost use Rattle.sai_types.specs.declared.weight.WHop.{WHop};
ghost use Rattle.sai_types.specs.declared.kind.Kind.{Kind};
ghost use Rattle.sai_types.specs.declared.thing.Goal.{Goal};
ghost use Rattle.sai_types.specs.declared.thing.Goal.TheVariants as goal;
ghost use Rattle.sai_types.specs.declared.thing.Thing.{Thing};
ghost use Rattle.sai_types.specs.declared.thing.Thing.TheVariants as thing;
ghost use Rattle.sai_types.specs.Alike.{IsAlike, IsIn};
ghost use Rattle.sai_types.specs.Forwarding.{decide, forward};
ghost use Rattle.sai_types.specs.Made.{AreLegal};
ghost use Rattle.sai_types.specs.Names as name;
ghost use Rattle.sai_types.specs.Names.{name_of};
ghost use Rattle.sai_types.specs.Refusal.{IsLegal};
ghost use Rattle.switch_model.specs.declared.wait.Wait.{Wait};
ghost use Rattle.switch_model.specs.Desired.{IsClosed, IsThingOf};
ghost use Rattle.switch_model.specs.Marks.{IsTrueReason, NamesFirstKind};
ghost use Rattle.switch_model.specs.declared.mark.Mark.{Mark};
ghost use Rattle.switch_model.specs.History.{History, keys_listed, log_size, with_mark, with_write};
ghost use Rattle.switch_model.specs.Things.{things_of};
ghost use Rattle.row_layout.specs.Operations.{Change, changes_of};
ghost use Rattle.row_layout.specs.Rows.{Owner, own_things};
ghost use Rattle.switch_machine.specs.Changes.{Disturbs};
ghost use Rattle.switch_machine.specs.Events.{AreAnswers, AreEvents, IsAnswer, IsBegin, IsDrop, IsDueCall, IsEvent, IsQuiet, IsSafe, SwitchState, after_answers, after_events, calls_of, changes_made, empty_switch, fresh_view, placed_good};
ghost use Rattle.switch_machine.specs.Flights.{Fits, MachineFlight, IsResting, IsRow, StandsIn};
ghost use Rattle.switch_machine.specs.Bearing.{BearsOnce, SwitchesOnce, standing_things};
ghost use Rattle.switch_machine.specs.Next.{MustWait, IsIdle, IsNextEvent};
ghost use Rattle.switch_machine.specs.Operations.{IsUsedByOthers, MayBegin};
ghost use Rattle.switch_machine.specs.Places.{HasRoomFor};
ghost use Rattle.switch_machine.specs.Reasons.{IsInTheWay, IsRowPrepared, IsReason, LacksRoom};
ghost use Rattle.switch_machine.specs.Steps.{with_row};
ghost use Rattle.switch_machine.specs.Written.{HasWrittenRows, IsGoodOnce, IsTold, Written, good_of};

/// The empty switch is safe, and each event of any worker keeps it so. An empty view is safe too, whatever was written, where
/// each key with a row is to sync.
pub fn runs_are_safe()
    ensures begins { (plan : Ports) (workers : ℕ) (capacities : List ℕ) → IsPlan plan → IsSafe plan workers capacities empty_switch }
    ensures fresh { (plan : Ports) (workers : ℕ) (capacities : List ℕ) (written : Written) (keys : List Key) → IsPlan plan → IsTold written → HasWrittenRows written → ((k : Key) → (written.rows k ≡ None) ⊎ IsIn k keys) → IsSafe plan workers capacities (fresh_view written keys) }
    ensures kept { (plan : Ports) (workers : ℕ) (capacities : List ℕ) (s : SwitchState) (es : List (Option (Call Rid) × SwitchState)) → IsPlan plan → IsSafe plan workers capacities s → AreEvents plan workers capacities s es → IsSafe plan workers capacities (after_events s es) }
{}

/// Each call of a run is legal when it is made; so is the one that is due for any worker, and there is one where a change is
/// due.
pub fn calls_are_legal()
    ensures legal { (plan : Ports) (workers : ℕ) (capacities : List ℕ) (s : SwitchState) (es : List (Option (Call Rid) × SwitchState)) → IsPlan plan → IsSafe plan workers capacities s → AreEvents plan workers capacities s es → AreLegal capacities s.made s.objects (calls_of es) }
    ensures due { (plan : Ports) (workers : ℕ) (capacities : List ℕ) (s : SwitchState) (call : Call Rid) → IsPlan plan → IsSafe plan workers capacities s → IsDueCall workers call s → IsLegal capacities s.objects call }
    ensures there { (plan : Ports) (workers : ℕ) (capacities : List ℕ) (s : SwitchState) (w : ℕ) (f : MachineFlight) (c : Change) (cs : List Change) → IsPlan plan → IsSafe plan workers capacities s → w < workers → s.machine.board.flights w ≡ Some f → s.machine.due w ≡ c ∷ cs → (call : Call Rid) × IsDueCall workers call s }
{}

/// While no operation is under way the chip is alike to the things of the applied rows, and each key that is not to sync has
/// its good row. The applied rows name only applied rows, always.
pub fn rest_is_alike()
    ensures alike { (plan : Ports) (workers : ℕ) (capacities : List ℕ) (s : SwitchState) → IsPlan plan → IsSafe plan workers capacities s → IsQuiet s → IsAlike s.objects (IsThingOf plan (bare_rows s.machine.board.applied)) }
    ensures good { (plan : Ports) (workers : ℕ) (capacities : List ℕ) (s : SwitchState) (k : Key) → IsPlan plan → IsSafe plan workers capacities s → IsQuiet s → (IsIn k s.to_sync → ⊥) → bare_rows s.machine.board.applied k ≡ good_of plan s.written k }
    ensures closed { (plan : Ports) (workers : ℕ) (capacities : List ℕ) (s : SwitchState) → IsPlan plan → IsSafe plan workers capacities s → IsClosed (bare_rows s.machine.board.applied) }
{}

/// A route that stands is that of a row of its virtual router and prefix, applied or to be applied, which was its good row after
/// some number of the writes taken; and the group that it points at has a member for each of its hops.
pub fn routes_are_whole()
    ensures rows { (plan : Ports) (workers : ℕ) (capacities : List ℕ) (s : SwitchState) (v : Vrf) (prefix : Prefix) (g : Goal) → IsPlan plan → IsSafe plan workers capacities s → StandsIn s.machine (thing.Route v prefix g) → (r : Row) × IsRow s.machine.board (key.Route v prefix) r × IsIn (thing.Route v prefix g) (own_things plan (key.Route v prefix) r) }
    ensures written { (plan : Ports) (workers : ℕ) (capacities : List ℕ) (s : SwitchState) (v : Vrf) (prefix : Prefix) (g : Goal) → IsPlan plan → IsSafe plan workers capacities s → StandsIn s.machine (thing.Route v prefix g) → (r : Row) × IsGoodOnce plan s.written.taken (key.Route v prefix) (bare r) × IsIn (thing.Route v prefix g) (own_things plan (key.Route v prefix) r) }
    ensures members { (plan : Ports) (workers : ℕ) (capacities : List ℕ) (s : SwitchState) (v : Vrf) (prefix : Prefix) (hops : List WHop) (hop : WHop) → IsPlan plan → IsSafe plan workers capacities s → StandsIn s.machine (thing.Route v prefix (goal.Group hops)) → IsIn hop hops → StandsIn s.machine (thing.GroupMember hops hop) }
{}

/// While no operation is under way a reason for which a key waits is true, and a kind that lacks room is the first such kind.
pub fn reasons_are_true()
    ensures is_true { (plan : Ports) (workers : ℕ) (capacities : List ℕ) (s : SwitchState) (k : Key) (wait : Wait) → IsPlan plan → IsSafe plan workers capacities s → IsQuiet s → IsReason plan workers capacities s k wait → IsTrueReason plan capacities (good_of plan s.written) (bare_rows s.machine.board.applied) k wait }
    ensures is_first { (plan : Ports) (workers : ℕ) (capacities : List ℕ) (s : SwitchState) (k : Key) (wait : Wait) → IsPlan plan → IsSafe plan workers capacities s → IsQuiet s → IsReason plan workers capacities s k wait → NamesFirstKind plan capacities (good_of plan s.written) (bare_rows s.machine.board.applied) k wait }
{}

/// An operation that runs alone from its beginning to its end makes the changes of its table in their order, brings its key's
/// good row, and leaves every other row as it was.
pub fn operation_alone()
    ensures changes { (plan : Ports) (workers : ℕ) (capacities : List ℕ) (s t : SwitchState) (x : IsBegin plan workers capacities s t) (es : List (Call Rid × SwitchState)) (run : AreAnswers plan workers t es) (used : Owner → Bool) → IsQuiet s → IsQuiet (after_answers t es) → IsUsedByOthers plan s.machine.board.applied x.flight.key used → changes_made plan workers t es run ≡ changes_of plan x.flight.key (s.machine.board.applied x.flight.key) (placed_good plan s.machine.board s.written x.flight.key) used }
    ensures rows { (plan : Ports) (workers : ℕ) (capacities : List ℕ) (s t : SwitchState) (x : IsBegin plan workers capacities s t) (es : List (Call Rid × SwitchState)) → IsQuiet s → AreAnswers plan workers t es → IsQuiet (after_answers t es) → (q : Key) → (after_answers t es).machine.board.applied q ≡ with_row x.flight.key (placed_good plan s.machine.board s.written x.flight.key) s.machine.board.applied q }
{}

/// No call that is due, of any worker, sets or removes what stands for an applied row of a key without an operation.
pub fn others_are_undisturbed()
    ensures { (plan : Ports) (workers : ℕ) (capacities : List ℕ) (s : SwitchState) (call : Call Rid) (x : IsDueCall workers call s) (q : Key) (r : Row) (u : Thing) → IsPlan plan → IsSafe plan workers capacities s → IsResting s.machine.board q → s.machine.board.applied q ≡ Some r → IsIn u (things_of plan q r) → Disturbs x.change (name_of u) → ⊥ }
{}

/// A key that has a reason to wait has no other, and neither begins nor leaves those to sync otherwise.
pub fn reasons_hinder()
    ensures begins { (plan : Ports) (workers : ℕ) (capacities : List ℕ) (s t : SwitchState) (x : IsBegin plan workers capacities s t) → IsPlan plan → MustWait plan workers capacities s x.flight.key → ⊥ }
    ensures one { (plan : Ports) (workers : ℕ) (capacities : List ℕ) (s : SwitchState) (k : Key) (a b : Wait) → IsPlan plan → IsSafe plan workers capacities s → IsReason plan workers capacities s k a → IsReason plan workers capacities s k b → a ≡ b }
    ensures drops { (plan : Ports) (workers : ℕ) (capacities : List ℕ) (s t : SwitchState) (x : IsDrop plan s t) → IsPlan plan → IsSafe plan workers capacities s → MustWait plan workers capacities s x.key → ⊥ }
{}

/// Of the changes of a route's operation one at most is about a route, an own address or a neighbour, and it is about the
/// route of the key, in its virtual router: no other decides where packets go.
pub fn route_changes_once()
    ensures { (plan : Ports) (v : Vrf) (prefix : Prefix) (old new : Option Row) (used : Owner → Bool) → BearsOnce (name.Route v prefix) (changes_of plan (key.Route v prefix) old new used) }
{}

/// While the operation of a route runs, beside whatever others, each of its calls leaves where packets go that are in another
/// virtual router, or that its prefix doesn't cover. Where it runs alone, where the packets of any router and address go changes
/// at most once.
pub fn routes_are_steady()
    ensures outside { (plan : Ports) (workers : ℕ) (capacities : List ℕ) (s t : SwitchState) (call : Call Rid) (x : IsAnswer plan workers call s t) (v : Vrf) (prefix : Prefix) (a : Packet) → IsPlan plan → IsSafe plan workers capacities s → x.next.flight.key ≡ key.Route v prefix → covers_in v prefix a ≡ false → (decide (standing_things t.machine) a ≡ decide (standing_things s.machine) a) × (forward (standing_things t.machine) a ≡ forward (standing_things s.machine) a) }
    ensures decided { (plan : Ports) (workers : ℕ) (capacities : List ℕ) (s t : SwitchState) (x : IsBegin plan workers capacities s t) (es : List (Call Rid × SwitchState)) (run : AreAnswers plan workers t es) (used : Owner → Bool) (v : Vrf) (prefix : Prefix) (a : Packet) → IsPlan plan → IsSafe plan workers capacities s → x.flight.key ≡ key.Route v prefix → IsQuiet s → IsQuiet (after_answers t es) → IsUsedByOthers plan s.machine.board.applied x.flight.key used → SwitchesOnce (λ n. decide (standing_things (after_answers t (take n es)).machine) a) (decide (standing_things s.machine) a) (decide (standing_things (after_answers t es).machine) a) }
    ensures forwarded { (plan : Ports) (workers : ℕ) (capacities : List ℕ) (s t : SwitchState) (x : IsBegin plan workers capacities s t) (es : List (Call Rid × SwitchState)) (run : AreAnswers plan workers t es) (used : Owner → Bool) (v : Vrf) (prefix : Prefix) (a : Packet) → IsPlan plan → IsSafe plan workers capacities s → x.flight.key ≡ key.Route v prefix → IsQuiet s → IsQuiet (after_answers t es) → IsUsedByOthers plan s.machine.board.applied x.flight.key used → SwitchesOnce (λ n. forward (standing_things (after_answers t (take n es)).machine) a) (forward (standing_things s.machine) a) (forward (standing_things (after_answers t es).machine) a) }
{}

/// What an event adds to the log takes these places: a write that is taken one, a call with its effect and the mark of its failure
/// two, a list with the mark of its failure one, and a mark one and one more for each key that it lists.
pub fn needs_suffice()
    ensures writes { (log : History) (sent : Sent) (effects : ℕ) → log_size (with_write log sent) effects ≡ log_size log effects + 1 }
    ensures calls { (log : History) (mark : Mark) (effects : ℕ) → keys_listed mark.event ≡ 0 → log_size (with_mark log mark) (effects + 1) ≡ log_size log effects + 2 }
    ensures lists { (log : History) (mark : Mark) (effects : ℕ) → keys_listed mark.event ≡ 0 → log_size (with_mark log mark) effects ≡ log_size log effects + 1 }
    ensures marks { (log : History) (mark : Mark) (effects : ℕ) → log_size (with_mark log mark) effects ≡ log_size log effects + (1 + keys_listed mark.event) }
{}

/// A key whose good row fits its table, and that no operation, no missing name, no holder and nothing in the way hinders, may
/// begin for a worker without an operation; and there is room for what it makes, or a first kind lacks it.
pub fn free_keys_begin()
    ensures { (plan : Ports) (workers : ℕ) (capacities : List ℕ) (s : SwitchState) (w : ℕ) (k : Key) → IsPlan plan → IsSafe plan workers capacities s → s.machine.board.flights w ≡ None → IsRowPrepared plan s k → ((v : ℕ) → IsInTheWay plan s.machine k (placed_good plan s.machine.board s.written k) v → ⊥) → ((r : Row) → placed_good plan s.machine.board s.written k ≡ Some r → Fits plan k r) → (f : MachineFlight) × (due : List Change) × (f.key ≡ k) × (f.new ≡ placed_good plan s.machine.board s.written k) × MayBegin plan s.machine w f due × (HasRoomFor workers capacities s.objects s.machine due ⊎ ((kind : Kind) × LacksRoom plan workers capacities s k kind)) }
{}

/// What a worker does next is an event, or nothing. Where it is idle no event of any worker applies but the call that is due
/// for another's operation; and where no other has one, every key to sync has a true reason.
pub fn idle_is_true()
    ensures next { (plan : Ports) (workers : ℕ) (capacities : List ℕ) (w : ℕ) (s t : SwitchState) (c : Option (Call Rid)) → IsNextEvent plan workers capacities w s c t → IsEvent plan workers capacities s c t ⊎ (IsIdle plan workers capacities w s × (c ≡ None) × (t ≡ s)) }
    ensures none { (plan : Ports) (workers : ℕ) (capacities : List ℕ) (w : ℕ) (s t : SwitchState) (c : Option (Call Rid)) → IsPlan plan → IsSafe plan workers capacities s → IsIdle plan workers capacities w s → IsNextEvent plan workers capacities w s c t → (c ≡ None) × (t ≡ s) }
    ensures reasons { (plan : Ports) (workers : ℕ) (capacities : List ℕ) (w : ℕ) (s : SwitchState) (k : Key) → IsPlan plan → IsSafe plan workers capacities s → IsIdle plan workers capacities w s → IsQuiet s → IsIn k s.to_sync → (wait : Wait) × IsTrueReason plan capacities (good_of plan s.written) (bare_rows s.machine.board.applied) k wait × NamesFirstKind plan capacities (good_of plan s.written) (bare_rows s.machine.board.applied) k wait }
{}
