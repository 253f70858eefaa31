// Each step of the core is an event of the machine. Each function is a law: it does nothing, and its contract is proved.
ghost use Rattle.std.specs.Prelude.{◌≡◌, ◌⊎◌, ◌<◌, ◌∷◌, ℕ, true, false, List, [], Option, None, Some, Ok, is_some, option_map, ◌+◌, ◌≤◌};
ghost use Rattle.table_schema.specs.Plan.{IsPlan, Ports};
ghost use Rattle.table_schema.specs.declared.key.Key.{Key};
ghost use Rattle.sai_types.specs.declared.body.Call.{Call};
ghost use Rattle.sai_types.specs.declared.ids.Rid.{Rid};
ghost use Rattle.sai_types.specs.declared.ids.Vid.{Vid};
ghost use Rattle.sai_types.specs.declared.thing.Thing.{Thing};
ghost use Rattle.sai_types.specs.After.{makes_id};
ghost use Rattle.sai_types.specs.Alike.{IsIn};
ghost use Rattle.sai_types.specs.Made.{IsWhole};
ghost use Rattle.sai_types.specs.Objects.{Objects, used};
ghost use Rattle.sai_types.specs.Refusal.{IsLegal, capacity_of};
ghost use Rattle.chip_layout.specs.Layout.{IsLaidOut, listed, next_rid};
ghost use Rattle.chip_layout.specs.Renamed.{call_renamed};
ghost use Rattle.switch_model.specs.Placed.{Placed as Row, bare, bare_rows};
ghost use Rattle.switch_machine.specs.Events.{HasLeft, IsAnswer, IsBegin, IsDrop, IsDueCall, IsPop, IsQuiet, IsTake, SwitchState, empty_switch, fresh_view, placed_good};
ghost use Rattle.switch_machine.specs.Flights.{Fits, IsResting, Machine, put};
ghost use Rattle.switch_model.specs.Desired.{have_rows};
ghost use Rattle.switch_model.specs.declared.wait.Wait.{Wait};
ghost use Rattle.switch_model.specs.declared.wait.Wait.TheVariants as wait;
ghost use Rattle.switch_machine.specs.Reasons.{IsReason};
ghost use Rattle.switch_machine.specs.Written.{HasWrittenRows, IsTold, Written, good_of};
ghost use Rattle.orch_flight.specs.Calling.{IsOver};
ghost use Rattle.orch_flight.specs.Grouping.{GroupOperation, IsGroupOver, IsGroupTook};
ghost use Rattle.orch_flight.specs.Needing.{row_names, wait_of};
ghost use Rattle.orch_flight.specs.Operation.{Operation};
ghost use Rattle.orch_flight.specs.Sharing.{MayStart};
ghost use Rattle.orch_flight.specs.Starting.{IsStartedBy};
ghost use Rattle.sai_types.specs.declared.kind.Kind.{Kind};
ghost use Rattle.registry_laws.specs.Registers.{AreUsed};
ghost use Rattle.ref_counts.specs.Registry.{Names};
ghost use Rattle.ref_counts.specs.Room.{GivesBack, RoomState, all_free, number_of_kind};
ghost use Rattle.registry_laws.specs.Ending.{ended_names, MayEnd};
ghost use Rattle.registry_laws.specs.Flown.{Flown, due_for, flight_of, still_there_in_all};
ghost use Rattle.registry_laws.specs.Flying.{flown_as, with_machine};
ghost use Rattle.registry_laws.specs.Making.{IsNextCall, KnowsNext, MayTakeFor, TookFor, left_of_group_by, with_group_begun};
ghost use Rattle.registry_laws.specs.Identified.{KeepsTies, tie_by};
ghost use Rattle.registry_laws.specs.Calls.{IsTiedBy, TiesFollowCall, ids_of_call};
ghost use Rattle.registry_laws.specs.Standing.{AreRetied, HasBegun, IsNotFlown, StandsFor, over_chip, with_answer};

/// Without names, all places free and nothing under way, all stands for the empty switch; and for an empty view, where each key with a
/// row is to sync.
pub fn nothing_stands_for()
    ensures first { (plan : Ports) (capacities : List ℕ) (rid : Vid → Option Rid) → IsPlan plan → StandsFor plan capacities [] (all_free capacities) (λ w. None) rid empty_switch }
    ensures fresh { (plan : Ports) (capacities : List ℕ) (rid : Vid → Option Rid) (written : Written) (keys : List Key) → IsPlan plan → IsTold written → HasWrittenRows written → ((k : Key) → (written.rows k ≡ None) ⊎ IsIn k keys) → StandsFor plan capacities [] (all_free capacities) (λ w. None) rid (fresh_view written keys) }
{}

/// All stands for the state when a write is taken, when keys are popped, and when a key leaves those to sync that has its good row.
pub fn rows_stand_for()
    ensures taken { (plan : Ports) (capacities : List ℕ) (names : Names) (room : RoomState) (flown : ℕ → Option Flown) (rid : Vid → Option Rid) (s t : SwitchState) → IsPlan plan → StandsFor plan capacities names room flown rid s → IsTake s t → StandsFor plan capacities names room flown rid t }
    ensures popped { (plan : Ports) (capacities : List ℕ) (names : Names) (room : RoomState) (flown : ℕ → Option Flown) (rid : Vid → Option Rid) (s t : SwitchState) → IsPlan plan → StandsFor plan capacities names room flown rid s → IsPop s t → StandsFor plan capacities names room flown rid t }
    ensures dropped { (plan : Ports) (capacities : List ℕ) (names : Names) (room : RoomState) (flown : ℕ → Option Flown) (rid : Vid → Option Rid) (s t : SwitchState) → IsPlan plan → StandsFor plan capacities names room flown rid s → IsDrop plan s t → StandsFor plan capacities names room flown rid t }
{}

/// All stands for the state where what each worker has under way is the same, and where each identifier is tied as it was.
pub fn the_same_stands_for()
    ensures flown { (plan : Ports) (capacities : List ℕ) (names : Names) (room : RoomState) (flown flown' : ℕ → Option Flown) (rid : Vid → Option Rid) (s : SwitchState) → StandsFor plan capacities names room flown rid s → ((v : ℕ) → flown' v ≡ flown v) → StandsFor plan capacities names room flown' rid s }
    ensures tied { (plan : Ports) (capacities : List ℕ) (names : Names) (room : RoomState) (flown : ℕ → Option Flown) (rid rid' : Vid → Option Rid) (s : SwitchState) → StandsFor plan capacities names room flown rid s → KeepsTies rid rid' → StandsFor plan capacities names room flown rid' s }
{}

/// The operation of the group that a worker is to build, or to take away, begins with no event, and has begun then.
pub fn groups_begin_in_place()
    ensures stands { (plan : Ports) (capacities : List ℕ) (names : Names) (room : RoomState) (flown : ℕ → Option Flown) (rid : Vid → Option Rid) (s : SwitchState) (w : ℕ) (x : Flown) → StandsFor plan capacities names room flown rid s → flown w ≡ Some x → StandsFor plan capacities names room (put w (Some (with_group_begun plan names x)) flown) rid s }
    ensures begun { (plan : Ports) (names : Names) (x : Flown) → HasBegun plan names (with_group_begun plan names x) }
{}

/// A key that no worker has under way may begin, where its good row is another than its applied one; the wait that the registry and
/// the room answer is a true reason; and a key that a worker has under way waits for that worker.
pub fn keys_wait_or_begin()
    ensures may { (plan : Ports) (capacities : List ℕ) (names : Names) (room : RoomState) (flown : ℕ → Option Flown) (rid : Vid → Option Rid) (s : SwitchState) (w : ℕ) (k : Key) → IsPlan plan → StandsFor plan capacities names room flown rid s → w < 4 → flown w ≡ None → IsNotFlown flown k → (option_map bare (s.machine.board.applied k) ≡ good_of plan s.written k → ⊥) → ((r : Row) → placed_good plan s.machine.board s.written k ≡ Some r → have_rows (bare_rows s.machine.board.applied) (row_names k r) ≡ true → Fits plan k r) → MayStart plan names w k (s.machine.board.applied k) (placed_good plan s.machine.board s.written k) }
    ensures waits { (plan : Ports) (capacities : List ℕ) (names : Names) (room : RoomState) (numbers : List ℕ) (flown : ℕ → Option Flown) (rid : Vid → Option Rid) (s : SwitchState) (w : ℕ) (k : Key) (wait : Wait) → IsPlan plan → StandsFor plan capacities names room flown rid s → AreUsed s.machine s.objects numbers → flown w ≡ None → IsNotFlown flown k → (option_map bare (s.machine.board.applied k) ≡ good_of plan s.written k → ⊥) → ((r : Row) → placed_good plan s.machine.board s.written k ≡ Some r → have_rows (bare_rows s.machine.board.applied) (row_names k r) ≡ true → Fits plan k r) → wait_of plan names room numbers w k (s.machine.board.applied k) (placed_good plan s.machine.board s.written k) ≡ Some wait → IsReason plan 4 capacities s k wait }
    ensures busy { (plan : Ports) (capacities : List ℕ) (names : Names) (room : RoomState) (flown : ℕ → Option Flown) (rid : Vid → Option Rid) (s : SwitchState) (v : ℕ) (x : Flown) → StandsFor plan capacities names room flown rid s → flown v ≡ Some x → IsReason plan 4 capacities s x.operation.key (wait.Busy v) }
    ensures rests { (plan : Ports) (capacities : List ℕ) (names : Names) (room : RoomState) (flown : ℕ → Option Flown) (rid : Vid → Option Rid) (s : SwitchState) (k : Key) → StandsFor plan capacities names room flown rid s → IsNotFlown flown k → IsResting s.machine.board k }
{}

/// Of what a worker has under way a change is due; the operation, and that of a group, is one over the port plan; and the registry has
/// the identifiers that its next call needs.
pub fn next_calls_are_known()
    ensures knows { (plan : Ports) (capacities : List ℕ) (names : Names) (room : RoomState) (flown : ℕ → Option Flown) (rid : Vid → Option Rid) (s : SwitchState) (w : ℕ) (x : Flown) → IsPlan plan → StandsFor plan capacities names room flown rid s → flown w ≡ Some x → HasBegun plan names x → KnowsNext names x.operation x.group }
    ensures row { (plan : Ports) (capacities : List ℕ) (names : Names) (room : RoomState) (flown : ℕ → Option Flown) (rid : Vid → Option Rid) (s : SwitchState) (w : ℕ) (x : Flown) → IsPlan plan → StandsFor plan capacities names room flown rid s → flown w ≡ Some x → IsOver plan x.operation × (HasBegun plan names x → x.group ≡ None → x.operation.due ≡ [] → ⊥) }
    ensures group { (plan : Ports) (capacities : List ℕ) (names : Names) (room : RoomState) (flown : ℕ → Option Flown) (rid : Vid → Option Rid) (s : SwitchState) (w : ℕ) (x : Flown) (g : GroupOperation) → StandsFor plan capacities names room flown rid s → flown w ≡ Some x → x.group ≡ Some g → IsGroupOver plan g × (g.due ≡ [] → ⊥) }
{}

/// The next call of what a worker has under way, by the identifiers of the chip to which those that it names are tied, is due for the
/// worker: so it is legal. Each identifier that it names is tied.
pub fn tied_calls_are_due()
    ensures due { (plan : Ports) (capacities : List ℕ) (names : Names) (room : RoomState) (flown : ℕ → Option Flown) (rid : Vid → Option Rid) (s : SwitchState) (w : ℕ) (x : Flown) (c : Call Vid) → IsPlan plan → StandsFor plan capacities names room flown rid s → flown w ≡ Some x → HasBegun plan names x → IsNextCall plan names x.operation x.group c → (y : IsDueCall 4 (call_renamed (tie_by rid) c) s) × (y.worker ≡ w) }
    ensures legal { (plan : Ports) (capacities : List ℕ) (names : Names) (room : RoomState) (flown : ℕ → Option Flown) (rid : Vid → Option Rid) (s : SwitchState) (w : ℕ) (x : Flown) (c : Call Vid) → IsPlan plan → StandsFor plan capacities names room flown rid s → flown w ≡ Some x → HasBegun plan names x → IsNextCall plan names x.operation x.group c → IsLegal capacities s.objects (call_renamed (tie_by rid) c) }
    ensures tied { (plan : Ports) (capacities : List ℕ) (names : Names) (room : RoomState) (flown : ℕ → Option Flown) (rid : Vid → Option Rid) (s : SwitchState) (w : ℕ) (x : Flown) (c : Call Vid) (v : Vid) → IsPlan plan → StandsFor plan capacities names room flown rid s → flown w ≡ Some x → HasBegun plan names x → IsNextCall plan names x.operation x.group c → IsIn v (ids_of_call c) → IsTiedBy rid v }
{}

/// The answer of the next call may be taken, with an identifier where the call makes one.
pub fn answers_may_come()
    ensures { (plan : Ports) (capacities : List ℕ) (names : Names) (room : RoomState) (flown : ℕ → Option Flown) (rid : Vid → Option Rid) (s : SwitchState) (w : ℕ) (x : Flown) (c : Call Vid) (made : Option Vid) → IsPlan plan → StandsFor plan capacities names room flown rid s → flown w ≡ Some x → HasBegun plan names x → IsNextCall plan names x.operation x.group c → is_some made ≡ makes_id c → MayTakeFor x.operation x.group made names }
{}

/// An operation that starts is a Begin of the machine. Where a change is due for it the worker has it under way from then on; where none
/// is it has ended in the same event, and its places are given back.
pub fn beginnings_are_events()
    ensures goes_on { (plan : Ports) (capacities : List ℕ) (names names' : Names) (room room' : RoomState) (numbers : List ℕ) (flown : ℕ → Option Flown) (rid : Vid → Option Rid) (s : SwitchState) (w : ℕ) (k : Key) (later : List Key) (f : Operation) → IsPlan plan → StandsFor plan capacities names room flown rid s → AreUsed s.machine s.objects numbers → w < 4 → flown w ≡ None → IsNotFlown flown k → (option_map bare (s.machine.board.applied k) ≡ good_of plan s.written k → ⊥) → ((r : Row) → placed_good plan s.machine.board s.written k ≡ Some r → have_rows (bare_rows s.machine.board.applied) (row_names k r) ≡ true → Fits plan k r) → HasLeft k s.to_sync later → IsStartedBy plan names room numbers w k (s.machine.board.applied k) (placed_good plan s.machine.board s.written k) (Ok f) names' room' → (due_for plan names' (flown_as f None) ≡ [] → ⊥) → (t : Machine) × ((b : IsBegin plan 4 capacities s (with_machine s t later)) × (b.worker ≡ w) × (b.flight.key ≡ k)) × StandsFor plan capacities names' room' (put w (Some (flown_as f None)) flown) rid (with_machine s t later) }
    ensures ends { (plan : Ports) (capacities : List ℕ) (names names' : Names) (room room' given : RoomState) (numbers : List ℕ) (flown : ℕ → Option Flown) (rid : Vid → Option Rid) (s : SwitchState) (w : ℕ) (k : Key) (later : List Key) (f : Operation) → IsPlan plan → StandsFor plan capacities names room flown rid s → AreUsed s.machine s.objects numbers → w < 4 → flown w ≡ None → IsNotFlown flown k → (option_map bare (s.machine.board.applied k) ≡ good_of plan s.written k → ⊥) → ((r : Row) → placed_good plan s.machine.board s.written k ≡ Some r → have_rows (bare_rows s.machine.board.applied) (row_names k r) ≡ true → Fits plan k r) → HasLeft k s.to_sync later → IsStartedBy plan names room numbers w k (s.machine.board.applied k) (placed_good plan s.machine.board s.written k) (Ok f) names' room' → MayEnd names' w k (placed_good plan s.machine.board s.written k) → due_for plan names' (flown_as f None) ≡ [] → GivesBack room' w given → (t : Machine) × ((b : IsBegin plan 4 capacities s (with_machine s t later)) × (b.worker ≡ w) × (b.flight.key ≡ k)) × StandsFor plan capacities (ended_names names' w k (s.machine.board.applied k) (placed_good plan s.machine.board s.written k)) given (put w None flown) rid (with_machine s t later) }
{}

/// The next call has taken effect, and its answer was taken: that is an Answer of the machine. Where something is due for what the worker
/// has then it goes on; where nothing is it has ended in the same event, and its places are given back.
pub fn answers_are_events()
    ensures goes_on { (plan : Ports) (capacities : List ℕ) (names names' : Names) (room : RoomState) (flown : ℕ → Option Flown) (rid rid' : Vid → Option Rid) (s : SwitchState) (w : ℕ) (x x' : Flown) (c : Call Vid) (made : Option Vid) → IsPlan plan → StandsFor plan capacities names room flown rid s → flown w ≡ Some x → HasBegun plan names x → IsNextCall plan names x.operation x.group c → is_some made ≡ makes_id c → TiesFollowCall rid rid' c made (next_rid s.made) → TookFor x.operation x.group made names x' names' → (due_for plan names' x' ≡ [] → ⊥) → (t : Machine) × ((z : IsAnswer plan 4 (call_renamed (tie_by rid) c) s (with_answer s t (call_renamed (tie_by rid) c))) × (z.next.worker ≡ w)) × StandsFor plan capacities names' room (put w (Some x') flown) rid' (with_answer s t (call_renamed (tie_by rid) c)) }
    ensures ends { (plan : Ports) (capacities : List ℕ) (names names' : Names) (room : RoomState) (flown : ℕ → Option Flown) (rid rid' : Vid → Option Rid) (s : SwitchState) (w : ℕ) (x x' : Flown) (c : Call Vid) (made : Option Vid) → IsPlan plan → StandsFor plan capacities names room flown rid s → flown w ≡ Some x → HasBegun plan names x → IsNextCall plan names x.operation x.group c → is_some made ≡ makes_id c → TiesFollowCall rid rid' c made (next_rid s.made) → TookFor x.operation x.group made names x' names' → (given : RoomState) → MayEnd names' w x'.operation.key x'.operation.new → due_for plan names' x' ≡ [] → GivesBack room w given → (t : Machine) × ((z : IsAnswer plan 4 (call_renamed (tie_by rid) c) s (with_answer s t (call_renamed (tie_by rid) c))) × (z.next.worker ≡ w)) × StandsFor plan capacities (ended_names names' w x'.operation.key (s.machine.board.applied x'.operation.key) x'.operation.new) given (put w None flown) rid' (with_answer s t (call_renamed (tie_by rid) c)) }
{}

/// An operation may end that has started, or whose last answer was taken: a name that it took away, and whose row is to be, has no
/// identifier.
pub fn ends_may_come()
    ensures started { (plan : Ports) (capacities : List ℕ) (names names' : Names) (room room' : RoomState) (numbers : List ℕ) (flown : ℕ → Option Flown) (rid : Vid → Option Rid) (s : SwitchState) (w : ℕ) (k : Key) (f : Operation) → IsPlan plan → StandsFor plan capacities names room flown rid s → flown w ≡ None → IsNotFlown flown k → MayStart plan names w k (s.machine.board.applied k) (placed_good plan s.machine.board s.written k) → IsStartedBy plan names room numbers w k (s.machine.board.applied k) (placed_good plan s.machine.board s.written k) (Ok f) names' room' → due_for plan names' (flown_as f None) ≡ [] → MayEnd names' w k (placed_good plan s.machine.board s.written k) }
    ensures took { (plan : Ports) (capacities : List ℕ) (names names' : Names) (room : RoomState) (flown : ℕ → Option Flown) (rid : Vid → Option Rid) (s : SwitchState) (w : ℕ) (x x' : Flown) (made : Option Vid) → IsPlan plan → StandsFor plan capacities names room flown rid s → flown w ≡ Some x → HasBegun plan names x → TookFor x.operation x.group made names x' names' → due_for plan names' x' ≡ [] → MayEnd names' w x'.operation.key x'.operation.new }
{}

/// The interfaces that stand between their removal and their creation are counted with the objects that there are: then the numbers
/// are those of the used places, and none of them is above its capacity.
pub fn places_are_counted()
    ensures used { (plan : Ports) (capacities : List ℕ) (names : Names) (room : RoomState) (numbers : List ℕ) (flown : ℕ → Option Flown) (rid : Vid → Option Rid) (s : SwitchState) → StandsFor plan capacities names room flown rid s → ((kind : Kind) → number_of_kind numbers kind ≡ used s.objects kind + still_there_in_all flown kind) → AreUsed s.machine s.objects numbers }
    ensures within { (plan : Ports) (capacities : List ℕ) (names : Names) (room : RoomState) (flown : ℕ → Option Flown) (rid : Vid → Option Rid) (s : SwitchState) (kind : Kind) → StandsFor plan capacities names room flown rid s → used s.objects kind + still_there_in_all flown kind ≤ capacity_of capacities kind }
{}

/// Once the same things stand on a chip by its identifiers, to which those of the service are tied, all stands for the state over the chip.
pub fn views_go_over()
    ensures { (plan : Ports) (capacities : List ℕ) (names : Names) (room : RoomState) (flown : ℕ → Option Flown) (rid rid' : Vid → Option Rid) (s : SwitchState) (later : List (Rid × Thing)) (made : ℕ) (objects : Objects) → IsPlan plan → StandsFor plan capacities names room flown rid s → AreRetied rid rid' s.machine.stands later → IsWhole made objects → IsLaidOut (listed later) objects → StandsFor plan capacities names room flown rid' (over_chip s later made objects) }
{}

/// A worker that has nothing under way has no operation on the machine; where none of the workers has, it is quiet.
pub fn workers_rest()
    ensures idle { (plan : Ports) (capacities : List ℕ) (names : Names) (room : RoomState) (flown : ℕ → Option Flown) (rid : Vid → Option Rid) (s : SwitchState) (w : ℕ) → StandsFor plan capacities names room flown rid s → flown w ≡ None → s.machine.board.flights w ≡ None }
    ensures quiet { (plan : Ports) (capacities : List ℕ) (names : Names) (room : RoomState) (flown : ℕ → Option Flown) (rid : Vid → Option Rid) (s : SwitchState) → StandsFor plan capacities names room flown rid s → ((v : ℕ) → v < 4 → flown v ≡ None) → IsQuiet s }
    ensures flown { (plan : Ports) (capacities : List ℕ) (names : Names) (room : RoomState) (flown : ℕ → Option Flown) (rid : Vid → Option Rid) (s : SwitchState) (w : ℕ) (x : Flown) → StandsFor plan capacities names room flown rid s → flown w ≡ Some x → (w < 4) × (x.operation.worker ≡ w) × (s.machine.board.flights w ≡ Some (flight_of x.operation)) × (s.machine.due w ≡ due_for plan names x) }
{}

/// Once an answer of a group's operation was taken: where the group is built, something is due still; where it is taken away, what is due
/// is what is left of it.
pub fn ends_are_told()
    ensures built { (plan : Ports) (capacities : List ℕ) (names names' : Names) (room : RoomState) (flown : ℕ → Option Flown) (rid : Vid → Option Rid) (s : SwitchState) (w : ℕ) (x : Flown) (g g' : GroupOperation) (made : Option Vid) → IsPlan plan → StandsFor plan capacities names room flown rid s → flown w ≡ Some x → x.group ≡ Some g → IsGroupTook g made names g' names' → g.builds ≡ true → due_for plan names' (flown_as x.operation (left_of_group_by g' g'.due)) ≡ [] → ⊥ }
    ensures taken { (plan : Ports) (capacities : List ℕ) (names names' : Names) (room : RoomState) (flown : ℕ → Option Flown) (rid : Vid → Option Rid) (s : SwitchState) (w : ℕ) (x : Flown) (g g' : GroupOperation) (made : Option Vid) → IsPlan plan → StandsFor plan capacities names room flown rid s → flown w ≡ Some x → x.group ≡ Some g → IsGroupTook g made names g' names' → g.builds ≡ false → due_for plan names' (flown_as x.operation (left_of_group_by g' g'.due)) ≡ g'.due }
{}
