// What workers have under way stands for the machine. Each function is a law: it does nothing, and its contract is proved.
ghost use Rattle.std.specs.Prelude.{◌≡◌, ◌<◌, ◌∷◌, ℕ, true, false, List, [], Option, None, Some, Ok, is_some, option_map};
ghost use Rattle.table_schema.specs.Plan.{IsPlan, Ports};
ghost use Rattle.table_schema.specs.declared.key.Key.{Key};
ghost use Rattle.switch_model.specs.Desired.{have_rows};
ghost use Rattle.sai_types.specs.Alike.{IsIn};
ghost use Rattle.sai_types.specs.Names.{name_of};
ghost use Rattle.sai_types.specs.declared.weight.WHop.{WHop};
ghost use Rattle.sai_types.specs.declared.ids.Rid.{Rid};
ghost use Rattle.sai_types.specs.declared.ids.Vid.{Vid};
ghost use Rattle.sai_types.specs.declared.thing.Thing.{Thing};
ghost use Rattle.chip_layout.specs.Layout.{has_number};
ghost use Rattle.switch_model.specs.Placed.{Placed as Row, bare, bare_rows};
ghost use Rattle.row_layout.specs.Operations.{Change, Make};
ghost use Rattle.row_layout.specs.Rows.{Group};
ghost use Rattle.row_layout.specs.Shared.{shared_things};
ghost use Rattle.switch_machine.specs.Changes.{Disturbs};
ghost use Rattle.switch_machine.specs.Consistent.{IsConsistent};
ghost use Rattle.switch_machine.specs.Events.{Follows, HasLeft, IsBegin, IsSafe, SwitchState, empty_machine, placed_good};
ghost use Rattle.switch_machine.specs.Flights.{Fits, IsResting, Machine, StandsIn, put};
ghost use Rattle.switch_machine.specs.Steps.{Moves, moved};
ghost use Rattle.switch_machine.specs.Written.{good_of};
ghost use Rattle.ref_counts.specs.Registered.{IsReadable};
ghost use Rattle.ref_counts.specs.Registry.{Names};
ghost use Rattle.ref_counts.specs.Room.{GivesBack, RoomState, all_free};
ghost use Rattle.orch_flight.specs.Calling.{things_held};
ghost use Rattle.orch_flight.specs.Grouping.{GroupOperation, IsGroupTook, MayTakeGroup, first_group};
ghost use Rattle.orch_flight.specs.Needing.{row_names};
ghost use Rattle.orch_flight.specs.Operation.{Operation};
ghost use Rattle.orch_flight.specs.Sharing.{MayStart};
ghost use Rattle.orch_flight.specs.Starting.{IsStartedBy};
ghost use Rattle.orch_flight.specs.Taking.{IsTook, MayTake};
ghost use Rattle.registry_laws.specs.Ending.{ended_names};
ghost use Rattle.registry_laws.specs.Flown.{Flown, due_for, flight_of, group_to_build, group_to_take};
ghost use Rattle.registry_laws.specs.Flying.{KnowsBoard, flown_as, with_machine};
ghost use Rattle.registry_laws.specs.Identified.{HasWholeInterfaces};
ghost use Rattle.registry_laws.specs.Registers.{AreUsed};

/// Before the first event nothing is under way: no name is registered, and all places are free.
pub fn nothing_is_flown()
    ensures { (plan : Ports) (capacities : List ℕ) → KnowsBoard plan capacities [] (all_free capacities) (λ w. None) empty_machine }
{}

/// Nothing is due for an operation where no change of its own is left and it has no group to build or to take away, and only
/// there.
pub fn due_changes_are_told()
    ensures none { (plan : Ports) (names : Names) (f : Operation) → f.due ≡ [] → group_to_build plan names f ≡ None → group_to_take f ≡ None → due_for plan names (flown_as f None) ≡ [] }
    ensures only { (plan : Ports) (names : Names) (f : Operation) → due_for plan names (flown_as f None) ≡ [] → (f.due ≡ []) × (group_to_build plan names f ≡ None) × (group_to_take f ≡ None) }
{}

/// A worker that has nothing under way may start the operation of a key that no operation has and whose good row differs from
/// its applied row.
pub fn starts_are_allowed()
    ensures { (plan : Ports) (capacities : List ℕ) (s : SwitchState) (names : Names) (room : RoomState) (flown : ℕ → Option Flown) (w : ℕ) (k : Key) → IsPlan plan → IsSafe plan 4 capacities s → KnowsBoard plan capacities names room flown s.machine → w < 4 → flown w ≡ None → IsReadable k → IsResting s.machine.board k → (option_map bare (s.machine.board.applied k) ≡ good_of plan s.written k → ⊥) → ((r : Row) → placed_good plan s.machine.board s.written k ≡ Some r → have_rows (bare_rows s.machine.board.applied) (row_names k r) ≡ true → Fits plan k r) → MayStart plan names w k (s.machine.board.applied k) (placed_good plan s.machine.board s.written k) }
{}

/// An operation that starts makes a Begin of the machine. Where a change is due for it the worker has it under way from then
/// on; where none is it has ended in the same event, and its places are given back.
pub fn begins_are_known()
    ensures goes_on { (plan : Ports) (capacities : List ℕ) (s : SwitchState) (names : Names) (room : RoomState) (room' : RoomState) (numbers : List ℕ) (flown : ℕ → Option Flown) (w : ℕ) (k : Key) (later : List Key) (f : Operation) (names' : Names) → IsPlan plan → IsSafe plan 4 capacities s → KnowsBoard plan capacities names room flown s.machine → AreUsed s.machine s.objects numbers → w < 4 → flown w ≡ None → IsResting s.machine.board k → (option_map bare (s.machine.board.applied k) ≡ good_of plan s.written k → ⊥) → ((r : Row) → placed_good plan s.machine.board s.written k ≡ Some r → have_rows (bare_rows s.machine.board.applied) (row_names k r) ≡ true → Fits plan k r) → HasLeft k s.to_sync later → IsStartedBy plan names room numbers w k (s.machine.board.applied k) (placed_good plan s.machine.board s.written k) (Ok f) names' room' → (due_for plan names' (flown_as f None) ≡ [] → ⊥) → (t : Machine) × ((b : IsBegin plan 4 capacities s (with_machine s t later)) × (b.worker ≡ w) × (b.flight.key ≡ k)) × KnowsBoard plan capacities names' room' (put w (Some (flown_as f None)) flown) t × (t.stands ≡ s.machine.stands) }
    ensures ends { (plan : Ports) (capacities : List ℕ) (s : SwitchState) (names : Names) (room : RoomState) (room' : RoomState) (numbers : List ℕ) (flown : ℕ → Option Flown) (w : ℕ) (k : Key) (later : List Key) (f : Operation) (names' : Names) (given : RoomState) → IsPlan plan → IsSafe plan 4 capacities s → KnowsBoard plan capacities names room flown s.machine → AreUsed s.machine s.objects numbers → w < 4 → flown w ≡ None → IsResting s.machine.board k → (option_map bare (s.machine.board.applied k) ≡ good_of plan s.written k → ⊥) → ((r : Row) → placed_good plan s.machine.board s.written k ≡ Some r → have_rows (bare_rows s.machine.board.applied) (row_names k r) ≡ true → Fits plan k r) → HasLeft k s.to_sync later → IsStartedBy plan names room numbers w k (s.machine.board.applied k) (placed_good plan s.machine.board s.written k) (Ok f) names' room' → due_for plan names' (flown_as f None) ≡ [] → GivesBack room' w given → (t : Machine) × ((b : IsBegin plan 4 capacities s (with_machine s t later)) × (b.worker ≡ w) × (b.flight.key ≡ k)) × KnowsBoard plan capacities (ended_names names' w k (s.machine.board.applied k) (placed_good plan s.machine.board s.written k)) given (put w None flown) t × (t.stands ≡ s.machine.stands) }
{}

/// The operation of a group begins, with no event: the one that the worker is to build, or else the one that it takes away.
pub fn groups_begin()
    ensures builds { (plan : Ports) (capacities : List ℕ) (names : Names) (room : RoomState) (flown : ℕ → Option Flown) (m : Machine) (w : ℕ) (x : Flown) (hops : List WHop) → KnowsBoard plan capacities names room flown m → flown w ≡ Some x → x.group ≡ None → group_to_build plan names x.operation ≡ Some hops → KnowsBoard plan capacities names room (put w (Some (flown_as x.operation (Some (first_group plan w hops true)))) flown) m }
    ensures takes { (plan : Ports) (capacities : List ℕ) (names : Names) (room : RoomState) (flown : ℕ → Option Flown) (m : Machine) (w : ℕ) (x : Flown) (hops : List WHop) → KnowsBoard plan capacities names room flown m → flown w ≡ Some x → x.group ≡ None → group_to_build plan names x.operation ≡ None → group_to_take x.operation ≡ Some hops → KnowsBoard plan capacities names room (put w (Some (flown_as x.operation (Some (first_group plan w hops false)))) flown) m }
{}

/// The answer of the call that is due next may be taken, of the group while one is under way, and else of the row; and what the
/// call sets or takes away stands.
pub fn answers_may_be_taken()
    ensures row { (plan : Ports) (capacities : List ℕ) (names : Names) (room : RoomState) (flown : ℕ → Option Flown) (m : Machine) (w : ℕ) (x : Flown) (made : Option Vid) → IsPlan plan → IsConsistent plan m → KnowsBoard plan capacities names room flown m → flown w ≡ Some x → HasWholeInterfaces names → x.group ≡ None → group_to_build plan names x.operation ≡ None → group_to_take x.operation ≡ None → ((t : Thing) (rest : List Change) → x.operation.due ≡ Make t ∷ rest → is_some made ≡ has_number t) → MayTake x.operation made names }
    ensures group { (plan : Ports) (capacities : List ℕ) (names : Names) (room : RoomState) (flown : ℕ → Option Flown) (m : Machine) (w : ℕ) (x : Flown) (g : GroupOperation) (made : Option Vid) → IsPlan plan → IsConsistent plan m → KnowsBoard plan capacities names room flown m → flown w ≡ Some x → x.group ≡ Some g → is_some made ≡ g.builds → MayTakeGroup g made names }
    ensures row_stands { (plan : Ports) (capacities : List ℕ) (names : Names) (room : RoomState) (flown : ℕ → Option Flown) (m : Machine) (w : ℕ) (x : Flown) (c : Change) (rest : List Change) (t : Thing) → IsPlan plan → IsConsistent plan m → KnowsBoard plan capacities names room flown m → flown w ≡ Some x → x.group ≡ None → group_to_build plan names x.operation ≡ None → group_to_take x.operation ≡ None → x.operation.due ≡ c ∷ rest → IsIn t (things_held plan x.operation) → Disturbs c (name_of t) → StandsIn m t }
    ensures group_stands { (plan : Ports) (capacities : List ℕ) (names : Names) (room : RoomState) (flown : ℕ → Option Flown) (m : Machine) (w : ℕ) (x : Flown) (g : GroupOperation) (c : Change) (rest : List Change) (t : Thing) → IsPlan plan → IsConsistent plan m → KnowsBoard plan capacities names room flown m → flown w ≡ Some x → x.group ≡ Some g → g.due ≡ c ∷ rest → IsIn t (shared_things (Group g.hops)) → Disturbs c (name_of t) → StandsIn m t }
{}

/// The change that was due next has taken effect, and the code has taken its answer: the operation of the row goes on or has
/// ended; the group is under way still, is built, or is gone, and with it the operation has ended. What follows on the machine
/// makes an Answer of it with the call.
pub fn answers_are_known()
    ensures row_goes_on { (plan : Ports) (capacities : List ℕ) (names : Names) (room : RoomState) (flown : ℕ → Option Flown) (m : Machine) (w : ℕ) (x : Flown) (c : Change) (cs : List Change) (stands : List (Rid × Thing)) (made : Option Vid) (f : Operation) (names' : Names) → IsPlan plan → IsConsistent plan m → KnowsBoard plan capacities names room flown m → flown w ≡ Some x → x.group ≡ None → group_to_build plan names x.operation ≡ None → group_to_take x.operation ≡ None → Moves m w (flight_of x.operation) c cs stands → IsTook x.operation made names f names' → (due_for plan names' (flown_as f None) ≡ [] → ⊥) → (t : Machine) × Follows plan w (moved m w cs stands) t × (t.stands ≡ stands) × KnowsBoard plan capacities names' room (put w (Some (flown_as f None)) flown) t }
    ensures row_ends { (plan : Ports) (capacities : List ℕ) (names : Names) (room : RoomState) (flown : ℕ → Option Flown) (m : Machine) (w : ℕ) (x : Flown) (c : Change) (cs : List Change) (stands : List (Rid × Thing)) (made : Option Vid) (f : Operation) (names' : Names) (given : RoomState) → IsPlan plan → IsConsistent plan m → KnowsBoard plan capacities names room flown m → flown w ≡ Some x → x.group ≡ None → group_to_build plan names x.operation ≡ None → group_to_take x.operation ≡ None → Moves m w (flight_of x.operation) c cs stands → IsTook x.operation made names f names' → due_for plan names' (flown_as f None) ≡ [] → GivesBack room w given → (t : Machine) × Follows plan w (moved m w cs stands) t × (t.stands ≡ stands) × KnowsBoard plan capacities (ended_names names' w f.key (m.board.applied f.key) f.new) given (put w None flown) t }
    ensures group_goes_on { (plan : Ports) (capacities : List ℕ) (names : Names) (room : RoomState) (flown : ℕ → Option Flown) (m : Machine) (w : ℕ) (x : Flown) (g : GroupOperation) (c : Change) (cs : List Change) (stands : List (Rid × Thing)) (made : Option Vid) (g' : GroupOperation) (names' : Names) → IsPlan plan → IsConsistent plan m → KnowsBoard plan capacities names room flown m → flown w ≡ Some x → x.group ≡ Some g → Moves m w (flight_of x.operation) c cs stands → is_some made ≡ g.builds → IsGroupTook g made names g' names' → (g'.due ≡ [] → ⊥) → (t : Machine) × Follows plan w (moved m w cs stands) t × (t.stands ≡ stands) × KnowsBoard plan capacities names' room (put w (Some (flown_as x.operation (Some g'))) flown) t }
    ensures group_is_built { (plan : Ports) (capacities : List ℕ) (names : Names) (room : RoomState) (flown : ℕ → Option Flown) (m : Machine) (w : ℕ) (x : Flown) (g : GroupOperation) (c : Change) (cs : List Change) (stands : List (Rid × Thing)) (made : Option Vid) (g' : GroupOperation) (names' : Names) → IsPlan plan → IsConsistent plan m → KnowsBoard plan capacities names room flown m → flown w ≡ Some x → x.group ≡ Some g → Moves m w (flight_of x.operation) c cs stands → IsGroupTook g made names g' names' → g.builds ≡ true → g'.due ≡ [] → (t : Machine) × Follows plan w (moved m w cs stands) t × (t.stands ≡ stands) × KnowsBoard plan capacities names' room (put w (Some (flown_as x.operation None)) flown) t }
    ensures group_is_gone { (plan : Ports) (capacities : List ℕ) (names : Names) (room : RoomState) (flown : ℕ → Option Flown) (m : Machine) (w : ℕ) (x : Flown) (g : GroupOperation) (c : Change) (cs : List Change) (stands : List (Rid × Thing)) (made : Option Vid) (g' : GroupOperation) (names' : Names) (given : RoomState) → IsPlan plan → IsConsistent plan m → KnowsBoard plan capacities names room flown m → flown w ≡ Some x → x.group ≡ Some g → Moves m w (flight_of x.operation) c cs stands → IsGroupTook g made names g' names' → g.builds ≡ false → g'.due ≡ [] → GivesBack room w given → (t : Machine) × Follows plan w (moved m w cs stands) t × (t.stands ≡ stands) × KnowsBoard plan capacities (ended_names names' w x.operation.key (m.board.applied x.operation.key) x.operation.new) given (put w None flown) t }
{}
