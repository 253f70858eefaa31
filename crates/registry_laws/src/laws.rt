// The registry stands for the machine. Each function is a law: it does nothing, and its contract is proved.
ghost use Rattle.std.specs.Prelude.{◌≡◌, ◌⊎◌, ◌<◌, ◌≤◌, ℕ, true, ◌++◌, ◌∷◌, List, [], Option, None, Some, option_map};
ghost use Rattle.table_schema.specs.Fields.{HasRisingKeys};
ghost use Rattle.table_schema.specs.Plan.{IsPlan, Ports};
ghost use Rattle.table_schema.specs.declared.key.Key.{Key};
ghost use Rattle.switch_model.specs.Desired.{have_rows};
ghost use Rattle.switch_model.specs.declared.wait.Wait.{Wait};
ghost use Rattle.switch_model.specs.Placed.{Placed as Row, bare, bare_rows};
ghost use Rattle.switch_machine.specs.Events.{Follows, IsSafe, SwitchState, empty_machine, placed_good};
ghost use Rattle.sai_types.specs.declared.ids.Rid.{Rid};
ghost use Rattle.sai_types.specs.declared.ids.Vid.{Vid};
ghost use Rattle.sai_types.specs.declared.thing.Thing.{Thing};
ghost use Rattle.row_layout.specs.Operations.{Change, own_changes, shared_going, take_all};
ghost use Rattle.row_layout.specs.Rows.{OfRow, Owner};
ghost use Rattle.switch_machine.specs.Changes.{changed_name};
ghost use Rattle.switch_machine.specs.Consistent.{IsConsistent};
ghost use Rattle.switch_machine.specs.Flights.{Fits, MachineFlight, HasChangeOf, IsOwnedBy, IsResting, IsShared, Machine};
ghost use Rattle.switch_machine.specs.Operations.{IsLast, MayBegin, built_first};
ghost use Rattle.switch_machine.specs.Places.{AreCovered, HasRoomFor};
ghost use Rattle.switch_machine.specs.Steps.{Ends, Leaves, LeavesOthers, Moves, finished, left, moved, started};
ghost use Rattle.switch_machine.specs.Reasons.{IsReason};
ghost use Rattle.switch_machine.specs.Written.{good_of};
ghost use Rattle.ref_counts.specs.declared.name.Name.TheVariants as name;
ghost use Rattle.ref_counts.specs.Registry.{Names, gone_from, registered_name_cmp};
ghost use Rattle.ref_counts.specs.Room.{GivesBack, Reserves, RoomState, all_free};
ghost use Rattle.orch_flight.specs.Needing.{name_for, places_for, row_names, to_build, wait_of};
ghost use Rattle.orch_flight.specs.Starting.{begun_names, first_due, left_names, retired_by, taken_here};
ghost use Rattle.orch_flight.specs.Taking.{names_after};
ghost use Rattle.registry_laws.specs.Answering.{IsOfGroup, MakesRowLive};
ghost use Rattle.registry_laws.specs.Ending.{ended_names};
ghost use Rattle.registry_laws.specs.Registers.{AreUsed, HaveDue, OthersHaveDue, Registers, beginning, due_first, group_built, group_taken, made_live_at};

/// For a worker without an operation and a key that no operation has and whose applied row is not its good row: the wait that
/// the registry and the room answer is a true reason; where they answer none the operation may begin, and has room.
pub fn reasons_hold()
    ensures reason { (plan : Ports) (workers : ℕ) (capacities : List ℕ) (s : SwitchState) (names : Names) (room : RoomState) (numbers : List ℕ) (w : ℕ) (k : Key) (wait : Wait) → IsPlan plan → IsSafe plan workers capacities s → Registers plan workers capacities names room s.machine → HaveDue s.machine → AreUsed s.machine s.objects numbers → s.machine.board.flights w ≡ None → IsResting s.machine.board k → (option_map bare (s.machine.board.applied k) ≡ good_of plan s.written k → ⊥) → ((r : Row) → placed_good plan s.machine.board s.written k ≡ Some r → have_rows (bare_rows s.machine.board.applied) (row_names k r) ≡ true → Fits plan k r) → wait_of plan names room numbers w k (s.machine.board.applied k) (placed_good plan s.machine.board s.written k) ≡ Some wait → IsReason plan workers capacities s k wait }
    ensures begins { (plan : Ports) (workers : ℕ) (capacities : List ℕ) (s : SwitchState) (names : Names) (room : RoomState) (numbers : List ℕ) (w : ℕ) (k : Key) → IsPlan plan → IsSafe plan workers capacities s → Registers plan workers capacities names room s.machine → HaveDue s.machine → AreUsed s.machine s.objects numbers → s.machine.board.flights w ≡ None → IsResting s.machine.board k → ((r : Row) → placed_good plan s.machine.board s.written k ≡ Some r → have_rows (bare_rows s.machine.board.applied) (row_names k r) ≡ true → Fits plan k r) → wait_of plan names room numbers w k (s.machine.board.applied k) (placed_good plan s.machine.board s.written k) ≡ None → MayBegin plan s.machine w (beginning plan k (s.machine.board.applied k) (placed_good plan s.machine.board s.written k)) (due_first plan names k (s.machine.board.applied k) (placed_good plan s.machine.board s.written k)) × HasRoomFor workers capacities s.objects s.machine (due_first plan names k (s.machine.board.applied k) (placed_good plan s.machine.board s.written k)) }
{}

/// The registry stands for the machine again when an operation has started that may begin, with the names begun and places
/// reserved for what it makes; a key without a row is to have one.
pub fn starts_are_registered()
    ensures { (plan : Ports) (workers : ℕ) (capacities : List ℕ) (m : Machine) (names : Names) (room : RoomState) (room' : RoomState) (w : ℕ) (k : Key) (n : Option Row) → IsPlan plan → IsConsistent plan m → AreCovered m → Registers plan workers capacities names room m → w < workers → MayBegin plan m w (beginning plan k (m.board.applied k) n) (due_first plan names k (m.board.applied k) n) → (m.board.applied k ≡ None → n ≡ None → ⊥) → Reserves room w (places_for (due_first plan names k (m.board.applied k) n)) room' → Registers plan workers capacities (begun_names plan names w k (m.board.applied k) n) room' (started m w (beginning plan k (m.board.applied k) n) (due_first plan names k (m.board.applied k) n)) }
{}

/// The registry stands for the machine again when a change that was due has taken effect: with the same names, where it was
/// of a row, or more changes of what is shared are due; with the name live of what is shared whole from then on, or of a row of
/// which all is made; and with no name of what is taken away whole.
pub fn moves_are_registered()
    ensures same { (plan : Ports) (workers : ℕ) (capacities : List ℕ) (m : Machine) (names : Names) (room : RoomState) (w : ℕ) (f : MachineFlight) (c : Change) (cs : List Change) (stands : List (Rid × Thing)) → Registers plan workers capacities names room m → Moves m w f c cs stands → ((o : Owner) → IsShared o → IsOwnedBy plan (changed_name c) o → HasChangeOf plan cs o) → Registers plan workers capacities names room (moved m w cs stands) }
    ensures shared { (plan : Ports) (workers : ℕ) (capacities : List ℕ) (m : Machine) (names : Names) (room : RoomState) (w : ℕ) (f : MachineFlight) (c : Change) (cs : List Change) (stands : List (Rid × Thing)) (o : Owner) (ids : List Vid) → IsPlan plan → IsConsistent plan m → Registers plan workers capacities names room m → Moves m w f c cs stands → IsShared o → IsOwnedBy plan (changed_name c) o → (f.retires ≡ Some o → ⊥) → (HasChangeOf plan cs o → ⊥) → Registers plan workers capacities (made_live_at names (name_for o) ids) room (moved m w cs stands) }
    ensures row { (plan : Ports) (workers : ℕ) (capacities : List ℕ) (m : Machine) (names : Names) (room : RoomState) (w : ℕ) (f : MachineFlight) (c : Change) (stands : List (Rid × Thing)) (r : Row) (ids : List Vid) → Registers plan workers capacities names room m → Moves m w f c [] stands → IsOwnedBy plan (changed_name c) (OfRow f.key) → f.new ≡ Some r → Registers plan workers capacities (made_live_at names (name.Row f.key) ids) room (moved m w [] stands) }
    ensures gone { (plan : Ports) (workers : ℕ) (capacities : List ℕ) (m : Machine) (names : Names) (room : RoomState) (w : ℕ) (f : MachineFlight) (c : Change) (cs : List Change) (stands : List (Rid × Thing)) (o : Owner) → IsPlan plan → IsConsistent plan m → HasRisingKeys registered_name_cmp names → Registers plan workers capacities names room m → Moves m w f c cs stands → IsShared o → IsOwnedBy plan (changed_name c) o → f.retires ≡ Some o → (HasChangeOf plan cs o → ⊥) → Registers plan workers capacities (gone_from names (name_for o)) room (moved m w cs stands) }
{}

/// Where all that was due is made, the registry tells whether the key was the last user of what it leaves; with the names left
/// it stands for the machine again, whose operation retires what it left last, or has nothing more to make.
pub fn leaves_are_registered()
    ensures { (plan : Ports) (workers : ℕ) (capacities : List ℕ) (m : Machine) (names : Names) (room : RoomState) (w : ℕ) (f : MachineFlight) (o : Owner) → IsPlan plan → IsConsistent plan m → Registers plan workers capacities names room m → Leaves m w f o → ((retired_by names w f.key o ≡ Some o) × IsLast plan m w f o × Registers plan workers capacities (left_names names w f.key o) room (left m w f (Some o) (take_all (shared_going o) []))) ⊎ ((retired_by names w f.key o ≡ None) × LeavesOthers plan m w f o × Registers plan workers capacities (left_names names w f.key o) room (left m w f f.retires [])) }
{}

/// The registry and the room stand for the machine again when an operation has ended, with the users of its old row's names
/// dropped, its pins made users, its own name gone or live, and its places given back; a key without a row was to have one.
pub fn ends_are_registered()
    ensures { (plan : Ports) (workers : ℕ) (capacities : List ℕ) (m : Machine) (names : Names) (room : RoomState) (room' : RoomState) (w : ℕ) (f : MachineFlight) → IsConsistent plan m → HasRisingKeys registered_name_cmp names → Registers plan workers capacities names room m → Ends m w f → GivesBack room w room' → (m.board.applied f.key ≡ None → f.new ≡ None → ⊥) → Registers plan workers capacities (ended_names names w f.key (m.board.applied f.key) f.new) room' (finished m w f) }
{}

/// With no name and all places free the registry stands for the empty machine.
pub fn nothing_is_registered()
    ensures { (plan : Ports) (workers : ℕ) (capacities : List ℕ) → workers ≤ 4 → Registers plan workers capacities [] (all_free capacities) empty_machine }
{}

/// Between events each operation has a change to make: an operation that starts or goes on leaves the others', and what follows
/// in its event leaves it one, or it is over.
pub fn operations_have_changes()
    ensures started { (m : Machine) (w : ℕ) (f : MachineFlight) (due : List Change) → HaveDue m → OthersHaveDue (started m w f due) w }
    ensures moved { (m : Machine) (w : ℕ) (cs : List Change) (stands : List (Rid × Thing)) → HaveDue m → OthersHaveDue (moved m w cs stands) w }
    ensures follows { (plan : Ports) (m : Machine) (w : ℕ) (t : Machine) → IsPlan plan → IsConsistent plan m → OthersHaveDue m w → Follows plan w m t → HaveDue t }
{}

/// The group that an operation builds comes before its other changes, and the group that it takes away goes alone: so the machine's
/// changes are those of the group, and then those of the row's operation.
pub fn groups_are_apart()
    ensures first { (plan : Ports) (names : Names) (k : Key) (old : Option Row) (new : Option Row) → due_first plan names k old new ≡ group_built (to_build plan names k new) ++ first_due plan names k old new }
    ensures last { (o : Owner) → take_all (shared_going o) [] ≡ group_taken o ++ taken_here (Some o) }
{}

/// The registry stands for the machine again when a change that is not of a group has taken effect, with the names after it: a thing
/// of a row that makes its name live is the last that is due for a row that is to be.
pub fn answers_are_registered()
    ensures { (plan : Ports) (workers : ℕ) (capacities : List ℕ) (m : Machine) (names : Names) (room : RoomState) (w : ℕ) (f : MachineFlight) (c : Change) (cs : List Change) (stands : List (Rid × Thing)) (made : Option Vid) → IsPlan plan → IsConsistent plan m → HasRisingKeys registered_name_cmp names → Registers plan workers capacities names room m → Moves m w f c cs stands → (IsOfGroup plan c → ⊥) → (MakesRowLive c → (cs ≡ []) × (r : Row) × (f.new ≡ Some r)) → Registers plan workers capacities (names_after names f.key c made) room (moved m w cs stands) }
{}

/// Among the changes of a row's operation the one that makes its name live is the last, and the row is to be.
pub fn live_rows_are_last()
    ensures { (plan : Ports) (k : Key) (old : Option Row) (new : Option Row) (o : Option Owner) (before : List Change) (c : Change) (cs : List Change) → built_first o (own_changes plan k old new) ≡ before ++ c ∷ cs → MakesRowLive c → (cs ≡ []) × (r : Row) × (new ≡ Some r) }
{}
