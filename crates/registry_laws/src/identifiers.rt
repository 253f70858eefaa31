// The registry's identifiers are those of the objects that stand. Each function is a law: it does nothing, and its contract is proved.
ghost use Rattle.std.specs.Prelude.{◌≡◌, ◌<◌, ℕ, ◌∷◌, ◌++◌, Bool, true, false, List, [], Option, None, Some};
ghost use Rattle.table_schema.specs.Fields.{HasRisingKeys};
ghost use Rattle.table_schema.specs.Plan.{IsPlan, Ports};
ghost use Rattle.table_schema.specs.declared.key.Key.{Key};
ghost use Rattle.sai_types.specs.declared.body.Body.{Body};
ghost use Rattle.sai_types.specs.declared.body.Call.{Call};
ghost use Rattle.sai_types.specs.declared.body.Call.TheVariants as call;
ghost use Rattle.sai_types.specs.declared.body.Entry.TheVariants as entry;
ghost use Rattle.sai_types.specs.declared.weight.WHop.{WHop};
ghost use Rattle.sai_types.specs.declared.ids.Rid.{Rid};
ghost use Rattle.sai_types.specs.declared.ids.Vid.{Vid};
ghost use Rattle.sai_types.specs.declared.thing.Thing.{Thing};
ghost use Rattle.sai_types.specs.After.{has_id};
ghost use Rattle.sai_types.specs.Alike.{IsIn};
ghost use Rattle.sai_types.specs.Names.{ThingName};
ghost use Rattle.chip_layout.specs.Layout.{has_number};
ghost use Rattle.chip_layout.specs.Renamed.{call_renamed};
ghost use Rattle.switch_model.specs.Placed.{Placed as Row};
ghost use Rattle.row_layout.specs.Operations.{Change, Make, Take, uses_of};
ghost use Rattle.row_layout.specs.Rows.{Group, Owner};
ghost use Rattle.row_layout.specs.Shared.{shared_things};
ghost use Rattle.switch_machine.specs.Events.{IsAnswer, IsDueCall, IsSafe, SwitchState};
ghost use Rattle.switch_machine.specs.Consistent.{IsConsistent};
ghost use Rattle.switch_machine.specs.Flights.{MachineFlight, IsOwnedBy, IsResting, Machine, put};
ghost use Rattle.switch_machine.specs.Steps.{Ends};
ghost use Rattle.ref_counts.specs.declared.name.Name.TheVariants as name;
ghost use Rattle.ref_counts.specs.declared.name.NameState.TheVariants as state;
ghost use Rattle.ref_counts.specs.declared.next.Next.TheVariants as next;
ghost use Rattle.ref_counts.specs.Registry.{Names, registered_name_cmp, state_of};
ghost use Rattle.orch_flight.specs.Calling.{HasVid, IsCallFor, IsNextOf, IsOver, KnowsIds, things_held};
ghost use Rattle.orch_flight.specs.Grouping.{GroupOperation, HasGroupVid, IsGroupNextOf, IsGroupOver, IsGroupTook, KnowsGroupIds, first_group};
ghost use Rattle.orch_flight.specs.Needing.{name_for};
ghost use Rattle.orch_flight.specs.Operation.{Operation};
ghost use Rattle.orch_flight.specs.Sharing.{MayStart};
ghost use Rattle.orch_flight.specs.Starting.{left_names, started_names, started_operation};
ghost use Rattle.orch_flight.specs.Taking.{IsTook, MayTake};
ghost use Rattle.registry_laws.specs.Answering.{IsOfGroup};
ghost use Rattle.registry_laws.specs.Ending.{MayEnd, ended_names};
ghost use Rattle.registry_laws.specs.Flown.{Flown, flight_of};
ghost use Rattle.registry_laws.specs.Registers.{KnowsNames};
ghost use Rattle.registry_laws.specs.Identified.{BuildsGroups, FliesOn, HasWholeGroups, HaveSameIds, HoldsPort, Identified, IsPartlyBuilt, IsUnderWay, KeepsBuilds, PortsStand, TiesAfter, tie_by};

/// Where nothing stands its identifiers are known.
pub fn nothing_is_identified()
    ensures { (plan : Ports) (names : Names) (rid : Vid → Option Rid) (flown : ℕ → Option Flown) → Identified plan names rid flown [] }
{}

/// The call of the change that is due next for a worker, told with the registry's identifiers, is the machine's due call once each
/// identifier is replaced by that of the chip to which it is tied: of a row's operation, where a port that is set stands with the
/// values that the operation has noted; and of the operation of a group.
pub fn calls_are_due()
    ensures row { (plan : Ports) (workers : ℕ) (capacities : List ℕ) (s : SwitchState) (names : Names) (rid : Vid → Option Rid) (flown : ℕ → Option Flown) (w : ℕ) (f : Operation) (change : Change) (rest : List Change) (c : Call Vid) → IsPlan plan → IsSafe plan workers capacities s → Identified plan names rid flown s.machine.stands → BuildsGroups names flown → w < workers → s.machine.board.flights w ≡ Some (flight_of f) → s.machine.due w ≡ change ∷ rest → PortsStand s.machine (things_held plan f) change → IsCallFor (HasVid plan names) (things_held plan f) change c → (x : IsDueCall workers (call_renamed (tie_by rid) c) s) × (x.worker ≡ w) × (x.change ≡ change) }
    ensures group { (plan : Ports) (workers : ℕ) (capacities : List ℕ) (s : SwitchState) (names : Names) (rid : Vid → Option Rid) (flown : ℕ → Option Flown) (w : ℕ) (f : MachineFlight) (g : GroupOperation) (change : Change) (rest : List Change) (c : Call Vid) → IsPlan plan → IsSafe plan workers capacities s → Identified plan names rid flown s.machine.stands → BuildsGroups names flown → IsUnderWay flown w g → w < workers → s.machine.board.flights w ≡ Some f → s.machine.due w ≡ change ∷ rest → IsCallFor (HasGroupVid plan names g) (shared_things (Group g.hops)) change c → (x : IsDueCall workers (call_renamed (tie_by rid) c) s) × (x.worker ≡ w) × (x.change ≡ change) }
{}

/// So the call that the operation of a row tells next, or that of a group, is the due call of the machine, where the changes that
/// are due for the worker begin with those that are due for the operation.
pub fn next_calls_are_due()
    ensures row { (plan : Ports) (workers : ℕ) (capacities : List ℕ) (s : SwitchState) (names : Names) (rid : Vid → Option Rid) (flown : ℕ → Option Flown) (w : ℕ) (f : Operation) (c : Call Vid) → IsPlan plan → IsSafe plan workers capacities s → Identified plan names rid flown s.machine.stands → BuildsGroups names flown → w < workers → s.machine.board.flights w ≡ Some (flight_of f) → s.machine.due w ≡ f.due → HoldsPort plan s.machine f → IsNextOf plan names f (next.Call c) → (x : IsDueCall workers (call_renamed (tie_by rid) c) s) × (x.worker ≡ w) × (f.due ≡ x.change ∷ x.rest) }
    ensures group { (plan : Ports) (workers : ℕ) (capacities : List ℕ) (s : SwitchState) (names : Names) (rid : Vid → Option Rid) (flown : ℕ → Option Flown) (w : ℕ) (f : MachineFlight) (g : GroupOperation) (behind : List Change) (c : Call Vid) → IsPlan plan → IsSafe plan workers capacities s → Identified plan names rid flown s.machine.stands → BuildsGroups names flown → IsUnderWay flown w g → w < workers → s.machine.board.flights w ≡ Some f → s.machine.due w ≡ g.due ++ behind → IsGroupNextOf plan names g (next.Call c) → (x : IsDueCall workers (call_renamed (tie_by rid) c) s) × (x.worker ≡ w) × ((rest : List Change) × (g.due ≡ x.change ∷ rest)) }
{}

/// What the call of a change makes has an identifier where its thing has one; and what it removes by an identifier is what the change
/// takes away.
pub fn calls_are_of_their_things()
    ensures made { (plan : Ports) (names : Names) (things : List Thing) (t : Thing) (c : Call Vid) (b : Body Vid) → IsCallFor (HasVid plan names) things (Make t) c → c ≡ call.Create b → has_id b ≡ has_number t }
    ensures made_of_group { (plan : Ports) (names : Names) (g : GroupOperation) (things : List Thing) (t : Thing) (c : Call Vid) (b : Body Vid) → IsCallFor (HasGroupVid plan names g) things (Make t) c → c ≡ call.Create b → has_id b ≡ has_number t }
    ensures removed { (plan : Ports) (names : Names) (things : List Thing) (n : ThingName) (c : Call Vid) (v : Vid) → IsCallFor (HasVid plan names) things (Take n) c → c ≡ call.Remove (entry.Oid v) → HasVid plan names n v }
    ensures removed_of_group { (plan : Ports) (names : Names) (g : GroupOperation) (things : List Thing) (n : ThingName) (c : Call Vid) (v : Vid) → g.builds ≡ false → IsCallFor (HasGroupVid plan names g) things (Take n) c → c ≡ call.Remove (entry.Oid v) → HasVid plan names n v }
{}

/// In a safe state, where each object that stands has its identifier, the registry has those that the change needs which is due
/// next for a worker: of a row's operation that builds no group, and of the operation of a group, be it built, or taken away.
pub fn identifiers_are_known()
    ensures row { (plan : Ports) (workers : ℕ) (capacities : List ℕ) (s : SwitchState) (names : Names) (rid : Vid → Option Rid) (flown : ℕ → Option Flown) (w : ℕ) (f : Operation) (change : Change) (rest : List Change) → IsPlan plan → IsSafe plan workers capacities s → Identified plan names rid flown s.machine.stands → BuildsGroups names flown → KnowsNames plan names s.machine → s.machine.board.flights w ≡ Some (flight_of f) → f.due ≡ change ∷ rest → s.machine.due w ≡ change ∷ rest → (IsOfGroup plan change → ⊥) → ((g : GroupOperation) → IsUnderWay flown w g → g.builds ≡ true → ⊥) → KnowsIds names f }
    ensures built { (plan : Ports) (workers : ℕ) (capacities : List ℕ) (s : SwitchState) (names : Names) (rid : Vid → Option Rid) (flown : ℕ → Option Flown) (w : ℕ) (f : MachineFlight) (g : GroupOperation) → IsPlan plan → IsSafe plan workers capacities s → Identified plan names rid flown s.machine.stands → s.machine.board.flights w ≡ Some f → g.builds ≡ true → IsGroupOver plan g → IsIn (Group g.hops) (uses_of plan f.key f.new) → KnowsGroupIds names g }
    ensures taken { (plan : Ports) (workers : ℕ) (capacities : List ℕ) (s : SwitchState) (names : Names) (rid : Vid → Option Rid) (flown : ℕ → Option Flown) (w : ℕ) (f : MachineFlight) (g : GroupOperation) (n : ThingName) (rest : List Change) → IsPlan plan → IsSafe plan workers capacities s → Identified plan names rid flown s.machine.stands → BuildsGroups names flown → HasWholeGroups names → s.machine.board.flights w ≡ Some f → g.builds ≡ false → state_of names (name.Group g.hops) ≡ state.Retiring w → s.machine.due w ≡ Take n ∷ rest → IsOwnedBy plan n (Group g.hops) → KnowsGroupIds names g }
{}

/// A port for which the key of an operation has a row now stands so, while the key is to have one: when the operation starts; when a
/// call is made of its own, of a group's, or of another worker's. So it stands where an attribute of it is set.
pub fn ports_are_held()
    ensures started { (plan : Ports) (m : Machine) (names : Names) (w : ℕ) (k : Key) (new : Option Row) → IsPlan plan → IsConsistent plan m → IsResting m.board k → HoldsPort plan m (started_operation plan names w k (m.board.applied k) new) }
    ensures took { (plan : Ports) (workers : ℕ) (capacities : List ℕ) (s t : SwitchState) (call : Call Rid) (x : IsAnswer plan workers call s t) (names : Names) (names' : Names) (f : Operation) (f' : Operation) (made : Option Vid) (rest : List Change) → IsPlan plan → IsSafe plan workers capacities s → s.machine.board.flights x.next.worker ≡ Some (flight_of f) → f.due ≡ x.next.change ∷ rest → IsTook f made names f' names' → HoldsPort plan s.machine f → HoldsPort plan t.machine f' }
    ensures grouped { (plan : Ports) (workers : ℕ) (capacities : List ℕ) (s t : SwitchState) (call : Call Rid) (x : IsAnswer plan workers call s t) (f : Operation) → IsPlan plan → IsSafe plan workers capacities s → IsOfGroup plan x.next.change → HoldsPort plan s.machine f → HoldsPort plan t.machine f }
    ensures others { (plan : Ports) (workers : ℕ) (capacities : List ℕ) (s t : SwitchState) (call : Call Rid) (x : IsAnswer plan workers call s t) (v : ℕ) (f : Operation) → IsPlan plan → IsSafe plan workers capacities s → (v ≡ x.next.worker → ⊥) → s.machine.board.flights v ≡ Some (flight_of f) → IsOver plan f → HoldsPort plan s.machine f → HoldsPort plan t.machine f }
    ensures stand { (plan : Ports) (workers : ℕ) (capacities : List ℕ) (s : SwitchState) (w : ℕ) (f : Operation) (change : Change) (rest : List Change) → IsSafe plan workers capacities s → s.machine.board.flights w ≡ Some (flight_of f) → s.machine.due w ≡ change ∷ rest → HoldsPort plan s.machine f → PortsStand s.machine (things_held plan f) change }
{}

/// A group's name has no identifier, or one of the group and one of each member: at first; when names have started, when an operation
/// leaves what it shared, or ends; and when a call is made, of a row's operation or of a group's.
pub fn groups_stay_whole()
    ensures nothing { HasWholeGroups [] }
    ensures started { (plan : Ports) (names : Names) (w : ℕ) (k : Key) (old : Option Row) (new : Option Row) → IsPlan plan → MayStart plan names w k old new → HasWholeGroups names → HasWholeGroups (started_names plan names w k old new) }
    ensures left { (names : Names) (w : ℕ) (k : Key) (o : Owner) → state_of names (name_for o) ≡ state.Live → HasWholeGroups names → HasWholeGroups (left_names names w k o) }
    ensures ended { (names : Names) (w : ℕ) (k : Key) (old : Option Row) (new : Option Row) → HasWholeGroups names → HasWholeGroups (ended_names names w k old new) }
    ensures took { (names : Names) (names' : Names) (f : Operation) (f' : Operation) (made : Option Vid) → MayTake f made names → IsTook f made names f' names' → HasWholeGroups names → HasWholeGroups names' }
    ensures built { (names : Names) (names' : Names) (w : ℕ) (g : GroupOperation) (g' : GroupOperation) (made : Option Vid) → g.builds ≡ true → state_of names (name.Group g.hops) ≡ state.Building w → IsPartlyBuilt g' → IsGroupTook g made names g' names' → HasWholeGroups names → HasWholeGroups names' }
    ensures taken { (names : Names) (names' : Names) (g : GroupOperation) (g' : GroupOperation) (made : Option Vid) → HasRisingKeys registered_name_cmp names → g.builds ≡ false → IsGroupTook g made names g' names' → HasWholeGroups names → HasWholeGroups names' }
{}

/// Each object that stands keeps its identifier when the names of an operation have started; when an operation leaves what it
/// shared, or ends; when the operation of a group begins; when the operations under way change, but for those that build groups; and
/// when the same things stand by other identifiers of the chip, to which those of the service are tied.
pub fn names_keep_identifiers()
    ensures started { (plan : Ports) (names : Names) (rid : Vid → Option Rid) (flown : ℕ → Option Flown) (stands : List (Rid × Thing)) (w : ℕ) (k : Key) (old : Option Row) (new : Option Row) → IsPlan plan → MayStart plan names w k old new → Identified plan names rid flown stands → Identified plan (started_names plan names w k old new) rid flown stands }
    ensures left { (plan : Ports) (names : Names) (rid : Vid → Option Rid) (flown : ℕ → Option Flown) (stands : List (Rid × Thing)) (w : ℕ) (k : Key) (o : Owner) → state_of names (name_for o) ≡ state.Live → Identified plan names rid flown stands → Identified plan (left_names names w k o) rid flown stands }
    ensures ended { (plan : Ports) (m : Machine) (names : Names) (rid : Vid → Option Rid) (flown : ℕ → Option Flown) (w : ℕ) (f : MachineFlight) (old : Option Row) → IsConsistent plan m → Ends m w f → MayEnd names w f.key f.new → Identified plan names rid flown m.stands → Identified plan (ended_names names w f.key old f.new) rid flown m.stands }
    ensures begun { (plan : Ports) (names : Names) (rid : Vid → Option Rid) (flown : ℕ → Option Flown) (stands : List (Rid × Thing)) (w : ℕ) (x : Flown) (hops : List WHop) (builds : Bool) → flown w ≡ Some x → x.group ≡ None → Identified plan names rid flown stands → Identified plan names rid (put w (Some (record { operation = x.operation; group = Some (first_group plan w hops builds) })) flown) stands × (builds ≡ true → IsPartlyBuilt (first_group plan w hops builds)) }
    ensures same { (plan : Ports) (names : Names) (names' : Names) (rid : Vid → Option Rid) (flown : ℕ → Option Flown) (stands : List (Rid × Thing)) → HaveSameIds names names' → Identified plan names rid flown stands → Identified plan names' rid flown stands }
    ensures flown { (plan : Ports) (names : Names) (rid : Vid → Option Rid) (flown : ℕ → Option Flown) (flown' : ℕ → Option Flown) (stands : List (Rid × Thing)) → KeepsBuilds flown flown' → Identified plan names rid flown stands → Identified plan names rid flown' stands }
    ensures tied { (plan : Ports) (names : Names) (rid : Vid → Option Rid) (rid' : Vid → Option Rid) (flown : ℕ → Option Flown) (stands : List (Rid × Thing)) (stands' : List (Rid × Thing)) → ((j : Rid) (t : Thing) → IsIn (j, t) stands' → (i : Rid) × IsIn (i, t) stands × ((v : Vid) → rid v ≡ Some i → rid' v ≡ Some j)) → Identified plan names rid flown stands → Identified plan names rid' flown stands' }
    ensures put { (flown : ℕ → Option Flown) (w : ℕ) (y : Option Flown) → ((g : GroupOperation) → IsUnderWay flown w g → g.builds ≡ true → (x : Flown) × (y ≡ Some x) × (x.group ≡ Some g)) → KeepsBuilds flown (put w y flown) }
{}

/// Each object that stands has its identifier when the call is made that is due for a worker: of a row's operation, with what it
/// leaves at once; of the operation that builds a group, whose identifiers it has until it is whole; and of the one that takes it away.
pub fn answers_keep_identifiers()
    ensures row { (plan : Ports) (workers : ℕ) (capacities : List ℕ) (s t : SwitchState) (call : Call Rid) (x : IsAnswer plan workers call s t) (names : Names) (names' : Names) (rid : Vid → Option Rid) (rid' : Vid → Option Rid) (flown : ℕ → Option Flown) (f : Operation) (f' : Operation) (made : Option Vid) (rest : List Change) → IsPlan plan → IsSafe plan workers capacities s → Identified plan names rid flown s.machine.stands → BuildsGroups names flown → s.machine.board.flights x.next.worker ≡ Some (flight_of f) → f.due ≡ x.next.change ∷ rest → (IsOfGroup plan x.next.change → ⊥) → MayTake f made names → IsTook f made names f' names' → TiesAfter plan names rid rid' x.next.change made x.id → Identified plan names' rid' flown t.machine.stands }
    ensures built { (plan : Ports) (workers : ℕ) (capacities : List ℕ) (s t : SwitchState) (call : Call Rid) (x : IsAnswer plan workers call s t) (names : Names) (names' : Names) (rid : Vid → Option Rid) (rid' : Vid → Option Rid) (flown : ℕ → Option Flown) (flown' : ℕ → Option Flown) (g : GroupOperation) (g' : GroupOperation) (made : Option Vid) (rest : List Change) → IsPlan plan → IsSafe plan workers capacities s → Identified plan names rid flown s.machine.stands → BuildsGroups names flown → IsUnderWay flown x.next.worker g → g.builds ≡ true → IsPartlyBuilt g → g.due ≡ x.next.change ∷ rest → IsGroupTook g made names g' names' → TiesAfter plan names rid rid' x.next.change made x.id → FliesOn flown flown' x.next.worker g' → Identified plan names' rid' flown' t.machine.stands × IsPartlyBuilt g' }
    ensures taken { (plan : Ports) (workers : ℕ) (capacities : List ℕ) (s t : SwitchState) (call : Call Rid) (x : IsAnswer plan workers call s t) (names : Names) (names' : Names) (rid : Vid → Option Rid) (rid' : Vid → Option Rid) (flown : ℕ → Option Flown) (g : GroupOperation) (g' : GroupOperation) (made : Option Vid) (rest : List Change) (n : ThingName) → IsPlan plan → IsSafe plan workers capacities s → Identified plan names rid flown s.machine.stands → BuildsGroups names flown → g.builds ≡ false → g.due ≡ x.next.change ∷ rest → s.machine.due x.next.worker ≡ g.due → x.next.change ≡ Take n → IsOwnedBy plan n (Group g.hops) → x.next.flight.retires ≡ Some (Group g.hops) → IsGroupTook g made names g' names' → TiesAfter plan names rid rid' x.next.change made x.id → Identified plan names' rid' flown t.machine.stands }
{}
