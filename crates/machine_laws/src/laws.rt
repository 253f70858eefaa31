// What whole settlings and logs of the machine come to. Each function is a law: it does nothing, and its contract is proved.
ghost use Rattle.std.specs.Prelude.{◌≡◌, ◌∷◌, ◌++◌, ◌⊎◌, ℕ, ◌+◌, ◌*◌, ◌≤◌, ◌<◌, true, List, [], length, Option, Some, None};
ghost use Rattle.swss_types.specs.declared.vrf.Vrf.{Vrf};
ghost use Rattle.swss_types.specs.declared.vrf.Vrf.TheVariants as vrf;
ghost use Rattle.table_schema.specs.Fields.{Pairs};
ghost use Rattle.table_schema.specs.KeyText.{key_of};
ghost use Rattle.table_schema.specs.Names.{names_of};
ghost use Rattle.table_schema.specs.Plan.{IsPlan, Ports};
ghost use Rattle.table_schema.specs.Rows.{rows_of};
ghost use Rattle.table_schema.specs.declared.key.Key.{Key};
ghost use Rattle.table_schema.specs.declared.row.Row.{Row};
ghost use Rattle.sai_types.specs.declared.body.Call.{Call};
ghost use Rattle.sai_types.specs.declared.body.Entry.{Entry};
ghost use Rattle.sai_types.specs.declared.ids.Rid.{Rid};
ghost use Rattle.sai_types.specs.declared.kind.Kind.{Kind};
ghost use Rattle.sai_types.specs.Alike.{IsAlike, IsIn};
ghost use Rattle.switch_model.specs.Desired.{IsClosed, IsThingOf, have_rows};
ghost use Rattle.switch_model.specs.Good.{TypedRows, good_row, good_rows};
ghost use Rattle.switch_model.specs.Levels.{level_of};
ghost use Rattle.switch_model.specs.Marks.{Waiting};
ghost use Rattle.switch_model.specs.Placed.{Placed, bare, bare_rows, place, router_in};
ghost use Rattle.switch_model.specs.Promises.{EffectsAreLegal, MarksAreTrue, good_rows_at};
ghost use Rattle.switch_model.specs.Room.{IsStill};
ghost use Rattle.switch_model.specs.Sound.{AreWithin};
ghost use Rattle.switch_model.specs.Turns.{TakeTurns};
ghost use Rattle.row_layout.specs.Operations.{Change};
ghost use Rattle.switch_machine.specs.Events.{AreAnswers, AreEvents, IsBegin, IsDueCall, IsQuiet, IsSafe, SwitchState, after_answers, after_events, calls_of, empty_switch, placed_good};
ghost use Rattle.switch_machine.specs.Flights.{Fits, MachineFlight, IsResting, IsRow, goes_over};
ghost use Rattle.switch_machine.specs.Next.{MustWait};
ghost use Rattle.switch_machine.specs.Operations.{MayBegin};
ghost use Rattle.switch_machine.specs.Places.{HasRoomFor};
ghost use Rattle.switch_machine.specs.Reasons.{LacksRoom};
ghost use Rattle.switch_machine.specs.Written.{HasNoWrite, Written, good_of};
ghost use Rattle.machine_laws.specs.Bounds.{most_calls};
ghost use Rattle.machine_laws.specs.Calls.{AreTurnsWith, AreTurnsWithSoFar, CompletesWith, Situation};
ghost use Rattle.machine_laws.specs.Logged.{AreListed, AreLoggedEvents, IsInPops, IsInTurns, IsSettlingSoFar, IsWholeSettling, ListsKey, LoggedSwitch, LogsMark, AreNoWritesOf, after_logged, after_pops, new_switch};
ghost use Rattle.machine_laws.specs.Order.{IsOrdered};
ghost use Rattle.machine_laws.specs.Quiet.{ChangesEntry, LeavesAlone, NamesNot, EntryStandsFor};
ghost use Rattle.machine_laws.specs.Reading.{IsOnSwitch};
ghost use Rattle.machine_laws.specs.Settling.{AreMachineTurns, AreMachineTurnsSoFar, IsSituationOf, RunsAlone, situation};
ghost use Rattle.machine_laws.specs.ToSync.{AreAtRest, AreInKeyOrder, AreSynced, HasRoomTogether, HaveInterfaces};

/// A row names only keys of lower levels. From rows at rest, with closed good rows, room for the applied and the good rows together,
/// and no interface that a good row names in another router than it is in, turns leave no key, are at most four, and bring each key
/// its good row.
pub fn four_turns()
    ensures levels { (k p : Key) (r : Row) → IsIn p (names_of k r) → level_of p < level_of k }
    ensures four { (plan : Ports) (capacities : List ℕ) (good applied later : TypedRows) (keys left : List Key) (n : ℕ) → IsClosed good → HaveInterfaces good → AreAtRest plan capacities applied → IsStill applied good → HasRoomTogether plan capacities applied good → AreSynced good applied keys → AreInKeyOrder keys → TakeTurns plan capacities good n applied keys later left → (left ≡ []) × (n ≤ 4) × ((k : Key) → later k ≡ good k) }
{}

/// The calls of an operation that runs alone are those of the changes of its key's rows, one for each, in their order; then the
/// key has its good row, and every other row is as it was. Each operation that begins at rest can be run to its end.
pub fn operations_make_their_calls()
    ensures ends { (plan : Ports) (workers : ℕ) (capacities : List ℕ) (s t : SwitchState) (x : IsBegin plan workers capacities s t) → IsPlan plan → IsSafe plan workers capacities s → IsQuiet s → (es : List (Call Rid × SwitchState)) × AreAnswers plan workers t es × IsQuiet (after_answers t es) }
    ensures calls { (plan : Ports) (workers : ℕ) (capacities : List ℕ) (k : Key) (s t : SwitchState) (calls : List (Call Rid)) → IsPlan plan → IsSafe plan workers capacities s → IsQuiet s → RunsAlone plan workers capacities k s t calls → (z : Situation) × CompletesWith plan (good_of plan s.written) k (situation s) z calls × IsSituationOf z t }
{}

/// A settling is a list of events of the machine. Its rows and its calls are those of turns over rows: key by key, in order, and
/// no other; and it ends safe and quiet, with nothing written. Where it ends a mark can list what waits: each key to sync with
/// its reason, and no key that the last turn did not leave. From rest there are turns over keys to sync that were read.
pub fn settlings_are_turns()
    ensures exist { (plan : Ports) (workers : ℕ) (capacities : List ℕ) (s : SwitchState) (keys : List Key) → IsPlan plan → 0 < workers → IsSafe plan workers capacities s → IsQuiet s → AreInKeyOrder keys → ((k : Key) → IsIn k keys → IsIn k s.to_sync) → ((k : Key) → IsIn k keys → IsOnSwitch k) → (n : ℕ) × (t : SwitchState) × (left : List Key) × (calls : List (Call Rid)) × AreMachineTurns plan workers capacities n s keys t left calls }
    ensures events { (plan : Ports) (workers : ℕ) (capacities : List ℕ) (n : ℕ) (s t : SwitchState) (keys left : List Key) (calls : List (Call Rid)) → AreMachineTurns plan workers capacities n s keys t left calls → (es : List (Option (Call Rid) × SwitchState)) × AreEvents plan workers capacities s es × (after_events s es ≡ t) × (calls_of es ≡ calls) }
    ensures calls { (plan : Ports) (workers : ℕ) (capacities : List ℕ) (n : ℕ) (s t : SwitchState) (keys left : List Key) (calls : List (Call Rid)) → IsPlan plan → IsSafe plan workers capacities s → IsQuiet s → AreMachineTurns plan workers capacities n s keys t left calls → (z : Situation) × AreTurnsWith plan capacities (good_of plan s.written) n (situation s) keys z left calls × IsSituationOf z t × IsSafe plan workers capacities t × IsQuiet t × (t.written ≡ s.written) }
    ensures turns { (plan : Ports) (capacities : List ℕ) (good : TypedRows) (n : ℕ) (s t : Situation) (keys left : List Key) (calls : List (Call Rid)) → AreTurnsWith plan capacities good n s keys t left calls → TakeTurns plan capacities good n s.applied keys t.applied left }
    ensures lists { (plan : Ports) (workers : ℕ) (capacities : List ℕ) (n : ℕ) (s t : SwitchState) (keys left : List Key) (calls : List (Call Rid)) → ((q : Key) → IsIn q s.to_sync → IsIn q keys) → AreMachineTurns plan workers capacities n s keys t left calls → (waits : Waiting) × AreListed plan workers capacities t waits × ((q : Key) → IsIn q t.to_sync → ListsKey q waits) × ((q : Key) → ListsKey q waits → IsIn q left) }
{}

/// Turns that are cut off, anywhere, are a list of events of the machine. Their calls are those of turns over rows, cut off; and so
/// are they with one more, which was due and failed. Whole turns are turns so far, one less where they left a key.
pub fn turns_so_far_are_turns()
    ensures events { (plan : Ports) (workers : ℕ) (capacities : List ℕ) (n : ℕ) (s t : SwitchState) (keys : List Key) (calls : List (Call Rid)) → AreMachineTurnsSoFar plan workers capacities n s keys t calls → (es : List (Option (Call Rid) × SwitchState)) × AreEvents plan workers capacities s es × (after_events s es ≡ t) × (calls_of es ≡ calls) }
    ensures calls { (plan : Ports) (workers : ℕ) (capacities : List ℕ) (n : ℕ) (s t : SwitchState) (keys : List Key) (calls : List (Call Rid)) → IsPlan plan → IsSafe plan workers capacities s → IsQuiet s → AreMachineTurnsSoFar plan workers capacities n s keys t calls → AreTurnsWithSoFar plan capacities (good_of plan s.written) n (situation s) keys calls }
    ensures failed { (plan : Ports) (workers : ℕ) (capacities : List ℕ) (n : ℕ) (s t : SwitchState) (keys : List Key) (calls : List (Call Rid)) (call : Call Rid) → IsPlan plan → IsSafe plan workers capacities s → IsQuiet s → AreMachineTurnsSoFar plan workers capacities n s keys t calls → IsDueCall workers call t → AreTurnsWithSoFar plan capacities (good_of plan s.written) n (situation s) keys (calls ++ call ∷ []) }
    ensures whole { (plan : Ports) (workers : ℕ) (capacities : List ℕ) (n : ℕ) (s t : SwitchState) (keys left : List Key) (calls : List (Call Rid)) → AreMachineTurns plan workers capacities n s keys t left calls → (m : ℕ) × (((left ≡ []) × (m ≡ n)) ⊎ ((0 < length left) × (n ≡ m + 1))) × AreMachineTurnsSoFar plan workers capacities m s keys t calls }
{}

/// While no operation is under way the applied rows are at rest, and the good row of an interface's key is an interface's. With
/// closed good rows, room for the applied and the good rows together, and no interface that a good row names in another router than
/// it is in, a settling leaves no key, takes at most four turns, brings each key its good row and the chip the things of the good
/// rows; and no key waits after it, so its mark lists none.
pub fn settlings_drain()
    ensures rests { (plan : Ports) (workers : ℕ) (capacities : List ℕ) (s : SwitchState) → IsPlan plan → IsSafe plan workers capacities s → IsQuiet s → AreAtRest plan capacities (bare_rows s.machine.board.applied) }
    ensures interfaces { (plan : Ports) (written : Written) → HaveInterfaces (good_of plan written) }
    ensures drains { (plan : Ports) (workers : ℕ) (capacities : List ℕ) (n : ℕ) (s t : SwitchState) (keys left : List Key) (calls : List (Call Rid)) → IsPlan plan → IsSafe plan workers capacities s → IsQuiet s → IsClosed (good_of plan s.written) → IsStill (bare_rows s.machine.board.applied) (good_of plan s.written) → HasRoomTogether plan capacities (bare_rows s.machine.board.applied) (good_of plan s.written) → ((k : Key) → IsIn k s.to_sync → IsIn k keys) → AreInKeyOrder keys → AreMachineTurns plan workers capacities n s keys t left calls → (left ≡ []) × (n ≤ 4) × ((k : Key) → bare_rows t.machine.board.applied k ≡ good_of plan s.written k) × IsAlike t.objects (IsThingOf plan (good_of plan s.written)) }
    ensures nothing_waits { (plan : Ports) (workers : ℕ) (capacities : List ℕ) (n : ℕ) (s t : SwitchState) (keys left : List Key) (calls : List (Call Rid)) (waits : Waiting) → IsPlan plan → IsSafe plan workers capacities s → IsQuiet s → IsClosed (good_of plan s.written) → IsStill (bare_rows s.machine.board.applied) (good_of plan s.written) → HasRoomTogether plan capacities (bare_rows s.machine.board.applied) (good_of plan s.written) → ((k : Key) → IsIn k s.to_sync → IsIn k keys) → AreInKeyOrder keys → AreMachineTurns plan workers capacities n s keys t left calls → AreListed plan workers capacities t waits → waits ≡ [] }
{}

/// A settling without a restart and a fault is a list of logged events, which ends at its mark. Its effects are those of as many
/// turns as the mark counts, over the rows that were applied before it and the good rows of all that was written. The turns
/// begin with the keys that were to sync and those of which a write waited.
pub fn settlings_are_logged()
    ensures events { (plan : Ports) (workers : ℕ) (capacities : List ℕ) (s t : LoggedSwitch) (x : IsWholeSettling plan workers capacities s t) → IsPlan plan → IsSafe plan workers capacities s.switch → IsQuiet s.switch → (ts : List LoggedSwitch) × AreLoggedEvents plan workers capacities s ts × (after_logged s ts ≡ t) }
    ensures effects { (plan : Ports) (workers : ℕ) (capacities : List ℕ) (s t : LoggedSwitch) (x : IsWholeSettling plan workers capacities s t) → IsPlan plan → IsSafe plan workers capacities s.switch → IsQuiet s.switch → (z : Situation) × AreTurnsWith plan capacities (good_of plan (after_pops s.switch x.pops).written) x.turns (situation s.switch) x.keys z x.left x.calls × IsSituationOf z t.switch }
    ensures good { (plan : Ports) (workers : ℕ) (capacities : List ℕ) (s t : LoggedSwitch) (x : IsWholeSettling plan workers capacities s t) (k : Key) → IsPlan plan → IsSafe plan workers capacities s.switch → good_of plan (after_pops s.switch x.pops).written k ≡ good_rows plan (rows_of s.switch.written.taken) k }
    ensures keys { (plan : Ports) (workers : ℕ) (capacities : List ℕ) (s t : LoggedSwitch) (x : IsWholeSettling plan workers capacities s t) (k : Key) → (IsIn k s.switch.to_sync → IsIn k x.keys) × ((HasNoWrite s.switch.written k → ⊥) → IsIn k x.keys) × (IsIn k x.keys → HasNoWrite s.switch.written k → IsIn k s.switch.to_sync) }
{}

/// A settling so far, cut off anywhere before its mark, is a list of logged events, and safe. While keys are popped no call is due.
/// Then its calls, and with them one more that was due and failed, are those of turns, cut off, over the rows that were applied
/// before it and the good rows of all that was written. A whole settling is one so far, up to its mark.
pub fn settlings_so_far_are_logged()
    ensures events { (plan : Ports) (workers : ℕ) (capacities : List ℕ) (s t : LoggedSwitch) → IsSettlingSoFar plan workers capacities s t → (ts : List LoggedSwitch) × AreLoggedEvents plan workers capacities s ts × (after_logged s ts ≡ t) }
    ensures safe { (plan : Ports) (workers : ℕ) (capacities : List ℕ) (s t : LoggedSwitch) → IsPlan plan → IsSafe plan workers capacities s.switch → IsSettlingSoFar plan workers capacities s t → IsSafe plan workers capacities t.switch }
    ensures pops { (workers : ℕ) (s t : LoggedSwitch) → IsInPops s t → IsQuiet s.switch → IsQuiet t.switch × ((call : Call Rid) → IsDueCall workers call t.switch → ⊥) }
    ensures effects { (plan : Ports) (workers : ℕ) (capacities : List ℕ) (s t : LoggedSwitch) (x : IsInTurns plan workers capacities s t) → IsPlan plan → IsSafe plan workers capacities s.switch → IsQuiet s.switch → AreTurnsWithSoFar plan capacities (good_of plan (after_pops s.switch x.pops).written) x.turns (situation s.switch) x.keys x.calls }
    ensures failed { (plan : Ports) (workers : ℕ) (capacities : List ℕ) (s t : LoggedSwitch) (x : IsInTurns plan workers capacities s t) (call : Call Rid) → IsPlan plan → IsSafe plan workers capacities s.switch → IsQuiet s.switch → IsDueCall workers call t.switch → AreTurnsWithSoFar plan capacities (good_of plan (after_pops s.switch x.pops).written) x.turns (situation s.switch) x.keys (x.calls ++ call ∷ []) }
    ensures good { (plan : Ports) (workers : ℕ) (capacities : List ℕ) (s t : LoggedSwitch) (x : IsInTurns plan workers capacities s t) (k : Key) → IsPlan plan → IsSafe plan workers capacities s.switch → good_of plan (after_pops s.switch x.pops).written k ≡ good_rows plan (rows_of s.switch.written.taken) k }
    ensures keys { (plan : Ports) (workers : ℕ) (capacities : List ℕ) (s t : LoggedSwitch) (x : IsInTurns plan workers capacities s t) (k : Key) → (IsIn k s.switch.to_sync → IsIn k x.keys) × ((HasNoWrite s.switch.written k → ⊥) → IsIn k x.keys) × (IsIn k x.keys → HasNoWrite s.switch.written k → IsIn k s.switch.to_sync) }
    ensures whole { (plan : Ports) (workers : ℕ) (capacities : List ℕ) (s t : LoggedSwitch) (x : IsWholeSettling plan workers capacities s t) → (y : IsInTurns plan workers capacities s (record { switch = t.switch; log = s.log; effects = t.effects })) × (y.pops ≡ x.pops) × (y.keys ≡ x.keys) × (y.calls ≡ x.calls) }
{}

/// From the new switch on the switch is safe, each mark is true, the marks stand in order, each
/// directly before the end of a round, their counts never fall nor exceed what there is, and each call that took
/// effect was legal and left no route that no row sent.
pub fn marks_are_true()
    ensures safe { (plan : Ports) (workers : ℕ) (capacities : List ℕ) (ts : List LoggedSwitch) → IsPlan plan → AreLoggedEvents plan workers capacities new_switch ts → IsSafe plan workers capacities (after_logged new_switch ts).switch }
    ensures marks { (plan : Ports) (workers : ℕ) (capacities : List ℕ) (ts : List LoggedSwitch) → IsPlan plan → AreLoggedEvents plan workers capacities new_switch ts → MarksAreTrue plan capacities (after_logged new_switch ts).log (after_logged new_switch ts).effects }
    ensures order { (plan : Ports) (workers : ℕ) (capacities : List ℕ) (ts : List LoggedSwitch) → IsPlan plan → AreLoggedEvents plan workers capacities new_switch ts → IsOrdered (after_logged new_switch ts).log }
    ensures counts { (plan : Ports) (workers : ℕ) (capacities : List ℕ) (ts : List LoggedSwitch) → IsPlan plan → AreLoggedEvents plan workers capacities new_switch ts → AreWithin (length (after_logged new_switch ts).log.taken) (length (after_logged new_switch ts).effects) (after_logged new_switch ts).log.marks }
    ensures effects { (plan : Ports) (workers : ℕ) (capacities : List ℕ) (ts : List LoggedSwitch) → IsPlan plan → AreLoggedEvents plan workers capacities new_switch ts → EffectsAreLegal plan capacities (after_logged new_switch ts).log.taken (after_logged new_switch ts).effects }
{}

/// What stands for the applied row of a key that is at rest is neither set nor removed by events that leave the key alone, and
/// stands for it still; so it is where no write of the key waits and the events take none, and after a mark that doesn't list the
/// key as long as no write of it is taken.
pub fn quiet_rows_stay()
    ensures alone { (plan : Ports) (workers : ℕ) (capacities : List ℕ) (k : Key) (s : SwitchState) (es : List (Option (Call Rid) × SwitchState)) (e : Entry Rid) → IsPlan plan → IsSafe plan workers capacities s → AreEvents plan workers capacities s es → LeavesAlone k s es → IsResting s.machine.board k → (IsIn k s.to_sync → ⊥) → EntryStandsFor plan k e s.machine → IsResting (after_events s es).machine.board k × EntryStandsFor plan k e (after_events s es).machine × ((call : Call Rid) → IsIn call (calls_of es) → ChangesEntry call e → ⊥) }
    ensures unnamed { (plan : Ports) (workers : ℕ) (capacities : List ℕ) (k : Key) (s : SwitchState) (es : List (Option (Call Rid) × SwitchState)) (e : Entry Rid) → IsPlan plan → IsSafe plan workers capacities s → (run : AreEvents plan workers capacities s es) → NamesNot plan workers capacities k s es run → HasNoWrite s.written k → IsResting s.machine.board k → (IsIn k s.to_sync → ⊥) → EntryStandsFor plan k e s.machine → IsResting (after_events s es).machine.board k × EntryStandsFor plan k e (after_events s es).machine × ((call : Call Rid) → IsIn call (calls_of es) → ChangesEntry call e → ⊥) }
    ensures round { (plan : Ports) (workers : ℕ) (capacities : List ℕ) (k : Key) (s t : LoggedSwitch) (x : LogsMark plan workers capacities s t) (ts : List LoggedSwitch) (run : AreLoggedEvents plan workers capacities t ts) (e : Entry Rid) → IsPlan plan → IsSafe plan workers capacities t.switch → AreNoWritesOf plan workers capacities k t ts run → (ListsKey k x.waits → ⊥) → EntryStandsFor plan k e t.switch.machine → (calls : List (Call Rid)) × ((after_logged t ts).effects ≡ t.effects ++ calls) × EntryStandsFor plan k e (after_logged t ts).switch.machine × ((call : Call Rid) → IsIn call calls → ChangesEntry call e → ⊥) }
{}

/// From the new switch on each row that is applied or to be applied is its key's good row after some number of the writes taken.
pub fn rows_are_dated()
    ensures { (plan : Ports) (workers : ℕ) (capacities : List ℕ) (ts : List LoggedSwitch) (k : Key) (r : Placed) → IsPlan plan → AreLoggedEvents plan workers capacities new_switch ts → IsRow (after_logged new_switch ts).switch.machine.board k r → (n : ℕ) × (n ≤ length (after_logged new_switch ts).log.taken) × (good_rows_at plan (after_logged new_switch ts).log.taken n k ≡ Some (bare r)) }
{}

/// While no operation is under way an operation of a key that was read may begin for any worker, where all that its good row
/// names is applied and, where its applied row goes, no applied row names it. Where an operation may begin there is room for it,
/// or the key lacks room for a first kind; a row that goes needs none. So each key to sync has a reason to wait, or begins.
pub fn keys_may_begin()
    ensures reads { (text : List ℕ) → IsOnSwitch (key_of text) }
    ensures fits { (plan : Ports) (applied : TypedRows) (k : Key) (fields : Pairs) (r : Row) → ((q : Key) (x : Row) → applied q ≡ Some x → Fits plan q (place vrf.Default x)) → IsClosed applied → IsOnSwitch k → good_row plan k (Some fields) ≡ Some r → have_rows applied (names_of k r) ≡ true → (v : Vrf) → Fits plan k (place v r) }
    ensures begins { (plan : Ports) (workers : ℕ) (capacities : List ℕ) (s : SwitchState) (w : ℕ) (k : Key) → IsPlan plan → IsSafe plan workers capacities s → IsQuiet s → IsOnSwitch k → ((r : Row) → good_of plan s.written k ≡ Some r → have_rows (bare_rows s.machine.board.applied) (names_of k r) ≡ true) → (goes_over k (s.machine.board.applied k) (placed_good plan s.machine.board s.written k) ≡ true → (q : Key) (r : Row) → bare_rows s.machine.board.applied q ≡ Some r → IsIn k (names_of q r) → ⊥) → (f : MachineFlight) × (due : List Change) × (f.key ≡ k) × (f.new ≡ placed_good plan s.machine.board s.written k) × MayBegin plan s.machine w f due }
    ensures room { (plan : Ports) (workers : ℕ) (capacities : List ℕ) (s : SwitchState) (w : ℕ) (f : MachineFlight) (due : List Change) (row : Row) → MayBegin plan s.machine w f due → f.new ≡ Some (place (router_in (bare_rows s.machine.board.applied) f.key) row) → good_of plan s.written f.key ≡ Some row → HasRoomFor workers capacities s.objects s.machine due ⊎ ((kind : Kind) × LacksRoom plan workers capacities s f.key kind) }
    ensures room_gone { (plan : Ports) (workers : ℕ) (capacities : List ℕ) (s : SwitchState) (w : ℕ) (f : MachineFlight) (due : List Change) → MayBegin plan s.machine w f due → f.new ≡ None → HasRoomFor workers capacities s.objects s.machine due }
    ensures waits_or_begins { (plan : Ports) (workers : ℕ) (capacities : List ℕ) (s : SwitchState) (w : ℕ) (k : Key) → IsPlan plan → IsSafe plan workers capacities s → IsQuiet s → w < workers → IsIn k s.to_sync → IsOnSwitch k → MustWait plan workers capacities s k ⊎ ((t : SwitchState) × (x : IsBegin plan workers capacities s t) × (x.worker ≡ w) × (x.flight.key ≡ k)) }
{}

/// An operation that runs alone makes at most 259 calls: it builds a group of 128 hops, sets the route, and retires another such
/// group. From the empty switch at most so many are made for each write taken, by any number of workers.
pub fn calls_are_few()
    ensures operation { (plan : Ports) (workers : ℕ) (capacities : List ℕ) (s t : SwitchState) (x : IsBegin plan workers capacities s t) (es : List (Call Rid × SwitchState)) → IsSafe plan workers capacities s → IsQuiet s → AreAnswers plan workers t es → length es ≤ most_calls }
    ensures run { (plan : Ports) (workers : ℕ) (capacities : List ℕ) (es : List (Option (Call Rid) × SwitchState)) → IsPlan plan → AreEvents plan workers capacities empty_switch es → length (calls_of es) ≤ most_calls * length (after_events empty_switch es).written.taken }
{}
