// The parts of a settling, one step more each time. Each function is a law: it does nothing, and its contract is proved.
ghost use Rattle.std.specs.Prelude.{◌≡◌, ◌+◌, ◌<◌, ◌++◌, ℕ, List, [], ◌∷◌, length, None, Some};
ghost use Rattle.std.specs.Map.{keys_of};
ghost use Rattle.table_schema.specs.declared.key.Key.{Key};
ghost use Rattle.sai_types.specs.declared.body.Call.{Call};
ghost use Rattle.sai_types.specs.declared.ids.Rid.{Rid};
ghost use Rattle.sai_types.specs.Alike.{IsIn};
ghost use Rattle.sai_types.specs.ChipState.{ChipState};
ghost use Rattle.switch_model.specs.History.{with_end, with_mark};
ghost use Rattle.switch_model.specs.Marks.{Waiting};
ghost use Rattle.switch_model.specs.Marks as marks;
ghost use Rattle.switch_model.specs.declared.mark.MarkEvent.TheVariants as event;
ghost use Rattle.switch_model.specs.declared.wait.Wait.{Wait};
ghost use Rattle.consumer_table.specs.Ops.{AreOpsInOrder, Ops, first_in, keys_behind, without_op};
ghost use Rattle.retry_list.specs.Reasons.{with_reason};
ghost use Rattle.switch_machine.specs.Events.{IsAnswer, IsBegin, IsDrop, IsPop};
ghost use Rattle.switch_machine.specs.Reasons.{IsReason};
ghost use Rattle.machine_laws.specs.Logged.{ListsKey};
ghost use Rattle.restart_laws.specs.Logged.{LoggedService};
ghost use Rattle.session_laws.specs.Core.{CoreState, mark_at};
ghost use Rattle.session_laws.specs.Events.{HaveReasons, IsMachineStep, MakesOne, MakesSome};
ghost use Rattle.session_laws.specs.Standing.{IsSessionOf};
ghost use Rattle.session_laws.specs.Leading.{LeadsTo, PopsTo, RunsTo, SettlesTo};
ghost use Rattle.session_laws.specs.Turning.{IsAtRest, IsTurned, IsTurning, TurnsTo};
ghost use Rattle.session_laws.specs.Workers.{StaysByFirst};

/// Steps that lead to a session are steps of the core.
pub fn leads_are_steps()
    ensures none { (c : CoreState) (chip : ChipState) (s : LoggedService) → IsSessionOf c chip s → LeadsTo c s s c chip }
    ensures one { (c c' : CoreState) (chip' : ChipState) (s : LoggedService) (x : MakesOne c s c' chip') → StaysByFirst 0 s x.later → LeadsTo c s x.later c' chip' }
    ensures more { (c c' c'' : CoreState) (chip' chip'' : ChipState) (s t u : LoggedService) → LeadsTo c s t c' chip' → LeadsTo c' t u c'' chip'' → LeadsTo c s u c'' chip'' }
    ensures some { (c c' : CoreState) (chip' : ChipState) (s t : LoggedService) → LeadsTo c s t c' chip' → MakesSome c s c' chip' }
{}

/// Answers go on with one more.
pub fn runs_go_on()
    ensures none { (c : CoreState) (chip : ChipState) (s : LoggedService) → IsSessionOf c chip s → RunsTo c s c chip }
    ensures more { (c c' c'' : CoreState) (chip' chip'' : ChipState) (s : LoggedService) (x : RunsTo c s c' chip') (y : MakesOne c' x.later c'' chip'') (e : Call Rid) (z : IsAnswer c'.board.plan 4 e x.later.service.core y.later.service.core) → IsMachineStep x.later (Some e) y.later → RunsTo c s c'' chip'' }
    ensures both { (c c' c'' : CoreState) (chip' chip'' : ChipState) (s : LoggedService) (x : RunsTo c s c' chip') (y : RunsTo c' x.later c'' chip'') → RunsTo c s c'' chip'' }
{}

/// Pops go on with one more.
pub fn pops_go_on()
    ensures none { (c : CoreState) (chip : ChipState) (s : LoggedService) → IsSessionOf c chip s → PopsTo c s c chip }
    ensures more { (c c' c'' : CoreState) (chip' chip'' : ChipState) (s : LoggedService) (x : PopsTo c s c' chip') (y : MakesOne c' x.later c'' chip'') → IsPop x.later.service.core y.later.service.core → IsMachineStep x.later None y.later → PopsTo c s c'' chip'' }
{}

/// A walk over keys in order: behind none stand all; the first of those that are left is the next; and behind it stand the others,
/// whether it stays or goes.
pub fn walks_go_on()
    ensures next { (keys : List Key) (k : Key) → first_in keys ≡ Some k → (rest : List Key) × (keys ≡ k ∷ rest) }
    ensures last { (keys : List Key) → first_in keys ≡ None → keys ≡ [] }
    ensures stays { (ops : Ops) (left rest : List Key) (k : Key) → AreOpsInOrder ops → keys_of ops ≡ left ++ (k ∷ rest) → keys_behind (Some k) (keys_of ops) ≡ rest }
    ensures goes { (ops : Ops) (left rest : List Key) (k : Key) → AreOpsInOrder ops → keys_of ops ≡ left ++ (k ∷ rest) → (keys_of (without_op ops k) ≡ left ++ rest) × (keys_behind (Some k) (keys_of (without_op ops k)) ≡ rest) }
{}

/// A turn begins with all keys that are to sync; and goes on where a key waits and its reason is put on the list, where a key has its
/// good row, and where an operation begins for the first worker and is run to its end.
pub fn turns_go_on()
    ensures begins { (c : CoreState) (chip : ChipState) (s : LoggedService) → IsSessionOf c chip s → IsAtRest c → IsTurning (keys_of c.tables.ops) c s [] (keys_of c.tables.ops) c chip }
    ensures waits { (keys left rest : List Key) (k : Key) (c c' c'' : CoreState) (chip' : ChipState) (s : LoggedService) (x : IsTurning keys c s left (k ∷ rest) c' chip') (r : Wait) → IsSessionOf c'' chip' x.later → c''.board.plan ≡ c'.board.plan → c''.sync.capacities ≡ c'.sync.capacities → c''.limit ≡ c'.limit → IsAtRest c'' → c''.tables.ops ≡ c'.tables.ops → IsReason c'.board.plan 4 c'.sync.capacities x.later.service.core k r → c''.waiting ≡ with_reason c'.waiting k r → IsTurning keys c s (left ++ k ∷ []) rest c'' chip' }
    ensures drops { (keys left rest : List Key) (k : Key) (c c' c'' : CoreState) (chip' : ChipState) (s : LoggedService) (x : IsTurning keys c s left (k ∷ rest) c' chip') (y : MakesOne c' x.later c'' chip') (z : IsDrop c'.board.plan x.later.service.core y.later.service.core) → z.key ≡ k → IsMachineStep x.later None y.later → IsAtRest c'' → keys_of c''.tables.ops ≡ left ++ rest → IsTurning keys c s left rest c'' chip' }
    ensures runs { (keys left rest : List Key) (k : Key) (c c' c'' d : CoreState) (chip' chip'' : ChipState) (s : LoggedService) (x : IsTurning keys c s left (k ∷ rest) c' chip') (y : MakesOne c' x.later c'' chip') (z : IsBegin c'.board.plan 4 c'.sync.capacities x.later.service.core y.later.service.core) → z.flight.key ≡ k → z.worker ≡ 0 → IsMachineStep x.later None y.later → RunsTo c'' y.later d chip'' → IsAtRest d → keys_of d.tables.ops ≡ left ++ rest → IsTurning keys c s left rest d chip'' }
{}

/// Turns begin with none; go on with one that took a key away; and end where no key is to sync, or with one that took none away.
pub fn turns_follow()
    ensures none { (c : CoreState) (chip : ChipState) (s : LoggedService) → IsSessionOf c chip s → IsAtRest c → IsTurned 0 c s c chip }
    ensures more { (n : ℕ) (left : List Key) (c c' c'' : CoreState) (chip' chip'' : ChipState) (s : LoggedService) (x : IsTurned n c s c' chip') (y : IsTurning (keys_of c'.tables.ops) c' x.later left [] c'' chip'') → length (keys_of c''.tables.ops) < length (keys_of c'.tables.ops) → IsTurned (n + 1) c s c'' chip'' }
    ensures still { (n : ℕ) (left : List Key) (c c' c'' : CoreState) (chip' chip'' : ChipState) (s : LoggedService) (x : IsTurned n c s c' chip') (y : IsTurning (keys_of c'.tables.ops) c' x.later left [] c'' chip'') → 0 < length (keys_of c'.tables.ops) → length (keys_of c''.tables.ops) ≡ length (keys_of c'.tables.ops) → TurnsTo (n + 1) c s c'' chip'' }
    ensures empty { (n : ℕ) (c c' : CoreState) (chip' : ChipState) (s : LoggedService) → IsTurned n c s c' chip' → keys_of c'.tables.ops ≡ [] → TurnsTo n c s c' chip' }
{}

/// A settling ends at its mark: answers until no worker has anything under way, pops until no write waits, turns until no more are made,
/// and the mark with the keys that wait and the number of turns.
pub fn settlings_end()
    ensures { (n : ℕ) (c c1 c2 c3 : CoreState) (chip1 chip2 chip3 : ChipState) (s : LoggedService) (x : RunsTo c s c1 chip1) (y : PopsTo c1 x.later c2 chip2) (z : TurnsTo n c2 y.later c3 chip3) (waits : Waiting) → IsAtRest c2 → AreOpsInOrder c2.tables.ops → HaveReasons c3 z.later.service.core waits → ((k : Key) → IsIn k (keys_of c3.tables.ops) → ListsKey k waits) → ((k : Key) → ListsKey k waits → IsIn k (keys_of c3.tables.ops)) → marks.AreInOrder waits → SettlesTo c s (record c3 { log = with_end (with_mark c3.log (mark_at c3 (length chip3.effects) (event.Settled waits n))); listed = c3.listed + length waits }) chip3 }
{}
