// What holds of a core and its chip within a session, and of what the session awaits. Each function is a law: it does nothing, and its contract is proved.
ghost use Rattle.std.specs.Prelude.{◌≡◌, ◌⊎◌, ◌++◌, ◌∷◌, ℕ, ◌*◌, ◌+◌, ◌≤◌, ◌<◌, true, false, List, [], length, None, IsSome};
ghost use Rattle.table_schema.specs.Plan.{IsPlan, Ports};
ghost use Rattle.table_schema.specs.declared.key.Key.{Key};
ghost use Rattle.table_schema.specs.declared.write.Sent.{Sent};
ghost use Rattle.sai_types.specs.declared.body.Call.{Call};
ghost use Rattle.sai_types.specs.declared.ids.Rid.{Rid};
ghost use Rattle.sai_types.specs.declared.plan.PlanCall.{PlanCall};
ghost use Rattle.sai_types.specs.After.{chip_after};
ghost use Rattle.sai_types.specs.Alike.{IsIn};
ghost use Rattle.sai_types.specs.ChipState.{ChipState};
ghost use Rattle.sai_types.specs.Refusal.{IsLegal};
ghost use Rattle.switch_model.specs.History.{History, log_size};
ghost use Rattle.switch_model.specs.Marks.{Waiting};
ghost use Rattle.switch_model.specs.Marks as marks;
ghost use Rattle.switch_model.specs.Promises.{EffectsAreLegal, IsSettled, MarksAreTrue};
ghost use Rattle.switch_model.specs.Sound.{AreWithin, is_suspect};
ghost use Rattle.switch_model.specs.declared.mark.Mark.{Mark};
ghost use Rattle.switch_model.specs.declared.mark.MarkEvent.TheVariants as event;
ghost use Rattle.consumer_table.specs.Ops.{AreOpsInOrder};
ghost use Rattle.switch_machine.specs.Next.{MustWait};
ghost use Rattle.machine_laws.specs.Bounds.{most_calls};
ghost use Rattle.machine_laws.specs.Logged.{ListsKey};
ghost use Rattle.machine_laws.specs.Order.{IsOrdered};
ghost use Rattle.restart_laws.specs.Applied.{AreFollowed};
ghost use Rattle.restart_laws.specs.Bounded.{effects_outside, listed_at_applies};
ghost use Rattle.restart_laws.specs.Restored.{keys_waiting};
ghost use Rattle.restart_laws.specs.Logged.{AreLoggedSteps, IsWarmAfter, LoggedService, last_mark, mark_now, session_after};
ghost use Rattle.sync_tables.specs.Tables.{IsToSync};
ghost use Rattle.flight_board.specs.Board.{flown_at};
ghost use Rattle.warm_state.specs.declared.warm.Warm.TheVariants as warm;
ghost use Rattle.session_laws.specs.Core.{CoreState, new_core, size_beside};
ghost use Rattle.session_laws.specs.Events.{HaveReasons, MakesOne, MakesSome};
ghost use Rattle.session_laws.specs.Leading.{LeadsTo};
ghost use Rattle.session_laws.specs.Service.Built.{IsBuilt};
ghost use Rattle.session_laws.specs.Service.Events.{MakesMore, MakesNext};
ghost use Rattle.session_laws.specs.Service.Standing.{IsServiceOf};
ghost use Rattle.session_laws.specs.Workers.{AreByFirst, IsByFirst};
ghost use Rattle.round_laws.specs.Awaited.{AwaitsCall, AwaitsMark, HasRecorded};
ghost use Rattle.round_laws.specs.Named.{keys_named};
ghost use Rattle.round_laws.specs.Sessions.{BeginNoApply, InSession, InSteadySession};

/// A new core over a chip on which nothing stands is in a session, by any number of workers.
pub fn sessions_begin()
    ensures { (workers : ℕ) (plan : Ports) (capacities : List ℕ) (limit : ℕ) (chip : ChipState) → IsPlan plan → chip.objects ≡ [] → chip.effects ≡ [] → chip.clean ≡ true → chip.capacities ≡ capacities → InSession workers (new_core plan capacities limit) chip }
{}

/// Where a core in a session by so many workers makes a step of the service, some steps, or steps that lead to a later session, in any
/// warm state, and begins operations for these workers alone, the later core is in a session by them; and so is another core that stands
/// for the same session. So it is for steps of a core whose tables, board and syncd stand for the session then, where they take no write
/// and leave the core reconciled or suspect.
pub fn sessions_go_on()
    ensures one { (workers : ℕ) (c c' : CoreState) (chip chip' : ChipState) (x : InSession workers c chip) (y : MakesNext c x.session c' chip') → (IsByFirst workers x.session → IsByFirst workers y.later) → (z : InSession workers c' chip') × (z.session ≡ y.later) }
    ensures some { (workers w : ℕ) (c c' : CoreState) (chip chip' : ChipState) (x : InSession workers c chip) (y : MakesMore w c x.session c' chip') → w < workers → (z : InSession workers c' chip') × (z.session ≡ session_after x.session y.steps) }
    ensures leads { (workers : ℕ) (c c' : CoreState) (chip chip' : ChipState) (later : LoggedService) (steps : List LoggedService) (x : InSession workers c chip) → AreLoggedSteps c.board.plan 4 c.sync.capacities x.session steps → (IsByFirst workers x.session → AreByFirst workers steps) → session_after x.session steps ≡ later → IsServiceOf c' chip' later → c'.board.plan ≡ c.board.plan → c'.sync.capacities ≡ c.sync.capacities → (z : InSession workers c' chip') × (z.session ≡ later) }
    ensures same { (workers : ℕ) (c c' : CoreState) (chip chip' : ChipState) (x : InSession workers c chip) → IsServiceOf c' chip' x.session → c'.board.plan ≡ c.board.plan → c'.sync.capacities ≡ c.sync.capacities → InSession workers c' chip' }
    ensures works_one { (workers : ℕ) (c c' : CoreState) (chip chip' : ChipState) (x : InSession workers c chip) → c'.log.taken ≡ c.log.taken → (c'.warm ≡ warm.Reconciled) ⊎ (c'.warm ≡ warm.Suspect) → (y : MakesOne c x.session c' chip') → (IsByFirst workers x.session → IsByFirst workers y.later) → (z : InSession workers c' chip') × (z.session ≡ y.later) }
    ensures works_some { (workers : ℕ) (c c' : CoreState) (chip chip' : ChipState) (x : InSession workers c chip) → c'.log.taken ≡ c.log.taken → (c'.warm ≡ warm.Reconciled) ⊎ (c'.warm ≡ warm.Suspect) → 0 < workers → (y : MakesSome c x.session c' chip') → (z : InSession workers c' chip') × (z.session ≡ session_after x.session y.steps) }
    ensures works_on { (workers : ℕ) (c c' : CoreState) (chip chip' : ChipState) (later : LoggedService) (x : InSession workers c chip) → c'.log.taken ≡ c.log.taken → (c'.warm ≡ warm.Reconciled) ⊎ (c'.warm ≡ warm.Suspect) → 0 < workers → LeadsTo c x.session later c' chip' → (z : InSession workers c' chip') × (z.session ≡ later) }
{}

/// Steps only add to a log and to the effects.
pub fn sessions_grow()
    ensures effects { (workers w : ℕ) (c c' : CoreState) (chip chip' : ChipState) (x : InSession workers c chip) → MakesMore w c x.session c' chip' → (calls : List (Call Rid)) × (chip'.effects ≡ chip.effects ++ calls) }
    ensures taken { (workers w : ℕ) (c c' : CoreState) (chip chip' : ChipState) (x : InSession workers c chip) → MakesMore w c x.session c' chip' → (sent : List Sent) × (c'.log.taken ≡ c.log.taken ++ sent) }
    ensures marks { (workers w : ℕ) (c c' : CoreState) (chip chip' : ChipState) (x : InSession workers c chip) → MakesMore w c x.session c' chip' → (more : List Mark) × (c'.log.marks ≡ c.log.marks ++ more) }
    ensures ends { (workers w : ℕ) (c c' : CoreState) (chip chip' : ChipState) (x : InSession workers c chip) → MakesMore w c x.session c' chip' → (more : List ℕ) × (c'.log.ends ≡ c.log.ends ++ more) }
{}

/// Within a session each call that took effect was legal, and no route ever pointed where no row sent it; each mark is true; the marks
/// count what there is, and stand in their order, and no round ends but at the mark of a settling or of a fault; the last mark tells the
/// warm state; the chip holds what its effects left; outside applies the effects are few, by the writes taken and the keys listed where
/// applies began, and where none began all effects are; and applies are steady and short, also those that are broken off one after the
/// other.
pub fn sessions_are_true()
    ensures legality { (workers : ℕ) (c : CoreState) (chip : ChipState) → InSession workers c chip → EffectsAreLegal c.board.plan c.sync.capacities c.log.taken chip.effects }
    ensures marks { (workers : ℕ) (c : CoreState) (chip : ChipState) → InSession workers c chip → MarksAreTrue c.board.plan c.sync.capacities c.log chip.effects }
    ensures counts { (workers : ℕ) (c : CoreState) (chip : ChipState) → InSession workers c chip → AreWithin (length c.log.taken) (length chip.effects) c.log.marks }
    ensures order { (workers : ℕ) (c : CoreState) (chip : ChipState) → InSession workers c chip → IsOrdered c.log }
    ensures warm { (workers : ℕ) (c : CoreState) (chip : ChipState) → InSession workers c chip → IsWarmAfter (last_mark None c.log.marks) c.warm }
    ensures suspect { (workers : ℕ) (c : CoreState) (chip : ChipState) → InSession workers c chip → is_suspect c.log.marks ≡ true → c.warm ≡ warm.Suspect }
    ensures known { (workers : ℕ) (c : CoreState) (chip : ChipState) → InSession workers c chip → (c.warm ≡ warm.Suspect → ⊥) → is_suspect c.log.marks ≡ false }
    ensures objects { (workers : ℕ) (c : CoreState) (chip : ChipState) → InSession workers c chip → chip.objects ≡ chip_after chip.effects (length chip.effects) }
    ensures clean { (workers : ℕ) (c : CoreState) (chip : ChipState) → InSession workers c chip → chip.clean ≡ true }
    ensures capacities { (workers : ℕ) (c : CoreState) (chip : ChipState) → InSession workers c chip → chip.capacities ≡ c.sync.capacities }
    ensures size { (workers : ℕ) (c : CoreState) (chip : ChipState) → InSession workers c chip → size_beside c (length chip.effects) ≡ log_size c.log (length chip.effects) }
    ensures few { (workers : ℕ) (c : CoreState) (chip : ChipState) → InSession workers c chip → effects_outside None c.log.marks (length chip.effects) ≤ most_calls * (length c.log.taken + listed_at_applies c.log.marks) }
    ensures all_few { (workers : ℕ) (c : CoreState) (chip : ChipState) → InSession workers c chip → BeginNoApply c.log.marks → length chip.effects ≤ most_calls * length c.log.taken }
    ensures applies { (workers : ℕ) (c : CoreState) (chip : ChipState) → InSession workers c chip → AreFollowed c.board.plan c.sync.capacities c.log.taken chip.effects c.log.marks }
    ensures breaks { (workers : ℕ) (c : CoreState) (chip : ChipState) → InSession workers c chip → InSteadySession workers c chip }
{}

/// While a core is reconciled, or applies a plan, each key to sync was named by a write taken, and so they are no more than the keys named.
/// So it is of the keys that a mark is to list.
pub fn keys_to_sync_were_named()
    ensures named { (workers : ℕ) (c : CoreState) (chip : ChipState) (k : Key) → InSession workers c chip → (c.warm ≡ warm.Reconciled) ⊎ (c.warm ≡ warm.Applying) → IsToSync c.tables k → IsIn k (keys_named c.log.taken) }
    ensures few { (workers : ℕ) (c : CoreState) (chip : ChipState) → InSession workers c chip → (c.warm ≡ warm.Reconciled) ⊎ (c.warm ≡ warm.Applying) → AreOpsInOrder c.tables.ops → length c.tables.ops ≤ length (keys_named c.log.taken) }
    ensures listed { (workers : ℕ) (plan : Ports) (capacities : List ℕ) (log : History) (effects : List (Call Rid)) (s : LoggedService) (waits : Waiting) → IsPlan plan → HasRecorded workers plan capacities log effects s → AwaitsMark plan capacities s waits → length waits ≤ length (keys_named log.taken) }
{}

/// Once all rows were gone over, the keys that a restore is to list were named by writes taken, and so they are no more than the keys
/// named.
pub fn listed_keys_were_named()
    ensures named { (first built : CoreState) (x : IsBuilt first built []) (k : Key) → IsIn k (keys_waiting x.waits) → IsIn k (keys_named first.log.taken) }
    ensures few { (first built : CoreState) (x : IsBuilt first built []) → length x.waits ≤ length (keys_named first.log.taken) }
{}

/// The session that a core and its chip are in has come about, with the core's log and the chip's effects. In it, where a worker has
/// something under way, or calls of a plan are left, a call is awaited, and it is legal on the chip. Where no worker has anything under
/// way, no write waits, and each key to sync has a reason to wait, a mark is awaited that lists as many keys, and what it would say is
/// true.
pub fn what_is_due_is_awaited()
    ensures recorded { (workers : ℕ) (c : CoreState) (chip : ChipState) (x : InSession workers c chip) → HasRecorded workers c.board.plan c.sync.capacities c.log chip.effects x.session }
    ensures call { (workers : ℕ) (c : CoreState) (chip : ChipState) (w : ℕ) (x : InSession workers c chip) → c.warm ≡ warm.Reconciled → w < 4 → IsSome (flown_at c.board w) → AwaitsCall x.session }
    ensures apply { (workers : ℕ) (c : CoreState) (chip : ChipState) (next : PlanCall) (rest : List PlanCall) (x : InSession workers c chip) → c.warm ≡ warm.Applying → c.sync.left ≡ next ∷ rest → AwaitsCall x.session }
    ensures legal { (workers : ℕ) (plan : Ports) (capacities : List ℕ) (log : History) (effects : List (Call Rid)) (s : LoggedService) → IsPlan plan → HasRecorded workers plan capacities log effects s → (x : AwaitsCall s) → IsLegal capacities (chip_after effects (length effects)) x.call }
    ensures mark { (workers : ℕ) (c : CoreState) (chip : ChipState) (waits : Waiting) (x : InSession workers c chip) → c.warm ≡ warm.Reconciled → c.tables.waiting ≡ [] → ((v : ℕ) → v < 4 → flown_at c.board v ≡ None) → HaveReasons c x.session.service.core waits → ((k : Key) → IsToSync c.tables k → ListsKey k waits) → ((k : Key) → ListsKey k waits → IsToSync c.tables k) → marks.AreInOrder waits → AwaitsMark c.board.plan c.sync.capacities x.session waits }
    ensures keys { (workers : ℕ) (c : CoreState) (chip : ChipState) (x : InSession workers c chip) → c.warm ≡ warm.Reconciled → c.tables.waiting ≡ [] → ((v : ℕ) → v < 4 → flown_at c.board v ≡ None) → AreOpsInOrder c.tables.ops → ((k : Key) → IsToSync c.tables k → MustWait c.board.plan 4 c.sync.capacities x.session.service.core k) → (waits : Waiting) × (length waits ≡ length c.tables.ops) × AwaitsMark c.board.plan c.sync.capacities x.session waits }
    ensures is_true { (workers : ℕ) (plan : Ports) (capacities : List ℕ) (log : History) (effects : List (Call Rid)) (s : LoggedService) (waits : Waiting) (turns : ℕ) → IsPlan plan → HasRecorded workers plan capacities log effects s → AwaitsMark plan capacities s waits → IsSettled plan capacities log.taken effects (mark_now log effects (event.Settled waits turns)) waits }
{}
