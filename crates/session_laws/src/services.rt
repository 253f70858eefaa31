// Restarts, lists of the chip, restores and the calls of a plan are steps of the service's session. Each function is a law: it does nothing, and its contract is proved.
ghost use Rattle.std.specs.Prelude.{◌≡◌, ◌⊎◌, ◌∷◌, ◌+◌, ℕ, true, List, [], None, Some, Err, Ok, length};
ghost use Rattle.std.specs.Map.{keys_of};
ghost use Rattle.table_schema.specs.Plan.{IsPlan, Ports};
ghost use Rattle.table_schema.specs.Rows.{fields_at};
ghost use Rattle.table_schema.specs.declared.key.Key.{Key};
ghost use Rattle.table_schema.specs.declared.write.Sent.{Sent};
ghost use Rattle.sai_types.specs.declared.answer.SyncAnswer.{SyncAnswer};
ghost use Rattle.sai_types.specs.declared.body.Call.{Call};
ghost use Rattle.sai_types.specs.declared.ids.Vid.{Vid};
ghost use Rattle.sai_types.specs.declared.kind.Kind.{Kind};
ghost use Rattle.sai_types.specs.declared.plan.Mode.{Mode};
ghost use Rattle.sai_types.specs.Alike.{IsIn};
ghost use Rattle.sai_types.specs.ChipState.{ChipState};
ghost use Rattle.switch_model.specs.History.{log_size, with_end, with_mark};
ghost use Rattle.switch_model.specs.Marks.{Waiting, written_key};
ghost use Rattle.switch_model.specs.declared.mark.MarkEvent.TheVariants as event;
ghost use Rattle.switch_model.specs.declared.wait.Wait.{Wait};
ghost use Rattle.retry_list.specs.Reasons.{with_reason};
ghost use Rattle.producer_table.specs.Pending.{ArePendingInOrder};
ghost use Rattle.consumer_table.specs.Ops.{AreOpsInOrder, Ops, without_op};
ghost use Rattle.machine_laws.specs.Reading.{IsOnSwitch};
ghost use Rattle.ref_counts.specs.Room.{number_of_kind};
ghost use Rattle.orch_flight.specs.Sharing.{MayStart};
ghost use Rattle.registry_laws.specs.Flown.{Flown};
ghost use Rattle.registry_laws.specs.Making.{IsNextCall, MayTakeFor};
ghost use Rattle.registry_laws.specs.Standing.{HasBegun};
ghost use Rattle.asic_view.specs.View.{used_of};
ghost use Rattle.sync_tables.specs.Tables.{IsToSync, PopsKeys, TablesState};
ghost use Rattle.syncd_core.specs.Begun.{Begins, CanBegin};
ghost use Rattle.syncd_core.specs.Synced.{Applies, CanApply, CanCall, Calls, SyncState, TakesList, current};
ghost use Rattle.syncd_core.specs.declared.answer.ApplyStep.TheVariants as step;
ghost use Rattle.syncd_core.specs.declared.answer.Listed.TheVariants as listed;
ghost use Rattle.flight_board.specs.Applied.{placed_at, placed_for, row_at};
ghost use Rattle.flight_board.specs.Board.{BoardState, IsBegunFor, IsPrepared, IsCallReady, IsTakenFor, IsUnflown, MayEndAtOnce, MayEndThen, flown_at};
ghost use Rattle.restart_laws.specs.Logged.{AreLoggedSteps, LoggedService, new_session, session_after};
ghost use Rattle.restart_laws.specs.Restored.{waiting_of};
ghost use Rattle.warm_state.specs.declared.warm.Warm.TheVariants as warm;
ghost use Rattle.session_laws.specs.Core.{CoreState, good_in, mark_at, new_core, size_beside, with_taken};
ghost use Rattle.session_laws.specs.Events.{MakesOne, MakesSome, vid_made_by};
ghost use Rattle.session_laws.specs.Standing.{IsSessionOf};
ghost use Rattle.session_laws.specs.Service.Built.{AreBareWaits, IsBeside, IsBringing, IsBuilt, building, given_up};
ghost use Rattle.session_laws.specs.Service.Events.{MakesMore, MakesNext, restarted};
ghost use Rattle.session_laws.specs.Service.Standing.{IsServiceOf};
ghost use Rattle.session_laws.specs.Workers.{StaysByFirst};

/// A new core begins a session of the service. While a core is reconciled its session is one over the tables, the board and syncd, and
/// steps of the one that take no write, to a core that is reconciled or suspect, are steps of the other.
pub fn sessions_are_services()
    ensures first { (plan : Ports) (capacities : List ℕ) (limit : ℕ) (chip : ChipState) → IsPlan plan → chip.objects ≡ [] → chip.effects ≡ [] → chip.clean ≡ true → chip.capacities ≡ capacities → IsServiceOf (new_core plan capacities limit) chip new_session }
    ensures reconciled { (c : CoreState) (chip : ChipState) (s : LoggedService) → IsServiceOf c chip s → c.warm ≡ warm.Reconciled → IsSessionOf c chip s }
    ensures one { (c c' : CoreState) (chip chip' : ChipState) (s : LoggedService) → IsServiceOf c chip s → c'.log.taken ≡ c.log.taken → (c'.warm ≡ warm.Reconciled) ⊎ (c'.warm ≡ warm.Suspect) → (x : MakesOne c s c' chip') → (y : MakesNext c s c' chip') × (y.later ≡ x.later) }
    ensures some { (c c' : CoreState) (chip chip' : ChipState) (s : LoggedService) → IsServiceOf c chip s → c'.log.taken ≡ c.log.taken → (c'.warm ≡ warm.Reconciled) ⊎ (c'.warm ≡ warm.Suspect) → (x : MakesSome c s c' chip') → (y : MakesMore 0 c s c' chip') × (y.steps ≡ x.steps) }
    ensures stands { (c c' : CoreState) (chip chip' : ChipState) (s : LoggedService) (ts : List LoggedService) → IsServiceOf c chip s → c'.log.taken ≡ c.log.taken → (c'.warm ≡ warm.Reconciled) ⊎ (c'.warm ≡ warm.Suspect) → AreLoggedSteps c.board.plan 4 c.sync.capacities s ts → IsSessionOf c' chip' (session_after s ts) → c'.board.plan ≡ c.board.plan → c'.sync.capacities ≡ c.sync.capacities → IsServiceOf c' chip' (session_after s ts) }
{}

/// Steps of the service follow one another: the port plan and the capacities stay, and operations are begun for
/// one worker and those before it alone. What is begun for the first worker alone is begun for it and others. The size that the core counts beside the chip's effects
/// is that of the session's log.
pub fn steps_follow()
    ensures none { (w : ℕ) (c : CoreState) (chip : ChipState) (s : LoggedService) → IsServiceOf c chip s → MakesMore w c s c chip }
    ensures one { (w : ℕ) (c c' : CoreState) (chip' : ChipState) (s : LoggedService) (x : MakesNext c s c' chip') → StaysByFirst w s x.later → MakesMore w c s c' chip' }
    ensures more { (w : ℕ) (c c' c'' : CoreState) (chip' chip'' : ChipState) (s : LoggedService) (x : MakesMore w c s c' chip') → MakesMore w c' (session_after s x.steps) c'' chip'' → MakesMore w c s c'' chip'' }
    ensures first { (w : ℕ) (c c' : CoreState) (chip' : ChipState) (s : LoggedService) → MakesMore 0 c s c' chip' → MakesMore w c s c' chip' }
    ensures sized { (c : CoreState) (chip : ChipState) (s : LoggedService) → IsServiceOf c chip s → size_beside c (length chip.effects) ≡ log_size s.log (length s.effects) }
{}

/// A write of a key that a text is is a step when it waits in the tables and is logged, in any warm state.
pub fn writes_are_taken()
    ensures { (c : CoreState) (chip : ChipState) (s : LoggedService) (sent : Sent) → IsServiceOf c chip s → IsOnSwitch (written_key sent.write) → ArePendingInOrder c.tables.waiting → MakesNext c s (with_taken c sent) chip }
{}

/// A restart, in any warm state, is a step: the core forgets all but its rows, what waits to be popped and its log.
pub fn restarts_are_steps()
    ensures { (c : CoreState) (chip : ChipState) (s : LoggedService) → IsServiceOf c chip s → MakesNext c s (restarted c (length chip.effects)) chip }
{}

/// A list of the chip is a step, and so is one that failed, with its mark, after which the service is suspect; in a settling the round
/// ends at the mark.
pub fn lists_are_steps()
    ensures done { (c : CoreState) (chip : ChipState) (s : LoggedService) (y : SyncState) (chip' : ChipState) → IsServiceOf c chip s → c.warm ≡ warm.Initialized → TakesList c.sync chip listed.Done y chip' → MakesNext c s (record c { sync = y; warm = warm.Restored }) chip' }
    ensures failed { (c : CoreState) (chip : ChipState) (s : LoggedService) (y : SyncState) (chip' : ChipState) → IsServiceOf c chip s → c.warm ≡ warm.Initialized → TakesList c.sync chip listed.Failed y chip' → MakesNext c s (record c { sync = y; log = with_mark c.log (mark_at c (length chip'.effects) (event.Faulted chip.faults chip'.faults)); warm = warm.Suspect }) chip' }
    ensures ended { (c : CoreState) (chip : ChipState) (s : LoggedService) (y : SyncState) (chip' : ChipState) → IsServiceOf c chip s → c.warm ≡ warm.Initialized → TakesList c.sync chip listed.Failed y chip' → MakesNext c s (record c { sync = y; log = with_end (with_mark c.log (mark_at c (length chip'.effects) (event.Faulted chip.faults chip'.faults))); warm = warm.Suspect }) chip' }
{}

/// Keys that are popped for a restore that does not come about change nothing of the session.
pub fn pops_wait_for_the_restore()
    ensures { (c : CoreState) (chip : ChipState) (s : LoggedService) (t : TablesState) → IsServiceOf c chip s → c.warm ≡ warm.Restored → PopsKeys c.tables t → IsServiceOf (record c { tables = t }) chip s }
{}

/// The next call of a plan can be made, and is a step. After the last one, or where none is left, the apply ends, and the core is
/// reconciled: its board stands for the machine over the chip, and its view is tied to the chip. A call that failed is a step with its
/// mark, after which the service is suspect; in a settling the round ends at the mark.
pub fn apply_calls_are_steps()
    ensures can { (c : CoreState) (chip : ChipState) (s : LoggedService) → IsServiceOf c chip s → c.warm ≡ warm.Applying → CanApply c.sync.left c.sync.view chip }
    ensures more { (c : CoreState) (chip : ChipState) (s : LoggedService) (y : SyncState) (chip' : ChipState) → IsServiceOf c chip s → c.warm ≡ warm.Applying → Applies c.sync.left c.sync chip step.More y chip' → MakesNext c s (record c { sync = y }) chip' }
    ensures last { (c : CoreState) (chip : ChipState) (s : LoggedService) (y : SyncState) (chip' : ChipState) → IsServiceOf c chip s → c.warm ≡ warm.Applying → Applies c.sync.left c.sync chip step.Ended y chip' → MakesMore 0 c s (record c { sync = y; log = with_mark c.log (mark_at c (length chip'.effects) event.ApplyEnded); warm = warm.Reconciled }) chip' }
    ensures failed { (c : CoreState) (chip : ChipState) (s : LoggedService) (y : SyncState) (chip' : ChipState) → IsServiceOf c chip s → c.warm ≡ warm.Applying → Applies c.sync.left c.sync chip step.Failed y chip' → MakesNext c s (record c { sync = y; log = with_mark c.log (mark_at c (length chip'.effects) (event.Faulted chip.faults chip'.faults)); warm = warm.Suspect }) chip' }
    ensures ended { (c : CoreState) (chip : ChipState) (s : LoggedService) (y : SyncState) (chip' : ChipState) → IsServiceOf c chip s → c.warm ≡ warm.Applying → Applies c.sync.left c.sync chip step.Failed y chip' → MakesNext c s (record c { sync = y; log = with_end (with_mark c.log (mark_at c (length chip'.effects) (event.Faulted chip.faults chip'.faults))); warm = warm.Suspect }) chip' }
{}

/// The building of a view begins with all rows to sync, over an empty view. Of the keys in their order each has its good row, or waits for
/// the reason that the board answers, or its operation begins, which may end at once where no call is due for it. A building that is
/// given up leaves the session as it was.
pub fn rows_are_gone_over()
    ensures begins { (first : CoreState) (chip : ChipState) (s : LoggedService) (ops : Ops) → IsServiceOf first chip s → first.warm ≡ warm.Restored → first.tables.waiting ≡ [] → AreOpsInOrder ops → ((k : Key) → IsIn k (keys_of ops) → fields_at first.tables.rows k ≡ None → ⊥) → ((k : Key) → (fields_at first.tables.rows k ≡ None) ⊎ IsIn k (keys_of ops)) → IsBuilt first (building first ops) (keys_of ops) }
    ensures there { (first c : CoreState) (k : Key) (rest : List Key) → IsBuilt first c (k ∷ rest) → IsToSync c.tables k }
    ensures drops { (first c : CoreState) (k : Key) (rest : List Key) → IsBuilt first c (k ∷ rest) → AreOpsInOrder c.tables.ops → IsUnflown c.board k → row_at c.board.applied k ≡ good_in c k → IsBuilt first (record c { tables = record c.tables { ops = without_op c.tables.ops k } }) rest }
    ensures may { (first c : CoreState) (k : Key) (rest : List Key) → IsBuilt first c (k ∷ rest) → AreOpsInOrder c.tables.ops → (IsUnflown c.board k → row_at c.board.applied k ≡ good_in c k → ⊥) → IsUnflown c.board k → MayStart c.board.plan c.board.names 0 k (placed_at c.board.applied k) (placed_for c.board.applied k (good_in c k)) }
    ensures over { (first c : CoreState) (k : Key) (rest : List Key) (numbers : List ℕ) → IsBuilt first c (k ∷ rest) → AreOpsInOrder c.tables.ops → (IsUnflown c.board k → row_at c.board.applied k ≡ good_in c k → ⊥) → ((kind : Kind) → number_of_kind numbers kind ≡ used_of (current c.sync) kind) → IsUnflown c.board k → MayEndAtOnce c.board numbers 0 k (good_in c k) }
    ensures waits { (first c : CoreState) (k : Key) (rest : List Key) (numbers : List ℕ) (r : Wait) (b : BoardState) → IsBuilt first c (k ∷ rest) → AreOpsInOrder c.tables.ops → (IsUnflown c.board k → row_at c.board.applied k ≡ good_in c k → ⊥) → ((kind : Kind) → number_of_kind numbers kind ≡ used_of (current c.sync) kind) → IsBegunFor c.board numbers 0 k (good_in c k) (Err r) b → IsBuilt first (record c { board = b; waiting = with_reason c.waiting k r }) rest }
    ensures starts { (first c : CoreState) (k : Key) (rest : List Key) (numbers : List ℕ) (u : Unit {0}) (b : BoardState) → IsBuilt first c (k ∷ rest) → AreOpsInOrder c.tables.ops → (IsUnflown c.board k → row_at c.board.applied k ≡ good_in c k → ⊥) → ((kind : Kind) → number_of_kind numbers kind ≡ used_of (current c.sync) kind) → IsBegunFor c.board numbers 0 k (good_in c k) (Ok u) b → IsBringing first (record c { board = b; tables = record c.tables { ops = without_op c.tables.ops k } }) rest }
    ensures given_up { (first c : CoreState) (chip : ChipState) (s : LoggedService) → IsServiceOf first chip s → first.warm ≡ warm.Restored → IsBeside first c → IsServiceOf (given_up c) chip s }
{}

/// An operation that has begun in a building is run by the same calls as ever, on the temporary view alone: its next call can be told and
/// made, and its answer may be taken, and with it the operation may end where nothing more is due. Where nothing is under way any more,
/// the building goes on with the other keys.
pub fn operations_are_run_on_the_view()
    ensures prepared { (first c : CoreState) (rest : List Key) (b : BoardState) (f : Flown) → IsBringing first c rest → IsPrepared c.board 0 b → flown_at c.board 0 ≡ Some f → IsBringing first (record c { board = b }) rest }
    ensures begun { (first c : CoreState) (rest : List Key) (b : BoardState) (f g : Flown) → IsBringing first c rest → IsPrepared c.board 0 b → flown_at c.board 0 ≡ Some f → flown_at b 0 ≡ Some g → HasBegun b.plan b.names g }
    ensures ready { (first c : CoreState) (rest : List Key) (b : BoardState) (f g : Flown) → IsBringing first c rest → IsPrepared c.board 0 b → flown_at c.board 0 ≡ Some f → flown_at b 0 ≡ Some g → IsCallReady b.plan b.names g }
    ensures can { (first c : CoreState) (rest : List Key) (f : Flown) (call : Call Vid) (chip : ChipState) → IsBringing first c rest → flown_at c.board 0 ≡ Some f → HasBegun c.board.plan c.board.names f → IsNextCall c.board.plan c.board.names f.operation f.group call → CanCall c.sync c.sync.temporary chip call }
    ensures may { (first c : CoreState) (rest : List Key) (f : Flown) (call : Call Vid) (chip : ChipState) (a : SyncAnswer) (y : SyncState) (chip' : ChipState) → IsBringing first c rest → flown_at c.board 0 ≡ Some f → HasBegun c.board.plan c.board.names f → IsNextCall c.board.plan c.board.names f.operation f.group call → Calls c.sync c.sync.temporary chip call a y chip' → MayTakeFor f.operation f.group (vid_made_by a) c.board.names }
    ensures over { (first c : CoreState) (rest : List Key) (f : Flown) (call : Call Vid) (chip : ChipState) (a : SyncAnswer) (y : SyncState) (chip' : ChipState) → IsBringing first c rest → flown_at c.board 0 ≡ Some f → HasBegun c.board.plan c.board.names f → IsNextCall c.board.plan c.board.names f.operation f.group call → Calls c.sync c.sync.temporary chip call a y chip' → MayEndThen c.board 0 (vid_made_by a) }
    ensures called { (first c : CoreState) (rest : List Key) (f : Flown) (call : Call Vid) (chip : ChipState) (a : SyncAnswer) (y : SyncState) (chip' : ChipState) (b : BoardState) → IsBringing first c rest → flown_at c.board 0 ≡ Some f → HasBegun c.board.plan c.board.names f → IsNextCall c.board.plan c.board.names f.operation f.group call → Calls c.sync c.sync.temporary chip call a y chip' → IsTakenFor c.board 0 (vid_made_by a) b → IsBringing first (record c { board = b; sync = y }) rest × (chip' ≡ chip) }
    ensures ends { (first c : CoreState) (rest : List Key) → IsBringing first c rest → flown_at c.board 0 ≡ None → IsBuilt first c rest }
{}

/// Once all keys were gone over syncd can begin the apply; and with the mark of its mode and of the keys that wait that is a step.
pub fn restores_are_steps()
    ensures can { (first c : CoreState) (chip : ChipState) (s : LoggedService) → IsServiceOf first chip s → first.warm ≡ warm.Restored → first.tables.waiting ≡ [] → IsBuilt first c [] → CanBegin c.sync }
    ensures waits { (first c : CoreState) (x : IsBuilt first c []) (listing : Waiting) → AreBareWaits c.waiting (keys_of c.tables.ops) listing → listing ≡ waiting_of x.waits }
    ensures makes { (first c : CoreState) (chip : ChipState) (s : LoggedService) (m : Mode) (y : SyncState) → IsServiceOf first chip s → first.warm ≡ warm.Restored → first.tables.waiting ≡ [] → (x : IsBuilt first c []) → Begins c.sync m y → MakesNext first s (record c { sync = y; log = with_mark c.log (mark_at c (length chip.effects) (event.ApplyBegan m (waiting_of x.waits))); listed = c.listed + length (waiting_of x.waits); warm = warm.Applying }) chip }
{}
