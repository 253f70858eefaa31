// Each step of the core is one step of the service's session. Each function is a law: it does nothing, and its contract is proved.
ghost use Rattle.std.specs.Prelude.{◌≡◌, ◌+◌, ◌<◌, ℕ, true, List, [], length, None, Some, Err, Ok};
ghost use Rattle.table_schema.specs.Plan.{IsPlan, Ports};
ghost use Rattle.table_schema.specs.declared.key.Key.{Key};
ghost use Rattle.table_schema.specs.declared.write.Sent.{Sent};
ghost use Rattle.sai_types.specs.declared.body.Call.{Call};
ghost use Rattle.sai_types.specs.declared.answer.SyncAnswer.{SyncAnswer};
ghost use Rattle.sai_types.specs.declared.answer.SyncAnswer.TheVariants as sync;
ghost use Rattle.sai_types.specs.declared.ids.Rid.{Rid};
ghost use Rattle.sai_types.specs.declared.ids.Vid.{Vid};
ghost use Rattle.sai_types.specs.declared.kind.Kind.{Kind};
ghost use Rattle.sai_types.specs.Alike.{IsIn};
ghost use Rattle.sai_types.specs.ChipState.{ChipState};
ghost use Rattle.switch_model.specs.History.{log_size, with_end, with_mark};
ghost use Rattle.retry_list.specs.Reasons.{Reasons};
ghost use Rattle.switch_model.specs.Marks.{Waiting, written_key};
ghost use Rattle.switch_model.specs.Marks as marks;
ghost use Rattle.switch_model.specs.declared.wait.Wait.{Wait};
ghost use Rattle.switch_model.specs.declared.wait.Wait.TheVariants as wait;
ghost use Rattle.switch_model.specs.declared.mark.MarkEvent.TheVariants as event;
ghost use Rattle.producer_table.specs.Pending.{ArePendingInOrder};
ghost use Rattle.consumer_table.specs.Ops.{AreOpsInOrder, without_op};
ghost use Rattle.switch_machine.specs.Events.{IsAnswer, IsBegin, IsDrop, IsPop};
ghost use Rattle.switch_machine.specs.Next.{IsIdle, MustWait};
ghost use Rattle.switch_machine.specs.Reasons.{IsReason};
ghost use Rattle.ref_counts.specs.Room.{number_of_kind};
ghost use Rattle.orch_flight.specs.Sharing.{MayStart};
ghost use Rattle.asic_view.specs.View.{used_of};
ghost use Rattle.switch_machine.specs.Written.{HasNoWrite, IsPopped, IsPoppedKey};
ghost use Rattle.machine_laws.specs.Logged.{ListsKey, LogsMark};
ghost use Rattle.machine_laws.specs.Reading.{IsOnSwitch};
ghost use Rattle.registry_laws.specs.Flown.{Flown};
ghost use Rattle.registry_laws.specs.Making.{IsNextCall, MayTakeFor};
ghost use Rattle.registry_laws.specs.Standing.{HasBegun};
ghost use Rattle.sync_tables.specs.Tables.{IsToSync, PopsKeys, PopsSome, TablesState};
ghost use Rattle.syncd_core.specs.Synced.{CanCall, Calls, SyncState, current};
ghost use Rattle.restart_laws.specs.Logged.{LoggedService, new_session, session_after, switch_of};
ghost use Rattle.flight_board.specs.Applied.{placed_at, placed_for, row_at};
ghost use Rattle.flight_board.specs.Board.{BoardState, IsBegunFor, IsFlownAt, IsPrepared, IsCallReady, IsTakenFor, IsUnflown, MayEndAtOnce, MayEndThen, flown_at};
ghost use Rattle.warm_state.specs.declared.warm.Warm.TheVariants as warm;
ghost use Rattle.session_laws.specs.Core.{CoreState, good_in, mark_at, new_core, size_beside, with_taken};
ghost use Rattle.session_laws.specs.Events.{CountObjects, HaveReasons, IsMachineStep, MakesOne, MakesSome, vid_made_by};
ghost use Rattle.session_laws.specs.Standing.{IsSessionOf};
ghost use Rattle.session_laws.specs.Workers.{StaysByFirst};

/// A new core over a chip on which nothing stands begins a session.
pub fn new_cores_stand()
    ensures { (plan : Ports) (capacities : List ℕ) (limit : ℕ) (chip : ChipState) → IsPlan plan → chip.objects ≡ [] → chip.effects ≡ [] → chip.clean ≡ true → chip.capacities ≡ capacities → IsSessionOf (new_core plan capacities limit) chip new_session }
{}

/// A write of a key that a text is is a step when it waits in the tables and is logged, in any warm state.
pub fn writes_are_steps()
    ensures { (c : CoreState) (chip : ChipState) (s : LoggedService) (sent : Sent) → IsSessionOf c chip s → IsOnSwitch (written_key sent.write) → ArePendingInOrder c.tables.waiting → MakesOne c s (with_taken c sent) chip }
{}

/// A pop is a step; where a key is popped the step is that of a worker that has nothing under way.
pub fn pops_are_steps()
    ensures { (c : CoreState) (chip : ChipState) (s : LoggedService) (t : TablesState) → IsSessionOf c chip s → c.warm ≡ warm.Reconciled → PopsKeys c.tables t → (x : MakesOne c s (record c { tables = t }) chip) × IsPop s.service.core x.later.service.core × IsMachineStep s None x.later × (PopsSome c.tables t → (k : Key) × (HasNoWrite s.service.core.written k → ⊥) × IsPoppedKey s.service.core.written x.later.service.core.written k) }
{}

/// The operation of a group that is due begins within the session, and then the worker's next call can be told.
pub fn prepared_boards_stand()
    ensures stands { (c : CoreState) (chip : ChipState) (s : LoggedService) (w : ℕ) (b : BoardState) (x : Flown) → IsSessionOf c chip s → IsPrepared c.board w b → flown_at c.board w ≡ Some x → IsSessionOf (record c { board = b }) chip s }
    ensures begun { (c : CoreState) (chip : ChipState) (s : LoggedService) (w : ℕ) (b : BoardState) (x y : Flown) → IsSessionOf c chip s → IsPrepared c.board w b → flown_at c.board w ≡ Some x → flown_at b w ≡ Some y → HasBegun b.plan b.names y }
    ensures ready { (c : CoreState) (chip : ChipState) (s : LoggedService) (w : ℕ) (b : BoardState) (x y : Flown) → IsSessionOf c chip s → c.warm ≡ warm.Reconciled → IsPrepared c.board w b → flown_at c.board w ≡ Some x → flown_at b w ≡ Some y → IsCallReady b.plan b.names y }
{}

/// The next call of what a worker has under way can be made.
pub fn calls_can_be_made()
    ensures { (c : CoreState) (chip : ChipState) (s : LoggedService) (w : ℕ) (x : Flown) (call : Call Vid) → IsSessionOf c chip s → c.warm ≡ warm.Reconciled → flown_at c.board w ≡ Some x → HasBegun c.board.plan c.board.names x → IsNextCall c.board.plan c.board.names x.operation x.group call → CanCall c.sync c.sync.temporary chip call }
{}

/// The answer of a call that did not fail may be taken, and then it is a step, an Answer of the machine for the worker. An operation
/// for which nothing is due behind it may end.
pub fn answers_are_steps()
    ensures may { (c : CoreState) (chip : ChipState) (s : LoggedService) (w : ℕ) (x : Flown) (call : Call Vid) (a : SyncAnswer) (sync' : SyncState) (chip' : ChipState) → IsSessionOf c chip s → c.warm ≡ warm.Reconciled → flown_at c.board w ≡ Some x → HasBegun c.board.plan c.board.names x → IsNextCall c.board.plan c.board.names x.operation x.group call → (a ≡ sync.Failed → ⊥) → Calls c.sync c.sync.temporary chip call a sync' chip' → MayTakeFor x.operation x.group (vid_made_by a) c.board.names }
    ensures ends { (c : CoreState) (chip : ChipState) (s : LoggedService) (w : ℕ) (x : Flown) (call : Call Vid) (a : SyncAnswer) (sync' : SyncState) (chip' : ChipState) → IsSessionOf c chip s → c.warm ≡ warm.Reconciled → flown_at c.board w ≡ Some x → HasBegun c.board.plan c.board.names x → IsNextCall c.board.plan c.board.names x.operation x.group call → (a ≡ sync.Failed → ⊥) → Calls c.sync c.sync.temporary chip call a sync' chip' → MayEndThen c.board w (vid_made_by a) }
    ensures makes { (c : CoreState) (chip : ChipState) (s : LoggedService) (w : ℕ) (x : Flown) (call : Call Vid) (a : SyncAnswer) (sync' : SyncState) (chip' : ChipState) (b : BoardState) → IsSessionOf c chip s → c.warm ≡ warm.Reconciled → flown_at c.board w ≡ Some x → HasBegun c.board.plan c.board.names x → IsNextCall c.board.plan c.board.names x.operation x.group call → (a ≡ sync.Failed → ⊥) → Calls c.sync c.sync.temporary chip call a sync' chip' → IsTakenFor c.board w (vid_made_by a) b → (y : MakesOne c s (record c { board = b; sync = sync' }) chip') × (e : Call Rid) × (z : IsAnswer c.board.plan 4 e s.service.core y.later.service.core) × (z.next.worker ≡ w) × IsMachineStep s (Some e) y.later }
{}

/// A call of a worker that failed, without effect or with it, is a fault with its mark, after which the service is suspect; in a settling
/// the round ends at the mark.
pub fn faults_are_steps()
    ensures marked { (c : CoreState) (chip : ChipState) (s : LoggedService) (w : ℕ) (x : Flown) (call : Call Vid) (sync' : SyncState) (chip' : ChipState) → IsSessionOf c chip s → c.warm ≡ warm.Reconciled → flown_at c.board w ≡ Some x → HasBegun c.board.plan c.board.names x → IsNextCall c.board.plan c.board.names x.operation x.group call → Calls c.sync c.sync.temporary chip call sync.Failed sync' chip' → MakesOne c s (record c { sync = sync'; log = with_mark c.log (mark_at c (length chip'.effects) (event.Faulted chip.faults chip'.faults)); warm = warm.Suspect }) chip' }
    ensures ended { (c : CoreState) (chip : ChipState) (s : LoggedService) (w : ℕ) (x : Flown) (call : Call Vid) (sync' : SyncState) (chip' : ChipState) → IsSessionOf c chip s → c.warm ≡ warm.Reconciled → flown_at c.board w ≡ Some x → HasBegun c.board.plan c.board.names x → IsNextCall c.board.plan c.board.names x.operation x.group call → Calls c.sync c.sync.temporary chip call sync.Failed sync' chip' → MakesOne c s (record c { sync = sync'; log = with_end (with_mark c.log (mark_at c (length chip'.effects) (event.Faulted chip.faults chip'.faults))); warm = warm.Suspect }) chip' }
{}

/// A key to sync that no worker has under way and that has its good row leaves those to sync in a step, a Drop of the machine.
pub fn drops_are_steps()
    ensures { (c : CoreState) (chip : ChipState) (s : LoggedService) (k : Key) → IsSessionOf c chip s → c.warm ≡ warm.Reconciled → AreOpsInOrder c.tables.ops → IsToSync c.tables k → IsUnflown c.board k → row_at c.board.applied k ≡ good_in c k → (x : MakesOne c s (record c { tables = record c.tables { ops = without_op c.tables.ops k } }) chip) × (y : IsDrop c.board.plan s.service.core x.later.service.core) × (y.key ≡ k) × IsMachineStep s None x.later }
{}

/// A key to sync that no worker has under way, and whose good row is another than its applied one, may begin for a worker that has
/// nothing under way. Where its operation begins that is a step, a Begin of the machine; where it waits the session stays, and the wait
/// is a true reason; and one that a worker has waits for that worker. One for which no call is due may end at once. What syncd counts
/// is what stands on the chip.
pub fn keys_are_tried()
    ensures may { (c : CoreState) (chip : ChipState) (s : LoggedService) (w : ℕ) (k : Key) → IsSessionOf c chip s → c.warm ≡ warm.Reconciled → IsToSync c.tables k → w < 4 → flown_at c.board w ≡ None → (row_at c.board.applied k ≡ good_in c k → ⊥) → IsUnflown c.board k → MayStart c.board.plan c.board.names w k (placed_at c.board.applied k) (placed_for c.board.applied k (good_in c k)) }
    ensures ends { (c : CoreState) (chip : ChipState) (s : LoggedService) (w : ℕ) (k : Key) (used : List ℕ) → IsSessionOf c chip s → c.warm ≡ warm.Reconciled → AreOpsInOrder c.tables.ops → IsToSync c.tables k → w < 4 → flown_at c.board w ≡ None → (row_at c.board.applied k ≡ good_in c k → ⊥) → CountObjects s.service.core.objects used → IsUnflown c.board k → MayEndAtOnce c.board used w k (good_in c k) }
    ensures begins { (c : CoreState) (chip : ChipState) (s : LoggedService) (w : ℕ) (k : Key) (used : List ℕ) (x : Unit {0}) (b : BoardState) → IsSessionOf c chip s → c.warm ≡ warm.Reconciled → AreOpsInOrder c.tables.ops → IsToSync c.tables k → w < 4 → flown_at c.board w ≡ None → (IsUnflown c.board k → row_at c.board.applied k ≡ good_in c k → ⊥) → CountObjects s.service.core.objects used → IsBegunFor c.board used w k (good_in c k) (Ok x) b → (x : MakesOne c s (record c { board = b; tables = record c.tables { ops = without_op c.tables.ops k } }) chip) × (y : IsBegin c.board.plan 4 c.sync.capacities s.service.core x.later.service.core) × (y.worker ≡ w) × (y.flight.key ≡ k) × IsMachineStep s None x.later }
    ensures waits { (c : CoreState) (chip : ChipState) (s : LoggedService) (w : ℕ) (k : Key) (used : List ℕ) (r : Wait) (b : BoardState) → IsSessionOf c chip s → c.warm ≡ warm.Reconciled → IsToSync c.tables k → w < 4 → flown_at c.board w ≡ None → (IsUnflown c.board k → row_at c.board.applied k ≡ good_in c k → ⊥) → CountObjects s.service.core.objects used → IsBegunFor c.board used w k (good_in c k) (Err r) b → IsSessionOf (record c { board = b }) chip s × IsReason c.board.plan 4 c.sync.capacities s.service.core k r }
    ensures busy { (c : CoreState) (chip : ChipState) (s : LoggedService) (k : Key) (v : ℕ) → IsSessionOf c chip s → c.warm ≡ warm.Reconciled → IsFlownAt c.board k v → IsReason c.board.plan 4 c.sync.capacities s.service.core k (wait.Busy v) }
    ensures counts { (c : CoreState) (chip : ChipState) (s : LoggedService) (numbers : List ℕ) → IsSessionOf c chip s → c.warm ≡ warm.Reconciled → ((kind : Kind) → number_of_kind numbers kind ≡ used_of (current c.sync) kind) → CountObjects s.service.core.objects numbers }
{}

/// Where nothing waits in the tables, no worker has anything under way, and each key to sync is listed with a true reason and its applied
/// row, the mark at the end of a settling is a step.
pub fn marks_are_steps()
    ensures { (c : CoreState) (chip : ChipState) (s : LoggedService) (waits : Waiting) (turns : ℕ) → IsSessionOf c chip s → c.warm ≡ warm.Reconciled → c.tables.waiting ≡ [] → ((v : ℕ) → v < 4 → flown_at c.board v ≡ None) → HaveReasons c s.service.core waits → ((k : Key) → IsToSync c.tables k → ListsKey k waits) → marks.AreInOrder waits → (x : MakesOne c s (record c { log = with_end (with_mark c.log (mark_at c (length chip.effects) (event.Settled waits turns))); listed = c.listed + length waits }) chip) × LogsMark c.board.plan 4 c.sync.capacities (switch_of s) (switch_of x.later) }
{}

/// Steps follow one another: the port plan and the capacities stay, and operations are begun for the first worker alone.
pub fn steps_join()
    ensures none { (c : CoreState) (chip : ChipState) (s : LoggedService) → IsSessionOf c chip s → MakesSome c s c chip }
    ensures one { (c c' : CoreState) (chip' : ChipState) (s : LoggedService) (x : MakesOne c s c' chip') → StaysByFirst 0 s x.later → MakesSome c s c' chip' }
    ensures more { (c c' c'' : CoreState) (chip' chip'' : ChipState) (s : LoggedService) (x : MakesSome c s c' chip') → MakesSome c' (session_after s x.steps) c'' chip'' → MakesSome c s c'' chip'' }
{}

/// The list of the keys that wait stands beside the session: whatever is on it, the core and its chip stand for the same session.
pub fn lists_stand_beside()
    ensures stands { (c : CoreState) (chip : ChipState) (s : LoggedService) (waiting : Reasons) → IsSessionOf c chip s → IsSessionOf (record c { waiting = waiting }) chip s }
    ensures makes { (c c' : CoreState) (chip' : ChipState) (s : LoggedService) (waiting : Reasons) (x : MakesOne c s c' chip') → (y : MakesOne c s (record c' { waiting = waiting }) chip') × (y.later ≡ x.later) }
{}

/// What a worker that has nothing under way sees of the session: it has no operation there, nothing waits in its tables where nothing
/// waits in the core's, the same keys are to sync, and it is idle where each of them has a reason to wait.
pub fn free_workers_see()
    ensures none { (c : CoreState) (chip : ChipState) (s : LoggedService) (w : ℕ) → IsSessionOf c chip s → c.warm ≡ warm.Reconciled → flown_at c.board w ≡ None → s.service.core.machine.board.flights w ≡ None }
    ensures popped { (c : CoreState) (chip : ChipState) (s : LoggedService) → IsSessionOf c chip s → c.warm ≡ warm.Reconciled → c.tables.waiting ≡ [] → IsPopped s.service.core.written }
    ensures keys { (c : CoreState) (chip : ChipState) (s : LoggedService) (k : Key) → IsSessionOf c chip s → (IsIn k s.service.core.to_sync → IsToSync c.tables k) × (IsToSync c.tables k → IsIn k s.service.core.to_sync) }
    ensures idle { (c : CoreState) (chip : ChipState) (s : LoggedService) (w : ℕ) → IsSessionOf c chip s → c.warm ≡ warm.Reconciled → flown_at c.board w ≡ None → c.tables.waiting ≡ [] → ((k : Key) → IsToSync c.tables k → MustWait c.board.plan 4 c.sync.capacities s.service.core k) → IsIdle c.board.plan 4 c.sync.capacities w s.service.core }
{}

/// The size that the core counts beside the chip's effects is that of the session's log.
pub fn logs_are_sized()
    ensures { (c : CoreState) (chip : ChipState) (s : LoggedService) → IsSessionOf c chip s → size_beside c (length chip.effects) ≡ log_size s.log (length s.effects) }
{}
