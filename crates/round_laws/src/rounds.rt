// What whole rounds come to. Each function is a law: it does nothing, and its contract is proved.
ghost use Rattle.std.specs.Prelude.{◌≡◌, ◌⊎◌, ◌++◌, ◌∷◌, ℕ, ◌<◌, ◌≤◌, true, List, [], length, map, None, Option, Some};
ghost use Rattle.std.specs.Map.{keys_of};
ghost use Rattle.table_schema.specs.Plan.{IsPlan, Ports};
ghost use Rattle.table_schema.specs.Rows.{rows_of};
ghost use Rattle.table_schema.specs.declared.key.Key.{Key};
ghost use Rattle.table_schema.specs.declared.row.Row.{Row};
ghost use Rattle.table_schema.specs.declared.write.Sent.{Sent};
ghost use Rattle.sai_types.specs.ChipState.{ChipState};
ghost use Rattle.sai_types.specs.declared.plan.Mode.{Mode};
ghost use Rattle.sai_types.specs.declared.body.Call.{Call};
ghost use Rattle.sai_types.specs.declared.ids.Rid.{Rid};
ghost use Rattle.switch_model.specs.Desired.{IsClosed};
ghost use Rattle.switch_model.specs.Good.{TypedRows, good_rows};
ghost use Rattle.switch_model.specs.Marks.{Waiting, sent_writes, written_key};
ghost use Rattle.switch_model.specs.Promises.{good_rows_at};
ghost use Rattle.switch_model.specs.declared.mark.Mark.{Mark};
ghost use Rattle.switch_model.specs.declared.mark.MarkEvent.TheVariants as event;
ghost use Rattle.switch_model.specs.Placed.{bare_rows};
ghost use Rattle.switch_model.specs.Room.{HasRoomForView, IsRoundStill, IsRoundThing};
ghost use Rattle.switch_machine.specs.Events.{IsDueCall, SwitchState, after_answers};
ghost use Rattle.producer_table.specs.Pending.{ArePendingInOrder};
ghost use Rattle.machine_laws.specs.Logged.{IsSettlingSoFar};
ghost use Rattle.machine_laws.specs.Reading.{IsOnSwitch};
ghost use Rattle.flight_board.specs.Board.{flown_at};
ghost use Rattle.warm_state.specs.declared.warm.Warm.TheVariants as warm;
ghost use Rattle.session_laws.specs.Core.{CoreState, new_core, with_taken};
ghost use Rattle.session_laws.specs.Leading.{SettlesTo, with_calls};
ghost use Rattle.round_laws.specs.Between.{IsAtRestSince, IsBetweenRounds, IsInRound, IsReadyForRound, RoundEnds, round_from};
ghost use Rattle.round_laws.specs.Drained.{Drains};
ghost use Rattle.round_laws.specs.Ended.{EndedRound, taken_then};
ghost use Rattle.round_laws.specs.Sessions.{InSession};
ghost use Rattle.round_laws.specs.Turns.{IsMadeByTurns, IsMadeSoFar};

/// A new core over a chip on which nothing stands is before its first round; a round begins with no write taken; and one more may be
/// taken in it, whose key is one that a text is. Behind an apply a core is at rest since the mark of its beginning, where that lists the
/// keys that were to sync then, and the tables and the board stayed; so turns from there are those of a round in which no write is taken.
pub fn rounds_begin()
    ensures first { (workers : ℕ) (plan : Ports) (capacities : List ℕ) (limit : ℕ) (chip : ChipState) → IsPlan plan → chip.objects ≡ [] → chip.effects ≡ [] → chip.clean ≡ true → chip.capacities ≡ capacities → IsBetweenRounds workers (new_core plan capacities limit) chip }
    ensures begins { (workers : ℕ) (since : Option Mark) (c : CoreState) (chip : ChipState) → IsAtRestSince workers since c chip → IsInRound workers since c chip [] c }
    ensures takes { (workers : ℕ) (since : Option Mark) (old c : CoreState) (chip : ChipState) (sent : List Sent) (next : Sent) → IsInRound workers since old chip sent c → IsOnSwitch (written_key next.write) → IsInRound workers since old chip (sent ++ next ∷ []) (with_taken c next) }
    ensures behind { (workers : ℕ) (begun : CoreState) (chip : ChipState) (x : InSession workers begun chip) → begun.warm ≡ warm.Applying → (earlier : List Mark) (mark : Mark) → begun.log.marks ≡ earlier ++ mark ∷ [] → (mode : Mode) (waits : Waiting) → mark.event ≡ event.ApplyBegan mode waits → mark.taken ≡ length begun.log.taken → begun.tables.waiting ≡ [] → map (λ w. w.0) waits ≡ keys_of begun.tables.ops → (c : CoreState) (later : ChipState) (y : InSession workers c later) → c.warm ≡ warm.Reconciled → ((v : ℕ) → v < 4 → flown_at c.board v ≡ None) → c.log.taken ≡ begun.log.taken → c.board ≡ begun.board → c.tables ≡ begun.tables → mark.effects ≤ length later.effects → IsAtRestSince workers (Some mark) c later }
{}

/// A round may begin with a new core over a chip on which nothing stands, with one that is between rounds, so with one whose round ended,
/// and with one in a session that is suspect while its writes wait in order.
pub fn rounds_may_begin()
    ensures first { (workers : ℕ) (plan : Ports) (capacities : List ℕ) (limit : ℕ) (chip : ChipState) → IsPlan plan → chip.objects ≡ [] → chip.effects ≡ [] → chip.clean ≡ true → chip.capacities ≡ capacities → IsReadyForRound workers (new_core plan capacities limit) chip }
    ensures between { (workers : ℕ) (c : CoreState) (chip : ChipState) → IsBetweenRounds workers c chip → IsReadyForRound workers c chip }
    ensures ended { (workers : ℕ) (since : Option Mark) (old c : CoreState) (chip chip' : ChipState) (sent : List Sent) → RoundEnds workers since old chip sent c chip' → IsReadyForRound workers c chip' }
    ensures suspect { (workers : ℕ) (c : CoreState) (chip : ChipState) → InSession workers c chip → ArePendingInOrder c.tables.waiting → c.warm ≡ warm.Suspect → IsReadyForRound workers c chip }
{}

/// A settling that ends at its mark ends between rounds, whatever came before it. Where it ends a round in which writes were taken and
/// nothing else was done, the calls of the round are those of the turns that its mark counts, and leave alone what stood for the rows of
/// keys that neither wait nor are named by a write of the round. Where the settling is cut off, the calls of the round are those of its
/// turns so far, of which the last may have failed.
pub fn rounds_end()
    ensures settled { (workers : ℕ) (c c' : CoreState) (chip chip' : ChipState) (x : InSession workers c chip) → 0 < workers → SettlesTo c x.session c' chip' → IsBetweenRounds workers c' chip' }
    ensures round { (workers : ℕ) (since : Option Mark) (old c c' : CoreState) (chip chip' : ChipState) (sent : List Sent) (x : IsInRound workers since old chip sent c) → 0 < workers → SettlesTo c x.within.session c' chip' → RoundEnds workers since old chip sent c' chip' }
    ensures so_far { (workers : ℕ) (since : Option Mark) (old c : CoreState) (chip : ChipState) (sent : List Sent) (x : IsInRound workers since old chip sent c) (t : SwitchState) (calls : List (Call Rid)) (mark : Mark) → IsSettlingSoFar c.board.plan 4 c.sync.capacities (with_calls x.within.session.service.core []) (with_calls t calls) → IsMadeSoFar c.board.plan c.sync.capacities (round_from since old chip sent calls mark) }
    ensures failed { (workers : ℕ) (since : Option Mark) (old c : CoreState) (chip : ChipState) (sent : List Sent) (x : IsInRound workers since old chip sent c) (t : SwitchState) (calls : List (Call Rid)) (call : Call Rid) (mark : Mark) → IsSettlingSoFar c.board.plan 4 c.sync.capacities (with_calls x.within.session.service.core []) (with_calls t calls) → IsDueCall 4 call t → IsMadeSoFar c.board.plan c.sync.capacities (round_from since old chip sent (calls ++ call ∷ []) mark) }
{}

/// A round whose calls are those of turns drains: where its good rows are closed, its interfaces stay in their routers and there is room,
/// its mark lists no key, and its turns are at most four. So does a settling, where each row that is applied when its turns begin was
/// applied before the round, or is a good row after one of these numbers of writes.
pub fn rounds_drain()
    ensures round { (plan : Ports) (capacities : List ℕ) (from : ℕ) (r : EndedRound) → IsMadeByTurns plan capacities r → from ≤ length (taken_then r) → Drains plan capacities from r }
    ensures settling { (workers : ℕ) (c c' : CoreState) (chip chip' : ChipState) (before : TypedRows) (from to : ℕ) (x : InSession workers c chip) (y : SettlesTo c x.session c' chip') → c.warm ≡ warm.Reconciled → ((k : Key) (row : Row) → bare_rows (after_answers x.session.service.core y.answers).machine.board.applied k ≡ Some row → (before k ≡ Some row) ⊎ ((n : ℕ) × (from ≤ n) × (n ≤ to) × (good_rows_at c.board.plan c.log.taken n k ≡ Some row))) → IsClosed (good_rows c.board.plan (rows_of (sent_writes c.log.taken))) → from ≤ length c.log.taken → length c.log.taken ≤ to → IsRoundStill c.board.plan before c.log.taken from to → HasRoomForView c.sync.capacities (IsRoundThing c.board.plan before c.log.taken from to) → (y.settling.waits ≡ []) × (y.settling.turns ≤ 4) }
{}
