// What holds of every session, over restarts and failing calls at any event. Each function is a law: it does nothing, and its contract is proved.
ghost use Rattle.std.specs.Prelude.{◌≡◌, ◌⊎◌, ◌++◌, ◌∷◌, ℕ, ◌+◌, ◌*◌, ◌≤◌, Bool, true, List, [], Option, None, Some, length, map, take};
ghost use Rattle.swss_types.specs.Address.{IsProperIp};
ghost use Rattle.swss_types.specs.declared.vrf.Packet.{Packet};
ghost use Rattle.table_schema.specs.Plan.{Ports, IsPlan, lanes_in_plan};
ghost use Rattle.table_schema.specs.declared.key.Key.{Key};
ghost use Rattle.table_schema.specs.declared.write.Sent.{Sent};
ghost use Rattle.sai_types.specs.declared.ids.Rid.{Rid};
ghost use Rattle.sai_types.specs.declared.ids.Vid.{Vid};
ghost use Rattle.sai_types.specs.declared.body.Body.TheVariants as body;
ghost use Rattle.sai_types.specs.declared.body.Call.{Call};
ghost use Rattle.sai_types.specs.declared.body.Entry.{Entry};
ghost use Rattle.sai_types.specs.declared.plan.Mode.TheVariants as mode;
ghost use Rattle.sai_types.specs.declared.plan.PlanId.{PlanId};
ghost use Rattle.sai_types.specs.declared.thing.Thing.{Thing};
ghost use Rattle.sai_types.specs.After.{after_calls};
ghost use Rattle.sai_types.specs.Alike.{IsAlike, IsIn};
ghost use Rattle.sai_types.specs.Forwarding.{Forwarding, decide, forward};
ghost use Rattle.sai_types.specs.Made.{AreLegal, made_after_all};
ghost use Rattle.sai_types.specs.Objects.{body_at};
ghost use Rattle.sai_types.specs.Refusal.{IsLegal};
ghost use Rattle.switch_model.specs.declared.mark.Mark.{Mark};
ghost use Rattle.switch_model.specs.Desired.{IsThingOf};
ghost use Rattle.switch_model.specs.Marks.{sent_writes};
ghost use Rattle.switch_model.specs.Placed.{bare_rows};
ghost use Rattle.switch_model.specs.Promises.{EffectsAreLegal, IsBegun, MarksAreTrue, applied_at};
ghost use Rattle.switch_model.specs.Steady.{things_after};
ghost use Rattle.switch_model.specs.Sound.{AreWithin};
ghost use Rattle.chip_layout.specs.Layout.{has_number};
ghost use Rattle.chip_layout.specs.Renamed.{call_renamed};
ghost use Rattle.switch_machine.specs.Written.{good_of};
ghost use Rattle.machine_laws.specs.Bounds.{most_calls};
ghost use Rattle.machine_laws.specs.Order.{IsOrdered};
ghost use Rattle.plan_laws.specs.Applied.{chip_things, nothing};
ghost use Rattle.plan_laws.specs.Calls.{PlansChanges, resolve, viewed};
ghost use Rattle.plan_laws.specs.Old.{old_layout};
ghost use Rattle.plan_laws.specs.Steady.{IsHitless, IsOldOrNew, StaysNew};
ghost use Rattle.warm_state.specs.declared.warm.Warm.TheVariants.{Applying, Suspect};
ghost use Rattle.restart_laws.specs.Applied.{AreFollowed, until_next};
ghost use Rattle.restart_laws.specs.Bounded.{effects_outside, listed_at_applies};
ghost use Rattle.restart_laws.specs.Broken.{AreBroken};
ghost use Rattle.restart_laws.specs.BrokenOff.{AreSteadyOverBreaks};
ghost use Rattle.restart_laws.specs.Identified.{IsIdOf, as_vids, renamed_by};
ghost use Rattle.restart_laws.specs.Invariant.{Holds};
ghost use Rattle.restart_laws.specs.Logged.{AreLoggedSteps, IsWarmAfter, LoggedService, last_mark, new_session, session_after};
ghost use Rattle.restart_laws.specs.Planned.{PlansCold, PlansHitless};
ghost use Rattle.restart_laws.specs.Restored.{only_things, waiting_of};
ghost use Rattle.restart_laws.specs.Service.{AreApplying, AreServiceEvents, Finishes, IsDue, IsServiceEvent, Restarts, Restores, Service, TakesIn, effects_of, new_service, service_after};

/// A new session holds, and what holds between events is kept by each of them: by writes, calls of several workers, calls that
/// fail with or without effect, restarts, lists of the chip, and applies, in any order.
pub fn sessions_hold()
    ensures begins { (plan : Ports) (workers : ℕ) (capacities : List ℕ) → IsPlan plan → Holds plan workers capacities new_service }
    ensures kept { (plan : Ports) (workers : ℕ) (capacities : List ℕ) (s : Service) (es : List (Option (Call Rid) × Service)) → IsPlan plan → Holds plan workers capacities s → AreServiceEvents plan workers capacities s es → Holds plan workers capacities (service_after s es) }
{}

/// Each call of a session that took effect was legal on the chip as the ones before it left it; and a call that is due, of an
/// operation or of a plan, is legal, whether it will take effect or not.
pub fn effects_are_legal()
    ensures legal { (plan : Ports) (workers : ℕ) (capacities : List ℕ) (es : List (Option (Call Rid) × Service)) → IsPlan plan → AreServiceEvents plan workers capacities new_service es → AreLegal capacities 0 [] (effects_of es) }
    ensures due { (plan : Ports) (workers : ℕ) (capacities : List ℕ) (s : Service) (call : Call Rid) → IsPlan plan → Holds plan workers capacities s → IsDue workers s call → IsLegal capacities s.core.objects call }
{}

/// Once a call has failed no call is made: writes are taken, until the service restarts.
pub fn suspect_is_silent()
    ensures { (plan : Ports) (workers : ℕ) (capacities : List ℕ) (s t : Service) (c : Option (Call Rid)) → s.warm ≡ Suspect → IsServiceEvent plan workers capacities s c t → (c ≡ None) × (TakesIn s t ⊎ Restarts s t) }
{}

/// Each port on the chip has the lanes of a port of the plan, whatever failed.
pub fn ports_keep_their_lanes()
    ensures { (plan : Ports) (workers : ℕ) (capacities : List ℕ) (s : Service) (e : Entry Rid) (lanes : List ℕ) (speed mtu : ℕ) (up : Bool) → IsPlan plan → Holds plan workers capacities s → body_at s.core.objects e ≡ Some (body.Port lanes speed mtu up) → (q : ℕ) × (lanes_in_plan plan q ≡ Some lanes) }
{}

/// The mark at the beginning of an apply is true. While it lasts the calls that are left are legal and lead to a chip that is
/// alike to the things of the applied rows, and each key that is not to sync has its good row applied. Where no call is left the
/// apply can end, and then the chip is alike to the things of the rows that were applied at its beginning.
pub fn apply_leads_to_its_view()
    ensures begun { (plan : Ports) (workers : ℕ) (capacities : List ℕ) (s t : Service) (x : Restores plan workers capacities s t) (taken : List Sent) (mark : Mark) → IsPlan plan → Holds plan workers capacities s → sent_writes (take mark.taken taken) ≡ s.core.written.taken → IsBegun plan capacities taken mark (waiting_of x.restored.waits) }
    ensures leads { (plan : Ports) (workers : ℕ) (capacities : List ℕ) (s : Service) → IsPlan plan → Holds plan workers capacities s → s.warm ≡ Applying → AreLegal capacities s.core.made s.core.objects s.left × IsAlike (after_calls s.core.made s.core.objects s.left) (IsThingOf plan (bare_rows s.core.machine.board.applied)) }
    ensures synced { (plan : Ports) (workers : ℕ) (capacities : List ℕ) (s : Service) (k : Key) → IsPlan plan → Holds plan workers capacities s → s.warm ≡ Applying → (IsIn k s.core.to_sync → ⊥) → bare_rows s.core.machine.board.applied k ≡ good_of plan s.core.written k }
    ensures ends { (plan : Ports) (workers : ℕ) (capacities : List ℕ) (s : Service) → IsPlan plan → Holds plan workers capacities s → s.warm ≡ Applying → s.left ≡ [] → (t : Service) × Finishes s t }
    ensures ended { (plan : Ports) (workers : ℕ) (capacities : List ℕ) (s t u : Service) (x : Restores plan workers capacities s t) (es : List (Option (Call Rid) × Service)) (taken : List Sent) (mark : Mark) → IsPlan plan → Holds plan workers capacities s → AreApplying es → AreServiceEvents plan workers capacities t es → Finishes (service_after t es) u → sent_writes (take mark.taken taken) ≡ s.core.written.taken → IsAlike u.core.objects (IsThingOf plan (applied_at plan taken mark (waiting_of x.restored.waits))) }
{}

/// After each call of a hitless apply each address is decided as on the chip that was listed or as in the view, once as in the
/// view always so, and what both forward equally is forwarded so.
pub fn apply_is_steady()
    ensures decided { (plan : Ports) (workers : ℕ) (capacities : List ℕ) (s t : Service) (x : Restores plan workers capacities s t) (front rest : List (Call Rid)) → IsPlan plan → Holds plan workers capacities s → x.mode ≡ mode.Hitless → t.left ≡ front ++ rest → IsOldOrNew (chip_things s.core.objects) (only_things x.view.machine.stands) (chip_things (after_calls s.core.made s.core.objects front)) }
    ensures stays { (plan : Ports) (workers : ℕ) (capacities : List ℕ) (s t : Service) (x : Restores plan workers capacities s t) (front more rest : List (Call Rid)) → IsPlan plan → Holds plan workers capacities s → x.mode ≡ mode.Hitless → t.left ≡ front ++ (more ++ rest) → StaysNew (only_things x.view.machine.stands) (chip_things (after_calls s.core.made s.core.objects front)) (chip_things (after_calls s.core.made s.core.objects (front ++ more))) }
    ensures forwarded { (plan : Ports) (workers : ℕ) (capacities : List ℕ) (s t : Service) (x : Restores plan workers capacities s t) (front rest : List (Call Rid)) → IsPlan plan → Holds plan workers capacities s → x.mode ≡ mode.Hitless → t.left ≡ front ++ rest → IsHitless (chip_things s.core.objects) (only_things x.view.machine.stands) (chip_things (after_calls s.core.made s.core.objects front)) }
{}

/// Where the calls of an apply are those of a plan whose objects the view's identifiers name, the apply ends with the
/// identifiers that these come to on the chip: of a hitless plan the old object's where one of the name stood, else the one that
/// was made, and of a cold plan the one that was made.
pub fn apply_ends_by_its_names()
    ensures hitless { (plan : Ports) (workers : ℕ) (capacities : List ℕ) (s t : Service) (x : Restores plan workers capacities s t) (p : PlansHitless capacities s.core.made s.core.objects (only_things x.view.machine.stands) t.left) (ids final : Vid → Rid) (calls : List (Call PlanId)) (es : List (Option (Call Rid) × Service)) → IsPlan plan → Holds plan workers capacities s → ((v : Vid) (u : Thing) → IsIn (v, u) (as_vids x.view.machine.stands) → has_number u ≡ true → IsIdOf (old_layout s.core.objects (only_things x.view.machine.stands)) ids v u (final v)) → PlansChanges (old_layout s.core.objects (only_things x.view.machine.stands)) (viewed (as_vids x.view.machine.stands)) ids s.core.made p.steps calls → t.left ≡ map (call_renamed (resolve ids)) calls → AreApplying es → AreServiceEvents plan workers capacities t es → (service_after t es).left ≡ [] → (u : Service) × (e : Finishes (service_after t es) u) × (e.stands ≡ renamed_by final (as_vids x.view.machine.stands)) }
    ensures cold { (plan : Ports) (workers : ℕ) (capacities : List ℕ) (s t : Service) (x : Restores plan workers capacities s t) (p : PlansCold capacities s.core.made s.core.objects (only_things x.view.machine.stands) t.left) (ids : Vid → Rid) (calls : List (Call PlanId)) (es : List (Option (Call Rid) × Service)) → IsPlan plan → Holds plan workers capacities s → PlansChanges nothing (viewed (as_vids x.view.machine.stands)) ids (made_after_all s.core.made p.front) p.makes calls → p.rest ≡ map (call_renamed (resolve ids)) calls → AreApplying es → AreServiceEvents plan workers capacities t es → (service_after t es).left ≡ [] → (u : Service) × (e : Finishes (service_after t es) u) × (e.stands ≡ renamed_by ids (as_vids x.view.machine.stands)) }
{}

/// Over applies that are broken off one after the other, by failing calls and restarts, an address that the chip forwarded in one
/// way before the first of them, and that each view forwards in this way, is forwarded so after every event.
pub fn broken_restarts_are_steady()
    ensures { (plan : Ports) (workers : ℕ) (capacities : List ℕ) (s : Service) (es : List (Option (Call Rid) × Service)) (run : AreServiceEvents plan workers capacities s es) (a : Packet) (f : Forwarding) → IsPlan plan → Holds plan workers capacities s → (s.warm ≡ Applying → ⊥) → forward (chip_things s.core.objects) a ≡ f → AreBroken plan workers capacities a f s es run → forward (chip_things (service_after s es).core.objects) a ≡ f }
{}

/// Over restarts and faults, with settlings between them, each mark of a log is true; the marks stand in their order, and no round
/// ends but at the mark of a settling or of a fault; no mark counts more writes or effects than there are, nor fewer than the one
/// before it; the last mark tells the warm state; and the effects are legal and lead to the chip.
pub fn logs_are_true()
    ensures marks { (plan : Ports) (workers : ℕ) (capacities : List ℕ) (ts : List LoggedService) → IsPlan plan → AreLoggedSteps plan workers capacities new_session ts → MarksAreTrue plan capacities (session_after new_session ts).log (session_after new_session ts).effects }
    ensures order { (plan : Ports) (workers : ℕ) (capacities : List ℕ) (ts : List LoggedService) → IsPlan plan → AreLoggedSteps plan workers capacities new_session ts → IsOrdered (session_after new_session ts).log }
    ensures counts { (plan : Ports) (workers : ℕ) (capacities : List ℕ) (ts : List LoggedService) → IsPlan plan → AreLoggedSteps plan workers capacities new_session ts → AreWithin (length (session_after new_session ts).log.taken) (length (session_after new_session ts).effects) (session_after new_session ts).log.marks }
    ensures warm { (plan : Ports) (workers : ℕ) (capacities : List ℕ) (ts : List LoggedService) → IsPlan plan → AreLoggedSteps plan workers capacities new_session ts → IsWarmAfter (last_mark None (session_after new_session ts).log.marks) (session_after new_session ts).service.warm }
    ensures effects { (plan : Ports) (workers : ℕ) (capacities : List ℕ) (ts : List LoggedService) → IsPlan plan → AreLoggedSteps plan workers capacities new_session ts → EffectsAreLegal plan capacities (session_after new_session ts).log.taken (session_after new_session ts).effects }
    ensures chip { (plan : Ports) (workers : ℕ) (capacities : List ℕ) (ts : List LoggedService) → IsPlan plan → AreLoggedSteps plan workers capacities new_session ts → (session_after new_session ts).service.core.objects ≡ after_calls 0 [] (session_after new_session ts).effects }
    ensures holds { (plan : Ports) (workers : ℕ) (capacities : List ℕ) (ts : List LoggedService) → IsPlan plan → AreLoggedSteps plan workers capacities new_session ts → Holds plan workers capacities (session_after new_session ts).service }
{}

/// Outside applies the effects of a session are at most 259 for each write taken and each key that was listed where an apply began,
/// over restarts and faults, with any number of workers.
pub fn effects_outside_applies_are_few()
    ensures { (plan : Ports) (workers : ℕ) (capacities : List ℕ) (ts : List LoggedService) → IsPlan plan → AreLoggedSteps plan workers capacities new_session ts → effects_outside None (session_after new_session ts).log.marks (length (session_after new_session ts).effects) ≤ most_calls * (length (session_after new_session ts).log.taken + listed_at_applies (session_after new_session ts).log.marks) }
{}

/// Each apply that a log tells of is hitless exactly where the chip and the things of the rows applied at its mark fit together and
/// no base has interfaces in different virtual routers among them.
/// After each effect of a hitless one, up to the next mark or the end, each address is decided as by what stood at its mark or as by
/// these things, once as by these always so, and what both forward equally is forwarded so. No apply has more effects than the chip
/// had objects at its mark and three for each of these things. And no call takes effect between a fault or a restart and the next mark.
pub fn applies_are_steady_and_short()
    ensures { (plan : Ports) (workers : ℕ) (capacities : List ℕ) (ts : List LoggedService) → IsPlan plan → AreLoggedSteps plan workers capacities new_session ts → AreFollowed plan capacities (session_after new_session ts).log.taken (session_after new_session ts).effects (session_after new_session ts).log.marks }
{}

/// Over marks of hitless applies that are broken off one after the other, by faults and restarts, each address is decided after every
/// effect as by what stood at the first of them, or as by the view of one that had begun by then; and what stood at first and all
/// their views forward in one way is forwarded so, up to the next other mark or the end.
pub fn broken_applies_are_steady()
    ensures { (plan : Ports) (workers : ℕ) (capacities : List ℕ) (ts : List LoggedService) → IsPlan plan → AreLoggedSteps plan workers capacities new_session ts → AreSteadyOverBreaks plan (session_after new_session ts).log.taken (session_after new_session ts).effects (session_after new_session ts).log.marks }
{}
