// For which workers operations are under way. Each function is a law: it does nothing, and its contract is proved.
ghost use Rattle.std.specs.Prelude.{◌≡◌, ◌++◌, ℕ, List, [], Option};
ghost use Rattle.table_schema.specs.Plan.{Ports};
ghost use Rattle.sai_types.specs.declared.body.Call.{Call};
ghost use Rattle.sai_types.specs.declared.ids.Rid.{Rid};
ghost use Rattle.sai_types.specs.ChipState.{ChipState};
ghost use Rattle.switch_machine.specs.Events.{IsAnswer, IsBegin};
ghost use Rattle.switch_machine.specs.Next.{IsNextEvent};
ghost use Rattle.restart_laws.specs.Invariant.{Holds};
ghost use Rattle.restart_laws.specs.Logged.{LoggedService, session_after};
ghost use Rattle.restart_laws.specs.Service.{Finishes};
ghost use Rattle.warm_state.specs.declared.warm.Warm.TheVariants as warm;
ghost use Rattle.session_laws.specs.Core.{CoreState};
ghost use Rattle.session_laws.specs.Service.Standing.{IsServiceOf};
ghost use Rattle.session_laws.specs.Workers.{IsByFirst, StayByFirst, StaysByFirst};

/// Where none but the first workers has an operation under way, none has one after an answer, whose worker has one; after a beginning and
/// a next event of one of them; after what leaves the machine as it is, as a pop, a drop, a write and a mark; and at the end of an apply,
/// where no operation is under way. Where the service is not reconciled nothing is asked.
pub fn workers_stay()
    ensures answers { (s t : LoggedService) → t.service.warm ≡ s.service.warm → (plan : Ports) (workers : ℕ) (call : Call Rid) → IsAnswer plan workers call s.service.core t.service.core → (n : ℕ) → IsByFirst n s → IsByFirst n t }
    ensures begins { (s t : LoggedService) → t.service.warm ≡ s.service.warm → (plan : Ports) (workers : ℕ) (capacities : List ℕ) (x : IsBegin plan workers capacities s.service.core t.service.core) (w : ℕ) → x.worker ≡ w → StaysByFirst w s t }
    ensures next { (s t : LoggedService) → t.service.warm ≡ s.service.warm → (plan : Ports) (workers : ℕ) (capacities : List ℕ) (w : ℕ) (call : Option (Call Rid)) → IsNextEvent plan workers capacities w s.service.core call t.service.core → StaysByFirst w s t }
    ensures machines { (s t : LoggedService) → t.service.warm ≡ s.service.warm → t.service.core.machine ≡ s.service.core.machine → (n : ℕ) → IsByFirst n s → IsByFirst n t }
    ensures away { (s t : LoggedService) → (t.service.warm ≡ warm.Reconciled → ⊥) → (n : ℕ) → IsByFirst n s → IsByFirst n t }
    ensures finishes { (plan : Ports) (workers : ℕ) (capacities : List ℕ) (s t : LoggedService) → Holds plan workers capacities s.service → Finishes s.service t.service → (n : ℕ) → IsByFirst n s → IsByFirst n t }
{}

/// Steps one after the other are by the first workers where each is.
pub fn workers_stay_on()
    ensures none { (w : ℕ) (s : LoggedService) → StayByFirst w s [] }
    ensures both { (w : ℕ) (s : LoggedService) (xs ys : List LoggedService) → StayByFirst w s xs → StayByFirst w (session_after s xs) ys → StayByFirst w s (xs ++ ys) }
{}

/// Where none but the first workers has an operation under way, none has one as long as the core's board stays, or where the core is not
/// reconciled.
pub fn boards_stay()
    ensures stay { (c c' : CoreState) (chip chip' : ChipState) (s t : LoggedService) → IsServiceOf c chip s → IsServiceOf c' chip' t → c'.board ≡ c.board → c'.warm ≡ c.warm → (n : ℕ) → IsByFirst n s → IsByFirst n t }
    ensures away { (c c' : CoreState) (chip chip' : ChipState) (s t : LoggedService) → IsServiceOf c chip s → IsServiceOf c' chip' t → (c'.warm ≡ warm.Reconciled → ⊥) → (n : ℕ) → IsByFirst n s → IsByFirst n t }
{}
