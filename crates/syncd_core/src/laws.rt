// What holds of the calls of a plan. Each function is a law: it does nothing, and its contract is proved.
ghost use Rattle.std.specs.Prelude.{◌≡◌, ℕ, List, map};
ghost use Rattle.sai_types.specs.declared.plan.PlanCall.{PlanCall};
ghost use Rattle.chip_layout.specs.Renamed.{call_renamed};
ghost use Rattle.asic_view.specs.View.{ViewObjects};
ghost use Rattle.syncd_core.specs.Run.{AreInTime, tied_after, tied_calls};
ghost use Rattle.syncd_core.specs.Tied.{plan_tie};

/// The calls of a plan that names each object after it is tied come to the chip as they do by the ties in the end.
pub fn ties_hold()
    ensures { (made : ℕ) (view : ViewObjects) (calls : List PlanCall) → AreInTime made view calls → tied_calls made view calls ≡ map (λ c. call_renamed (plan_tie (tied_after made view calls)) c.call) calls }
{}
