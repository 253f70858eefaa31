// The calls that bring a chip from one view to another.
ghost use Rattle.std.specs.Prelude.{◌≡◌, [], ◌∷◌, ◌++◌, IfOk, OnOk, OnErr};

use crate::{Call, Rid, Vid};
use std::alloc::Global;
use std::marker::Model;
use swss_types::OutOfMemory;

/// How a restarted service brings the chip to its view.
#[derive(Clone, Copy, Debug, PartialEq, Eq)]
pub enum Mode {
    /// What stays the same stays on the chip throughout.
    Hitless,
    /// All is removed, and then all is made.
    Cold,
}

/// Names an object in a plan.
#[derive(Clone, Copy, Debug, PartialEq, Eq, PartialOrd, Ord)]
pub enum PlanId {
    /// One that stands on the chip.
    Old(Rid),
    /// One that the plan makes.
    New(Vid),
}

/// A call of a plan.
#[derive(Debug, PartialEq, Eq, Drop)]
pub struct PlanCall {
    /// The call.
    pub call: Call<PlanId>,
    /// The identifier of the object that the call makes, where it makes one with an identifier.
    pub makes: Option<Vid>,
}

/// The calls of a plan, in order.
#[derive(Debug, Drop)]
pub struct PlanCalls {
    calls: Vec<PlanCall>,
}

/// A plan: its mode and its calls.
#[derive(Debug, Drop)]
pub struct Plan {
    /// The mode.
    pub mode: Mode,
    /// The calls, in order.
    pub calls: PlanCalls,
}

impl PlanCall {
    /// The same call once more.
    pub(crate) fn copy(&self) -> Result<PlanCall, OutOfMemory>
        ensures { IfOk result (λ call. call ≡ self.now) }
    {
        Ok(PlanCall {
            call: self.call.copy()?,
            makes: self.makes,
        })
    }
}

impl Model for PlanCalls {
    ghost use Rattle.std.specs.Prelude.{List};
    ghost use Rattle.sai_types.specs.declared.plan.PlanCall.{PlanCall};

    ghost Value = { List PlanCall };

    ghost view = { λ p. p.calls.items };
}

impl PlanCalls {
    /// No call.
    pub fn new(alloc: Global) -> PlanCalls
        ensures { result ≡ [] }
    {
        PlanCalls {
            calls: Vec::new(alloc),
        }
    }

    /// Puts a call last.
    pub fn push(&mut self, call: PlanCall) -> Result<(), OutOfMemory>
        ensures ok { OnOk result (self.new ≡ self.old ++ call ∷ []) }
        ensures err { OnErr result (self.new ≡ self.old) }
    {
        self.calls.push(call)?;
        Ok(())
    }

    /// The same calls once more.
    pub fn copy(&self) -> Result<PlanCalls, OutOfMemory>
        ensures { IfOk result (λ calls. calls ≡ self.now) }
    {
        let mut calls = Vec::with_capacity(*self.calls.allocator(), self.calls.len())?;
        for call in self.calls.as_slice() {
            calls.push(call.copy()?)?;
        }
        Ok(PlanCalls { calls })
    }

    /// The calls.
    pub fn items(&self) -> &[PlanCall]
        ensures { result.now ≡ self.now }
    {
        self.calls.as_slice()
    }
}
