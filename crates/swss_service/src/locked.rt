// The core beside its chip, outside a round and in it.
ghost use Rattle.std.specs.Prelude.{◌≡◌, ◌<◌, length, Err, IfOk, OnOk, OnErr};
ghost use Rattle.table_schema.specs.Writes.{HasReadKey};
ghost use Rattle.sai_types.specs.ChipState.{new_chip};
ghost use Rattle.restart_laws.specs.Logged.{LoggedService};
ghost use Rattle.session_laws.specs.Core.{IsFullFor, new_core, with_taken};
ghost use Rattle.session_laws.specs.Service.Events.{MakesMore, restarted};
ghost use Rattle.session_laws.specs.Service.Standing.{IsServiceOf};
ghost use Rattle.orch_core.specs.Restarting.{IsInService, StepsFrom};
ghost use Rattle.round_actors.specs.declared.round_core.Refusal.TheVariants as refusals;
ghost use Rattle.swss_service.specs.CoreAndChip.{beside};
ghost use Rattle.swss_service.specs.Rounds.{SettlesBoth, end_of_settling};
ghost use Rattle.swss_service.specs.Served.{StaysServed};

use crate::ending::RoundEnd;
use orch_core::{Core, Settled, Step, TakeFault};
use round_actors::Refusal;
use sai_types::{Caps, Chip};
use std::alloc::Global;
use std::marker::Model;
use swss_types::OutOfMemory;
use table_schema::{PortPlan, Sent};

/// The core and its chip: there is a session that both stand for.
#[derive(Drop)]
pub struct Locked<C: Chip> {
    core: Core,
    chip: C,
}

impl<C: Chip> Model for Locked<C> {
    ghost use Rattle.orch_core.specs.Restarting.{IsInService};
    ghost use Rattle.swss_service.specs.CoreAndChip.{CoreAndChip, beside};

    ghost Value = { CoreAndChip };

    ghost view = { λ s. beside s.core (C.state s.chip) };

    ghost invariant = { λ s. IsInService s.core (C.state s.chip) };
}

impl<C: Chip> Locked<C> {
    /// A new core over a new chip, which has these capacities; the core's log has so many places.
    pub fn begin(alloc: Global, plan: PortPlan, caps: Caps, log_limit: u64, chip: C) -> Locked<C>
        requires new { C.state chip ≡ new_chip caps.0 (C.state chip).fails }
        ensures { result ≡ beside (new_core plan caps.0 log_limit) (C.state chip) }
    {
        // It says that the plan is one.
        let _ports = plan.len();
        Locked {
            core: Core::new(alloc, plan, caps, log_limit),
            chip,
        }
    }

    /// The two, of one session.
    pub fn new(core: Core, chip: C) -> Locked<C>
        requires sound { IsInService core (C.state chip) }
        ensures { result ≡ beside core (C.state chip) }
    {
        Locked { core, chip }
    }

    /// The two again.
    pub fn parts(self) -> (Core, C)
        ensures parts { beside result.0 (C.state result.1) ≡ self }
        ensures sound { IsInService result.0 (C.state result.1) }
    {
        let Locked { core, chip } = self;
        (core, chip)
    }

    /// The core.
    pub fn core(&self) -> &Core
        ensures { result.now ≡ self.now.core }
    {
        &self.core
    }

    /// The chip.
    pub fn chip(&self) -> &C
        ensures { C.state result.now ≡ self.now.chip }
    {
        &self.chip
    }

    /// Says that there is a session that both stand for.
    pub fn stand_for_one_session(&self)
        ensures { IsInService self.now.core self.now.chip }
    {
        let _ = &self.core;
    }
}

impl<C: Chip> Locked<C> {
    /// Takes a write. LogFull comes only where the log has no place for it; after a refusal nothing has changed.
    pub(crate) fn take(&mut self, sent: Sent) -> Result<(), Refusal>
        requires read { HasReadKey sent.write }
        ensures ok { OnOk result (self.new ≡ beside (with_taken self.old.core sent) self.old.chip) }
        ensures err { OnErr result (self.new ≡ self.old) }
        ensures full { result ≡ Err refusals.LogFull → IsFullFor self.old.core (length self.old.chip.effects) 1 }
        ensures goes_on { StaysServed self.old self.new }
    {
        match self.core.take(sent, self.chip.effects()) {
            Ok(Ok(())) => Ok(()),
            Ok(Err(TakeFault::LogFull(_))) => Err(Refusal::LogFull),
            Err(OutOfMemory) => Err(Refusal::NoMemory),
        }
    }

    /// Restarts. LogFull comes only where the log has no place for the mark; after a refusal nothing has changed.
    pub(crate) fn restart(&mut self) -> Result<(), Refusal>
        ensures ok { OnOk result (self.new ≡ beside (restarted self.old.core (length self.old.chip.effects)) self.old.chip) }
        ensures err { OnErr result (self.new ≡ self.old) }
        ensures full { result ≡ Err refusals.LogFull → IsFullFor self.old.core (length self.old.chip.effects) 1 }
        ensures goes_on { StaysServed self.old self.new }
    {
        match self.core.restart(self.chip.effects()) {
            Ok(Ok(())) => Ok(()),
            Ok(Err(_)) => Err(Refusal::LogFull),
            Err(OutOfMemory) => Err(Refusal::NoMemory),
        }
    }

    /// Makes an event of a worker, as the core does.
    pub(crate) fn step(&mut self, worker: u32) -> Result<Step, OutOfMemory>
        requires worker { worker < 4 }
        ensures event { (s : LoggedService) → IsServiceOf self.old.core self.old.chip s → StepsFrom self.old.core.warm worker s self.old.core self.old.chip result self.new.core self.new.chip }
        ensures goes_on { (s : LoggedService) → IsServiceOf self.old.core self.old.chip s → MakesMore worker self.old.core s self.new.core self.new.chip }
    {
        self.core.step(&mut self.chip, worker)
    }

    /// Settles, which ends a round.
    pub(crate) fn settle(&mut self) -> RoundEnd
        ensures { SettlesBoth self.old result self.new }
    {
        end_of_settling(self.core.settle(&mut self.chip))
    }
}

/// How a settling ends the round.
fn end_of_settling(settled: Result<Settled, OutOfMemory>) -> RoundEnd
    ensures { result ≡ end_of_settling settled }
{
    match settled {
        Ok(settled) => RoundEnd::Ran(settled),
        Err(OutOfMemory) => RoundEnd::NoMemory,
    }
}
