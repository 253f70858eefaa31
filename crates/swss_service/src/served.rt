// The core of a round beside its chip.
ghost use Rattle.std.specs.Prelude.{◌≡◌, ◌<◌};
ghost use Rattle.swss_service.specs.Served.{IsServed, told_step};

use crate::locked::Locked;
use crate::name::Named;
use orch_core::Step as CoreStep;
use round_actors::{Refusal, RoundCore, Step};
use sai_types::Chip;
use std::marker::{Model, PhantomData};
use swss_types::OutOfMemory;
use table_schema::Sent;

/// The core and the chip of a round, which have gone on since its opening.
#[derive(Drop)]
pub struct Served<C: Chip, J: Named> {
    locked: Locked<C>,
    name: PhantomData<J>,
}

impl<C: Chip, J: Named> Model for Served<C, J> {
    ghost use Rattle.swss_service.specs.CoreAndChip.{CoreAndChip};
    ghost use Rattle.std.specs.Prelude.{◌<◌};
    ghost use Rattle.swss_service.specs.Served.{IsServed};

    ghost Value = { CoreAndChip };

    ghost view = { λ s. s.locked };

    ghost invariant = { λ s. (J.most < 4) × IsServed J.most J.opening s.locked };
}

/// What a worker is told of the core's answer.
fn told_step(step: CoreStep) -> Step
    ensures { result ≡ told_step step }
{
    match step {
        CoreStep::Did => Step::Did,
        CoreStep::Idle => Step::Idle,
        CoreStep::Suspect => Step::Suspect,
        CoreStep::Faulted => Step::Faulted,
        CoreStep::LogFull => Step::LogFull,
    }
}

impl<C: Chip, J: Named> Served<C, J> {
    /// The two at the opening of a round.
    pub fn new(locked: Locked<C>) -> Served<C, J>
        requires opening { J.opening ≡ locked }
        requires few { J.most < 4 }
        ensures { result ≡ locked }
    {
        locked.stand_for_one_session();
        Served {
            locked,
            name: PhantomData,
        }
    }

    /// The two again.
    pub fn into_locked(self) -> Locked<C>
        ensures same { result ≡ self }
        ensures served { IsServed J.most J.opening self }
    {
        let Served { locked, name: _ } = self;
        locked
    }
}

impl<C: Chip, J: Named> RoundCore for Served<C, J> {
    ghost use Rattle.orch_core.specs.ComingBack.{restarts_marked};
    ghost use Rattle.std.specs.Prelude.{◌+◌};
    ghost use Rattle.swss_service.specs.Served.{LacksPlaces, MakesCoreEvent};

    ghost taken = { λ s. s.core.log.taken };

    ghost restarts = { λ s. restarts_marked s.core.log.marks };

    ghost full = { λ s. LacksPlaces s };

    ghost workers = { J.most + 1 };

    ghost makes = { λ old worker step new. MakesCoreEvent old worker step new };

    fn take(&mut self, sent: Sent) -> Result<(), Refusal> {
        self.locked.take(sent)
    }

    fn step(&mut self, worker: u32) -> Result<Step, OutOfMemory> {
        let step = self.locked.step(worker)?;
        Ok(told_step(step))
    }

    #[tactic(auto, using(crate::proofs::Serving::restarts_more))]
    fn restart(&mut self) -> Result<(), Refusal> {
        self.locked.restart()
    }
}
