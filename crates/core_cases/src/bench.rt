// A core and its chip.
ghost use Rattle.std.specs.Prelude.{◌<◌};
ghost use Rattle.switch_model.specs.Marks.{written_key};
ghost use Rattle.machine_laws.specs.Reading.{IsOnSwitch};

use orch_core::{Core, LogFull, Settled, Step, TakeFault};
use part_cases::chips::put_away;
use sai_chip::SimChip;
use sai_types::{Caps, Chip, Object, Rid};
use std::alloc::Global;
use std::marker::Model;
use switch_model::{MarkEvent, Waits};
use swss_types::OutOfMemory;
use table_schema::{PortPlan, Sent, Write};

/// How many objects of each kind a chip has room for, where a case says nothing else.
pub const ROOM: Caps = Caps([
    256, 4094, 256, 256, 16_384, 1024, 2048, 16_384, 16_384, 512, 16_384, 65_536,
]);

/// How many places the log has.
const PLACES: u64 = 4_194_304;

/// A core and its chip, which are at each moment in a session that came about by at most four workers, over restarts too. They end by `end`.
pub struct Bench {
    core: Core,
    chip: SimChip,
}

impl Model for Bench {
    ghost use Rattle.sai_types.specs.ChipState.{ChipState};
    ghost use Rattle.session_laws.specs.Core.{CoreState};
    ghost use Rattle.round_laws.specs.Sessions.{InSession};

    ghost Value = { CoreState × ChipState };

    ghost view = { λ b. (b.core, b.chip) };

    ghost invariant = { λ b. InSession 4 b.core b.chip };
}

impl Bench {
    /// A new core over an empty chip with this room.
    pub fn new(alloc: Global, plan: PortPlan, room: Caps) -> Bench {
        // It says that the plan is one.
        let _ports = plan.len();
        Bench {
            core: Core::new(alloc, plan, room, PLACES),
            chip: SimChip::new(alloc, room, Vec::new(alloc)),
        }
    }

    /// Ends core and chip.
    pub fn end(self) {
        let Bench { core, chip } = self;
        // so its destructor is not proved once more
        drop(core.into_log());
        put_away(chip);
    }

    /// Takes a write of a key that was read.
    pub fn take(&mut self, write: Write) -> Result<Result<(), TakeFault>, OutOfMemory>
        requires { IsOnSwitch (written_key write) }
    {
        let sent = Sent {
            from: 1,
            number: self.core.log().taken().len() as u64,
            write,
        };
        self.core.take(sent, self.chip.effects())
    }

    /// Makes a step of a worker.
    pub fn step(&mut self, worker: u32) -> Result<Step, OutOfMemory>
        requires { worker < 4 }
    {
        self.core.step(&mut self.chip, worker)
    }

    /// Settles.
    pub fn settle(&mut self) -> Result<Settled, OutOfMemory> {
        self.core.settle(&mut self.chip)
    }

    /// Restarts.
    pub fn restart(&mut self) -> Result<Result<(), LogFull>, OutOfMemory> {
        self.core.restart(self.chip.effects())
    }

    /// The keys that wait by the last mark. None where that is not a mark of a settling.
    pub fn waits(&self) -> Option<&Waits> {
        match &self.core.log().marks().last()?.event {
            MarkEvent::Settled { waits, .. } => Some(waits),
            _ => None,
        }
    }

    /// The chip.
    pub fn chip(&self) -> &SimChip {
        &self.chip
    }

    /// The objects on the chip.
    pub fn objects(&self, alloc: Global) -> Result<Vec<Object<Rid>>, OutOfMemory> {
        self.chip.objects(alloc)
    }
}
