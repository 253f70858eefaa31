// What a run leaves.
ghost use Rattle.std.specs.Prelude.{◌≡◌, None};
ghost use Rattle.switch_model.specs.History.{no_history};

use crate::Status;
use sai_chip::SimChip;
use std::alloc::Global;
use switch_model::Log;

/// What a run leaves: how it ended, what was taken and marked, and the chip.
#[derive(Drop)]
pub struct Outcome {
    /// How the run ended.
    pub status: Status,
    /// The log of the session, empty where none began.
    pub log: Log,
    /// The chip, None where no session began.
    pub chip: Option<SimChip>,
}

impl Outcome {
    /// An outcome where no session began.
    pub(crate) fn without_session(alloc: Global, status: Status) -> Outcome
        ensures { result ≡ record { status = status; log = no_history; chip = None } }
    {
        Outcome {
            status,
            log: Log::new(alloc),
            chip: None,
        }
    }

    /// How the run ended, for a caller who needs no more: the log and the chip are given up.
    pub fn into_status(self) -> Status
        ensures { result ≡ self.status }
    {
        let Outcome { status, log, chip } = self;
        // each by its destructor, which is so proved by itself
        drop(log);
        drop(chip);
        status
    }
}
