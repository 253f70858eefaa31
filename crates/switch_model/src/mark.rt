// Marks of the log.
ghost use Rattle.std.specs.Prelude.{◌≡◌, IfOk};

use crate::Waits;
use sai_types::Mode;
use swss_types::OutOfMemory;

/// What a mark records.
#[derive(Debug, Drop)]
pub enum MarkEvent {
    /// A settling ended: the keys that wait, and how many turns it made.
    Settled {
        /// The keys that wait.
        waits: Waits,
        /// How many turns the settling made.
        turns: u64,
    },
    /// The chip failed: its count of faults before the call and after it.
    Faulted {
        /// The count before the call.
        before: u64,
        /// The count after the call.
        after: u64,
    },
    /// The control plane restarted.
    Restarted,
    /// A restarted control plane begins to bring the chip to its view.
    ApplyBegan {
        /// How.
        mode: Mode,
        /// The keys that wait.
        waits: Waits,
    },
    /// It is done.
    ApplyEnded,
}

/// What happened at a moment, with the numbers of writes taken and of chip calls that had taken effect by then.
#[derive(Debug, Drop)]
pub struct Mark {
    /// How many writes were taken.
    pub taken: u64,
    /// How many chip calls had taken effect.
    pub effects: u64,
    /// What happened.
    pub event: MarkEvent,
}

impl MarkEvent {
    /// The same event once more. What it lists is shared.
    pub fn copy(&self) -> Result<MarkEvent, OutOfMemory>
        ensures { IfOk result (λ event. event ≡ self.now) }
    {
        match self {
            MarkEvent::Settled { waits, turns } => Ok(MarkEvent::Settled {
                waits: waits.share()?,
                turns: *turns,
            }),
            MarkEvent::Faulted { before, after } => Ok(MarkEvent::Faulted {
                before: *before,
                after: *after,
            }),
            MarkEvent::Restarted => Ok(MarkEvent::Restarted),
            MarkEvent::ApplyBegan { mode, waits } => Ok(MarkEvent::ApplyBegan {
                mode: *mode,
                waits: waits.share()?,
            }),
            MarkEvent::ApplyEnded => Ok(MarkEvent::ApplyEnded),
        }
    }
}

impl Mark {
    /// The same mark once more. What it lists is shared.
    pub fn copy(&self) -> Result<Mark, OutOfMemory>
        ensures { IfOk result (λ mark. mark ≡ self.now) }
    {
        Ok(Mark {
            taken: self.taken,
            effects: self.effects,
            event: self.event.copy()?,
        })
    }
}
