// What the value of a round knows of its core.
ghost use Rattle.std.specs.Prelude.{◌≡◌, ◌≢◌, ◌↔◌, ◌+◌, ◌<◌, [], ◌∷◌, ◌++◌, Ok, Err, IfOk, OnOk, OnErr};
ghost use Rattle.intake_queue.specs.ReadWrites.{IsReadWrite};
ghost use Rattle.round_actors.specs.declared.answers.Kept.TheVariants as keeps;
ghost use Rattle.round_actors.specs.declared.answers.Step.TheVariants as steps;
ghost use Rattle.round_actors.specs.declared.round_core.Refusal.TheVariants as refusals;

use crate::answers::{Kept, Step};
use crate::name::RoundName;
use std::marker::Brand;
use swss_types::OutOfMemory;
use table_schema::Sent;

/// Why a core refuses.
#[derive(Clone, Copy, Debug, PartialEq, Eq)]
pub enum Refusal {
    /// The log is full.
    LogFull,
    /// There is no memory.
    NoMemory,
}

impl Refusal {
    /// The refusal, as a round's value keeps it.
    pub fn kept(self) -> Kept
        ensures refused { result ≢ keeps.Nothing }
        ensures full { result ≡ keeps.LogFull ↔ self ≡ refusals.LogFull }
    {
        match self {
            Refusal::LogFull => Kept::LogFull,
            Refusal::NoMemory => Kept::NoMemory,
        }
    }
}

/// A core with its chip: what its log took, and how many restarts it marked. It answers LogFull only where the log is full.
pub trait RoundCore {
    ghost use Rattle.std.specs.Prelude.{List, ℕ};
    ghost use Rattle.table_schema.specs.declared.write.Sent.{Sent};
    ghost use Rattle.round_actors.specs.declared.answers.Step.{Step};

    /// How many workers it has: they are numbered from 0.
    ghost workers: { ℕ };

    /// The writes taken.
    ghost taken: { Self → List Sent };

    /// The restarts marked.
    ghost restarts: { Self → ℕ };

    /// The log has no place for its next event.
    ghost full: { Self → Type 0 };

    /// An event of a worker with this answer leads from the one core to the other.
    ghost makes: { Self → ℕ → Step → Self → Type 0 };

    /// Takes a write.
    fn take(&mut self, sent: Sent) -> Result<(), Refusal>
        requires read { IsReadWrite sent.write }
        ensures ok { OnOk result ((taken self.new ≡ taken self.old ++ sent ∷ []) × (restarts self.new ≡ restarts self.old)) }
        ensures err { OnErr result ((taken self.new ≡ taken self.old) × (restarts self.new ≡ restarts self.old)) }
        ensures cause { result ≡ Err refusals.LogFull → full self.new };

    /// Makes an event of a worker.
    fn step(&mut self, worker: u32) -> Result<Step, OutOfMemory>
        requires worker { worker < workers }
        ensures event { IfOk result (λ step. makes self.old worker step self.new) }
        ensures same { (taken self.new ≡ taken self.old) × (restarts self.new ≡ restarts self.old) }
        ensures cause { result ≡ Ok steps.LogFull → full self.new };

    /// Restarts.
    fn restart(&mut self) -> Result<(), Refusal>
        ensures ok { OnOk result ((taken self.new ≡ taken self.old) × (restarts self.new ≡ restarts self.old + 1)) }
        ensures err { OnErr result ((taken self.new ≡ taken self.old) × (restarts self.new ≡ restarts self.old)) }
        ensures cause { result ≡ Err refusals.LogFull → full self.new };
}

/// Stands for a round with its opening: what was taken and how many restarts were marked before it.
pub trait Opening: RoundName {
    ghost use Rattle.std.specs.Prelude.{List, ℕ};
    ghost use Rattle.table_schema.specs.declared.write.Sent.{Sent};

    ghost taken: { List Sent };

    ghost restarts: { ℕ };
}

impl Opening for Brand {
    ghost use Rattle.std.specs.Prelude.{[]};

    ghost taken = { [] };

    ghost restarts = { 0 };
}
