// What actors know of the value under the lock.
ghost use Rattle.std.specs.Prelude.{◌≡◌, ◌≢◌, ◌+◌, ◌-◌, ◌^◌, ◌<◌, ◌≤◌, ◌++◌, ℕ, List, length, min, Ok, IfOk, IsErr};
ghost use Rattle.table_schema.specs.declared.write.Sent.{Sent};
ghost use Rattle.intake_queue.specs.Values.{AreAllPasses, IsMet};
ghost use Rattle.round_actors.specs.declared.answers.Kept.TheVariants as keeps;
ghost use Rattle.round_actors.specs.declared.answers.Step.TheVariants as steps;
ghost use Rattle.round_actors.specs.Refusals.{or_memory};

use crate::answers::{Kept, Step};
use crate::name::{RoundName, Stops};
use intake_queue::{Intake, Pass};
use std::sync::Wait;
use std::sync::ledger::Share;
use swss_types::OutOfMemory;

/// The value of a round that its actors share: it has the round's taker, the refusal that it keeps, the books of restarts and of
/// stops, and the count of producers that ended. Where a refusal is kept, nothing is taken, stepped or restarted.
pub trait RoundValue<J: RoundName> {
    ghost use Rattle.std.specs.Prelude.{ℕ};
    ghost use Rattle.intake_queue.specs.Values.{Receiver};
    ghost use Rattle.round_actors.specs.declared.answers.Kept.{Kept};
    ghost use Rattle.round_actors.specs.declared.answers.Step.{Step};

    /// How many workers it has: they are numbered from 0.
    ghost workers: { ℕ };

    /// Its taker: of which intake it is, and what it received.
    ghost taker: { Self → Receiver };

    /// The refusal that it keeps.
    ghost refusal: { Self → Kept };

    /// How many restarts were made in this round.
    ghost restarts: { Self → ℕ };

    /// How many producers ended.
    ghost ended: { Self → ℕ };

    /// An event of a worker with this answer leads from the core of the one value to that of the other.
    ghost makes: { Self → ℕ → Step → Self → Type 0 };

    /// Takes a message, or makes an event of a worker where there is none. LogFull is kept exactly where it is answered, and Idle is
    /// answered only where no message was taken.
    fn step<R: Wait>(&mut self, rt: &R, intake: &Intake, worker: u32) -> Result<Step, OutOfMemory>
        requires name { intake.now ≡ J.intake }
        requires worker { worker < workers }
        ensures keeps { result ≡ Ok steps.LogFull → refusal self.new ≡ keeps.LogFull }
        ensures full { refusal self.new ≡ keeps.LogFull → result ≡ Ok steps.LogFull }
        ensures memory { refusal self.new ≡ keeps.NoMemory → IsErr result }
        ensures stays { refusal self.old ≢ keeps.Nothing → self.new ≡ self.old }
        ensures taken { (more : List Sent) × (length more ≤ 1) × ((taker self.new).received ≡ (taker self.old).received ++ more) }
        ensures event { refusal self.old ≡ keeps.Nothing → taker self.new ≡ taker self.old → IfOk result (λ step. makes self.old worker step self.new) }
        ensures idle { result ≡ Ok steps.Idle → taker self.new ≡ taker self.old }
        ensures others { (restarts self.new ≡ restarts self.old) × (ended self.new ≡ ended self.old) };

    /// Takes messages until so many were taken, there was none, or one was refused.
    fn drain<R: Wait>(&mut self, rt: &R, intake: &Intake, most: u64) -> Kept
        requires name { intake.now ≡ J.intake }
        ensures tells { result ≡ refusal self.new }
        ensures stays { refusal self.old ≢ keeps.Nothing → self.new ≡ self.old }
        ensures taken { (more : List Sent) × (length more ≤ most) × ((taker self.new).received ≡ (taker self.old).received ++ more) }
        ensures others { (restarts self.new ≡ restarts self.old) × (ended self.new ≡ ended self.old) };

    /// Restarts, and books it in the book and in the share.
    fn restart(&mut self, share: &mut Share<J>) -> Kept
        requires part { 0 < share.old.parts }
        ensures tells { result ≡ refusal self.new }
        ensures stays { refusal self.old ≢ keeps.Nothing → self.new ≡ self.old }
        ensures made { result ≡ keeps.Nothing → (share.new.amount ≡ share.old.amount + 1) × (restarts self.new ≡ restarts self.old + 1) }
        ensures refused { result ≢ keeps.Nothing → (share.new.amount ≡ share.old.amount) × (restarts self.new ≡ restarts self.old) }
        ensures parts { share.new.parts ≡ share.old.parts }
        ensures others { (taker self.new ≡ taker self.old) × (ended self.new ≡ ended self.old) };

    /// Where no refusal is kept, want of memory is kept.
    fn no_memory(&mut self)
        ensures kept { refusal self.new ≡ or_memory (refusal self.old) }
        ensures others { (taker self.new ≡ taker self.old) × (restarts self.new ≡ restarts self.old) × (ended self.new ≡ ended self.old) };

    /// A producer ended.
    fn producer_ended(&mut self)
        ensures ended { ended self.new ≡ min (ended self.old + 1) (2 ^ 64 - 1) }
        ensures others { (taker self.new ≡ taker self.old) × (restarts self.new ≡ restarts self.old) × (refusal self.new ≡ refusal self.old) };

    /// How many producers ended.
    fn ended(&self) -> u64
        ensures { result ≡ ended self.now };

    /// Books a stop, which there is only where a refusal is kept.
    fn book_stop(&mut self, share: &mut Share<Stops<J>>)
        requires part { 0 < share.old.parts }
        requires refused { refusal self.old ≢ keeps.Nothing }
        ensures booked { (share.new.amount ≡ share.old.amount + 1) × (share.new.parts ≡ share.old.parts) }
        ensures stays { self.new ≡ self.old };

    /// Learns that there is no stop where no refusal is kept.
    fn audit_stops(&mut self, share: &mut Share<Stops<J>>)
        ensures stays { self.new ≡ self.old }
        ensures none { refusal self.new ≡ keeps.Nothing → share.old.amount ≡ 0 };

    /// Learns from all shares how many restarts were made.
    fn audit_restarts(&mut self, all: &mut Share<J>)
        requires parts { all.old.parts ≡ J.parts }
        ensures stays { self.new ≡ self.old }
        ensures kept { (all.new.parts ≡ all.old.parts) × (all.new.amount ≡ all.old.amount) }
        ensures whole { restarts self.new ≡ all.new.amount };

    /// Learns of each producer that what was received and what is queued of it is what it sent.
    fn meet(&mut self, intake: &Intake, passes: &mut Vec<Pass>)
        requires name { intake.now ≡ J.intake }
        requires all { AreAllPasses intake.now passes.old.items }
        ensures kept { (self.new ≡ self.old) × (passes.new.items ≡ passes.old.items) }
        ensures met { IsMet (taker self.new) passes.new.items };
}
