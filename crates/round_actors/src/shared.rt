// The value of a round under its lock, over a core.
ghost use Rattle.std.specs.Prelude.{◌≡◌, ◌≢◌, ◌+◌, ◌<◌, ◌≤◌, ◌++◌, ◌∷◌, List, [], length, Ok, IfNone, IfOk, IfSome, IsErr};
ghost use Rattle.table_schema.specs.declared.write.Sent.{Sent};
ghost use Rattle.round_actors.specs.declared.answers.Kept.TheVariants as keeps;
ghost use Rattle.round_actors.specs.declared.answers.Step.TheVariants as steps;
ghost use Rattle.round_actors.specs.Follows.{FollowsTaker};

use crate::answers::{Kept, Step};
use crate::name::Stops;
use crate::round_core::{Opening, RoundCore};
use crate::round_value::RoundValue;
use intake_queue::{Intake, Pass, Taker};
use std::marker::Model;
use std::sync::Wait;
use std::sync::ledger::{Book, Share};
use swss_types::OutOfMemory;

/// The core, the taker, the books of restarts and of stops, the refusal that is kept, and the count of producers that ended.
#[derive(Drop)]
pub struct Shared<K: RoundCore, J: Opening> {
    core: K,
    taker: Taker,
    restarts: Book<J>,
    stops: Book<Stops<J>>,
    refusal: Kept,
    ended: u64,
}

impl<K: RoundCore, J: Opening> Model for Shared<K, J> {
    ghost use Rattle.round_actors.specs.State.{SharedState};
    ghost use Rattle.round_actors.specs.Follows.{SharedKeeps};

    ghost Value = { SharedState K };

    ghost view = { λ s. record { core = s.core; taker = s.taker; refusal = s.refusal; restarts = s.restarts.total; ended = s.ended } };

    ghost invariant = { λ s. SharedKeeps J.intake J.taken J.restarts (K.taken s.core) (K.restarts s.core) (K.full s.core) s.taker s.restarts.total s.stops.total s.refusal };
}

impl<K: RoundCore, J: Opening> Shared<K, J> {
    /// The value at the opening of a round.
    pub fn new(core: K, taker: Taker, restarts: Book<J>, stops: Book<Stops<J>>) -> Shared<K, J>
        requires opening { (K.taken core ≡ J.taken) × (K.restarts core ≡ J.restarts) }
        requires taker { (taker.intake ≡ J.intake) × (taker.received ≡ []) }
        requires books { (restarts.total ≡ 0) × (stops.total ≡ 0) }
        ensures core { result.core ≡ core }
        ensures nothing { (result.taker ≡ taker) × (result.refusal ≡ keeps.Nothing) × (result.restarts ≡ 0) × (result.ended ≡ 0) }
    {
        Shared {
            core,
            taker,
            restarts,
            stops,
            refusal: Kept::Nothing,
            ended: 0,
        }
    }

    /// The core and the taker, and the refusal that was kept.
    pub fn parts(self) -> (K, Taker, Kept)
        ensures parts { (result.0 ≡ self.core) × (result.1 ≡ self.taker) × (result.2 ≡ self.refusal) }
        ensures intake { result.1.intake ≡ J.intake }
        ensures follows { FollowsTaker J.taken (K.taken result.0) result.1.received result.2 }
        ensures restarts { K.restarts result.0 ≡ J.restarts + self.restarts }
        ensures cause { result.2 ≡ keeps.LogFull → K.full result.0 }
    {
        (self.core, self.taker, self.refusal)
    }

    /// Takes a message, and tells the refusal that is kept behind it. None where there was no message.
    fn take_one<R: Wait>(&mut self, rt: &R, intake: &Intake) -> Option<Kept>
        requires name { intake.now ≡ J.intake }
        requires calm { self.old.refusal ≡ keeps.Nothing }
        ensures none { IfNone result (self.new ≡ self.old) }
        ensures some { IfSome result (λ kept. self.new.refusal ≡ kept) }
        ensures received { IfSome result (λ kept. (sent : Sent) × (self.new.taker.received ≡ self.old.taker.received ++ sent ∷ [])) }
        ensures others { (self.new.restarts ≡ self.old.restarts) × (self.new.ended ≡ self.old.ended) }
    {
        match self.taker.take(rt, intake) {
            None => None,
            Some(sent) => match self.core.take(sent) {
                Ok(()) => Some(Kept::Nothing),
                Err(refusal) => {
                    let kept = refusal.kept();
                    self.refusal = kept;
                    Some(kept)
                }
            },
        }
    }

    /// Takes messages until so many were taken, there was none, or one was refused.
    fn take_some<R: Wait>(&mut self, rt: &R, intake: &Intake, most: u64)
        requires name { intake.now ≡ J.intake }
        requires calm { self.old.refusal ≡ keeps.Nothing }
        ensures taken { (more : List Sent) × (length more ≤ most) × (self.new.taker.received ≡ self.old.taker.received ++ more) }
        ensures others { (self.new.restarts ≡ self.old.restarts) × (self.new.ended ≡ self.old.ended) }
    {
        for _i in 0..most {
            match self.take_one(rt, intake) {
                Some(Kept::Nothing) => {}
                _ => break,
            }
        }
    }

    /// Makes an event of the core, and keeps that its log was full.
    fn event(&mut self, worker: u32) -> Result<Step, OutOfMemory>
        requires worker { worker < K.workers }
        requires calm { self.old.refusal ≡ keeps.Nothing }
        ensures event { IfOk result (λ step. K.makes self.old.core worker step self.new.core) }
        ensures keeps { result ≡ Ok steps.LogFull → self.new.refusal ≡ keeps.LogFull }
        ensures full { self.new.refusal ≡ keeps.LogFull → result ≡ Ok steps.LogFull }
        ensures memory { self.new.refusal ≢ keeps.NoMemory }
        ensures others { (self.new.taker ≡ self.old.taker) × (self.new.restarts ≡ self.old.restarts) × (self.new.ended ≡ self.old.ended) }
    {
        match self.core.step(worker) {
            Ok(Step::LogFull) => {
                self.refusal = Kept::LogFull;
                Ok(Step::LogFull)
            }
            other => other,
        }
    }

    /// Takes a message, or makes an event of the core where there is none.
    fn go_on<R: Wait>(&mut self, rt: &R, intake: &Intake, worker: u32) -> Result<Step, OutOfMemory>
        requires name { intake.now ≡ J.intake }
        requires worker { worker < K.workers }
        requires calm { self.old.refusal ≡ keeps.Nothing }
        ensures keeps { result ≡ Ok steps.LogFull → self.new.refusal ≡ keeps.LogFull }
        ensures full { self.new.refusal ≡ keeps.LogFull → result ≡ Ok steps.LogFull }
        ensures memory { self.new.refusal ≡ keeps.NoMemory → IsErr result }
        ensures taken { (more : List Sent) × (length more ≤ 1) × (self.new.taker.received ≡ self.old.taker.received ++ more) }
        ensures event { self.new.taker ≡ self.old.taker → IfOk result (λ step. K.makes self.old.core worker step self.new.core) }
        ensures idle { result ≡ Ok steps.Idle → self.new.taker ≡ self.old.taker }
        ensures others { (self.new.restarts ≡ self.old.restarts) × (self.new.ended ≡ self.old.ended) }
    {
        match self.take_one(rt, intake) {
            None => self.event(worker),
            Some(Kept::Nothing) => Ok(Step::Did),
            Some(Kept::LogFull) => Ok(Step::LogFull),
            Some(Kept::NoMemory) => Err(OutOfMemory),
        }
    }
}

impl<K: RoundCore, J: Opening> RoundValue<J> for Shared<K, J> {
    ghost workers = { K.workers };

    ghost taker = { λ s. s.taker };

    ghost refusal = { λ s. s.refusal };

    ghost restarts = { λ s. s.restarts };

    ghost ended = { λ s. s.ended };

    ghost makes = { λ s worker step t. K.makes s.core worker step t.core };

    fn step<R: Wait>(&mut self, rt: &R, intake: &Intake, worker: u32) -> Result<Step, OutOfMemory> {
        match self.refusal {
            Kept::LogFull => Ok(Step::LogFull),
            Kept::NoMemory => Err(OutOfMemory),
            Kept::Nothing => self.go_on(rt, intake, worker),
        }
    }

    fn drain<R: Wait>(&mut self, rt: &R, intake: &Intake, most: u64) -> Kept {
        match self.refusal {
            Kept::Nothing => {
                self.take_some(rt, intake, most);
                self.refusal
            }
            kept => kept,
        }
    }

    fn restart(&mut self, share: &mut Share<J>) -> Kept {
        match self.refusal {
            Kept::Nothing => {}
            kept => return kept,
        }
        match self.core.restart() {
            Ok(()) => {
                self.restarts.add(share, 1);
                Kept::Nothing
            }
            Err(refusal) => {
                let kept = refusal.kept();
                self.refusal = kept;
                kept
            }
        }
    }

    fn no_memory(&mut self) {
        if let Kept::Nothing = self.refusal {
            self.refusal = Kept::NoMemory;
        }
    }

    fn producer_ended(&mut self) {
        self.ended = self.ended.saturating_add(1);
    }

    fn ended(&self) -> u64 {
        self.ended
    }

    fn book_stop(&mut self, share: &mut Share<Stops<J>>) {
        self.stops.add(share, 1);
    }

    fn audit_stops(&mut self, share: &mut Share<Stops<J>>) {
        self.stops.audit(share);
    }

    fn audit_restarts(&mut self, all: &mut Share<J>) {
        self.restarts.audit(all);
    }

    fn meet(&mut self, intake: &Intake, passes: &mut Vec<Pass>) {
        self.taker.meet(intake, passes);
    }
}
