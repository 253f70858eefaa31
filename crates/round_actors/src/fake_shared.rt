// A value in memory that actors may share, with no core.
ghost use Rattle.std.specs.Prelude.{◌≡◌, ◌≢◌, ◌≤◌, ◌++◌, ◌∷◌, List, [], length, IfNone, IfSome, if◌then◌else◌};
ghost use Rattle.table_schema.specs.declared.write.Sent.{Sent};
ghost use Rattle.round_actors.specs.declared.answers.Kept.TheVariants as keeps;
ghost use Rattle.round_actors.specs.declared.answers.Step.TheVariants as steps;
ghost use Rattle.round_actors.specs.Trials.{MakesOneEvent};

use crate::answers::{Kept, Step};
use crate::name::{RoundName, Stops};
use crate::round_value::RoundValue;
use intake_queue::{Intake, Pass, Taker};
use std::marker::Model;
use std::sync::Wait;
use std::sync::ledger::{Book, Share};
use swss_types::OutOfMemory;

/// The smallest value of a round: it counts what it takes and restarts, up to so many, and makes as many events as it was told to.
#[derive(Drop)]
pub struct FakeShared<J: RoundName> {
    taker: Taker,
    restarts: Book<J>,
    stops: Book<Stops<J>>,
    refusal: Kept,
    ended: u64,
    restarted: u64,
    size: u64,
    places: u64,
    events: u64,
}

impl<J: RoundName> Model for FakeShared<J> {
    ghost use Rattle.std.specs.Prelude.{◌≡◌, ◌≤◌, ℕ};
    ghost use Rattle.round_actors.specs.declared.answers.Kept.TheVariants as keeps;
    ghost use Rattle.round_actors.specs.State.{SharedState};

    ghost Value = { SharedState ℕ };

    ghost view = { λ f. record { core = f.events; taker = f.taker; refusal = f.refusal; restarts = f.restarted; ended = f.ended } };

    ghost invariant = { λ f. (f.taker.intake ≡ J.intake) × (f.restarted ≡ f.restarts.total) × (f.restarted ≤ f.size) × (f.refusal ≡ keeps.Nothing → f.stops.total ≡ 0) };
}

impl<J: RoundName> FakeShared<J> {
    /// Nothing was taken or made.
    pub fn new(
        taker: Taker,
        restarts: Book<J>,
        stops: Book<Stops<J>>,
        places: u64,
        events: u64,
    ) -> FakeShared<J>
        requires { (taker.intake ≡ J.intake) × (restarts.total ≡ 0) × (stops.total ≡ 0) }
        ensures { (result.taker ≡ taker) × (result.refusal ≡ keeps.Nothing) × (result.restarts ≡ 0) × (result.ended ≡ 0) }
    {
        FakeShared {
            taker,
            restarts,
            stops,
            refusal: Kept::Nothing,
            ended: 0,
            restarted: 0,
            size: 0,
            places,
            events,
        }
    }

    /// The refusal that it keeps, and how many restarts were made.
    pub fn told(&self) -> (Kept, u64)
        ensures { (result.0 ≡ self.now.refusal) × (result.1 ≡ self.now.restarts) }
    {
        (self.refusal, self.restarted)
    }

    /// Takes a message, and tells whether it had a place. None where there was no message.
    fn take_one<R: Wait>(&mut self, rt: &R, intake: &Intake) -> Option<bool>
        requires name { intake.now ≡ J.intake }
        requires calm { self.old.refusal ≡ keeps.Nothing }
        ensures none { IfNone result (self.new ≡ self.old) }
        ensures some { IfSome result (λ placed. self.new.refusal ≡ (if placed then keeps.Nothing else keeps.LogFull)) }
        ensures received { IfSome result (λ placed. (sent : Sent) × (self.new.taker.received ≡ self.old.taker.received ++ sent ∷ [])) }
        ensures others { (self.new.core ≡ self.old.core) × (self.new.restarts ≡ self.old.restarts) × (self.new.ended ≡ self.old.ended) }
    {
        self.taker.take(rt, intake)?;
        if self.size >= self.places {
            self.refusal = Kept::LogFull;
            return Some(false);
        }
        self.size += 1;
        Some(true)
    }

    /// Takes messages until so many were taken, there was none, or one was refused.
    fn take_some<R: Wait>(&mut self, rt: &R, intake: &Intake, most: u64)
        requires name { intake.now ≡ J.intake }
        requires calm { self.old.refusal ≡ keeps.Nothing }
        ensures taken { (more : List Sent) × (length more ≤ most) × (self.new.taker.received ≡ self.old.taker.received ++ more) }
        ensures others { (self.new.restarts ≡ self.old.restarts) × (self.new.ended ≡ self.old.ended) }
    {
        for _i in 0..most {
            match self.take_one(rt, intake) {
                Some(true) => {}
                _ => break,
            }
        }
    }

    /// Takes a message, or makes an event where there is none.
    fn go_on<R: Wait>(&mut self, rt: &R, intake: &Intake) -> Step
        requires name { intake.now ≡ J.intake }
        requires calm { self.old.refusal ≡ keeps.Nothing }
        ensures keeps { result ≡ steps.LogFull → self.new.refusal ≡ keeps.LogFull }
        ensures full { self.new.refusal ≡ keeps.LogFull → result ≡ steps.LogFull }
        ensures memory { self.new.refusal ≢ keeps.NoMemory }
        ensures taken { (more : List Sent) × (length more ≤ 1) × (self.new.taker.received ≡ self.old.taker.received ++ more) }
        ensures event { self.new.taker ≡ self.old.taker → MakesOneEvent self.old.core result self.new.core }
        ensures idle { result ≡ steps.Idle → self.new.taker ≡ self.old.taker }
        ensures others { (self.new.restarts ≡ self.old.restarts) × (self.new.ended ≡ self.old.ended) }
    {
        match self.take_one(rt, intake) {
            Some(true) => Step::Did,
            Some(false) => Step::LogFull,
            None if self.events == 0 => Step::Idle,
            None => {
                self.events -= 1;
                Step::Did
            }
        }
    }
}

impl<J: RoundName> RoundValue<J> for FakeShared<J> {
    ghost use Rattle.round_actors.specs.Trials.{MakesOneEvent};

    ghost workers = { 4 };

    ghost taker = { λ f. f.taker };

    ghost refusal = { λ f. f.refusal };

    ghost restarts = { λ f. f.restarts };

    ghost ended = { λ f. f.ended };

    ghost makes = { λ f worker step g. MakesOneEvent f.core step g.core };

    fn step<R: Wait>(
        &mut self,
        rt: &R,
        intake: &Intake,
        _worker: u32,
    ) -> Result<Step, OutOfMemory> {
        match self.refusal {
            Kept::LogFull => Ok(Step::LogFull),
            Kept::NoMemory => Err(OutOfMemory),
            Kept::Nothing => Ok(self.go_on(rt, intake)),
        }
    }

    fn drain<R: Wait>(&mut self, rt: &R, intake: &Intake, most: u64) -> Kept {
        match self.refusal {
            Kept::Nothing => {
                self.take_some(rt, intake, most);
                self.refusal
            }
            kept => kept,
        }
    }

    fn restart(&mut self, share: &mut Share<J>) -> Kept {
        match self.refusal {
            Kept::Nothing => {}
            kept => return kept,
        }
        if self.size >= self.places {
            self.refusal = Kept::LogFull;
            return Kept::LogFull;
        }
        self.size += 1;
        self.restarted += 1;
        self.restarts.add(share, 1);
        Kept::Nothing
    }

    fn no_memory(&mut self) {
        if let Kept::Nothing = self.refusal {
            self.refusal = Kept::NoMemory;
        }
    }

    fn producer_ended(&mut self) {
        self.ended = self.ended.saturating_add(1);
    }

    fn ended(&self) -> u64 {
        self.ended
    }

    fn book_stop(&mut self, share: &mut Share<Stops<J>>) {
        self.stops.add(share, 1);
    }

    fn audit_stops(&mut self, share: &mut Share<Stops<J>>) {
        self.stops.audit(share);
    }

    fn audit_restarts(&mut self, all: &mut Share<J>) {
        self.restarts.audit(all);
    }

    fn meet(&mut self, intake: &Intake, passes: &mut Vec<Pass>) {
        self.taker.meet(intake, passes);
    }
}
