// The call that is due for a worker.
ghost use Rattle.std.specs.Prelude.{◌≡◌, ◌<◌, Some, IsSome, length};
ghost use Rattle.sai_types.specs.declared.answer.SyncAnswer.TheVariants as sync;
ghost use Rattle.registry_laws.specs.Flown.{Flown};
ghost use Rattle.registry_laws.specs.Making.{IsNextCall, MayTakeFor};
ghost use Rattle.registry_laws.specs.Standing.{HasBegun};
ghost use Rattle.restart_laws.specs.Logged.{LoggedService};
ghost use Rattle.flight_board.specs.Board.{MayEndThen, flown_at};
ghost use Rattle.warm_state.specs.declared.warm.Warm.TheVariants as warm;
ghost use Rattle.session_laws.specs.Core.{IsFullFor};
ghost use Rattle.session_laws.specs.Events.{vid_made_by};
ghost use Rattle.session_laws.specs.Standing.{IsSessionOf};
ghost use Rattle.orch_core.specs.Outcomes.{Answered, Heeds, IsInSession};

use crate::logging::{entered, mark_in};
use crate::{Core, Step};
use sai_types::{Call, Chip, SyncAnswer, Vid};
use switch_model::{Mark, MarkEvent, PlacedLog};
use swss_types::OutOfMemory;
use warm_state::Warm;

impl Core {
    /// Makes the call that is due for a worker that has something under way. A call that fails is marked, and the round ends at
    /// the mark where `ends` says so.
    pub(crate) fn answer<C: Chip>(
        &mut self,
        chip: &mut C,
        worker: u32,
        ends: bool,
    ) -> Result<Step, OutOfMemory>
        requires worker { worker < 4 }
        requires session { IsInSession self.old (C.state chip.old) }
        requires warm { self.old.warm ≡ warm.Reconciled }
        requires flying { IsSome (flown_at self.old.board worker) }
        ensures { (s : LoggedService) → IsSessionOf self.old (C.state chip.old) s → Answered ends s worker self.old (C.state chip.old) result self.new (C.state chip.new) }
    {
        if self.is_full(chip.effects(), 2) {
            return Ok(Step::LogFull);
        }
        self.prepare(worker)?;
        let call = self.due_call(worker)?;
        self.make(chip, worker, &call, ends)
    }

    /// Makes a worker's next call, for which there is room in the log.
    fn make<C: Chip>(
        &mut self,
        chip: &mut C,
        worker: u32,
        call: &Call<Vid>,
        ends: bool,
    ) -> Result<Step, OutOfMemory>
        requires worker { worker < 4 }
        requires session { IsInSession self.old (C.state chip.old) }
        requires warm { self.old.warm ≡ warm.Reconciled }
        requires flying { (x : Flown) × (flown_at self.old.board worker ≡ Some x) × HasBegun self.old.board.plan self.old.board.names x × IsNextCall self.old.board.plan self.old.board.names x.operation x.group call.now }
        requires room { IsFullFor self.old (length (C.state chip.old).effects) 2 → ⊥ }
        ensures { (s : LoggedService) → IsSessionOf self.old (C.state chip.old) s → Answered ends s worker self.old (C.state chip.old) result self.new (C.state chip.new) }
    {
        let before = chip.faults();
        let log = self.keep_place()?;
        match self.call_chip(chip, call) {
            Ok(answer) => {
                let after = chip.faults();
                let fault = mark_in(&log, chip.effects(), MarkEvent::Faulted { before, after });
                Ok(self.heed(worker, answer, log, fault, ends))
            }
            Err(error) => {
                self.put_back(log.give_up());
                Err(error)
            }
        }
    }

    /// Takes what a call made, or enters the mark that it failed, and gives the core its log back.
    fn heed(
        &mut self,
        worker: u32,
        answer: SyncAnswer,
        log: PlacedLog,
        fault: Mark,
        ends: bool,
    ) -> Step
        requires worker { worker < 4 }
        requires may { (answer ≡ sync.Failed → ⊥) → (x : Flown) × (flown_at self.old.board worker ≡ Some x) × MayTakeFor x.operation x.group (vid_made_by answer) self.old.board.names }
        requires ends { (answer ≡ sync.Failed → ⊥) → MayEndThen self.old.board worker (vid_made_by answer) }
        ensures { Heeds worker answer log fault ends self.old result self.new }
    {
        match answer {
            SyncAnswer::Made(vid) => {
                self.put_back(log.give_up());
                self.took(worker, Some(vid));
                Step::Did
            }
            SyncAnswer::Done => {
                self.put_back(log.give_up());
                self.took(worker, None);
                Step::Did
            }
            SyncAnswer::Failed => {
                self.put_back(entered(log, fault, ends));
                self.suspect();
                Step::Faulted
            }
        }
    }

    /// Nothing is done from now on, until a restart.
    pub(crate) fn suspect(&mut self)
        ensures { self.new ≡ record self.old { warm = warm.Suspect } }
    {
        self.state = Warm::Suspect;
    }
}
