// What the actors of a round left in the queue is taken.
ghost use Rattle.std.specs.Prelude.{◌≡◌, ◌++◌, List};
ghost use Rattle.table_schema.specs.declared.write.Sent.{Sent};
ghost use Rattle.intake_queue.specs.Values.{AreAllPasses, IsAllTaken, IsMet};
ghost use Rattle.round_actors.specs.Follows.{FollowsTaker};
ghost use Rattle.round_actors.specs.declared.answers.Kept.TheVariants as keeps;
ghost use Rattle.swss_service.specs.Rounds.{restarts_logged, writes_logged};
ghost use Rattle.swss_service.specs.Served.{LacksPlaces};

use crate::name::Named;
use crate::served::Served;
use intake_queue::{Intake, Pass, Taker};
use round_actors::{Kept, RoundCore};
use sai_types::Chip;
use std::sync::Wait;

/// Takes all that is left in the queue, with all passes at hand, until there is none or the core refuses one.
pub(crate) fn take_rest<R: Wait, C: Chip, J: Named>(
    rt: &R,
    intake: &Intake,
    passes: &mut Vec<Pass>,
    taker: &mut Taker,
    served: &mut Served<C, J>,
) -> Kept
    requires intake { taker.old.intake ≡ intake.now }
    requires all { AreAllPasses intake.now passes.old.items }
    ensures passes { passes.new.items ≡ passes.old.items }
    ensures intake { taker.new.intake ≡ taker.old.intake }
    ensures restarts { restarts_logged served.new ≡ restarts_logged served.old }
    ensures follows { (opening : List Sent) → writes_logged served.old ≡ opening ++ taker.old.received → FollowsTaker opening (writes_logged served.new) taker.new.received result }
    ensures all { result ≡ keeps.Nothing → IsAllTaken taker.new passes.old.items }
    ensures met { IsMet taker.new passes.old.items }
    ensures cause { result ≡ keeps.LogFull → LacksPlaces served.new }
{
    for _ in rt.forever() {
        match taker.last(rt, intake, passes) {
            None => return Kept::Nothing,
            Some(sent) => match served.take(sent) {
                Ok(()) => {}
                Err(refusal) => return refusal.kept(),
            },
        }
    }
    unreachable!()
}
