// A round with one worker, in the calling thread.
ghost use Rattle.swss_script.specs.Sent.{writes_in};
ghost use Rattle.swss_service.specs.Round.{RoundsTo};
ghost use Rattle.swss_service.specs.Rounds.{RoundsBeside};
ghost use Rattle.swss_service.specs.Taking.{HaveReadKeys};

use crate::alone::take_sections;
use crate::ending::RoundEnd;
use crate::locked::Locked;
use round_actors::Kept;
use sai_types::Chip;
use std::alloc::Global;
use swss_script::Sections;

/// A round with one worker, in the calling thread and without a queue: the acts of its sections, which it uses up, are made in the
/// script's order, and then all is settled. It tells how the round ended.
///
/// LogFull comes where the log had no place for the next write or restart; NoMemory where memory was refused.
pub fn round_alone<C: Chip>(alloc: Global, locked: &mut Locked<C>, sections: Sections) -> RoundEnd
    requires read { HaveReadKeys (writes_in sections) }
    ensures alone { RoundsTo sections locked.old.core locked.old.chip result locked.new.core locked.new.chip }
    ensures any { RoundsBeside 0 sections locked.old result locked.new }
{
    locked.stand_for_one_session();
    match take_sections(alloc, locked, sections) {
        Kept::Nothing => locked.settle(),
        Kept::LogFull => RoundEnd::LogFull,
        Kept::NoMemory => RoundEnd::NoMemory,
    }
}
