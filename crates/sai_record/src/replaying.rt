// Replaying a recording on a chip.
ghost use Rattle.std.specs.Prelude.{◌≡◌, [], IfOk, IfSome, OnErr, OnOk};
ghost use Rattle.sai_record.specs.Build.{made_as};
ghost use Rattle.sai_record.specs.Replayed.{IsCallMade, IsReplayed};

use crate::numbers::Numbers;
use crate::{Recorded, Recording};
use chip_layout::call_with_ids;
use sai_types::{Chip, ChipAnswer};
use std::alloc::Global;
use swss_types::OutOfMemory;

/// How a replay ended.
#[derive(Clone, Copy, Debug, PartialEq, Eq)]
pub enum Replayed {
    /// Every call was made.
    Done,
    /// It stopped at a call.
    Stopped {
        /// The call, counted from 1.
        at: u64,
        /// Why.
        why: StopWhy,
    },
}

/// Why a replay stopped at a call.
#[derive(Clone, Copy, Debug, PartialEq, Eq)]
pub enum StopWhy {
    /// The first identifier in the call that no earlier call made. The chip was not asked.
    UnknownId(u64),
    /// The call is to make an identifier that an earlier call made. The chip was not asked.
    TwiceId(u64),
    /// The chip refused the call, by its table of answers.
    Refused(ChipAnswer),
    /// The chip failed.
    Failed,
}

/// Makes the calls of a recording on a chip without objects, in order, each identifier by that which the chip gave to what
/// it stands for. After want of memory the chip holds what some of the first calls made.
pub fn replay<C: Chip>(
    alloc: Global,
    recording: &Recording,
    chip: &mut C,
) -> Result<Replayed, OutOfMemory>
    requires { (C.state chip.old).objects ≡ [] }
    ensures replayed { IfOk result (λ replayed. IsReplayed (C.state chip.old) recording.now.calls replayed (C.state chip.new)) }
    ensures memory { OnErr result ((C.state chip.new).faults ≡ (C.state chip.old).faults) }

    // It is the same chip: with the same room, and made to fail at the same calls.
    ensures room { (C.state chip.new).capacities ≡ (C.state chip.old).capacities }
    ensures fails { (C.state chip.new).fails ≡ (C.state chip.old).fails }
{
    replay_calls(alloc, recording.calls.items(), chip)
}

/// Makes calls on a chip without objects, in order.
fn replay_calls<C: Chip>(
    alloc: Global,
    calls: &[Recorded],
    chip: &mut C,
) -> Result<Replayed, OutOfMemory>
    requires { (C.state chip.old).objects ≡ [] }
    ensures replayed { IfOk result (λ replayed. IsReplayed (C.state chip.old) calls.now replayed (C.state chip.new)) }
    ensures memory { OnErr result ((C.state chip.new).faults ≡ (C.state chip.old).faults) }
    ensures room { (C.state chip.new).capacities ≡ (C.state chip.old).capacities }
    ensures fails { (C.state chip.new).fails ≡ (C.state chip.old).fails }
{
    let mut numbers = Numbers::new(alloc);
    for (before, recorded) in calls.iter().enumerate() {
        if let Err(why) = make(&mut numbers, chip, recorded)? {
            return Ok(Replayed::Stopped {
                at: before as u64 + 1,
                why,
            });
        }
    }
    Ok(Replayed::Done)
}

/// Makes a call of a recording on a chip, unless it names an identifier that no call made, or is to make one for the second
/// time.
fn make<C: Chip>(
    numbers: &mut Numbers,
    chip: &mut C,
    recorded: &Recorded,
) -> Result<Result<(), StopWhy>, OutOfMemory>
    ensures made { IfOk result (λ answer. IsCallMade numbers.old (C.state chip.old) recorded.now answer numbers.new (C.state chip.new)) }
    ensures memory { OnErr result ((C.state chip.new).faults ≡ (C.state chip.old).faults) }
    ensures room { (C.state chip.new).capacities ≡ (C.state chip.old).capacities }
    ensures fails { (C.state chip.new).fails ≡ (C.state chip.old).fails }
{
    if let Some(why) = numbers.stop(recorded) {
        return Ok(Err(why));
    }
    let call = call_with_ids(numbers, &recorded.call)?;
    match chip.call(&call) {
        ChipAnswer::Made(made) => {
            numbers.put(recorded.made, made)?;
            Ok(Ok(()))
        }
        ChipAnswer::Done => Ok(Ok(())),
        ChipAnswer::Failed => Ok(Err(StopWhy::Failed)),
        ChipAnswer::NoMemory => Err(OutOfMemory),
        refusal => Ok(Err(StopWhy::Refused(refusal))),
    }
}
