// A legal call on the chip.
ghost use Rattle.std.specs.Prelude.{◌≡◌, IfOk, OnErr};
ghost use Rattle.sai_types.specs.ChipState.{IsAnswered, asked};
ghost use Rattle.sai_types.specs.Refusal.{IsLegal};
ghost use Rattle.syncd_core.specs.Synced.{answer_by};

use sai_types::{Call, Chip, ChipAnswer, Rid};
use swss_types::OutOfMemory;

/// What a legal call on the chip came to.
#[derive(Clone, Copy, Debug, PartialEq, Eq)]
pub(crate) enum Made {
    /// It made an object with this identifier.
    Object(Rid),
    /// It took effect.
    Done,
    /// The chip failed: it took effect or did not.
    Failed,
}

/// Makes a legal call on the chip, which is asked once.
pub(crate) fn make<C: Chip>(chip: &mut C, call: &Call<Rid>) -> Result<Made, OutOfMemory>
    requires { IsLegal (C.state chip.old).capacities (C.state chip.old).objects call.now }
    ensures ok { IfOk result (λ made. IsAnswered (C.state chip.old) call.now (answer_by made) (C.state chip.new)) }
    ensures err { OnErr result (C.state chip.new ≡ asked (C.state chip.old)) }
{
    match chip.call(call) {
        ChipAnswer::Made(rid) => Ok(Made::Object(rid)),
        ChipAnswer::Done => Ok(Made::Done),
        ChipAnswer::Failed => Ok(Made::Failed),
        ChipAnswer::NoMemory => Err(OutOfMemory),
        ChipAnswer::Exists
        | ChipAnswer::BadReference
        | ChipAnswer::NotFound
        | ChipAnswer::InUse
        | ChipAnswer::Full => unreachable!(),
    }
}
