// Calls on a view, and on the chip beside it.
ghost use Rattle.std.specs.Prelude.{◌≡◌, OnErr, IfOk};
ghost use Rattle.sai_types.specs.ChipState.{IsAskedOnce};
ghost use Rattle.sai_types.specs.Refusal.{IsLegal};
ghost use Rattle.chip_layout.specs.Renamed.{call_renamed};
ghost use Rattle.asic_view.specs.View.{IsLegalOn};
ghost use Rattle.syncd_core.specs.Synced.{Changes, IsMadeOnChip, answer_made};
ghost use Rattle.syncd_core.specs.Tied.{tie_of};

use crate::made::{Made, make};
use crate::naming::ChipIds;
use asic_view::{View, taken_back_is_unmade};
use chip_layout::call_with_ids;
use sai_types::{Body, Call, Chip, Rid, SyncAnswer, Vid};
use swss_types::OutOfMemory;

/// Makes a call on a view alone.
pub(crate) fn call_view(view: &mut View, call: &Call<Vid>) -> Result<SyncAnswer, OutOfMemory>
    requires { IsLegalOn view.old.objects call.now }
    ensures ok { IfOk result (λ answer. Changes view.old.objects call.now answer view.new.objects) }
    ensures err { OnErr result (view.new.objects ≡ view.old.objects) }
{
    match call {
        Call::Create(body) => {
            let copy = body.copy()?;
            let vid = view.create(copy)?;
            Ok(answer_made(body, vid))
        }
        Call::Set(entry, attr) => {
            view.set(entry, *attr);
            Ok(SyncAnswer::Done)
        }
        Call::Remove(entry) => {
            view.remove(entry);
            Ok(SyncAnswer::Done)
        }
    }
}

/// What a call that made an object answers: its identifier, where its kind has one.
fn answer_made(body: &Body<Vid>, vid: Vid) -> SyncAnswer
    ensures { result ≡ answer_made body.now vid }
{
    match body {
        Body::OwnAddress { .. } | Body::Neighbor { .. } | Body::Route { .. } => SyncAnswer::Done,
        _ => SyncAnswer::Made(vid),
    }
}

/// Makes a call on the chip, by a view's ties, and on the view.
pub(crate) fn call_chip<C: Chip>(
    view: &mut View,
    chip: &mut C,
    call: &Call<Vid>,
) -> Result<SyncAnswer, OutOfMemory>
    requires view { IsLegalOn view.old.objects call.now }
    requires chip { IsLegal (C.state chip.old).capacities (C.state chip.old).objects (call_renamed (tie_of view.old.objects) call.now) }
    ensures ok { IfOk result (λ answer. IsMadeOnChip view.old.objects (C.state chip.old) call.now answer view.new.objects (C.state chip.new)) }
    ensures err { OnErr result (view.new.objects ≡ view.old.objects) }
    ensures unmade { OnErr result (IsAskedOnce (C.state chip.old) (C.state chip.new)) }
{
    let tied = call_with_ids(&ChipIds(view), call)?;
    match call {
        Call::Create(body) => create(view, chip, &tied, body),
        Call::Set(entry, attr) => match make(chip, &tied)? {
            Made::Failed => Ok(SyncAnswer::Failed),
            _ => {
                view.set(entry, *attr);
                Ok(SyncAnswer::Done)
            }
        },
        Call::Remove(entry) => match make(chip, &tied)? {
            Made::Failed => Ok(SyncAnswer::Failed),
            _ => {
                view.remove(entry);
                Ok(SyncAnswer::Done)
            }
        },
    }
}

/// Makes an object on the view and on the chip, by the call that was tied, and ties the one to the other. The view's
/// object, with the place for its tie, is made first, so that nothing can fail once the chip's is made.
fn create<C: Chip>(
    view: &mut View,
    chip: &mut C,
    tied: &Call<Rid>,
    body: &Body<Vid>,
) -> Result<SyncAnswer, OutOfMemory>
    requires view { IsLegalOn view.old.objects (Call.Create body.now) }
    requires chip { IsLegal (C.state chip.old).capacities (C.state chip.old).objects tied.now }
    requires tied { tied.now ≡ call_renamed (tie_of view.old.objects) (Call.Create body.now) }
    ensures ok { IfOk result (λ answer. IsMadeOnChip view.old.objects (C.state chip.old) (Call.Create body.now) answer view.new.objects (C.state chip.new)) }
    ensures err { OnErr result (view.new.objects ≡ view.old.objects) }
    ensures unmade { OnErr result (IsAskedOnce (C.state chip.old) (C.state chip.new)) }
{
    taken_back_is_unmade();
    let copy = body.copy()?;
    let vid = view.create(copy)?;
    match make(chip, tied) {
        Ok(Made::Object(rid)) => {
            view.tie(vid, rid);
            Ok(SyncAnswer::Made(vid))
        }
        Ok(Made::Done) => Ok(SyncAnswer::Done),
        Ok(Made::Failed) => {
            view.take_back(vid);
            Ok(SyncAnswer::Failed)
        }
        Err(error) => {
            view.take_back(vid);
            Err(error)
        }
    }
}
