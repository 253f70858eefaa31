// The chip's identifiers of a view's objects.
ghost use Rattle.syncd_core.specs.Tied.{plan_tie, tie_of};

use asic_view::View;
use chip_layout::NewIds;
use sai_types::{PlanId, Rid, Vid};

/// The chip's identifiers, by a view's ties.
#[derive(Clone, Copy)]
pub(crate) struct ChipIds<'a>(pub(crate) &'a View);

impl NewIds<Vid, Rid> for ChipIds<'_> {
    ghost new_id = { λ ids. tie_of ids.0.now.objects };

    fn new_id(&self, id: Vid) -> Rid {
        self.0.rid(id).unwrap_or(Rid(0))
    }
}

impl NewIds<PlanId, Rid> for ChipIds<'_> {
    ghost new_id = { λ ids. plan_tie ids.0.now.objects };

    fn new_id(&self, id: PlanId) -> Rid {
        match id {
            PlanId::Old(rid) => rid,
            PlanId::New(vid) => self.0.rid(vid).unwrap_or(Rid(0)),
        }
    }
}
