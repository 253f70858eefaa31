// Syncd.
ghost use Rattle.std.specs.Prelude.{◌≡◌, ◌<◌, ◌^◌, [], length, None, slice_index, IfOk, OnErr};
ghost use Rattle.sai_types.specs.declared.kind.Kind.{Kind};
ghost use Rattle.sai_types.specs.ChipState.{AppendsEach, IsAnswered, IsAskedOnce, asked, objects_of};
ghost use Rattle.sai_types.specs.Objects.{Objects, level};
ghost use Rattle.sai_types.specs.Refusal.{IsLegal};
ghost use Rattle.chip_layout.specs.Renamed.{call_renamed};
ghost use Rattle.asic_view.specs.View.{used_of};
ghost use Rattle.syncd_core.specs.Begun.{Begins, CanBegin};
ghost use Rattle.syncd_core.specs.Next.{next_call};
ghost use Rattle.syncd_core.specs.Synced.{Applies, CanApply, CanCall, Calls, IsUnmade, TakesList, Ties, answer_by, current, new_state, step_after, tied_by, with_temporary};
ghost use Rattle.syncd_core.specs.Tied.{plan_tie};

use crate::answer::{ApplyStep, Listed};
use crate::beginning::begin;
use crate::calling::{call_chip, call_view};
use crate::made::{Made, make};
use crate::naming::ChipIds;
use asic_view::View;
use chip_layout::call_with_ids;
use sai_types::{
    Call, Caps, Chip, Kind, KindCounts, ListAnswer, Mode, Object, PlanCall, PlanCalls, Rid,
    SyncAnswer, Vid,
};
use std::alloc::Global;
use std::marker::Model;
use swss_types::OutOfMemory;

/// The view that stands for the chip, with the ties of its objects to the chip's, and, over a restart, the list of the
/// chip, the temporary view and the plan that brings the chip to it.
#[derive(Drop)]
pub struct Syncd {
    alloc: Global,
    caps: Caps,
    view: View,
    temporary: Option<View>,
    listed: Option<Vec<Object<Rid>>>,
    plan: PlanCalls,
    made: usize,
}

impl Model for Syncd {
    ghost use Rattle.std.specs.Prelude.{◌≤◌, drop, length, option_map};
    ghost use Rattle.syncd_core.specs.Synced.{SyncState};

    ghost Value = { SyncState };

    ghost view = { λ s. record { view = s.view.objects; temporary = option_map (λ v. v.objects) s.temporary; listed = option_map (λ v. v.items) s.listed; left = drop s.made s.plan; capacities = s.caps.0 } };

    ghost invariant = { λ s. s.made ≤ length s.plan };
}

impl Syncd {
    /// Beside an empty chip with these capacities.
    pub fn new(alloc: Global, caps: Caps) -> Syncd
        ensures { result ≡ new_state caps.0 }
    {
        Syncd {
            alloc,
            caps,
            view: View::new(alloc),
            temporary: None,
            listed: None,
            plan: PlanCalls::new(alloc),
            made: 0,
        }
    }

    /// Makes a call: while a temporary view is built on that view alone, and otherwise exactly one call on the chip, the
    /// call with its identifiers replaced by those of the chip to which they are tied. What is made is tied. After
    /// Failed it is not known whether the chip made the call, and `take_list` is next. After want of memory nothing is
    /// made; the chip may have been asked once.
    pub fn call<C: Chip>(
        &mut self,
        chip: &mut C,
        call: &Call<Vid>,
    ) -> Result<SyncAnswer, OutOfMemory>
        requires { CanCall self.old self.old.temporary (C.state chip.old) call.now }
        ensures ok { IfOk result (λ answer. Calls self.old self.old.temporary (C.state chip.old) call.now answer self.new (C.state chip.new)) }
        ensures err { OnErr result (self.new ≡ self.old) }
        ensures unmade { OnErr result (IsUnmade self.old.temporary (C.state chip.old) (C.state chip.new)) }
    {
        match &mut self.temporary {
            Some(view) => call_view(view, call),
            None => call_chip(&mut self.view, chip, call),
        }
    }

    /// Starts an empty temporary view. Mostly it comes to hold about as many objects as the chip, so its first object makes room for these.
    pub fn init_view(&mut self)
        ensures { self.new ≡ with_temporary self.old [] }
    {
        let count = match &self.listed {
            Some(listed) => listed.len(),
            None => 0,
        };
        self.temporary = Some(View::expecting(self.alloc, count));
    }

    /// Gives up the temporary view, where one is built, and the plan, where there is one.
    pub fn drop_view(&mut self)
        ensures { self.new ≡ record self.old { temporary = None; left = [] } }
    {
        self.temporary = None;
        self.plan = PlanCalls::new(self.alloc);
        self.made = 0;
    }

    /// Forgets both views with their ties, the list and the plan: it is as it began, with the same capacities.
    pub fn forget(&mut self)
        ensures { self.new ≡ new_state self.old.capacities }
    {
        *self = Syncd::new(self.alloc, self.caps);
    }

    /// How many objects of the kind there are in the temporary view, where one is built, and otherwise in the view that
    /// stands for the chip.
    pub fn used(&self, kind: Kind) -> u64
        ensures { result ≡ used_of (current self.now) kind }
    {
        match &self.temporary {
            Some(view) => view.used(kind),
            None => self.view.used(kind),
        }
    }

    /// How many objects of each kind there are, in the order of the kinds, in the temporary view, where one is built, and
    /// otherwise in the view that stands for the chip.
    pub fn counts(&self) -> KindCounts
        ensures kinds { (k : Kind) → slice_index result (level k) ≡ used_of (current self.now) k }
        ensures few { (k : Kind) → used_of (current self.now) k < 2 ^ 63 }
    {
        match &self.temporary {
            Some(view) => view.counts(),
            None => self.view.counts(),
        }
    }

    /// Lists the chip's objects, and keeps them in the order of their entries. The chip is asked once, whatever it answers.
    pub fn take_list<C: Chip>(&mut self, chip: &mut C) -> Result<Listed, OutOfMemory>
        ensures ok { IfOk result (λ listed. TakesList self.old (C.state chip.old) listed self.new (C.state chip.new)) }
        ensures err { OnErr result (self.new ≡ self.old) }
        ensures unmade { OnErr result (C.state chip.new ≡ asked (C.state chip.old)) }
    {
        let mut objects = Vec::new(self.alloc);
        match chip.list(&mut objects) {
            ListAnswer::Done => {
                put_in_order(&mut objects);
                self.listed = Some(objects);
                Ok(Listed::Done)
            }
            ListAnswer::Failed => Ok(Listed::Failed),
            ListAnswer::NoMemory => Err(OutOfMemory),
        }
    }

    /// Plans the way from the chip's objects, as they were listed, to the temporary view, which then is the view that will
    /// stand for the chip. What stays on the chip is tied to it.
    pub fn begin_apply(&mut self) -> Result<Mode, OutOfMemory>
        requires { CanBegin self.old }
        ensures ok { IfOk result (λ mode. Begins self.old mode self.new) }
        ensures err { OnErr result (self.new ≡ self.old) }
    {
        let Some(listed) = &self.listed else {
            unreachable!()
        };
        let Some(view) = &mut self.temporary else {
            unreachable!()
        };
        let plan = begin(self.alloc, &self.caps, listed.as_slice(), view)?;
        if let Some(view) = self.temporary.take() {
            self.view = view;
        }
        self.listed = None;
        self.plan = plan.calls;
        self.made = 0;
        Ok(plan.mode)
    }

    /// How many calls of the plan were not yet made: 0 where there is no plan.
    pub fn left(&self) -> u64
        ensures { result ≡ length self.now.left }
    {
        (self.plan.items().len() - self.made) as u64
    }

    /// The plan's next call with the chip's identifiers, as it comes to the chip: None where no call is left.
    pub fn next(&self) -> Result<Option<Call<Rid>>, OutOfMemory>
        ensures { IfOk result (λ next. next ≡ next_call self.now.left self.now.view) }
    {
        match self.plan.items().get(self.made) {
            Some(next) => Ok(Some(call_with_ids(&ChipIds(&self.view), &next.call)?)),
            None => Ok(None),
        }
    }

    /// Makes the plan's next call on the chip, and ties what it makes. Ended exactly where every call was made, then and
    /// whenever no call is left. After Failed it is not known whether the chip made the call. After want of memory
    /// nothing is made; the chip may have been asked once.
    pub fn apply_one<C: Chip>(&mut self, chip: &mut C) -> Result<ApplyStep, OutOfMemory>
        requires { CanApply self.old.left self.old.view (C.state chip.old) }
        ensures ok { IfOk result (λ step. Applies self.old.left self.old (C.state chip.old) step self.new (C.state chip.new)) }
        ensures err { OnErr result (self.new ≡ self.old) }
        ensures unmade { OnErr result (IsAskedOnce (C.state chip.old) (C.state chip.new)) }
    {
        let Some(next) = self.plan.items().get(self.made) else {
            return Ok(ApplyStep::Ended);
        };
        match apply(&mut self.view, chip, next)? {
            Made::Failed => Ok(ApplyStep::Failed),
            _ => {
                self.made += 1;
                Ok(self.step())
            }
        }
    }

    /// Where the plan stands after a call that was made.
    fn step(&self) -> ApplyStep
        ensures { result ≡ step_after self.now.left }
    {
        if self.left() == 0 {
            ApplyStep::Ended
        } else {
            ApplyStep::More
        }
    }
}

/// Puts a chip's objects, listed in any order, in the order of their entries.
fn put_in_order(listed: &mut Vec<Object<Rid>>)
    ensures { (objects : Objects) → AppendsEach objects [] listed.old.items → listed.new.items ≡ objects_of objects }
{
    listed.sort_unstable_by_key(|object| object.entry);
}

/// Makes a call of a plan on the chip, and ties what it makes.
fn apply<C: Chip>(view: &mut View, chip: &mut C, next: &PlanCall) -> Result<Made, OutOfMemory>
    requires { IsLegal (C.state chip.old).capacities (C.state chip.old).objects (call_renamed (plan_tie view.old.objects) next.now.call) }
    ensures answered { IfOk result (λ made. IsAnswered (C.state chip.old) (call_renamed (plan_tie view.old.objects) next.now.call) (answer_by made) (C.state chip.new)) }
    ensures ties { IfOk result (λ made. Ties view.old.objects next.now (answer_by made) view.new.objects) }
    ensures err { OnErr result (view.new.objects ≡ view.old.objects) }
    ensures unmade { OnErr result (IsAskedOnce (C.state chip.old) (C.state chip.new)) }
{
    let call = call_with_ids(&ChipIds(view), &next.call)?;
    let made = make(chip, &call)?;
    if let Made::Object(rid) = made {
        tie_made(view, next.makes, rid);
    }
    Ok(made)
}

/// Ties the object that a call of a plan makes to the one that the chip made.
fn tie_made(view: &mut View, makes: Option<Vid>, rid: Rid)
    ensures { view.new.objects ≡ tied_by view.old.objects makes rid }
{
    if let Some(vid) = makes {
        view.tie(vid, rid);
    }
}
