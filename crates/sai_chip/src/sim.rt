// A simulated SAI chip.
ghost use Rattle.std.specs.Prelude.{◌≡◌, ◌<◌, ℕ, true, ◌⊎◌, [], ◌++◌, None, Some, slice_get, length, is_some, option_copied, IfOk, IsSome, OnOk, OnErr};
ghost use Rattle.sai_types.specs.declared.ids.Rid.{Rid};
ghost use Rattle.sai_types.specs.declared.body.Call.{Call};
ghost use Rattle.sai_types.specs.After.{after_call};
ghost use Rattle.sai_types.specs.Made.{AreSorted, HaveLanes, has_first};
ghost use Rattle.sai_types.specs.Objects.{Objects};
ghost use Rattle.sai_types.specs.ChipState.{IsAnswered, IsListed, new_chip, objects_of};
ghost use Rattle.sai_types.specs.Refusal.{refusal_of};
ghost use Rattle.sai_types.specs.Forwarding.{forward};
ghost use Rattle.sai_types.specs.Named.{named, those};
ghost use Rattle.sai_chip.specs.Forward.{answer_of};
ghost use Rattle.sai_chip.specs.SimChip.{effect_at, makes_first};
ghost use Rattle.sai_chip.specs.Sim.{FailsBy, IsCalled, IsListing, ListsBy, ResultsBy, counted, effect_answer, fault_of, is_failed, refusal_at, with_effect};

use crate::effect::{make_effect, makes_id};
use crate::fail::Failing;
use crate::forward::Forward;
use crate::forwarding::forward_by;
use crate::held::Held;
use crate::table::refusal;
use sai_types::{
    Body, Call, Caps, Chip, ChipAnswer, Fail, Kind, ListAnswer, Object, Rid, empty_is_whole,
    equal_entries_find_alike, keys_are_taken_once, made_is_found, others_stay, removed_is_gone,
    set_is_found, stays_whole,
};
use std::alloc::Global;
use std::marker::Model;
use swss_types::{Ip, OutOfMemory, Packet, Vrf};

/// For how many effects there is room from the first on. A list that grows from nothing leaves its smaller places behind
/// it; memory that nothing was written to takes no place.
const FIRST_EFFECTS: usize = 65_536;

/// A SAI chip in memory, with a capacity for each kind of object. It fails at chosen calls.
#[derive(Drop)]
pub struct SimChip {
    held: Held,
    effects: Vec<Call<Rid>>,
    made: u64,
    caps: Caps,
    clean: bool,
    fails: Failing,
    calls: u64,
    faults: u64,
    before_fault: u64,
}

impl Model for SimChip {
    ghost use Rattle.sai_types.specs.ChipState.{ChipState};
    ghost use Rattle.sai_chip.specs.SimChip.{IsChipInOrder};

    ghost Value = { ChipState };

    ghost view = { λ s. record { objects = s.held; effects = s.effects.items; capacities = s.caps.0; fails = s.fails; clean = s.clean; faults = s.faults; before_fault = s.before_fault; calls = s.calls } };

    ghost invariant = { λ s. IsChipInOrder s.held s.effects.items s.fails s.made s.faults s.calls };
}

impl SimChip {
    /// An empty chip with these capacities. It fails at the calls that `fails` lists; of several entries for one call
    /// the first counts.
    pub fn new(alloc: Global, caps: Caps, fails: Vec<Fail>) -> SimChip
        ensures { result ≡ new_chip caps.0 fails.items }
    {
        empty_is_whole();
        SimChip {
            held: Held::new(alloc),
            effects: Vec::new(alloc),
            made: 0,
            caps,
            clean: true,
            fails: Failing::new(alloc, fails),
            calls: 0,
            faults: 0,
            before_fault: 0,
        }
    }

    /// Effect k, counted from 1: None exactly where k is 0 or greater than the number of effects.
    pub fn effect(&self, k: u64) -> Option<&Call<Rid>>
        ensures { option_copied result ≡ effect_at self.now.effects k }
    {
        self.effects.get(k.checked_sub(1)? as usize)
    }

    /// Where the chip sends the packets of an address in a router: to the switch itself where the address is its own there,
    /// else where the route there points whose prefix is the longest that covers the address, with its hops in rising
    /// order, else nowhere, as in a router that is not on the chip.
    pub fn forward(&self, alloc: Global, vrf: Vrf, ip: Ip) -> Result<Forward, OutOfMemory>
        ensures { IfOk result (λ f. f ≡ answer_of (forward (those (named self.now.objects)) (record { vrf = vrf; to = ip }))) }
    {
        keys_are_taken_once();
        forward_by(alloc, &self.held, &Packet { vrf, to: ip })
    }

    /// The objects on the chip, each once, in the order of their entries.
    pub fn objects(&self, alloc: Global) -> Result<Vec<Object<Rid>>, OutOfMemory>
        ensures { IfOk result (λ objects. objects.items ≡ objects_of self.now.objects) }
    {
        let mut objects = Vec::new(alloc);
        match self.held.list(&mut objects) {
            ListAnswer::Done => Ok(objects),
            _ => Err(OutOfMemory),
        }
    }

    /// Whether the next call fails, and with effect. None where it does not fail.
    fn fault(&mut self) -> Result<Option<bool>, OutOfMemory>
        ensures found { IfOk result (λ fault. fault ≡ fault_of self.old) }
        ensures kept { self.new ≡ self.old }
    {
        if self.calls == u64::MAX {
            return Ok(None);
        }
        self.fails.at(self.calls + 1)
    }

    /// The refusal of a call, None where it is legal.
    fn refusal(&self, call: &Call<Rid>) -> Option<ChipAnswer>
        ensures { result ≡ refusal_at self.now call.now }
    {
        refusal(&self.held, &self.caps, call)
    }

    /// Makes the effect of a legal call, and its answer.
    fn make(&mut self, call: &Call<Rid>) -> Result<ChipAnswer, OutOfMemory>
        requires { refusal_at self.old call.now ≡ None }
        ensures ok { IfOk result (λ a. (a ≡ effect_answer self.old call.now) × (self.new ≡ with_effect self.old call.now)) }
        ensures err { OnErr result (self.new ≡ self.old) }
    {
        stays_whole();
        lanes_stay();
        makes_first(call);
        let makes = makes_id(call);
        let id = Rid(self.made + 1);
        let copy = call.copy()?;
        self.effects.reserve(room_behind(self.effects.len()))?;
        make_effect(&mut self.held, call, id)?;
        self.effects.push(copy)?;
        if makes {
            self.made = id.0;
            Ok(ChipAnswer::Made(id))
        } else {
            Ok(ChipAnswer::Done)
        }
    }

    /// Counts a call: whether it was legal, whether the chip failed at it, and how many calls had taken effect before it.
    fn count(&mut self, legal: bool, failed: bool, before: u64)
        requires { failed ≡ true → IsSome (fault_of self.old) }
        ensures { self.new ≡ counted legal failed before self.old }
    {
        self.clean = self.clean && legal;
        self.faults += u64::from(failed);
        self.before_fault = if failed { before } else { self.before_fault };
        self.calls = self.calls.saturating_add(1);
    }

    /// What a call with this refusal answers. It makes the effect where there is one.
    fn answer(&mut self, call: &Call<Rid>, refusal: Option<ChipAnswer>) -> ChipAnswer
        requires { refusal_at self.old call.now ≡ refusal }
        ensures { ResultsBy (fault_of self.old) refusal self.old call.now result self.new }
    {
        match self.fault() {
            Ok(fault) => self.answer_by(call, fault, refusal),
            Err(_) => ChipAnswer::NoMemory,
        }
    }

    /// The same, at a fault or none.
    fn answer_by(
        &mut self,
        call: &Call<Rid>,
        fault: Option<bool>,
        refusal: Option<ChipAnswer>,
    ) -> ChipAnswer
        requires { refusal_at self.old call.now ≡ refusal }
        ensures { ResultsBy fault refusal self.old call.now result self.new }
    {
        match (fault, refusal) {
            (None, None) => self.make(call).unwrap_or(ChipAnswer::NoMemory),
            (None, Some(refusal)) => refusal,
            (Some(after), refusal) => self.fail(call, after && refusal.is_none()),
        }
    }

    /// Fails at a call, with its effect or without.
    fn fail(&mut self, call: &Call<Rid>, takes: bool) -> ChipAnswer
        requires { takes ≡ true → refusal_at self.old call.now ≡ None }
        ensures { FailsBy takes self.old call.now result self.new }
    {
        if !takes {
            return ChipAnswer::Failed;
        }
        match self.make(call) {
            Ok(_) => ChipAnswer::Failed,
            Err(_) => ChipAnswer::NoMemory,
        }
    }

    /// What a listing answers, and appends.
    fn answer_list(&mut self, out: &mut Vec<Object<Rid>>) -> ListAnswer
        ensures lists { ListsBy (fault_of self.old) result out.old.items (objects_of self.old.objects) out.new.items }
        ensures sorted { AreSorted self.old.objects }
        ensures kept { self.new ≡ self.old }
    {
        match self.fault() {
            Ok(None) => self.held.list(out),
            Ok(Some(_)) => ListAnswer::Failed,
            Err(_) => ListAnswer::NoMemory,
        }
    }
}

impl Chip for SimChip {
    ghost state = { λ s. s };

    fn call(&mut self, call: &Call<Rid>) -> ChipAnswer
        ensures answered { IsAnswered self.old call.now result self.new }
        ensures called { IsCalled self.old call.now result self.new }
    {
        let before = self.effects();
        let refusal = self.refusal(call);
        let answer = self.answer(call, refusal);
        self.count(refusal.is_none(), is_failed(&answer), before);
        answer
    }

    #[tactic(auto, using(crate::proofs::Appended::each_appended))]
    fn list(&mut self, out: &mut Vec<Object<Rid>>) -> ListAnswer
        ensures listed { IsListed self.old result out.old.items out.new.items self.new }
        ensures called { IsListing self.old result out.old.items out.new.items self.new }
    {
        let answer = self.answer_list(out);
        let failed = matches!(answer, ListAnswer::Failed);
        self.count(true, failed, self.effects());
        answer
    }

    fn capacity(&self, kind: Kind) -> u64 {
        self.caps.0[kind.index()]
    }

    fn used(&self, kind: Kind) -> u64 {
        self.held.used(kind)
    }

    fn effects(&self) -> u64 {
        self.effects.len() as u64
    }

    fn faults(&self) -> u64 {
        self.faults
    }
}

/// For how many effects room is asked behind so many: for many at once before the first.
fn room_behind(count: usize) -> usize
    ensures { 0 < result }
{
    if count == 0 { FIRST_EFFECTS } else { 1 }
}

/// A call leaves each port the lane by which it is named, where a port that it makes has one. A law: it does nothing.
fn lanes_stay()
    ensures { (n : ℕ) (objects : Objects) (c : Call Rid) → AreSorted objects → HaveLanes objects → makes_first c ≡ true → HaveLanes (after_call n objects c) }
{
    made_is_found();
    set_is_found();
    others_stay();
    removed_is_gone();
    equal_entries_find_alike();
}

/// A port that a call makes has the lane by which it is named.
fn makes_first(call: &Call<Rid>)
    ensures { makes_first call.now ≡ true }
{
    if let Call::Create(body) = call {
        has_first(body);
    }
}

/// A port has the lane by which it is named.
fn has_first(body: &Body<Rid>)
    ensures { has_first body.now ≡ true }
{
    if let Body::Port { lanes, .. } = body {
        let _lanes = lanes.items();
    }
}

/// Whether the answer is that the chip failed.
fn is_failed(answer: &ChipAnswer) -> bool
    ensures { result ≡ is_failed answer.now }
{
    matches!(answer, ChipAnswer::Failed)
}
