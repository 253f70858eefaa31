// The objects of a chip, made once more.
ghost use Rattle.std.specs.Prelude.{◌≡◌, ◌+◌, ◌<◌, ◌≤◌, ◌⊎◌, true, false, None, slice_get, length, option_copied, IfOk, OnOk, OnErr, IfSome};
ghost use Rattle.sai_chip.specs.Replay.{IsRemadeOf, call_thing, effect_thing, new_remade, with_call};

use crate::SimChip;
use crate::effect::{entry_named, make_effect, makes_id};
use crate::held::Held;
use sai_types::{Call, Chip, Rid, Thing};
use std::alloc::Global;
use std::marker::Model;
use swss_types::OutOfMemory;

/// The objects of a chip as of an earlier moment. The chip's effects are made on them one after another, and it tells what
/// each was about.
#[derive(Drop)]
pub struct Remade {
    held: Held,
    made: u64,
    at: u64,
}

impl Model for Remade {
    ghost use Rattle.sai_chip.specs.Replay.{Remade as Objects};

    ghost Value = { Objects };

    ghost use Rattle.std.specs.Prelude.{◌≤◌};

    ghost view = { λ r. record { at = r.at; made = r.made; objects = r.held } };

    ghost invariant = { λ r. r.made ≤ r.at };
}

impl Remade {
    /// No effect was followed.
    pub fn new(alloc: Global) -> Remade
        ensures { result ≡ new_remade }
    {
        Remade {
            held: Held::new(alloc),
            made: 0,
            at: 0,
        }
    }

    /// How many effects it has followed.
    pub fn at(&self) -> u64
        ensures { result ≡ self.now.at }
    {
        self.at
    }

    /// Follows the chip by one effect, and says whether there was one. It names nothing, and after want of memory it is
    /// as before.
    pub fn follow(&mut self, chip: &SimChip) -> Result<bool, OutOfMemory>
        ensures further { IfOk result (λ followed. IsRemadeOf self.old chip.now.effects → self.old.at < length chip.now.effects → (followed ≡ true) × (self.new.at ≡ self.old.at + 1) × IsRemadeOf self.new chip.now.effects) }
        ensures end { IfOk result (λ followed. length chip.now.effects ≤ self.old.at → (followed ≡ false) × (self.new ≡ self.old)) }
        ensures err { OnErr result (self.new ≡ self.old) }
    {
        let Some(call) = self.next(chip) else {
            return Ok(false);
        };
        self.make(call)?;
        Ok(true)
    }

    /// Follows the chip by one effect, and tells what it was about: the object as it stands behind a create or a set,
    /// and as it stood before a removal. None where all effects were followed, and for an object with an absent
    /// reference. After want of memory it is as before or has followed the effect.
    pub fn advance(&mut self, chip: &SimChip) -> Result<Option<Thing>, OutOfMemory>
        ensures further { IfOk result (λ thing. IsRemadeOf self.old chip.now.effects → self.old.at < length chip.now.effects → (thing ≡ effect_thing chip.now.effects (self.old.at + 1)) × (self.new.at ≡ self.old.at + 1) × IsRemadeOf self.new chip.now.effects) }
        ensures end { IfOk result (λ thing. length chip.now.effects ≤ self.old.at → (thing ≡ None) × (self.new ≡ self.old)) }
        ensures err { OnErr result (IsRemadeOf self.old chip.now.effects → (self.old.at ≤ self.new.at) × (self.new.at ≤ self.old.at + 1) × IsRemadeOf self.new chip.now.effects) }
    {
        match self.next(chip) {
            Some(call) => self.tell(call),
            None => Ok(None),
        }
    }

    /// The next effect to follow.
    fn next<'a>(&self, chip: &'a SimChip) -> Option<&'a Call<Rid>>
        ensures next { option_copied result ≡ slice_get chip.now.effects self.now.at }
        ensures fits { IfSome result (λ _. self.now.at < 18446744073709551615) }
    {
        if chip.effects() <= self.at {
            return None;
        }
        chip.effect(self.at + 1)
    }

    /// Makes the effect of a call.
    fn make(&mut self, call: &Call<Rid>) -> Result<(), OutOfMemory>
        requires { self.old.at < 18446744073709551615 }
        ensures ok { OnOk result (self.new ≡ with_call self.old call.now) }
        ensures err { OnErr result (self.new ≡ self.old) }
    {
        let id = Rid(self.made + 1);
        make_effect(&mut self.held, call, id)?;
        if makes_id(call) {
            self.made = id.0;
        }
        self.at += 1;
        Ok(())
    }

    /// Makes the effect of a call, and tells what it was about.
    fn tell(&mut self, call: &Call<Rid>) -> Result<Option<Thing>, OutOfMemory>
        requires { self.old.at < 18446744073709551615 }
        ensures ok { IfOk result (λ thing. (thing ≡ call_thing (self.old.made + 1) self.old.objects self.new.objects call.now) × (self.new ≡ with_call self.old call.now)) }
        ensures err { OnErr result ((self.new ≡ self.old) ⊎ (self.new ≡ with_call self.old call.now)) }
    {
        if let Call::Remove(entry) = call {
            let thing = self.held.thing(entry)?;
            self.make(call)?;
            return Ok(thing);
        }
        let entry = entry_named(Rid(self.made + 1), call);
        self.make(call)?;
        self.held.thing(&entry)
    }
}
