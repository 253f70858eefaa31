// The objects of a chip as of an earlier moment.
ghost use Rattle.std.specs.Prelude.{◌≡◌, ◌+◌, ◌<◌, ◌≤◌, true, false, None, length, IfOk, OnOk, OnErr};
ghost use Rattle.sai_chip.specs.Replay.{IsReplayOf, effect_thing, new_replay};

use crate::SimChip;
use crate::remade::Remade;
use sai_types::{Chip, Thing};
use std::alloc::Global;
use std::marker::Model;
use swss_types::OutOfMemory;

/// The objects of a chip as of an earlier moment. It follows the chip's effects one after another, and tells what each
/// was about. The effects that it only follows are made once it is to tell of one behind them.
#[derive(Drop)]
pub struct Replay {
    remade: Remade,
    at: u64,
}

impl Model for Replay {
    ghost use Rattle.sai_chip.specs.Replay.{Replayed};

    ghost Value = { Replayed };

    ghost view = { λ r. record { at = r.at; remade = r.remade } };
}

impl Replay {
    /// No effect was followed.
    pub fn new(alloc: Global) -> Replay
        ensures { result ≡ new_replay }
    {
        Replay {
            remade: Remade::new(alloc),
            at: 0,
        }
    }

    /// How many effects it has followed.
    pub fn at(&self) -> u64
        ensures { result ≡ self.now.at }
    {
        self.at
    }

    /// Follows the chip by one effect, and says whether there was one. It names nothing, and after want of memory it is
    /// as before.
    pub fn follow(&mut self, chip: &SimChip) -> Result<bool, OutOfMemory>
        ensures further { IfOk result (λ followed. IsReplayOf self.old chip.now.effects → self.old.at < length chip.now.effects → (followed ≡ true) × (self.new.at ≡ self.old.at + 1) × IsReplayOf self.new chip.now.effects) }
        ensures end { IfOk result (λ followed. length chip.now.effects ≤ self.old.at → (followed ≡ false) × (self.new ≡ self.old)) }
        ensures err { OnErr result (self.new ≡ self.old) }
    {
        if chip.effects() <= self.at {
            return Ok(false);
        }
        self.at += 1;
        Ok(true)
    }

    /// Follows the chip by one effect, and tells what it was about: the object as it stands behind a create or a set,
    /// and as it stood before a removal. None where all effects were followed, and for an object with an absent
    /// reference. After want of memory the replay is as before or has followed the effect.
    pub fn advance(&mut self, chip: &SimChip) -> Result<Option<Thing>, OutOfMemory>
        ensures further { IfOk result (λ thing. IsReplayOf self.old chip.now.effects → self.old.at < length chip.now.effects → (thing ≡ effect_thing chip.now.effects (self.old.at + 1)) × (self.new.at ≡ self.old.at + 1) × IsReplayOf self.new chip.now.effects) }
        ensures end { IfOk result (λ thing. length chip.now.effects ≤ self.old.at → (thing ≡ None) × (self.new ≡ self.old)) }
        ensures err { OnErr result (IsReplayOf self.old chip.now.effects → (self.old.at ≤ self.new.at) × (self.new.at ≤ self.old.at + 1) × IsReplayOf self.new chip.now.effects) }
    {
        if chip.effects() <= self.at {
            return Ok(None);
        }
        self.catch_up(chip)?;
        let thing = self.remade.advance(chip);
        self.at = self.remade.at();
        thing
    }

    /// Makes the effects that it has followed.
    fn catch_up(&mut self, chip: &SimChip) -> Result<(), OutOfMemory>
        ensures kept { IsReplayOf self.old chip.now.effects → (self.new.at ≡ self.old.at) × IsReplayOf self.new chip.now.effects }
        ensures caught { OnOk result (IsReplayOf self.old chip.now.effects → self.new.remade.at ≡ self.old.at) }
    {
        for _before in self.remade.at()..self.at {
            self.remade.follow(chip)?;
        }
        Ok(())
    }
}
