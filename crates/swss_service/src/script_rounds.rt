// The rounds of a script, as a service runs them.
ghost use Rattle.std.specs.Prelude.{◌≡◌, ◌-◌, ◌<◌, ◌≤◌, List, ℕ, Ok, Some, length, slice_get};
ghost use Rattle.swss_script.specs.Script.{script_of};
ghost use Rattle.swss_script.specs.declared.parts.Round.{Round};
ghost use Rattle.swss_script.specs.declared.script.Script.{Script};
ghost use Rattle.swss_service.specs.Round.{RoundsTo};
ghost use Rattle.swss_service.specs.Rounds.{RoundsBeside};

use crate::locked::Locked;
use crate::rounding::Rounded;
use crate::whole::round;
use round_actors::sections_of_scripts_can_run;
use sai_types::Chip;
use std::alloc::Global;
use std::marker::Model;
use std::sync::Wait;
use std::thread::Threads;
use swss_script::{Producers, RoundList, Show};
use swss_types::Gate;

/// The rounds of a script that was accepted: its producers, 4 at most, may make the sections of each.
#[derive(Drop)]
pub struct ScriptRounds {
    rounds: RoundList,
    producers: u32,
}

impl Model for ScriptRounds {
    ghost use Rattle.std.specs.Prelude.{◌≤◌, List, All};
    ghost use Rattle.round_actors.specs.Round.{AreSectionsOf};
    ghost use Rattle.swss_script.specs.declared.parts.Round.{Round};

    ghost Value = { List Round };

    ghost view = { λ s. s.rounds };

    ghost invariant = { λ s. (s.producers ≤ 4) × All (λ r. AreSectionsOf s.producers r.sections) s.rounds };
}

impl ScriptRounds {
    /// The rounds of a script that was read, with its producers.
    pub fn of(producers: &Producers, rounds: RoundList) -> ScriptRounds
        requires read { (bytes : List ℕ) × (script : Script) × (script_of bytes ≡ Ok script) × (producers.now ≡ script.producers) × (rounds ≡ script.rounds) }
        ensures { result ≡ rounds }
    {
        sections_of_scripts_can_run();
        ScriptRounds {
            rounds,
            producers: producers.items().len() as u32,
        }
    }

    /// How many there are.
    pub fn len(&self) -> usize
        ensures { result ≡ length self.now }
    {
        self.rounds.items().len()
    }

    /// What one of them shows behind its settling.
    pub fn shows(&self, at: usize) -> &[Show]
        requires at { at < length self.now }
        ensures { (round : Round) → slice_get self.now at ≡ Some round → result.now ≡ round.shows }
    {
        self.rounds.items()[at].shows.items()
    }

    /// Runs one of them, as `round` does.
    pub fn run<R: Threads + Wait + Sync, C: Chip + Send + Drop, G: Gate + Sync>(
        &self,
        rt: &R,
        alloc: Global,
        locked: Locked<C>,
        at: usize,
        workers: u32,
        gate: &G,
    ) -> Rounded<C>
        requires at { at < length self.now }
        requires few { (0 < workers) × (workers ≤ 4) }
        ensures one { (round : Round) → slice_get self.now at ≡ Some round → workers ≡ 1 → RoundsTo round.sections locked.core locked.chip result.end result.locked.core result.locked.chip }
        ensures any { (round : Round) → slice_get self.now at ≡ Some round → RoundsBeside (workers - 1) round.sections locked result.end result.locked }
    {
        let sections = self.rounds.items()[at].sections.items();
        round(rt, alloc, locked, sections, self.producers, workers, gate)
    }
}
