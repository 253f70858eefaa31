// A round.
ghost use Rattle.std.specs.Prelude.{◌≡◌, ◌-◌, ◌<◌, ◌≤◌, IfOk};
ghost use Rattle.round_actors.specs.Round.{AreSectionsOf};
ghost use Rattle.swss_script.specs.Sent.{writes_in};
ghost use Rattle.swss_service.specs.Round.{RoundsTo};
ghost use Rattle.swss_service.specs.Rounds.{RoundsBeside};
ghost use Rattle.swss_service.specs.Taking.{HaveReadKeys};

use crate::locked::Locked;
use crate::one_worker::round_alone;
use crate::rounding::{Rounded, round_beside, unbegun};
use sai_types::Chip;
use std::alloc::Global;
use std::sync::Wait;
use std::thread::Threads;
use swss_script::{Section, Sections};
use swss_types::{Gate, OutOfMemory};

/// A round: the producers' sections are run, and then all is settled. With one worker the sections are run in order in the calling
/// thread; with more, the producers and the workers run as threads beside each other, and the calling thread settles behind them.
/// The core and the chip come back with every answer.
///
/// LogFull comes where the log had no place for the next write, restart or call; NoMemory where memory was refused.
pub fn round<R: Threads + Wait + Sync, C: Chip + Send + Drop, G: Gate + Sync>(
    rt: &R,
    alloc: Global,
    locked: Locked<C>,
    sections: &[Section],
    producers: u32,
    workers: u32,
    gate: &G,
) -> Rounded<C>
    requires few { (producers ≤ 4) × (0 < workers) × (workers ≤ 4) }
    requires sections { AreSectionsOf producers sections.now }
    ensures one { workers ≡ 1 → RoundsTo sections.now locked.core locked.chip result.end result.locked.core result.locked.chip }
    ensures any { RoundsBeside (workers - 1) sections.now locked result.end result.locked }
{
    if workers == 1 {
        return round_copied(alloc, locked, sections);
    }
    // A round without producers has the intake of one.
    let producers = producers.max(1);
    round_beside(rt, alloc, locked, sections, producers, workers, gate)
}

/// A round with one worker, over a copy of its sections.
fn round_copied<C: Chip>(alloc: Global, locked: Locked<C>, sections: &[Section]) -> Rounded<C>
    requires read { HaveReadKeys (writes_in sections.now) }
    ensures one { RoundsTo sections.now locked.core locked.chip result.end result.locked.core result.locked.chip }
    ensures any { RoundsBeside 0 sections.now locked result.end result.locked }
{
    let Ok(copies) = copy_sections(alloc, sections) else {
        return unbegun(locked, sections);
    };
    let mut locked = locked;
    let end = round_alone(alloc, &mut locked, copies);
    Rounded { locked, end }
}

/// The same sections once more.
fn copy_sections(alloc: Global, sections: &[Section]) -> Result<Sections, OutOfMemory>
    ensures { IfOk result (λ copies. copies ≡ sections.now) }
{
    let mut copies = Sections::new(alloc);
    for section in sections {
        copies.push(Section {
            producer: section.producer,
            acts: section.acts.copy()?,
        })?;
    }
    Ok(copies)
}
