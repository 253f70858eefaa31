// Rounds in memory, by which the actors are tried.
ghost use Rattle.std.specs.Prelude.{◌≡◌, ◌+◌, ◌*◌, ◌<◌, ◌≤◌, [], length, IfOk};
ghost use Rattle.intake_queue.specs.ReadWrites.{AreReadWrites};
ghost use Rattle.swss_script.specs.Sections.{acts_of, restarts_of};
ghost use Rattle.swss_script.specs.Sent.{restarts_in};
ghost use Rattle.intake_queue.specs.Values.{AreNew, new_receiver};
ghost use Rattle.round_actors.specs.declared.answers.Kept.TheVariants as keeps;
ghost use Rattle.round_actors.specs.Round.{AreSectionsOf, CoreRan};

use crate::answers::Kept;
use crate::fake_core::FakeCore;
use crate::fake_shared::FakeShared;
use crate::name::{RoundName, Stops};
use crate::round::{Ran, run_actors};
use crate::whole::run_core;
use intake_queue::{Intake, Made};
use std::alloc::Global;
use std::marker::Brand;
use std::sync::Wait;
use std::sync::ledger::Blank;
use std::thread::Threads;
use swss_script::{Act, Acts, Section, Sections};
use swss_types::{Gate, OutOfMemory};
use table_schema::{Key, Write};

/// Two sections for each producer, by turns, each with so many deletions of ports and a restart.
pub fn trial_sections(
    alloc: Global,
    producers: u32,
    deletions: u32,
) -> Result<Sections, OutOfMemory>
    requires { (0 < producers) × (producers ≤ 4) }
    ensures sections { IfOk result (λ sections. AreSectionsOf producers sections) }
    ensures restarts { IfOk result (λ sections. restarts_in sections ≡ producers * 2) }
{
    let mut sections = Sections::new(alloc);
    for before in 0..producers * 2 {
        let acts = trial_acts(alloc, deletions)?;
        sections.push(Section {
            producer: before % producers + 1,
            acts,
        })?;
    }
    Ok(sections)
}

/// So many deletions of ports, and a restart.
fn trial_acts(alloc: Global, deletions: u32) -> Result<Acts, OutOfMemory>
    ensures { IfOk result (λ acts. AreReadWrites (acts_of acts) × (length acts ≡ deletions + 1) × (restarts_of acts ≡ 1)) }
{
    let mut acts = Acts::new(alloc);
    for number in 0..deletions {
        acts.push(Act::Write(Write::Del(Key::Port(number % 1000))))?;
    }
    acts.push(Act::Restart)?;
    Ok(acts)
}

/// A round on a core in memory, with so many places and so many events to make.
pub fn try_core<R: Threads + Wait + Sync, G: Gate + Sync>(
    rt: &R,
    alloc: Global,
    sections: &[Section],
    producers: u32,
    workers: u32,
    gate: &G,
    places: u64,
    events: u64,
) -> Result<(FakeCore, Kept), OutOfMemory>
    requires few { (0 < producers) × (producers ≤ 4) × (workers ≤ 4) }
    requires sections { AreSectionsOf producers sections.now }
    ensures ran { IfOk result (λ ran. CoreRan sections.now ran.1 [] ran.0.taken.items 0 ran.0.restarts) }
    ensures cause { IfOk result (λ ran. ran.1 ≡ keeps.LogFull → ran.0.places ≤ length ran.0.taken.items + ran.0.restarts) }
{
    let made = Intake::new(alloc, producers)?;
    let ran = run_core::<R, Brand, FakeCore, G>(
        rt,
        alloc,
        made,
        Blank::new(4),
        Blank::new(4),
        FakeCore::new(alloc, places, events),
        sections,
        workers,
        gate,
    );
    Ok(ran)
}

/// What came of a round of the smallest value.
#[derive(Clone, Copy, Debug, PartialEq, Eq)]
pub struct Told {
    /// The refusal that was kept.
    pub kept: Kept,
    /// How many restarts were made.
    pub restarts: u64,
}

/// A round of the smallest value, with so many places and so many events to make.
pub fn try_round<R: Threads + Wait + Sync, G: Gate + Sync>(
    rt: &R,
    alloc: Global,
    sections: &[Section],
    producers: u32,
    workers: u32,
    gate: &G,
    places: u64,
    events: u64,
) -> Result<Told, OutOfMemory>
    requires few { (0 < producers) × (producers ≤ 4) × (workers ≤ 4) }
    requires sections { AreSectionsOf producers sections.now }
    ensures some { IfOk result (λ told. told.restarts ≤ restarts_in sections.now) }
    ensures whole { IfOk result (λ told. told.kept ≡ keeps.Nothing → told.restarts ≡ restarts_in sections.now) }
{
    let made = Intake::new(alloc, producers)?;
    Ok(try_made::<R, Brand, G>(
        rt,
        alloc,
        made,
        Blank::new(4),
        Blank::new(4),
        sections,
        workers,
        gate,
        places,
        events,
    ))
}

/// The same with an intake that was made.
fn try_made<R: Threads + Wait + Sync, J: RoundName + Send + Sync, G: Gate + Sync>(
    rt: &R,
    alloc: Global,
    made: Made,
    restarts: Blank,
    stops: Blank,
    sections: &[Section],
    workers: u32,
    gate: &G,
    places: u64,
    events: u64,
) -> Told
    requires name { made.intake ≡ J.intake }
    requires made { AreNew made.intake made.passes.items × (made.taker ≡ new_receiver made.intake) }
    requires restarts { (restarts.name ≡ J.name) × (restarts.parts ≡ J.parts) × (restarts.parts ≡ 4) }
    requires stops { (stops.name ≡ J.stops_name) × (stops.parts ≡ J.stops_parts) × (stops.parts ≡ 4) }
    requires few { (made.intake.producers ≤ 4) × (workers ≤ 4) }
    requires sections { AreSectionsOf made.intake.producers sections.now }
    ensures some { result.restarts ≤ restarts_in sections.now }
    ensures whole { result.kept ≡ keeps.Nothing → result.restarts ≡ restarts_in sections.now }
{
    let Made {
        intake,
        passes,
        taker,
    } = made;
    let (restarts, all_restarts) = restarts.open::<J>();
    let (stops, all_stops) = stops.open::<Stops<J>>();
    let value = FakeShared::new(taker, restarts, stops, places, events);
    let Ran {
        value,
        passes: _,
        restarts: _,
    } = run_actors::<R, J, FakeShared<J>, G>(
        rt,
        alloc,
        &intake,
        value,
        passes,
        all_restarts,
        all_stops,
        sections,
        workers,
        gate,
    );
    let (kept, restarts) = value.told();
    Told { kept, restarts }
}
