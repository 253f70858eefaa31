// A round with several workers, beside each other.
ghost use Rattle.std.specs.Prelude.{◌≡◌, ◌+◌, ◌-◌, ◌<◌, ◌≤◌, ℕ};
ghost use Rattle.intake_queue.specs.Values.{AreNew, new_receiver};
ghost use Rattle.round_actors.specs.Round.{AreSectionsOf};
ghost use Rattle.round_actors.specs.declared.answers.Kept.TheVariants as keeps;
ghost use Rattle.swss_service.specs.Round.{RoundsTo};
ghost use Rattle.swss_service.specs.Rounds.{HaveActed, HasTakenRest, RoundsBeside, SettlesBoth, restarts_logged, writes_logged};
ghost use Rattle.swss_service.specs.Served.{IsServed};

use crate::ending::RoundEnd;
use crate::locked::Locked;
use crate::name::Named;
use crate::served::Served;
use crate::taking::take_rest;
use intake_queue::{Intake, Made, Pass, Taker, close};
use round_actors::{Kept, Ran, Shared, Stops, run_actors};
use sai_types::Chip;
use std::alloc::Global;
use std::marker::Brand;
use std::sync::Wait;
use std::sync::ledger::Blank;
use std::thread::Threads;
use swss_script::Section;
use swss_types::{Gate, OutOfMemory};

/// What a round hands back.
pub struct Rounded<C: Chip> {
    /// The core and the chip.
    pub locked: Locked<C>,
    /// How it ended.
    pub end: RoundEnd,
}

/// What the actors of a round leave.
struct Acted<C: Chip, J: Named> {
    served: Served<C, J>,
    intake: Intake,
    passes: Vec<Pass>,
    taker: Taker,
    kept: Kept,
}

/// Runs the producers and the workers of a round beside each other.
fn act<R: Threads + Wait + Sync, C: Chip + Send + Drop, J: Named + Send + Sync, G: Gate + Sync>(
    rt: &R,
    alloc: Global,
    served: Served<C, J>,
    made: Made,
    restarts: Blank,
    stops: Blank,
    sections: &[Section],
    workers: u32,
    gate: &G,
) -> Acted<C, J>
    requires name { made.intake ≡ J.intake }
    requires made { AreNew made.intake made.passes.items × (made.taker ≡ new_receiver made.intake) }
    requires restarts { (restarts.name ≡ J.name) × (restarts.parts ≡ J.parts) × (restarts.parts ≡ 4) }
    requires stops { (stops.name ≡ J.stops_name) × (stops.parts ≡ J.stops_parts) × (stops.parts ≡ 4) }
    requires opening { (served ≡ J.opening) × (writes_logged served ≡ J.taken) × (restarts_logged served ≡ J.restarts) }
    requires few { (made.intake.producers ≤ 4) × (workers ≤ 4) × (workers ≤ J.most + 1) }
    requires sections { AreSectionsOf made.intake.producers sections.now }
    ensures acted { HaveActed result.intake sections.now J.opening result.served result.passes.items result.taker result.kept }
    ensures intake { result.intake ≡ made.intake }
{
    let Made {
        intake,
        passes,
        taker,
    } = made;
    let (restarts, all_restarts) = restarts.open::<J>();
    let (stops, all_stops) = stops.open::<Stops<J>>();
    let value = Shared::<Served<C, J>, J>::new(served, taker, restarts, stops);
    let Ran {
        value,
        passes,
        restarts: _,
    } = run_actors::<R, J, Shared<Served<C, J>, J>, G>(
        rt,
        alloc,
        &intake,
        value,
        passes,
        all_restarts,
        all_stops,
        sections,
        workers,
        gate,
    );
    let (served, taker, kept) = value.parts();
    Acted {
        served,
        intake,
        passes,
        taker,
        kept,
    }
}

/// Takes what the actors left in the queue, unless a refusal is kept.
fn finish<R: Wait, C: Chip, J: Named>(
    rt: &R,
    _sections: &[Section],
    acted: Acted<C, J>,
) -> Acted<C, J>
    requires acted { HaveActed acted.intake _sections.now J.opening acted.served acted.passes.items acted.taker acted.kept }
    ensures rest { HasTakenRest result.intake _sections.now J.opening result.served result.passes.items result.taker result.kept }
    ensures intake { result.intake ≡ acted.intake }
{
    match acted.kept {
        Kept::Nothing => take_all(rt, _sections, acted),
        _ => acted,
    }
}

/// Takes what the actors left in the queue.
fn take_all<R: Wait, C: Chip, J: Named>(
    rt: &R,
    _sections: &[Section],
    acted: Acted<C, J>,
) -> Acted<C, J>
    requires acted { HaveActed acted.intake _sections.now J.opening acted.served acted.passes.items acted.taker acted.kept }
    requires calm { acted.kept ≡ keeps.Nothing }
    ensures rest { HasTakenRest result.intake _sections.now J.opening result.served result.passes.items result.taker result.kept }
    ensures intake { result.intake ≡ acted.intake }
{
    let Acted {
        mut served,
        intake,
        mut passes,
        mut taker,
        kept: _,
    } = acted;
    let kept = take_rest(rt, &intake, &mut passes, &mut taker, &mut served);
    Acted {
        served,
        intake,
        passes,
        taker,
        kept,
    }
}

/// Hands core and chip back with this end.
fn hand_back<C: Chip, J: Named>(served: Served<C, J>, end: RoundEnd) -> Rounded<C>
    ensures parts { result.locked ≡ served }
    ensures end { result.end ≡ end }
    ensures served { IsServed J.most J.opening served }
{
    let locked = served.into_locked();
    Rounded { locked, end }
}

/// Where there was no memory to begin with, nothing was made.
pub(crate) fn unbegun<C: Chip>(locked: Locked<C>, _sections: &[Section]) -> Rounded<C>
    ensures one { RoundsTo _sections.now locked.core locked.chip result.end result.locked.core result.locked.chip }
    ensures any { (most : ℕ) → RoundsBeside most _sections.now locked result.end result.locked }
{
    locked.stand_for_one_session();
    Rounded {
        locked,
        end: RoundEnd::NoMemory,
    }
}

/// Hands core and chip back behind a refusal, with this end.
fn give_up<C: Chip, J: Named>(acted: Acted<C, J>, end: RoundEnd) -> Rounded<C>
    ensures parts { result.locked ≡ acted.served }
    ensures end { result.end ≡ end }
    ensures served { IsServed J.most J.opening acted.served }
{
    let Acted {
        served,
        intake: _,
        passes: _,
        taker: _,
        kept: _,
    } = acted;
    hand_back(served, end)
}

/// Settles the two.
fn settle<C: Chip, J: Named>(served: Served<C, J>) -> Rounded<C>
    ensures settles { SettlesBoth served result.end result.locked }
    ensures served { IsServed J.most J.opening served }
{
    let mut locked = served.into_locked();
    let end = locked.settle();
    Rounded { locked, end }
}

/// Closes the intake, and settles.
fn close_and_settle<C: Chip, J: Named>(
    alloc: Global,
    _sections: &[Section],
    acted: Acted<C, J>,
) -> Rounded<C>
    requires rest { HasTakenRest acted.intake _sections.now J.opening acted.served acted.passes.items acted.taker acted.kept }
    requires calm { acted.kept ≡ keeps.Nothing }
    ensures { RoundsBeside J.most _sections.now J.opening result.end result.locked }
{
    let Acted {
        served,
        intake,
        passes,
        taker,
        kept: _,
    } = acted;
    if close(alloc, intake, passes, taker).is_err() {
        return hand_back(served, RoundEnd::NoMemory);
    }
    settle(served)
}

/// Ends a round whose log was full.
fn full<C: Chip, J: Named>(_sections: &[Section], acted: Acted<C, J>) -> Rounded<C>
    requires rest { HasTakenRest acted.intake _sections.now J.opening acted.served acted.passes.items acted.taker acted.kept }
    requires full { acted.kept ≡ keeps.LogFull }
    ensures { RoundsBeside J.most _sections.now J.opening result.end result.locked }
{
    give_up(acted, RoundEnd::LogFull)
}

/// Ends a round for which there was no memory.
fn short<C: Chip, J: Named>(_sections: &[Section], acted: Acted<C, J>) -> Rounded<C>
    requires rest { HasTakenRest acted.intake _sections.now J.opening acted.served acted.passes.items acted.taker acted.kept }
    requires short { acted.kept ≡ keeps.NoMemory }
    ensures { RoundsBeside J.most _sections.now J.opening result.end result.locked }
{
    give_up(acted, RoundEnd::NoMemory)
}

/// Ends a round: where no refusal is kept, the intake is closed, and all is settled.
fn end<C: Chip, J: Named>(alloc: Global, _sections: &[Section], acted: Acted<C, J>) -> Rounded<C>
    requires rest { HasTakenRest acted.intake _sections.now J.opening acted.served acted.passes.items acted.taker acted.kept }
    ensures { RoundsBeside J.most _sections.now J.opening result.end result.locked }
{
    match acted.kept {
        Kept::Nothing => close_and_settle(alloc, _sections, acted),
        Kept::LogFull => full(_sections, acted),
        Kept::NoMemory => short(_sections, acted),
    }
}

/// A round with its name: its actors run, what they left in the queue is taken, and all is settled.
fn round_named<
    R: Threads + Wait + Sync,
    C: Chip + Send + Drop,
    J: Named + Send + Sync,
    G: Gate + Sync,
>(
    rt: &R,
    alloc: Global,
    locked: Locked<C>,
    made: Made,
    restarts: Blank,
    stops: Blank,
    sections: &[Section],
    workers: u32,
    gate: &G,
) -> Rounded<C>
    requires name { made.intake ≡ J.intake }
    requires made { AreNew made.intake made.passes.items × (made.taker ≡ new_receiver made.intake) }
    requires restarts { (restarts.name ≡ J.name) × (restarts.parts ≡ J.parts) × (restarts.parts ≡ 4) }
    requires stops { (stops.name ≡ J.stops_name) × (stops.parts ≡ J.stops_parts) × (stops.parts ≡ 4) }
    requires opening { (J.opening ≡ locked) × (J.taken ≡ writes_logged locked) × (J.restarts ≡ restarts_logged locked) }
    requires few { (made.intake.producers ≤ 4) × (0 < workers) × (workers ≤ 4) × (J.most ≡ workers - 1) }
    requires sections { AreSectionsOf made.intake.producers sections.now }
    ensures { RoundsBeside J.most sections.now J.opening result.end result.locked }
{
    let served = Served::<C, J>::new(locked);
    let acted = act::<R, C, J, G>(
        rt, alloc, served, made, restarts, stops, sections, workers, gate,
    );
    let acted = finish::<R, C, J>(rt, sections, acted);
    end::<C, J>(alloc, sections, acted)
}

/// A round with several workers: the producers make the acts of their sections, and the workers step the core, beside each other;
/// what is left in the queue then is taken, and all is settled.
pub(crate) fn round_beside<R: Threads + Wait + Sync, C: Chip + Send + Drop, G: Gate + Sync>(
    rt: &R,
    alloc: Global,
    locked: Locked<C>,
    sections: &[Section],
    producers: u32,
    workers: u32,
    gate: &G,
) -> Rounded<C>
    requires few { (0 < producers) × (producers ≤ 4) × (0 < workers) × (workers ≤ 4) }
    requires sections { AreSectionsOf producers sections.now }
    ensures { RoundsBeside (workers - 1) sections.now locked result.end result.locked }
{
    match Intake::new(alloc, producers) {
        Ok(made) => round_named::<R, C, Brand, G>(
            rt,
            alloc,
            locked,
            made,
            Blank::new(4),
            Blank::new(4),
            sections,
            workers,
            gate,
        ),
        Err(OutOfMemory) => unbegun(locked, sections),
    }
}
