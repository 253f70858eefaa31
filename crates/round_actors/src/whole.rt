// A round on a core.
ghost use Rattle.std.specs.Prelude.{◌≡◌, ◌≤◌};
ghost use Rattle.intake_queue.specs.Values.{AreNew, new_receiver};
ghost use Rattle.round_actors.specs.declared.answers.Kept.TheVariants as keeps;
ghost use Rattle.round_actors.specs.Round.{AreSectionsOf, CoreRan};

use crate::answers::Kept;
use crate::name::Stops;
use crate::round::{Ran, run_actors};
use crate::round_core::{Opening, RoundCore};
use crate::shared::Shared;
use intake_queue::Made;
use std::alloc::Global;
use std::sync::Wait;
use std::sync::ledger::Blank;
use std::thread::Threads;
use swss_script::Section;
use swss_types::Gate;

/// The actors of a round on a core. It gives the core back, and the refusal that was kept: LogFull only where the core is full.
pub fn run_core<
    R: Threads + Wait + Sync,
    J: Opening + Send + Sync,
    K: RoundCore + Send + Drop,
    G: Gate + Sync,
>(
    rt: &R,
    alloc: Global,
    made: Made,
    restarts: Blank,
    stops: Blank,
    core: K,
    sections: &[Section],
    workers: u32,
    gate: &G,
) -> (K, Kept)
    requires name { made.intake ≡ J.intake }
    requires made { AreNew made.intake made.passes.items × (made.taker ≡ new_receiver made.intake) }
    requires restarts { (restarts.name ≡ J.name) × (restarts.parts ≡ J.parts) × (restarts.parts ≡ 4) }
    requires stops { (stops.name ≡ J.stops_name) × (stops.parts ≡ J.stops_parts) × (stops.parts ≡ 4) }
    requires opening { (K.taken core ≡ J.taken) × (K.restarts core ≡ J.restarts) }
    requires few { (made.intake.producers ≤ 4) × (workers ≤ 4) × (workers ≤ K.workers) }
    requires sections { AreSectionsOf made.intake.producers sections.now }
    ensures ran { CoreRan sections.now result.1 J.taken (K.taken result.0) J.restarts (K.restarts result.0) }
    ensures cause { result.1 ≡ keeps.LogFull → K.full result.0 }
{
    let Made {
        intake,
        passes,
        taker,
    } = made;
    let (restarts, all_restarts) = restarts.open::<J>();
    let (stops, all_stops) = stops.open::<Stops<J>>();
    let value = Shared::<K, J>::new(core, taker, restarts, stops);
    let Ran {
        value,
        passes: _,
        restarts: _,
    } = run_actors::<R, J, Shared<K, J>, G>(
        rt,
        alloc,
        &intake,
        value,
        passes,
        all_restarts,
        all_stops,
        sections,
        workers,
        gate,
    );
    let (core, _, kept) = value.parts();
    (core, kept)
}
