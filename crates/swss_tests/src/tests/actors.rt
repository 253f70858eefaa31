// What no clause says of a round's actors: that they run beside each other, and that a round without a refusal ends.
use round_actors::{FakeCore, Hold, Kept, trial_sections, try_core, try_round};
use std::test::*;
use swss_types::{Open, OutOfMemory};

// All writes of the producers are taken, beside two workers or four, or the log is full.
#[test]
fn all_is_taken(rt: HostRuntime) -> Result<(), OutOfMemory> {
    for (producers, workers, places, kept) in [
        (1u32, 2u32, 1_000_000u64, Kept::Nothing),
        (4, 2, 1_000_000, Kept::Nothing),
        (4, 4, 1_000_000, Kept::Nothing),
        (4, 2, 5000, Kept::LogFull),
    ] {
        let sections = trial_sections(rt.alloc(), producers, 2000)?;
        let told = try_round(
            &rt,
            rt.alloc(),
            sections.items(),
            producers,
            workers,
            &Open,
            places,
            100,
        )?;
        assert!(&rt; told.kept == kept, "the refusal");
    }
    Ok(())
}

// Two workers, each of which is held until the other was seen: where actors ran one after the other, one of the two would not meet.
#[test]
fn workers_overlap(rt: HostRuntime) -> Result<(), OutOfMemory> {
    for (held, until) in [((0u32, 0u64), (1u32, 0u64)), ((1, 0), (0, 0))] {
        let sections = trial_sections(rt.alloc(), 1, 9)?;
        let gate = Hold::new(held, until);
        let told = try_round(
            &rt,
            rt.alloc(),
            sections.items(),
            1,
            2,
            &gate,
            1_000_000,
            100,
        )?;
        assert!(&rt; gate.met(), "the pause was seen");
        assert!(&rt; told.kept == Kept::Nothing, "no refusal");
    }
    Ok(())
}

/// A core that takes what came of four producers has the writes of each in their order.
fn is_in_order(core: &FakeCore) -> bool {
    let mut next = [0u64; 5];
    for sent in core.taken.as_slice() {
        let from = sent.from as usize;
        if from == 0 || 4 < from || sent.number != next[from] {
            return false;
        }
        next[from] = sent.number.saturating_add(1);
    }
    true
}

// With places for all and with too few.
#[test]
fn order_stays(rt: HostRuntime) -> Result<(), OutOfMemory> {
    for (places, kept) in [(1_000_000u64, Kept::Nothing), (3000, Kept::LogFull)] {
        let sections = trial_sections(rt.alloc(), 4, 1000)?;
        let (core, refusal) = try_core(
            &rt,
            rt.alloc(),
            sections.items(),
            4,
            4,
            &Open,
            places,
            100,
        )?;
        assert!(&rt; is_in_order(&core), "the order");
        assert!(&rt; refusal == kept, "the refusal");
        if kept == Kept::LogFull {
            assert!(&rt;
                core.taken.len() as u64 + core.restarts == 3000,
                "the log is full"
            );
        }
    }
    Ok(())
}
