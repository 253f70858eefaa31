// The gate that holds producers behind workers.
use part_cases::draw::Draw;
use std::sync::atomic::{AtomicU64, Ordering};
use std::thread;
use swss_types::Gate;

/// The least number of an actor that is a producer.
const PRODUCERS: u32 = 16;

/// How often a producer looks at most, since the workers may all have ended.
const LOOKS: u32 = 100;

/// Holds a producer behind some of its acts, which a seed draws, until workers made as many more steps as it draws.
#[derive(Drop)]
pub struct Paced {
    seed: u64,
    steps: AtomicU64,
}

impl Paced {
    /// The workers made no step yet.
    pub fn new(seed: u64) -> Paced {
        Paced {
            seed,
            steps: AtomicU64::new(0),
        }
    }

    /// Looks until workers made so many more steps.
    fn wait(&self, more: u64) {
        let before = self.steps.load(Ordering::SeqCst);
        for _ in 0..LOOKS {
            let now = self.steps.load(Ordering::SeqCst);
            if now.wrapping_sub(before) >= more {
                return;
            }
            thread::yield_now();
        }
    }
}

impl Gate for Paced {
    fn pause(&self, actor: u32, step: u64) {
        if actor < PRODUCERS {
            self.steps.fetch_add(1, Ordering::SeqCst);
        } else {
            let mut draw = Draw::new(self.seed ^ u64::from(actor) << 32 ^ step);
            if draw.pick(3) == 0 {
                self.wait(draw.pick(4));
            }
        }
    }
}
