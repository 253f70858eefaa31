// The gate that holds all workers.
use std::sync::atomic::{AtomicU64, Ordering};
use std::thread;
use std::time::{Clock, Duration};
use swss_types::Gate;

/// How often a worker that is held looks at most.
const LOOKS: u32 = 1_000_000;

/// How many microseconds it sleeps between two looks.
const SLEEP: u64 = 20;

/// The number of the first producer.
const PRODUCER: u32 = 17;

/// Holds each worker behind its first step until the first producer made so many acts.
#[derive(Drop)]
pub struct Held<'a, K: Clock> {
    clock: &'a K,
    until: u64,
    seen: AtomicU64,
    met: AtomicU64,
}

impl<'a, K: Clock> Held<'a, K> {
    /// No act was made yet.
    pub fn new(clock: &'a K, until: u64) -> Held<'a, K> {
        Held {
            clock,
            until,
            seen: AtomicU64::new(0),
            met: AtomicU64::new(0),
        }
    }

    /// How many workers went on since the producer made its acts.
    pub fn met(&self) -> u64 {
        self.met.load(Ordering::SeqCst)
    }

    /// Looks until the producer made its acts.
    fn look(&self) -> bool {
        for _ in 0..LOOKS {
            if self.seen.load(Ordering::SeqCst) != 0 {
                return true;
            }
            thread::sleep(self.clock, Duration::from_micros(SLEEP));
        }
        false
    }
}

impl<'a, K: Clock> Gate for Held<'a, K> {
    fn pause(&self, actor: u32, step: u64) {
        if actor == PRODUCER && step == self.until {
            self.seen.store(1, Ordering::SeqCst);
        }
        if actor < 4 && step == 0 && self.look() {
            self.met.fetch_add(1, Ordering::SeqCst);
        }
    }
}
