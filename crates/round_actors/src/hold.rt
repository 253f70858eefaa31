// The gate of tests, which holds an actor back until another was seen.
use std::sync::atomic::{AtomicU64, Ordering};
use std::thread;
use swss_types::Gate;

/// How often the pause that is held looks at most.
const LOOKS: u32 = 100_000_000;

/// Holds the pause of an actor and a step until another pause was seen.
#[derive(Drop)]
pub struct Hold {
    held: (u32, u64),
    until: (u32, u64),
    seen: AtomicU64,
    met: AtomicU64,
}

impl Hold {
    /// Holds the first pause until the second was seen.
    pub fn new(held: (u32, u64), until: (u32, u64)) -> Hold {
        Hold {
            held,
            until,
            seen: AtomicU64::new(0),
            met: AtomicU64::new(0),
        }
    }

    /// Whether a look saw the pause that was waited for.
    pub fn met(&self) -> bool {
        self.met.load(Ordering::SeqCst) != 0
    }

    /// Looks until the pause that is waited for was seen.
    fn look(&self) -> bool {
        for _ in 0..LOOKS {
            if self.seen.load(Ordering::SeqCst) != 0 {
                return true;
            }
            thread::yield_now();
        }
        false
    }
}

impl Gate for Hold {
    fn pause(&self, actor: u32, step: u64) {
        if (actor, step) == self.until {
            self.seen.store(1, Ordering::SeqCst);
        }
        if (actor, step) == self.held && self.look() {
            self.met.store(1, Ordering::SeqCst);
        }
    }
}
