// A chip whose calls take their time.
ghost use Rattle.std.specs.Prelude.{◌≡◌};

use sai_chip::SimChip;
use sai_types::{Call, Chip, ChipAnswer, Kind, ListAnswer, Object, Rid};
use std::thread;
use std::time::{Clock, Duration};

/// A simulated chip, before each of whose calls the calling thread sleeps.
#[derive(Drop)]
pub struct SlowChip<'a, K: Clock> {
    chip: SimChip,
    clock: &'a K,
    each: Duration,
}

impl<'a, K: Clock> SlowChip<'a, K> {
    /// The chip, with so long a sleep before each call.
    pub fn new(chip: SimChip, clock: &'a K, each: Duration) -> SlowChip<'a, K>
        ensures { result.chip ≡ chip }
    {
        SlowChip { chip, clock, each }
    }
}

impl<'a, K: Clock> Chip for SlowChip<'a, K> {
    ghost state = { λ s. s.chip };

    fn call(&mut self, call: &Call<Rid>) -> ChipAnswer {
        thread::sleep(self.clock, self.each);
        self.chip.call(call)
    }

    fn list(&mut self, out: &mut Vec<Object<Rid>>) -> ListAnswer {
        thread::sleep(self.clock, self.each);
        self.chip.list(out)
    }

    fn capacity(&self, kind: Kind) -> u64 {
        self.chip.capacity(kind)
    }

    fn used(&self, kind: Kind) -> u64 {
        self.chip.used(kind)
    }

    fn effects(&self) -> u64 {
        self.chip.effects()
    }

    fn faults(&self) -> u64 {
        self.chip.faults()
    }
}
