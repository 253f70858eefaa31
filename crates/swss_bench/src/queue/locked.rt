// What stands under the lock.
ghost use Rattle.std.specs.Prelude.{◌≡◌};

use crate::queue::name::IntakeName;
use intake_queue::{Intake, Taker};
use std::marker::{Model, PhantomData};
use std::sync::Wait;

/// The taker of the intake that J names, and how many writes it took.
#[derive(Drop)]
pub struct Locked<J: IntakeName> {
    taker: Taker,
    taken: u64,
    of: PhantomData<J>,
}

impl<J: IntakeName> Model for Locked<J> {
    ghost use Rattle.std.specs.Prelude.{ℕ, ◌≡◌};

    ghost Value = { ℕ };

    ghost view = { λ l. l.taken };

    ghost invariant = { λ l. l.taker.intake ≡ J.intake };
}

impl<J: IntakeName> Locked<J> {
    /// The taker that took nothing.
    pub fn new(taker: Taker) -> Locked<J>
        requires { taker.intake ≡ J.intake }
    {
        Locked {
            taker,
            taken: 0,
            of: PhantomData,
        }
    }

    /// Takes so many writes, or as many as there are.
    pub fn take_some<R: Wait>(&mut self, rt: &R, intake: &Intake, most: u64)
        requires { intake.now ≡ J.intake }
    {
        for _ in 0..most {
            if self.taker.take(rt, intake).is_none() {
                break;
            }
            self.taken = self.taken.saturating_add(1);
        }
    }

    /// How many writes were taken.
    pub fn taken(&self) -> u64 {
        self.taken
    }
}
