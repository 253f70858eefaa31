// The name of a round.
use std::marker::{Brand, PhantomData};
use std::sync::ledger::Ledger;

/// Stands for one round: its intake, the ledger of its restarts, and that of its stops.
pub trait RoundName: Ledger {
    ghost use Rattle.intake_queue.specs.Values.{IntakeId};
    ghost use Rattle.std.specs.Prelude.{ℕ};

    ghost intake: { IntakeId };

    ghost stops_name: { ℕ };

    ghost stops_parts: { ℕ };
}

impl RoundName for Brand {
    ghost use Rattle.round_actors.specs.NoIntake.{no_intake};

    ghost intake = { no_intake };

    ghost stops_name = { 0 };

    ghost stops_parts = { 0 };
}

/// Stands for the ledger of a round's stops: a producer that ends before its last act books one, which it can only where a
/// refusal is kept.
pub struct Stops<J: RoundName> {
    of: PhantomData<J>,
}

impl<J: RoundName> Ledger for Stops<J> {
    ghost name = { J.stops_name };

    ghost parts = { J.stops_parts };
}
