// The name of a round.
use round_actors::Opening;
use std::marker::Brand;

/// Stands for a round with its opening: the core and the chip as they were before it; and with the numbers of its workers.
pub trait Named: Opening {
    ghost use Rattle.std.specs.Prelude.{ℕ};
    ghost use Rattle.swss_service.specs.CoreAndChip.{CoreAndChip};

    ghost opening: { CoreAndChip };

    /// The greatest number of a worker.
    ghost most: { ℕ };
}

impl Named for Brand {
    ghost use Rattle.swss_service.specs.CoreAndChip.{nothing_opened};

    ghost opening = { nothing_opened };

    ghost most = { 0 };
}
