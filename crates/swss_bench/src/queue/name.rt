// The name of the one intake whose taker stands under a lock.
use std::marker::Brand;

/// Stands for an intake.
pub trait IntakeName {
    ghost use Rattle.intake_queue.specs.Values.{IntakeId};

    ghost intake: { IntakeId };
}

impl IntakeName for Brand {
    ghost use Rattle.swss_bench.specs.Ready.{nowhere};

    ghost intake = { nowhere };
}
