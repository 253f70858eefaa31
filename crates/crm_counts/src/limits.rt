// What counts are held against.
ghost use Rattle.std.specs.Prelude.{◌≡◌};
ghost use Rattle.sai_types.specs.Refusal.{capacity_of};
ghost use Rattle.crm_counts.specs.Above.{is_above_after};

use sai_types::{Caps, Kind};
use std::marker::Model;

/// The capacity of each kind, and the thresholds in hundredths of it.
#[derive(Drop)]
pub(crate) struct Limits {
    caps: Caps,
    high: u8,
    low: u8,
}

impl Model for Limits {
    ghost use Rattle.crm_counts.specs.Alarms.{Limits as Thresholds};

    ghost Value = { Thresholds };

    ghost view = { λ l. record { capacities = l.caps.0; high = l.high; low = l.low } };
}

impl Limits {
    /// These capacities and thresholds.
    pub(crate) fn new(caps: &Caps, high: u8, low: u8) -> Limits
        ensures { result ≡ record { capacities = caps.now.0; high = high; low = low } }
    {
        Limits {
            caps: *caps,
            high,
            low,
        }
    }

    /// Whether a kind is above after an effect behind which so many of its objects stand, by whether it was before.
    pub(crate) fn is_above(&self, kind: Kind, before: bool, count: u64) -> bool
        ensures { result ≡ is_above_after self.now.high self.now.low (capacity_of self.now.capacities kind) before count }
    {
        let capacity = self.caps.0[kind.index()];
        let filled = u128::from(count) * 100;
        let high = u128::from(self.high) * u128::from(capacity);
        let low = u128::from(self.low) * u128::from(capacity);
        capacity != 0 && (high <= filled || before && low < filled)
    }
}
