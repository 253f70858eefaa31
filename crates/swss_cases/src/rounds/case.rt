// A case, as its line gives it.
ghost use Rattle.std.specs.Prelude.{◌<◌, ◌≤◌, IfOk};

use anyhow::{Result, bail};
use part_cases::words::{number, short};
use std::alloc::Global;

/// A session that is drawn by a seed.
#[derive(Drop)]
pub struct RoundsCase {
    /// What draws it.
    pub seed: u64,
    /// How many rounds it has.
    pub count: u64,
    /// How many workers run it.
    pub workers: u32,
}

impl RoundsCase {
    /// The case of a line.
    pub fn read(alloc: Global, line: &str) -> Result<RoundsCase>
        ensures { IfOk result (λ case. (0 < case.workers) × (case.workers ≤ 4)) }
    {
        let words = line.split_whitespace().collect::<Vec<&str>>(alloc)?;
        let [seed, count, workers] = words.as_slice() else {
            bail!("a seed, a number of rounds, and one of workers");
        };
        let workers = short(workers)?;
        if workers == 0 || 4 < workers {
            bail!("one to four workers");
        }
        Ok(RoundsCase {
            seed: number(seed)?,
            count: number(count)?,
            workers,
        })
    }
}
