// What the modules share.
use anyhow::Result;
use std::time::{Clock, Duration, Instant};

/// Prints the time of each of so many steps since a start.
pub fn print_time(
    rt: &(impl Eprint + Clock),
    start: Instant,
    number: u32,
    steps: &str,
) -> Result<()> {
    print_each(rt, start.elapsed(rt)?, number, steps)
}

/// Prints the time of each of so many steps that took so long together.
pub fn print_each(rt: &impl Eprint, all: Duration, number: u32, steps: &str) -> Result<()> {
    let each = all.as_nanos() / u128::from(number).max(1);
    eprintln!(rt; "{number} {steps}: {each} ns each")?;
    Ok(())
}
