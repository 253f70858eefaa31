// Cases of the kind `statuses`: a line for each status that has nothing but its number, `N LINE`, with its line for standard error.
use anyhow::{Context, Result};
use part_cases::tally::Tally;
use std::alloc::Global;
use swss_run::Status;

/// The statuses that have nothing but their numbers.
const PLAIN: [Status; 7] = [
    Status::Done,
    Status::Usage,
    Status::ReadFault,
    Status::WriteFault,
    Status::ChipFault,
    Status::LogFull,
    Status::OutOfMemory,
];

/// Runs the cases of these lines.
pub fn run(rt: &impl Print, alloc: Global, lines: &[String]) -> Result<Tally> {
    let mut tally = Tally::default();
    for case in lines {
        let (number, line) = case.split_once(' ').context("a number and a line")?;
        let number = number.parse::<u8>().context("a number")?;
        let passes = has_line(alloc, number, line)?;
        if !passes {
            println!(rt; "status {number}")?;
        }
        tally.count(passes);
    }
    Ok(tally)
}

/// Whether the status of a number has this line.
fn has_line(alloc: Global, number: u8, line: &str) -> Result<bool> {
    for status in &PLAIN {
        if status.number() == number {
            let told = status.line(alloc)?;
            return Ok(told.as_slice() == line.as_bytes());
        }
    }
    Ok(false)
}
