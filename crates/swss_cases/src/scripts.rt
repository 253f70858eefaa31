// Cases of the kind `scripts`: scripts run through the top call, and what they come to. Their lines:
//
// ```text
// case NAME            a case begins; its name is told where it fails
// word WORD            a word behind the program's name, `word` alone an empty one; a case without such a line has `run`
// no words             there is none
// status N LINE        the status that is wanted, with its line; a case without such a line wants 0
// why REASON           the reason of the refusal, as Rust writes the value
// taken N              how many writes are taken
// senders P/N P/N ..   the producer and number of each write taken
// ends N N ..          how many marks there are at the end of each round
// chip yes             that there is a chip at the end, or `no`
// source-fails N C     the source gives N bytes at once and fails at its call C; the case is run from this one alone
// sink-fails N C       the sink takes N bytes at once and fails at its call C; the case is run into this one alone
// once                 the case takes long, and is run from the first of the two sources alone
// output               what follows is the output that is wanted, and no more the script
// |TEXT                this text and a newline
// +TEXT                this text without a newline
// *N TEXT              this text N times, without a newline
// *A..B TEXT           the same once for each number from A to B, up or down
// ```
//
// In a TEXT behind `+` and `*`, `%n` stands for the number of the repetition, and `%` with two hexadecimal digits for a
// byte. Each case is run from a source that gives all at once and from
// one that gives a byte at a time (a thousand of a long script), into a sink that takes as much at a time. What differs
// is printed by the name of its case.

mod bytes;
mod case;
mod fact;
mod play;

use anyhow::{Context, Result};
use case::Case;
use part_cases::parted::parts;
use part_cases::tally::Tally;
use play::passes;
use std::alloc::Global;
use std::sync::Wait;
use std::thread::Threads;

/// Runs the cases of these lines.
pub fn run(
    rt: &(impl Threads + Wait + Sync + Print),
    alloc: Global,
    lines: &[String],
) -> Result<Tally> {
    let mut tally = Tally::default();
    for part in parts(alloc, "case ", lines)?.iter() {
        let case = Case::read(alloc, part).context(part.name)?;
        tally.count(passes(rt, alloc, &case)?);
    }
    Ok(tally)
}
