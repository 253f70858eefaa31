//! Cases of the kind `core`: writes run through the core on a simulated chip, by several workers and by one settling alone, and what
//! stands in the end is compared. Their lines:
//!
//! ```text
//! case NAME                        a case begins; its name is told where it fails
//! room KIND N                      the chip has room for N objects of this kind
//! port NAME LANES                  the plan has this port
//! set KEY F=V ..                   a write: these fields of a row are set
//! del KEY                          a write: the row is deleted
//! waits N                          so many keys wait at the end of the round; without such a line none
//! waits KEY WHY                    this key is one of them, and waits for this reason
//! objects N                        so many objects stand on the chip then; without such a line none
//! goes IP WAY                      packets to the address go so then in the default router; `goes IP in NAME WAY`: in the router of
//!                                  this name
//! settle                           the round ends here, and what follows is the next; the last one ends with the case
//! workers N turn STEPS             N workers, one to four, step one after the other, STEPS steps in each round
//! workers N turn STEPS idle        the same, and in the end each of them is idle before the settling
//! workers N turn STEPS restart     the same, and in the end the core restarts before the settling
//! workers N drawn SEED STEPS       STEPS draws in each round, each of which is the next write or the step of a worker
//! ```
//!
//! A KEY is one that the tables read. KIND, WHY and WAY are those of cases of the kind `chip`.
//!
//! A case is run once without workers: in each round all writes are taken, and
//! the core settles. Then it is run once for each of its `workers` lines, each time with a new core over an empty chip. In `turn` all
//! writes of the round are taken before the first step. In `drawn` they are taken in between: for each round the seed draws how many
//! steps come to a write, and then draw by draw which worker steps or whether the next write is taken; what is left of the writes is
//! taken before the settling, and where none is left a step stands in its place. The core settles in the end of each round, which
//! first runs to its end what the workers left.
//!
//! What is wanted at the end of each round: the settling ends at its mark, which lists so many keys as wait; so many objects stand; and
//! up to identifiers they are the things of the run without workers. No call fails, and the log, of as many places as the service's,
//! has room. What differs is printed by the name of its case.
#![tactic(auto)]

mod bench;
mod case;
mod running;
mod words;
mod workers;

use anyhow::{Context, Result};
use case::Case;
use part_cases::parted::{Part, parts};
use part_cases::tally::Tally;
use running::run_case;
use std::alloc::Global;

/// Runs the cases of these lines.
pub fn run(rt: &impl Print, alloc: Global, lines: &[String]) -> Result<Tally> {
    let mut tally = Tally::default();
    for part in parts(alloc, "case ", lines)?.iter() {
        tally.count(passes(rt, alloc, part)?);
    }
    Ok(tally)
}

/// Whether a case comes to what is wanted. What differs is printed.
fn passes(rt: &impl Print, alloc: Global, part: &Part) -> Result<bool> {
    let name = part.name;
    let case = Case::read(alloc, part.lines).context(name)?;
    match run_case(alloc, &case) {
        Ok(()) => Ok(true),
        Err(error) => {
            println!(rt; "{name}: {error:?}")?;
            Ok(false)
        }
    }
}
