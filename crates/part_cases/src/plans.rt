// Cases of the kind `plans`: the planner runs on views that are drawn by a seed. A case is a line:
//
// ```text
// SEED OLD NEW WORDS    an old view of OLD objects and a new one of NEW, which mostly agree
// ```
//
// The words are of these: `routers`, where things are in two virtual routers beside the default one, interfaces in the same
// in both views, and own addresses and prefixes in two at a time; `moved`, where the new view has each interface in another
// router than the old one would; `weights`, where next hops have weights in groups, most of them the same in both views; `doubles`,
// where the old chip has each group twice; `half`, where it has groups that lack members; `tight`, where the chip has no more
// room of each kind than the greater of both views takes; `break N`, where an apply is broken off after N calls, and another
// begins from a new list, any number of times; `hitless` or `cold`, where each plan with a call is to be so.
//
// The old view is made on a simulated chip, and brought to the new one as after a restart: the new view is built, the chip is
// listed, and the calls of the plan are made one after the other. The new view is made on a second chip too, for comparison.
// What is looked at:
//
// - The plan is hitless exactly where there is room for what stands and for what is new, and each interface that is in both
//   is in one router.
// - No call is refused.
// - After each call every own address, neighbour and route on the chip is of the old view or of the new one.
// - After each call of a hitless plan each address goes, in each router, over the hops of the old view or of the new one, with
//   their weights, once over those of the new one always so, and where both views agree, Ethernet addresses included, as both.
// - In the end the chip holds the things of the new view, and of old groups of the same hops and weights none but the first;
//   a plan from there has no call.
//
// A case in which something else is found is printed by its line, with what was found.

mod apply;
mod case;
mod drawn;
mod room;
mod starting;
mod trying;
mod watch;

use crate::tally::Tally;
use anyhow::{Context, Result};
use apply::run_case;
use case::Case;
use std::alloc::Global;

/// Runs the cases of these lines.
pub fn run(rt: &impl Print, alloc: Global, lines: &[String]) -> Result<Tally> {
    let mut tally = Tally::default();
    for line in lines {
        tally.count(passes(rt, alloc, line.as_str())?);
    }
    Ok(tally)
}

/// Runs a case. It tells what is found that is not to be.
fn passes(rt: &impl Print, alloc: Global, line: &str) -> Result<bool> {
    let case = Case::read(alloc, line).context(line)?;
    match run_case(alloc, &case) {
        Ok(()) => Ok(true),
        Err(error) => {
            println!(rt; "{line}: {error:?}")?;
            Ok(false)
        }
    }
}
