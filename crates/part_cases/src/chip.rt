// Cases of the kind `chip`: calls on simulated chips, and what they come to. Their lines, a word at a time:
//
// ```text
// case NAME                  a case begins: an empty chip, no row, an empty plan; its name is told where it fails
// room N                     the chip has room for N objects of each kind; 100 without such a line
// room KIND N                so much room for this kind
// fail N before              chip call N, of all calls and listings from 1, fails; `after`: with its effect
// create OBJECT => ANSWER    a call, and the answer that is wanted
// set ENTRY ATTRIBUTE => ANSWER
// remove ENTRY => ANSWER
// used KIND N                so many objects of the kind stand
// capacity KIND N            so many have room
// goes IP WAY                packets to the address go so in the default router; `goes IP in NAME WAY`: in the router of this name
// effects N                  so many calls took effect; `effect K` and `no effect K`: whether there is one of this number
// faults N                   so many calls failed
// hold ENTRY OBJECT          the list behind which listings are put holds this object
// list ANSWER                a listing, and the answer that is wanted
// listed ENTRY OBJECT        the first object of the list that no such line named before is this one
// listed all                 no other is on the list
// port NAME LANES            the plan has this port
// row KEY F=V ..             fields of a row are set; without any, the row is deleted
// waits KEY WHY              a key waits at the next settling or apply of the round; WHY is `missing KEY`, `held KEY`,
//                            `no-room KIND` or `busy N`
// turns N                    the next settling of the round makes so many turns; none without such a line
// settled KEY ..             the round has a mark of a settling at which these keys wait too, for a worker
// faulted N                  the round has a mark of the chip's fault N
// restarted                  the round has a mark of a restart
// applying MODE KEY ..       the round has a mark of the begin of an apply, `hitless` or `cold`, at which these keys wait too
// applied                    the round has a mark of the end of an apply
// show WHAT ..               the round ends with these shows, which are those of scripts; its report is the lines behind
// |LINE                      a line of that report
// ```
//
// `room` and `fail` stand before the first call of a case. An OBJECT is `port LANES`, `port LANES up`, `vlan NUMBER`,
// `virtual_router NAME`, `bridge_port ID`, `member VLAN-ID BRIDGE-PORT-ID`, `rif port ID`, `rif vlan ID`, `own IP`,
// `neighbor RIF-ID IP MAC`, `next_hop RIF-ID IP`, `group`, `group_member GROUP-ID NEXT-HOP-ID`, with the weight 1,
// `group_member GROUP-ID NEXT-HOP-ID WEIGHT` or `route PREFIX TARGET`. A TARGET is `drop`, `rif ID`, `next_hop ID` or
// `group ID`. An ENTRY is `id ID`, `own IP`, `neighbor RIF-ID IP` or `route PREFIX`. An interface, own address or route is in
// the default router, unless `in ROUTER-ID` stands behind its base, address or prefix. An ATTRIBUTE is `speed N`, `mtu N`,
// `up`, `down`, `tagging WORD`, `mac MAC` or `to TARGET`. An ANSWER is `made ID`, `done`, `exists`, `bad-reference`,
// `not-found`, `in-use`, `full`, `failed` or `no-memory`, as it stands in the chip's table. A WAY is `cpu`, `drop`,
// `direct port LANE`, `direct vlan NUMBER`, or `via IP ..` with the addresses of the hops.
// What differs is printed by the name of its case.

mod asked;
mod call;
mod case;
mod entry;
mod object;
mod report;
pub mod way;

use crate::parted::{Part, parts};
use crate::tally::Tally;
use anyhow::{Context, Result};
use case::Case;
use std::alloc::Global;
use std::str;

/// Runs the cases of these lines.
pub fn run(rt: &impl Print, alloc: Global, lines: &[String]) -> Result<Tally> {
    let mut tally = Tally::default();
    for part in parts(alloc, "case ", lines)?.iter() {
        tally.count(passes(rt, alloc, part)?);
    }
    Ok(tally)
}

/// Whether a case finds what its lines want.
fn passes(rt: &impl Print, alloc: Global, part: &Part) -> Result<bool> {
    let mut case = Case::new(alloc)?;
    let passes = find_all(rt, alloc, &mut case, part);
    case.end();
    passes
}

/// The same of this case, which has only begun.
fn find_all(rt: &impl Print, alloc: Global, case: &mut Case, part: &Part) -> Result<bool> {
    let name = part.name;
    let mut passes = true;
    for line in part.lines {
        if let Some(found) = case.add_line(alloc, line).context(line.as_str())? {
            println!(rt; "{name}: {line}: {found}")?;
            passes = false;
        }
    }
    if let Some((found, wanted)) = case.other_line() {
        let (found, wanted) = (str::from_utf8(found), str::from_utf8(wanted));
        println!(rt; "{name}: {found:?} for {wanted:?}")?;
        passes = false;
    }
    Ok(passes)
}
