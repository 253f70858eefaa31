// Cases of the kind `texts`: texts of every kind, and what they come to. A case is a line, `KIND TEXT => WANTED`.
// The text is all that stands between the blank behind the kind and the last ` => `. What is wanted is `none` where the
// text is none of its kind, and else:
//
// ```text
// ip TEXT                 the address as it is written
// ip-value TEXT           its value, here and below as Rust writes it
// prefix TEXT             the prefix as it is written
// host-bits TEXT          whether the text would be a prefix but for bits past its length: `true` or `false`
// address TEXT            the address with a length of an interface as it is written
// covers PREFIX IP        whether the prefix covers the address
// mac TEXT                the Ethernet address as it is written, and its value
// name TEXT               the interface name as it is written, and its value
// lanes TEXT              the lanes as they are written, and the first of them
// tagging TEXT            the tagging as it is written, and its value
// number MOST TEXT        the number, which is at most MOST
// writes NUMBER           the number as it is written
// fields NAME=VALUE ..    the fields of these pairs, rising
// row KEY NAME=VALUE ..   the key as it is written, its row or the first rule that is broken, and the keys that it names;
//                         the plan has Ethernet0 with the lanes 0 to 3 and Ethernet4 with the lanes 4 and 5; a port's
//                         row is shown by its parts
// names KEY NAME=VALUE .. how many keys that row names
// plan LINE;LINE ..       how many ports the plan of these lines has, or the first fault
// port LANE LINE;LINE ..  the port whose first lane this is in the plan of these lines
// ```
//
// What differs is printed with its line.

mod rows;
mod words;

use crate::tally::Tally;
use anyhow::{Context, Result};
use std::alloc::Global;

/// Runs the cases of these lines.
pub fn run(rt: &impl Print, alloc: Global, lines: &[String]) -> Result<Tally> {
    let mut tally = Tally::default();
    for line in lines {
        let line = line.as_str();
        tally.count(passes(rt, alloc, line).context(line)?);
    }
    Ok(tally)
}

/// Whether a text comes to what is wanted. What it comes to is printed where it does not.
fn passes(rt: &impl Print, alloc: Global, line: &str) -> Result<bool> {
    let (case, wanted) = line.rsplit_once(" => ").context("what is wanted")?;
    let (kind, text) = case.split_once(' ').context("a kind and a text")?;
    let found = match words::find(alloc, kind, text)? {
        Some(found) => found,
        None => rows::find(alloc, kind, text)?,
    };
    if found.as_str() == wanted {
        return Ok(true);
    }
    println!(rt; "{line}: {found}")?;
    Ok(false)
}
