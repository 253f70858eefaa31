//! Runs all cases that are kept as data. Standard input holds them, kind by kind:
//!
//! ```text
//! cases KIND      the cases of a kind begin
//! ```
//!
//! The kinds are `texts`, `chip` and `plans` (crate `part_cases`), `core` (crate `core_cases`), `rounds`, `scripts`,
//! `statuses` and `examples`; what the lines of a kind mean stands at the head of its file. `examples` has no lines, and stands
//! for the scripts of the folder that the program runs in. Lines that are empty or begin with `#` are skipped. What differs is
//! printed by the name of its case, then how many cases of each kind passed and failed, and in the last line how many of all;
//! the exit status is 1 where one failed, and where a kind has no case. With a word the program reads no cases, and runs the
//! examples of that folder.
#![tactic(auto)]

mod examples;
mod rounds;
mod scripts;
mod statuses;

use anyhow::{Context, Result, bail, ensure};
use part_cases::parted::{Part, parts};
use part_cases::tally::Tally;
use part_cases::{chip, plans, texts};
use std::alloc::Global;
use std::env;
use std::fs::Files;
use std::sync::Wait;
use std::thread::Threads;

fn main(rt: HostRuntime) -> Result<()> {
    let alloc = rt.alloc();
    let tally = match env::args(&rt)?.nth(1) {
        Some(folder) => examples::run(&rt, alloc, &folder)?,
        None => run_all(&rt, alloc, read_lines(&rt, alloc)?.as_slice())?,
    };
    println!(rt; "{tally}")?;
    ensure!(!tally.is_empty(), "there is no case");
    ensure!(tally.passes(), "cases failed");
    Ok(())
}

/// Runs the cases of these lines.
fn run_all<R: Files + AllocGlobal + Clone + Drop + Threads + Wait + Sync + Print>(
    rt: &R,
    alloc: Global,
    lines: &[String],
) -> Result<Tally> {
    let mut all = Tally::default();
    for kind in parts(alloc, "cases ", lines)?.iter() {
        let tally = run_kind(rt, alloc, kind).context(kind.name)?;
        println!(rt; "{}: {tally}", kind.name)?;
        all.add(tally);
    }
    Ok(all)
}

/// The lines of standard input that are neither empty nor comments.
fn read_lines(rt: &HostRuntime, alloc: Global) -> Result<Vec<String>> {
    let mut lines = Vec::new(alloc);
    for line in rt.lines(alloc) {
        let line = line.context("the cases")?;
        if !line.is_empty() && !line.starts_with('#') {
            lines.push(line)?;
        }
    }
    Ok(lines)
}

/// Runs the cases of a kind, of which there is one at least.
fn run_kind<R: Files + AllocGlobal + Clone + Drop + Threads + Wait + Sync + Print>(
    rt: &R,
    alloc: Global,
    kind: &Part,
) -> Result<Tally> {
    let tally = match kind.name {
        "texts" => texts::run(rt, alloc, kind.lines)?,
        "chip" => chip::run(rt, alloc, kind.lines)?,
        "plans" => plans::run(rt, alloc, kind.lines)?,
        "core" => core_cases::run(rt, alloc, kind.lines)?,
        "rounds" => rounds::run(rt, alloc, kind.lines)?,
        "scripts" => scripts::run(rt, alloc, kind.lines)?,
        "statuses" => statuses::run(rt, alloc, kind.lines)?,
        "examples" if kind.lines.is_empty() => examples::run(rt, alloc, ".")?,
        _ => bail!("no kind of cases, or a line that it has not"),
    };
    ensure!(!tally.is_empty(), "there is no case of the kind");
    Ok(tally)
}
