// Running a case.
use crate::scripts::case::{Case, Failure};
use crate::scripts::fact::Fact;
use anyhow::Result;
use std::alloc::Global;
use std::str;
use std::sync::Wait;
use std::thread::Threads;
use swss_run::{Outcome, swss_main};
use swss_types::{MemSink, MemSource, Open};

/// The most bytes of a script that is given a byte at a time.
const SHORT: usize = 1_000_000;

/// Runs a case from both sources, or from the first alone, or from the one that fails. What differs is printed.
pub fn passes(
    rt: &(impl Threads + Wait + Sync + Print),
    alloc: Global,
    case: &Case,
) -> Result<bool> {
    if case.source.is_some() || case.sink.is_some() {
        return passes_from(rt, alloc, case, case.source, case.sink);
    }
    let small = if case.script.len() <= SHORT { 1 } else { 1000 };
    let whole = passes_by(rt, alloc, case, usize::MAX)?;
    let pieces = case.once || passes_by(rt, alloc, case, small)?;
    Ok(whole && pieces)
}

/// Runs a case, so many bytes at a time.
fn passes_by(
    rt: &(impl Threads + Wait + Sync + Print),
    alloc: Global,
    case: &Case,
    piece: usize,
) -> Result<bool> {
    // No call has the number 0, so neither fails.
    let never = Some(Failure { piece, call: 0 });
    passes_from(rt, alloc, case, never, never)
}

/// Runs a case from a source and into a sink that fail so; one of which nothing is said does all at once.
fn passes_from(
    rt: &(impl Threads + Wait + Sync + Print),
    alloc: Global,
    case: &Case,
    source: Option<Failure>,
    sink: Option<Failure>,
) -> Result<bool> {
    let whole = Failure {
        piece: usize::MAX,
        call: 0,
    };
    let Failure { piece, call } = source.unwrap_or(whole);
    let fails = vec![in alloc; call]?;
    let mut source = MemSource::in_pieces(case.script.clone()?, fails, piece.max(1));
    let Failure { piece, call } = sink.unwrap_or(whole);
    let fails = vec![in alloc; call]?;
    let mut sink = MemSink::in_pieces(alloc, fails, piece.max(1));
    let words = case.words.as_slice();
    let outcome = swss_main(rt, alloc, words, &mut source, &mut sink, &Open);
    let facts = has_facts(rt, alloc, case, &outcome);
    outcome.into_status();
    let output = has_output(rt, case, sink.held())?;
    Ok(facts? && output)
}

/// Whether the facts are those that are wanted.
fn has_facts(rt: &impl Print, alloc: Global, case: &Case, outcome: &Outcome) -> Result<bool> {
    let mut holds = case.has_status() || is_fact(rt, alloc, case, outcome, Fact::Status, "0")?;
    for (fact, wanted) in case.facts.iter() {
        holds = is_fact(rt, alloc, case, outcome, *fact, wanted.as_str())? && holds;
    }
    Ok(holds)
}

/// Whether a fact is what is wanted.
fn is_fact(
    rt: &impl Print,
    alloc: Global,
    case: &Case,
    outcome: &Outcome,
    fact: Fact,
    wanted: &str,
) -> Result<bool> {
    let found = fact.at(alloc, outcome)?;
    if found.as_str() == wanted {
        return Ok(true);
    }
    println!(rt; "{}: {fact:?} {found:?} for {wanted:?}", case.name)?;
    Ok(false)
}

/// Whether the output is that which is wanted.
fn has_output(rt: &impl Print, case: &Case, output: &[u8]) -> Result<bool> {
    if output == case.output.as_slice() {
        return Ok(true);
    }
    let mut wanted = case.output.split(|byte| *byte == b'\n');
    for (number, line) in output.split(|byte| *byte == b'\n').enumerate() {
        let other = wanted.next();
        if other != Some(line) {
            tell_line(rt, case, number, line, other)?;
            return Ok(false);
        }
    }
    println!(rt; "{}: the output ends too early", case.name)?;
    Ok(false)
}

/// Prints a line of the output, counted from 0, that is another than the one that is wanted.
fn tell_line(
    rt: &impl Print,
    case: &Case,
    number: usize,
    line: &[u8],
    wanted: Option<&[u8]>,
) -> Result<()> {
    let line = str::from_utf8(line);
    let wanted = wanted.map(|line| str::from_utf8(line));
    println!(rt; "{}: line {number} {line:?} for {wanted:?}", case.name)?;
    Ok(())
}
