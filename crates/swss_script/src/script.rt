// Scripts, and how they are read.
ghost use Rattle.std.specs.Prelude.{◌≡◌, ◌≤◌, Err, IfOk, MatchResult, Ok, length};
ghost use Rattle.swss_script.specs.Lines.{lines_in, text_of};
ghost use Rattle.swss_script.specs.Script.{Becomes, new_draft, script_at, script_from, script_of, step, with_block, with_text};

use crate::batch::read_batch;
use crate::draft::Draft;
use crate::line::{Line, is_block, read_line};
use crate::lines::{as_text, block, is_end, is_too_long, line_text, next_line};
use crate::{Fails, Producers, Refused, RoundList, Why};
use row_store::Rows;
use sai_types::Caps;
use std::alloc::Global;
use std::mem::drop;
use swss_types::OutOfMemory;
use table_schema::PortPlan;

/// The most bytes of a script.
pub const MOST_BYTES: usize = 67_108_864;

/// The most lines of a script.
pub const MOST_LINES: u64 = 1_000_000;

/// A script.
#[derive(Debug, Drop)]
pub struct Script {
    /// The ports.
    pub plan: PortPlan,
    /// The capacities of the chip.
    pub caps: Caps,
    /// The chip calls that fail.
    pub fails: Fails,
    /// The rows that the service begins with.
    pub image: Rows,
    /// The names of the producers: a producer's number is the place of its name, from 1.
    pub producers: Producers,
    /// The rounds, in order.
    pub rounds: RoundList,
}

impl Script {
    /// The script that the bytes are, or the first faulty line with the first of its faults.
    pub fn read(alloc: Global, bytes: &[u8]) -> Result<Result<Script, Refused>, OutOfMemory>
        ensures { IfOk result (λ answer. answer ≡ script_of bytes.now) }
    {
        if bytes.len() > MOST_BYTES {
            return Ok(Err(Refused {
                line: 0,
                why: Why::TooLong,
            }));
        }
        read_lines(alloc, bytes)
    }
}

/// The script of the lines of a text.
fn read_lines(alloc: Global, bytes: &[u8]) -> Result<Result<Script, Refused>, OutOfMemory>
    ensures { IfOk result (λ answer. answer ≡ script_from (Ok new_draft) 0 (lines_in bytes.now)) }
{
    let mut draft = Draft::new(alloc)?;
    match add_lines(alloc, &mut draft, bytes) {
        Ok(Ok(())) => Ok(Ok(draft.finish(alloc)?)),
        Ok(Err(refused)) => {
            drop(draft);
            Ok(Err(refused))
        }
        Err(error) => {
            drop(draft);
            Err(error)
        }
    }
}

/// Adds the lines of a text to a draft, up to the first that is faulty.
fn add_lines(
    alloc: Global,
    draft: &mut Draft,
    bytes: &[u8],
) -> Result<Result<(), Refused>, OutOfMemory>
    requires { length draft.old.script.producers ≤ 4 }
    ensures { IfOk result (λ answer. MatchResult answer (λ _. script_from (Ok draft.old) 0 (lines_in bytes.now) ≡ Ok (script_at draft.new.place draft.new)) (λ refused. script_from (Ok draft.old) 0 (lines_in bytes.now) ≡ Err refused)) }
{
    let mut number = 0;
    let mut left = bytes;
    while let Some((line, rest)) = next_line(left) {
        number += 1;
        match add_line(alloc, draft, number, line, rest)? {
            Ok(()) => left = rest,
            Err(why) => return Ok(Err(Refused { line: number, why })),
        }
    }
    Ok(Ok(()))
}

/// Adds a numbered line to a draft, with the text behind it.
fn add_line(
    alloc: Global,
    draft: &mut Draft,
    number: u64,
    line: &[u8],
    rest: &[u8],
) -> Result<Result<(), Why>, OutOfMemory>
    requires { length draft.old.script.producers ≤ 4 }
    ensures { IfOk result (λ answer. Becomes (step draft.old number line.now (lines_in rest.now)) answer draft.new) }
{
    if number > MOST_LINES {
        return Ok(Err(Why::TooManyLines));
    }
    let text = line_text(line);
    if is_too_long(text) {
        return Ok(Err(Why::LineTooLong));
    }
    if draft.block {
        draft.block = !is_end(text);
        return Ok(Ok(()));
    }
    add_text(alloc, draft, text, rest)
}

/// Adds a line that belongs to no block, with the text behind it.
fn add_text(
    alloc: Global,
    draft: &mut Draft,
    bytes: &[u8],
    rest: &[u8],
) -> Result<Result<(), Why>, OutOfMemory>
    requires { length draft.old.script.producers ≤ 4 }
    ensures { IfOk result (λ answer. Becomes (with_text draft.old (text_of bytes.now) (lines_in rest.now)) answer draft.new) }
{
    let Some(text) = as_text(bytes) else {
        return Ok(Err(Why::NotUtf8));
    };
    let line = read_line(alloc, text)?;
    if is_block(&line) {
        add_block(alloc, draft, rest)
    } else {
        draft.add(alloc, line)
    }
}

/// Adds the block that a text begins with.
fn add_block(alloc: Global, draft: &mut Draft, rest: &[u8]) -> Result<Result<(), Why>, OutOfMemory>
    requires { length draft.old.script.producers ≤ 4 }
    ensures { IfOk result (λ answer. Becomes (with_block draft.old (lines_in rest.now)) answer draft.new) }
{
    let batch = match block(rest) {
        Some(text) => read_batch(alloc, text)?,
        None => None,
    };
    if let Err(why) = draft.add(alloc, Line::Batch(batch))? {
        return Ok(Err(why));
    }
    draft.block = true;
    Ok(Ok(()))
}
