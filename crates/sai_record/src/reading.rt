// The recording that a text is.
ghost use Rattle.std.specs.Prelude.{◌≡◌, ◌==◌, IfOk, IfSome, bytes_eq, length, option_map};
ghost use Rattle.std.specs.List.{position};
ghost use Rattle.sai_record.specs.Line.{call_line, head_line};
ghost use Rattle.sai_record.specs.Lines.{AreReadFrom, BeginsWithCall, BeginsWithHead, IsFirstLine, caps_of, longs_at};
ghost use Rattle.sai_record.specs.Ranges.{AreCaps};
ghost use Rattle.sai_record.specs.Reading.{IsReadAs};

use crate::line::write_line;
use crate::meaning::read_call;
use crate::words::read_long;
use crate::writing::write_head;
use crate::{Recorded, RecordedCalls, Recording};
use sai_types::{Caps, KINDS};
use std::alloc::Global;
use swss_types::OutOfMemory;

/// A text that is no recording.
#[derive(Clone, Copy, Debug, PartialEq, Eq)]
pub struct BadRecord {
    /// The first line that is not in the grammar, from 1. A first line that is missing is line 1.
    pub line: u64,
}

/// The recording that the bytes are, or the first line that is not in the grammar. Every line has a newline at its end.
pub fn read(alloc: Global, bytes: &[u8]) -> Result<Result<Recording, BadRecord>, OutOfMemory>
    ensures { IfOk result (λ answer. IsReadAs bytes.now answer) }
{
    let mut scratch = Vec::new(alloc);
    let Some((caps, text)) = read_head(&mut scratch, bytes)? else {
        return Ok(Err(BadRecord { line: 1 }));
    };
    match read_calls(alloc, &mut scratch, text)? {
        Ok(calls) => Ok(Ok(Recording { caps, calls })),
        Err(bad) => Ok(Err(bad)),
    }
}

/// The capacities of a text's first line, and the text behind it, or None where that is no first line.
fn read_head<'a>(
    scratch: &mut Vec<u8>,
    text: &'a [u8],
) -> Result<Option<(Caps, &'a [u8])>, OutOfMemory>
    ensures { IfOk result (λ head. BeginsWithHead text.now head) }
{
    let Some((line, rest)) = first_line(text) else {
        return Ok(None);
    };
    let Some(caps) = read_caps(line) else {
        return Ok(None);
    };
    if is_head(scratch, &caps, line)? {
        Ok(Some((caps, rest)))
    } else {
        Ok(None)
    }
}

/// The calls of a text's lines, or the first line that is no call's, counted with a line before the text.
fn read_calls(
    alloc: Global,
    scratch: &mut Vec<u8>,
    text: &[u8],
) -> Result<Result<RecordedCalls, BadRecord>, OutOfMemory>
    ensures { IfOk result (λ answer. AreReadFrom text.now answer) }
{
    let mut calls = RecordedCalls::new(alloc);
    let mut line = 1;
    let mut left = text;
    while !left.is_empty() {
        line += 1;
        let Some((call, rest)) = read_next(alloc, scratch, left)? else {
            return Ok(Err(BadRecord { line }));
        };
        calls.push(call)?;
        left = rest;
    }
    Ok(Ok(calls))
}

/// The call of a text's first line, and the text behind it, or None where that is the line of no call.
fn read_next<'a>(
    alloc: Global,
    scratch: &mut Vec<u8>,
    text: &'a [u8],
) -> Result<Option<(Recorded, &'a [u8])>, OutOfMemory>
    ensures { IfOk result (λ next. BeginsWithCall text.now next) }
{
    let Some((line, rest)) = first_line(text) else {
        return Ok(None);
    };
    let Some(recorded) = read_call(alloc, line)? else {
        return Ok(None);
    };
    if is_call(scratch, &recorded, line)? {
        Ok(Some((recorded, rest)))
    } else {
        Ok(None)
    }
}

/// The first line of a text, without its end, and the text behind it, or None where no line is ended.
fn first_line(text: &[u8]) -> Option<(&[u8], &[u8])>
    ensures { IsFirstLine text.now result }
{
    match newline(text) {
        Some(at) => Some((&text[..at], &text[at + 1..])),
        None => None,
    }
}

/// The place of the first newline.
fn newline(text: &[u8]) -> Option<usize>
    ensures { result ≡ position (λ byte. byte == 10) text.now }
{
    text.iter().position(|byte| *byte == b'\n')
}

/// Whether a line is that of a call.
fn is_call(scratch: &mut Vec<u8>, recorded: &Recorded, line: &[u8]) -> Result<bool, OutOfMemory>
    ensures { IfOk result (λ same. same ≡ bytes_eq (call_line recorded.now) line.now) }
{
    scratch.clear();
    write_line(scratch, recorded)?;
    Ok(scratch.as_slice() == line)
}

/// Whether a line is the first of a recording with these capacities.
fn is_head(scratch: &mut Vec<u8>, caps: &Caps, line: &[u8]) -> Result<bool, OutOfMemory>
    ensures { IfOk result (λ same. same ≡ bytes_eq (head_line caps.now) line.now) }
{
    scratch.clear();
    write_head(scratch, caps)?;
    Ok(scratch.as_slice() == line)
}

/// The capacities of a first line.
#[tactic(auto, unfolding(crate::specs::Lines::caps_of))]
fn read_caps(line: &[u8]) -> Option<Caps>
    ensures value { option_map (λ caps. caps.0) result ≡ caps_of line.now }
    ensures proper { IfSome result AreCaps }
{
    let text = line.strip_prefix(b"recording 1")?;
    let mut caps = [0; KINDS];
    read_longs(text, &mut caps)?;
    Some(Caps(caps))
}

/// Reads a number of 64 bits into each place.
fn read_longs(mut text: &[u8], longs: &mut [u64]) -> Option<()>
    ensures { option_map (λ done. longs.new) result ≡ longs_at (length longs.old) text.entry.now }
{
    for at in 0..longs.len() {
        longs[at] = read_long(&mut text)?;
    }
    Some(())
}
