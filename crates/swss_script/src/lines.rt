// Lines of a script, as bytes.
ghost use Rattle.std.specs.Prelude.{◌≡◌, ◌==◌, option_map};
ghost use Rattle.std.specs.List.{position};
ghost use Rattle.swss_script.specs.Lines.{IsNextLine, block_of, is_end, is_too_long, line_text, lines_in, text_of};

use crate::words::one_word;
use std::str;

/// The most bytes of a line without its end.
const MOST_LINE_BYTES: usize = 65_536;

/// The first line of a text, with the newline that ends it, and what stands behind it; None where there is no line.
pub fn next_line(text: &[u8]) -> Option<(&[u8], &[u8])>
    ensures { IsNextLine text.now (option_map (λ parts. (parts.0.now, parts.1.now)) result) }
{
    if text.is_empty() {
        return None;
    }
    match newline(text) {
        Some(at) => Some((&text[..at + 1], &text[at + 1..])),
        None => Some((text, &text[text.len()..])),
    }
}

/// The place of the first newline.
fn newline(text: &[u8]) -> Option<usize>
    ensures { result ≡ position (λ byte. byte == 10) text.now }
{
    text.iter().position(|byte| *byte == b'\n')
}

/// A line without its end: the newline, and one carriage return before it.
pub fn line_text(line: &[u8]) -> &[u8]
    ensures { result.now ≡ line_text line.now }
{
    match line.strip_suffix(b"\n") {
        Some(text) => text.strip_suffix(b"\r").unwrap_or(text),
        None => line,
    }
}

/// Whether a line has more bytes than one may have. Lines of JSON may have any number.
pub fn is_too_long(text: &[u8]) -> bool
    ensures { result ≡ is_too_long text.now }
{
    text.len() > MOST_LINE_BYTES && !text.starts_with(b"json ") && !text.starts_with(b"image ")
}

/// The text of bytes, or None where they are not UTF-8.
pub fn as_text(bytes: &[u8]) -> Option<&str>
    ensures { option_map (λ text. text.now) result ≡ text_of bytes.now }
{
    match str::from_utf8(bytes) {
        Ok(text) => Some(text),
        Err(_) => None,
    }
}

/// Whether a line ends a block: it is the one word `end`.
pub fn is_end(bytes: &[u8]) -> bool
    ensures { result ≡ is_end bytes.now }
{
    let Some(text) = as_text(bytes) else {
        return false;
    };
    match one_word(text) {
        Some(word) => word == "end",
        None => false,
    }
}

/// The text of the block that a text begins with: all lines up to one that ends it, or None where none does.
pub fn block(text: &[u8]) -> Option<&[u8]>
    ensures { option_map (λ block. block.now) result ≡ block_of (lines_in text.now) }
{
    let mut at = 0;
    let mut left = text;
    while let Some((line, rest)) = next_line(left) {
        if is_end(line_text(line)) {
            return Some(&text[..at]);
        }
        at += line.len();
        left = rest;
    }
    None
}
