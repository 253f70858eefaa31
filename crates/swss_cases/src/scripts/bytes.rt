// Bytes as the lines of a case give them.
use anyhow::{Context, Result, bail};
use swss_types::write_number;

/// Appends the bytes of a line, where it is a line of bytes, and tells whether it is one.
pub fn add_bytes(out: &mut Vec<u8>, line: &str) -> Result<bool> {
    if let Some(text) = line.strip_prefix('|') {
        out.extend_from_slice(text.as_bytes())?;
        out.push(b'\n')?;
    } else if let Some(text) = line.strip_prefix('+') {
        add_escaped(out, text, 0)?;
    } else if let Some(repeats) = line.strip_prefix('*') {
        add_repeats(out, repeats)?;
    } else {
        return Ok(false);
    }
    Ok(true)
}

/// Appends a text so many times, or once for each number.
fn add_repeats(out: &mut Vec<u8>, repeats: &str) -> Result<()> {
    let (numbers, text) = repeats.split_once(' ').context("a count and a text")?;
    let (first, last) = numbers.split_once("..").unwrap_or(("1", numbers));
    let first = first.parse::<u64>().context("a number")?;
    let last = last.parse::<u64>().context("a number")?;
    for number in first..=last {
        add_escaped(out, text, number)?;
    }
    for number in (last..first.saturating_add(1)).rev() {
        if last < first {
            add_escaped(out, text, number)?;
        }
    }
    Ok(())
}

/// Appends a text with its escapes.
fn add_escaped(out: &mut Vec<u8>, text: &str, number: u64) -> Result<()> {
    let mut parts = text.split('%');
    if let Some(plain) = parts.next() {
        out.extend_from_slice(plain.as_bytes())?;
    }
    for part in parts {
        add_escape(out, part.as_bytes(), number)?;
    }
    Ok(())
}

/// Appends what a text behind a `%` stands for.
fn add_escape(out: &mut Vec<u8>, text: &[u8], number: u64) -> Result<()> {
    match text {
        [b'n', rest @ ..] => {
            write_number(out, number)?;
            out.extend_from_slice(rest)?;
        }
        [high, low, rest @ ..] => {
            out.push(digit(*high)? << 4 | digit(*low)?)?;
            out.extend_from_slice(rest)?;
        }
        _ => bail!("an escape"),
    }
    Ok(())
}

/// The value of a hexadecimal digit.
fn digit(byte: u8) -> Result<u8> {
    match byte {
        b'0'..=b'9' => Ok(byte - b'0'),
        b'a'..=b'f' => Ok(byte - b'a' + 10),
        _ => bail!("a hexadecimal digit"),
    }
}
