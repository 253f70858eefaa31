// Lines parted where a part has a head.
use anyhow::{Result, bail};
use std::alloc::Global;

/// A part of lines.
#[derive(Clone, Copy)]
pub struct Part<'a> {
    /// What its head says behind the word that makes it one.
    pub name: &'a str,
    /// The lines behind its head.
    pub lines: &'a [String],
}

/// Parts lines, where a line that begins so is the head of a part. Each line stands behind a head.
pub fn parts<'a>(alloc: Global, head: &str, lines: &'a [String]) -> Result<Vec<Part<'a>>> {
    let mut parted = lines.split(|line| line.starts_with(head));
    if let Some([line, ..]) = parted.next() {
        bail!("before the first line {head:?}: {line}");
    }
    let names = lines.iter().filter_map(|line| line.strip_prefix(head));
    let mut parts = Vec::new(alloc);
    for (name, lines) in names.zip(parted) {
        parts.push(Part { name, lines })?;
    }
    Ok(parts)
}
