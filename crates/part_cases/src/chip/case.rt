// A case: a chip, what it is asked, and what is reported of it.
use crate::chip::asked::Asked;
use crate::chip::report::Reporter;
use crate::chips::put_away;
use anyhow::Result;
use std::alloc::Global;

/// A case, as far as its lines were read. It ends by `end`.
#[derive(Drop)]
pub struct Case {
    asked: Asked,
    reporter: Reporter,
    wanted: Vec<u8>,
}

impl Case {
    /// A case with an empty chip.
    pub fn new(alloc: Global) -> Result<Case> {
        let reporter = Reporter::new(alloc)?;
        Ok(Case {
            asked: Asked::new(alloc),
            reporter,
            wanted: Vec::new(alloc),
        })
    }

    /// Ends the case.
    pub fn end(self) {
        let Case {
            asked,
            reporter,
            ..
        } = self;
        put_away(asked.into_chip());
        drop(reporter);
    }

    /// Does what a line says. Where it wants something else than was found, this is what was found.
    pub fn add_line(&mut self, alloc: Global, line: &str) -> Result<Option<String>> {
        if let Some(text) = line.strip_prefix('|') {
            self.wanted.extend_from_slice(text.as_bytes())?;
            self.wanted.push(b'\n')?;
            return Ok(None);
        }
        if let Some((call, wanted)) = line.split_once(" => ") {
            return self.asked.call(alloc, call, wanted);
        }
        let words = line.split_whitespace().collect::<Vec<&str>>(alloc)?;
        self.find(alloc, words.as_slice())
    }

    fn find(&mut self, alloc: Global, words: &[&str]) -> Result<Option<String>> {
        let chip = self.asked.chip();
        if self.reporter.add_line(alloc, words, chip)? || self.asked.prepare(alloc, words)? {
            return Ok(None);
        }
        self.asked.find(alloc, words)
    }

    /// The first line of the report that is another than is wanted, and the one that is wanted.
    pub fn other_line(&self) -> Option<(&[u8], &[u8])> {
        let mut wanted = self.wanted.split(|byte| *byte == b'\n');
        for line in self.reporter.lines().split(|byte| *byte == b'\n') {
            let other = wanted.next().unwrap_or(b"");
            if line != other {
                return Some((line, other));
            }
        }
        match wanted.next() {
            Some(other) => Some((b"", other)),
            None => None,
        }
    }
}
