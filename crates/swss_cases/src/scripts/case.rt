// A case: a script, and what it is to come to.
use crate::scripts::bytes::add_bytes;
use crate::scripts::fact::Fact;
use anyhow::{Context, Result};
use part_cases::parted::Part;
use std::alloc::Global;

/// How a source or a sink fails.
#[derive(Clone, Copy)]
pub struct Failure {
    /// How many bytes it gives or takes at once.
    pub piece: usize,
    /// The call at which it fails, from 1.
    pub call: u64,
}

impl Failure {
    /// What a line says of it.
    fn read(text: &str) -> Result<Failure> {
        let (piece, call) = text.split_once(' ').context("a size and a call")?;
        Ok(Failure {
            piece: piece.parse::<usize>().context("a size")?,
            call: call.parse::<u64>().context("a call")?,
        })
    }
}

/// A script with the words of its run, and what is wanted.
#[derive(Drop)]
pub struct Case {
    /// By what a failure is told.
    pub name: String,
    /// The words behind the program's name.
    pub words: Vec<String>,
    /// The script's bytes.
    pub script: Vec<u8>,
    /// The facts that are wanted.
    pub facts: Vec<(Fact, String)>,
    /// The output that is wanted.
    pub output: Vec<u8>,
    /// Whether it is run from one source alone.
    pub once: bool,
    /// Where its source fails, if it does.
    pub source: Option<Failure>,
    /// Where its sink fails, if it does.
    pub sink: Option<Failure>,
    has_words: bool,
    has_output: bool,
}

impl Case {
    /// A case of the command `run` over the empty script, which wants nothing yet.
    fn new(alloc: Global, name: &str) -> Result<Case> {
        let mut words = Vec::new(alloc);
        words.push(String::from_str(alloc, "run")?)?;
        Ok(Case {
            name: String::from_str(alloc, name)?,
            words,
            script: Vec::new(alloc),
            facts: Vec::new(alloc),
            output: Vec::new(alloc),
            once: false,
            source: None,
            sink: None,
            has_words: false,
            has_output: false,
        })
    }

    /// The case of these lines.
    pub fn read(alloc: Global, part: &Part) -> Result<Case> {
        let mut case = Case::new(alloc, part.name)?;
        for line in part.lines {
            case.add_line(alloc, line).context(line.as_str())?;
        }
        Ok(case)
    }

    /// Adds what a line says.
    fn add_line(&mut self, alloc: Global, line: &str) -> Result<()> {
        let bytes = if self.has_output {
            &mut self.output
        } else {
            &mut self.script
        };
        if add_bytes(bytes, line)? {
            return Ok(());
        }
        let (name, text) = line.split_once(' ').unwrap_or((line, ""));
        match name {
            "word" => self.add_word(alloc, text),
            "no" if text == "words" => {
                self.words.clear();
                Ok(())
            }
            "once" => {
                self.once = true;
                Ok(())
            }
            "source-fails" => {
                self.source = Some(Failure::read(text)?);
                Ok(())
            }
            "sink-fails" => {
                self.sink = Some(Failure::read(text)?);
                Ok(())
            }
            "output" => {
                self.has_output = true;
                Ok(())
            }
            _ => {
                let fact = (Fact::named(name)?, String::from_str(alloc, text)?);
                self.facts.push(fact)?;
                Ok(())
            }
        }
    }

    /// Adds a word behind the program's name. The first takes the place of `run`.
    fn add_word(&mut self, alloc: Global, word: &str) -> Result<()> {
        if !self.has_words {
            self.has_words = true;
            self.words.clear();
        }
        self.words.push(String::from_str(alloc, word)?)?;
        Ok(())
    }

    /// Whether a status is wanted.
    pub fn has_status(&self) -> bool {
        self.facts.iter().any(|(fact, _)| *fact == Fact::Status)
    }
}
