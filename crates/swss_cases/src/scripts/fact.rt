// What a case wants to know of a run beside its output.
use anyhow::{Result, bail};
use std::alloc::Global;
use std::str;
use swss_run::{Outcome, Status};

/// A fact about a run.
#[derive(Clone, Copy, Debug, PartialEq, Eq)]
pub enum Fact {
    /// The number and the line of its status.
    Status,
    /// The reason of the refusal.
    Why,
    /// How many writes were taken.
    Taken,
    /// The producer and the number of each write taken.
    Senders,
    /// How many marks there were at the end of each round.
    Ends,
    /// Whether there is a chip.
    Chip,
}

impl Fact {
    /// The fact with this name.
    pub fn named(name: &str) -> Result<Fact> {
        Ok(match name {
            "status" => Fact::Status,
            "why" => Fact::Why,
            "taken" => Fact::Taken,
            "senders" => Fact::Senders,
            "ends" => Fact::Ends,
            "chip" => Fact::Chip,
            _ => bail!("a line of a case"),
        })
    }

    /// What it is at this outcome.
    pub fn at(self, alloc: Global, outcome: &Outcome) -> Result<String> {
        match self {
            Fact::Status => status(alloc, &outcome.status),
            Fact::Why => why(alloc, &outcome.status),
            Fact::Taken => Ok(format!(in alloc; "{}", outcome.log.taken().len())?),
            Fact::Senders => senders(alloc, outcome),
            Fact::Ends => ends(alloc, outcome),
            Fact::Chip => chip(alloc, outcome),
        }
    }
}

fn status(alloc: Global, status: &Status) -> Result<String> {
    let line = status.line(alloc)?;
    let line = str::from_utf8(&line)?;
    let number = status.number();
    if line.is_empty() {
        return Ok(format!(in alloc; "{number}")?);
    }
    Ok(format!(in alloc; "{number} {line}")?)
}

fn why(alloc: Global, status: &Status) -> Result<String> {
    match status {
        Status::ScriptRefused(refused) => {
            let why = refused.why;
            Ok(format!(in alloc; "{why:?}")?)
        }
        _ => Ok(String::new(alloc)),
    }
}

fn senders(alloc: Global, outcome: &Outcome) -> Result<String> {
    let mut text = String::new(alloc);
    for sent in outcome.log.taken() {
        add_word(
            &mut text,
            format!(in alloc; "{}/{}", sent.from, sent.number)?,
        )?;
    }
    Ok(text)
}

fn ends(alloc: Global, outcome: &Outcome) -> Result<String> {
    let mut text = String::new(alloc);
    for end in outcome.log.ends() {
        add_word(&mut text, format!(in alloc; "{end}")?)?;
    }
    Ok(text)
}

fn chip(alloc: Global, outcome: &Outcome) -> Result<String> {
    let told = if outcome.chip.is_some() { "yes" } else { "no" };
    Ok(String::from_str(alloc, told)?)
}

/// Appends a word, and a blank before it unless it is the first.
fn add_word(text: &mut String, word: String) -> Result<()> {
    if !text.is_empty() {
        text.push_str(" ")?;
    }
    text.push_str(word.as_str())?;
    Ok(())
}
