// A case, as its lines give it.
use crate::bench::ROOM;
use crate::workers::CaseWorkers;
use anyhow::{Context, Result, bail};
use part_cases::words::{number, with_room};
use sai_types::Caps;
use std::alloc::Global;
use std::mem::{drop, replace};

/// What is written between two settlings, and what is wanted at the second.
#[derive(Drop)]
pub struct CaseRound {
    /// The writes, each as its line.
    pub writes: Vec<String>,
    /// How many keys wait.
    pub waits: u64,
    /// How many objects stand.
    pub objects: u64,
    /// What else is wanted, each as its line.
    pub facts: Vec<String>,
}

/// A plan, writes round by round, and workers by which they are run.
#[derive(Drop)]
pub struct Case {
    round: CaseRound,
    /// How many objects of each kind the chip has room for.
    pub room: Caps,
    /// The lines of the plan.
    pub ports: Vec<String>,
    /// The rounds that ended.
    pub rounds: Vec<CaseRound>,
    /// How often the case is run, and by which workers.
    pub workers: Vec<CaseWorkers>,
}

impl CaseRound {
    /// Nothing is written, and nothing is to wait or to stand.
    fn new(alloc: Global) -> CaseRound {
        CaseRound {
            writes: Vec::new(alloc),
            waits: 0,
            objects: 0,
            facts: Vec::new(alloc),
        }
    }
}

impl Case {
    /// The case of these lines.
    pub fn read(alloc: Global, lines: &[String]) -> Result<Case> {
        let mut case = Case {
            round: CaseRound::new(alloc),
            room: ROOM,
            ports: Vec::new(alloc),
            rounds: Vec::new(alloc),
            workers: Vec::new(alloc),
        };
        for line in lines {
            case.add_line(alloc, line).context(line.as_str())?;
        }
        case.end_round(alloc)?;
        Ok(case)
    }

    /// Adds a line.
    fn add_line(&mut self, alloc: Global, line: &str) -> Result<()> {
        let words = line.split_whitespace().collect::<Vec<&str>>(alloc)?;
        let added = self.add_words(alloc, line, words.as_slice());
        drop(words);
        added
    }

    /// Adds a line of these words.
    fn add_words(&mut self, alloc: Global, line: &str, words: &[&str]) -> Result<()> {
        match words {
            ["room", kind, most] => self.room = with_room(self.room, kind, most)?,
            ["port", name, lanes] => self.ports.push(format!(in alloc; "{name} {lanes}")?)?,
            ["set", _, ..] | ["del", _] => {
                self.round.writes.push(String::from_str(alloc, line)?)?;
            }
            ["waits", count] => self.round.waits = number(count)?,
            ["objects", count] => self.round.objects = number(count)?,
            ["waits" | "goes", _, ..] => self.round.facts.push(String::from_str(alloc, line)?)?,
            ["settle"] => self.end_round(alloc)?,
            ["workers", count, order @ ..] => {
                let workers = CaseWorkers::read(alloc, line, count, order)?;
                self.workers.push(workers)?;
            }
            _ => bail!("no line of a case"),
        }
        Ok(())
    }

    /// Ends the round, and begins the next.
    fn end_round(&mut self, alloc: Global) -> Result<()> {
        self.rounds
            .push(replace(&mut self.round, CaseRound::new(alloc)))?;
        Ok(())
    }
}
