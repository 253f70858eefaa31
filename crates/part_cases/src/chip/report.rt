// What is reported of a chip and of rows, round by round.
use crate::words::{fields, ip, key, number, wait};
use anyhow::{Context, Result, bail};
use row_store::Rows;
use sai_chip::{Replay, SimChip};
use sai_types::Mode;
use std::alloc::Global;
use std::mem;
use switch_model::{Mark, MarkEvent, Wait, Waits};
use swss_report::{RoundEnd, round_lines};
use swss_script::Show;
use swss_types::Vrf;
use table_schema::{Key, PortPlan, Row, Write};

/// A key that waits, why, and its applied row.
type Waiting = (Key, Wait, Option<Row>);

/// The plan and the rows of a switch, its marks of the round and what the next of a settling has, and how far it was
/// reported.
#[derive(Drop)]
pub struct Reporter {
    plan: PortPlan,
    taken: u64,
    rows: Rows,
    marks: Vec<Mark>,
    waits: Vec<Waiting>,
    turns: u64,
    replay: Replay,
    rounds: u64,
    lines: Vec<u8>,
}

impl Reporter {
    /// Nothing was reported of a switch without ports and rows.
    pub fn new(alloc: Global) -> Result<Reporter> {
        Ok(Reporter {
            plan: PortPlan::new(alloc)?,
            taken: 0,
            rows: Rows::new(alloc),
            marks: Vec::new(alloc),
            waits: Vec::new(alloc),
            turns: 0,
            replay: Replay::new(alloc),
            rounds: 0,
            lines: Vec::new(alloc),
        })
    }

    /// All that was reported.
    pub fn lines(&self) -> &[u8] {
        self.lines.as_slice()
    }

    /// Does what a line says, and tells whether it is one of these.
    pub fn add_line(&mut self, alloc: Global, words: &[&str], chip: &SimChip) -> Result<bool> {
        let done = match words {
            ["port", name, lanes] => self.put_port(alloc, name, lanes),
            ["row", name, set @ ..] => self.write(alloc, name, set),
            ["waits", name, why @ ..] => self.put_wait(alloc, name, why),
            ["turns", turns] => self.set_turns(turns),
            ["settled", keys @ ..] => self.settle(alloc, keys),
            ["restarted"] => self.mark(MarkEvent::Restarted),
            ["applying", how, keys @ ..] => self.apply(alloc, how, keys),
            ["applied"] => self.mark(MarkEvent::ApplyEnded),
            ["faulted", after] => self.put_fault(after),
            ["show", shows @ ..] => self.show(alloc, shows, chip),
            _ => return Ok(false),
        };
        done?;
        Ok(true)
    }

    /// Puts a port into the plan.
    fn put_port(&mut self, alloc: Global, name: &str, lanes: &str) -> Result<()> {
        let line = format!(in alloc; "{name} {lanes}")?;
        if self.plan.put(line.as_bytes())?.is_err() {
            bail!("a port");
        }
        Ok(())
    }

    /// Sets fields of a row, or deletes it where there are none.
    fn write(&mut self, alloc: Global, name: &str, set: &[&str]) -> Result<()> {
        self.rows.apply(&write_of(alloc, name, set)?)?;
        self.taken = self.taken.saturating_add(1);
        Ok(())
    }

    /// Lets a key wait at the next settling or apply.
    fn put_wait(&mut self, alloc: Global, name: &str, why: &[&str]) -> Result<()> {
        let wait = wait(alloc, why)?;
        self.waits.push((key(alloc, name)?, wait, None))?;
        Ok(())
    }

    /// Lets the next settling make so many turns.
    fn set_turns(&mut self, turns: &str) -> Result<()> {
        self.turns = number(turns)?;
        Ok(())
    }

    /// Puts the mark of the chip's fault of this number.
    fn put_fault(&mut self, after: &str) -> Result<()> {
        let after = number(after)?;
        self.mark(MarkEvent::Faulted { before: 0, after })
    }

    /// Puts the mark of a settling, at which these keys wait too.
    fn settle(&mut self, alloc: Global, keys: &[&str]) -> Result<()> {
        let waits = self.take_waits(alloc, keys)?;
        let turns = mem::replace(&mut self.turns, 0);
        self.mark(MarkEvent::Settled { waits, turns })
    }

    /// Puts the mark of the begin of an apply, at which these keys wait too.
    fn apply(&mut self, alloc: Global, how: &str, keys: &[&str]) -> Result<()> {
        let mode = mode(how)?;
        let waits = self.take_waits(alloc, keys)?;
        self.mark(MarkEvent::ApplyBegan { mode, waits })
    }

    /// The keys that are to wait at the next mark, and these.
    fn take_waits(&mut self, alloc: Global, keys: &[&str]) -> Result<Waits> {
        for name in keys {
            self.waits.push((key(alloc, name)?, Wait::Busy(1), None))?;
        }
        Ok(Waits::from_vec(mem::replace(&mut self.waits, Vec::new(alloc)))?)
    }

    /// Puts a mark of the round. What it counts does not show.
    fn mark(&mut self, event: MarkEvent) -> Result<()> {
        self.marks.push(Mark {
            taken: 7,
            effects: 8,
            event,
        })?;
        Ok(())
    }

    /// Ends the round, and reports it.
    fn show(&mut self, alloc: Global, words: &[&str], chip: &SimChip) -> Result<()> {
        let shows = shows(alloc, words)?;
        self.rounds = self.rounds.saturating_add(1);
        let end = RoundEnd {
            plan: &self.plan,
            number: self.rounds,
            marks: self.marks.as_slice(),
            taken: self.taken,
            rows: &self.rows,
            chip,
            shows: shows.as_slice(),
        };
        let lines = round_lines(alloc, &end, &mut self.replay)?;
        self.marks = Vec::new(alloc);
        self.lines.extend_from_slice(lines.as_slice())?;
        Ok(())
    }
}

/// The write that sets fields of a row, or deletes it where there are none.
fn write_of(alloc: Global, name: &str, set: &[&str]) -> Result<Write> {
    if set.is_empty() {
        return Ok(Write::Del(key(alloc, name)?));
    }
    let fields = fields(alloc, set)?;
    Ok(Write::Set(key(alloc, name)?, fields))
}

/// How a view is applied.
fn mode(word: &str) -> Result<Mode> {
    Ok(match word {
        "hitless" => Mode::Hitless,
        "cold" => Mode::Cold,
        _ => bail!("a mode"),
    })
}

/// What is shown.
fn shows(alloc: Global, words: &[&str]) -> Result<Vec<Show>> {
    let mut shows = Vec::new(alloc);
    let mut words = words.iter();
    while let Some(word) = words.next() {
        shows.push(match *word {
            "chip" => Show::Chip,
            "tables" => Show::Tables,
            "ignored" => Show::Ignored,
            "waiting" => Show::Waiting,
            "warm" => Show::Warm,
            "ready" => Show::Ready,
            "calls" => Show::Calls,
            "counts" => Show::Counts,
            "forward" => Show::Forward(Vrf::Default, ip(words.next().context("an address")?)?),
            _ => bail!("a show"),
        })?;
    }
    Ok(shows)
}
