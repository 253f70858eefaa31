// The log of a session.
ghost use Rattle.std.specs.Prelude.{◌≡◌, [], ◌∷◌, ◌++◌, length, IfOk, IfErr, OnOk, OnErr};

use crate::{Mark, PlacedLog};
use std::alloc::Global;
use std::marker::Model;
use swss_types::OutOfMemory;
use table_schema::Sent;

/// For how many writes there is room from the first on. A list that grows from nothing leaves its smaller places behind it;
/// memory that nothing was written to takes no place.
const FIRST_WRITES: usize = 65_536;

/// What happened in a session: the writes taken, in order; the marks, in order; and the ends of the rounds, each the
/// number of marks at it.
#[derive(Debug, Drop)]
pub struct Log {
    pub(crate) taken: Vec<Sent>,
    pub(crate) marks: Vec<Mark>,
    pub(crate) ends: Vec<u64>,
}

impl Model for Log {
    ghost use Rattle.switch_model.specs.History.{History};

    ghost Value = { History };

    ghost view = { λ l. record { taken = l.taken.items; marks = l.marks.items; ends = l.ends.items } };
}

impl Log {
    ghost use Rattle.table_schema.specs.declared.write.Sent.{Sent};
    ghost use Rattle.switch_model.specs.declared.mark.Mark.{Mark};
    ghost use Rattle.switch_model.specs.History.{History, no_history, with_write, with_mark, with_end};

    /// The empty log.
    pub fn new(alloc: Global) -> Log
        ensures { result ≡ no_history }
    {
        Log {
            taken: Vec::new(alloc),
            marks: Vec::new(alloc),
            ends: Vec::new(alloc),
        }
    }

    /// The same log once more, on its allocator. What its writes set and what its marks list is shared.
    pub fn copy(&self) -> Result<Log, OutOfMemory>
        ensures { IfOk result (λ log. log ≡ self.now) }
    {
        Ok(Log {
            taken: copy_writes(&self.taken)?,
            marks: copy_marks(&self.marks)?,
            ends: self.ends.clone()?,
        })
    }

    /// The writes taken, in order.
    pub fn taken(&self) -> &[Sent]
        ensures { result.now ≡ self.now.taken }
    {
        self.taken.as_slice()
    }

    /// The marks, in order.
    pub fn marks(&self) -> &[Mark]
        ensures { result.now ≡ self.now.marks }
    {
        self.marks.as_slice()
    }

    /// For each round that ended the number of marks at its end.
    pub fn ends(&self) -> &[u64]
        ensures { result.now ≡ self.now.ends }
    {
        self.ends.as_slice()
    }

    /// Records that a write was taken.
    pub fn take(&mut self, sent: Sent) -> Result<(), OutOfMemory>
        ensures ok { OnOk result (self.new ≡ with_write self.old sent) }
        ensures err { OnErr result (self.new ≡ self.old) }
    {
        if self.taken.is_empty() {
            self.taken.reserve(FIRST_WRITES)?;
        }
        self.taken.push(sent)?;
        Ok(())
    }

    /// Takes the last write out again, if there is one.
    pub fn take_back(&mut self)
        ensures last { (h : History) (sent : Sent) → self.old ≡ with_write h sent → self.new ≡ h }
        ensures none { self.old.taken ≡ [] → self.new ≡ self.old }
    {
        self.taken.pop();
    }

    /// Records a mark.
    pub fn mark(&mut self, mark: Mark) -> Result<(), OutOfMemory>
        ensures ok { OnOk result (self.new ≡ with_mark self.old mark) }
        ensures err { OnErr result (self.new ≡ self.old) }
    {
        self.marks.push(mark)?;
        Ok(())
    }

    /// Records a mark at which a round ends.
    pub fn mark_end(&mut self, mark: Mark) -> Result<(), OutOfMemory>
        ensures ok { OnOk result (self.new ≡ with_end (with_mark self.old mark)) }
        ensures err { OnErr result (self.new ≡ self.old) }
    {
        self.ends.reserve(1)?;
        self.marks.push(mark)?;
        self.ends.push(self.marks.len() as u64)?;
        Ok(())
    }

    /// The same log with a place for a mark; or the log itself, where memory is refused.
    pub fn with_place(self) -> Result<PlacedLog, Log>
        ensures ok { IfOk result (λ log. log ≡ self) }
        ensures err { IfErr result (λ log. log ≡ self) }
    {
        let Log {
            taken,
            mut marks,
            mut ends,
        } = self;
        if marks.reserve(1).is_err() || ends.reserve(1).is_err() {
            return Err(Log { taken, marks, ends });
        }
        Ok(PlacedLog { taken, marks, ends })
    }
}

/// Copies of these writes, in order.
fn copy_writes(writes: &Vec<Sent>) -> Result<Vec<Sent>, OutOfMemory>
    ensures { IfOk result (λ copies. copies.items ≡ writes.now.items) }
{
    let mut copies = Vec::with_capacity(*writes.allocator(), writes.len())?;
    for sent in writes.as_slice() {
        copies.push(sent.copy()?)?;
    }
    Ok(copies)
}

/// Copies of these marks, in order.
fn copy_marks(marks: &Vec<Mark>) -> Result<Vec<Mark>, OutOfMemory>
    ensures { IfOk result (λ copies. copies.items ≡ marks.now.items) }
{
    let mut copies = Vec::with_capacity(*marks.allocator(), marks.len())?;
    for mark in marks.as_slice() {
        copies.push(mark.copy()?)?;
    }
    Ok(copies)
}
