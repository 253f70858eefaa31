// A log with a place for a mark.
ghost use Rattle.std.specs.Prelude.{◌≡◌};

use crate::{Log, Mark};
use std::marker::Model;
use table_schema::Sent;

/// A log with memory for one mark more, and for the end of a round at it.
#[derive(Debug, Drop)]
pub struct PlacedLog {
    pub(crate) taken: Vec<Sent>,
    pub(crate) marks: Vec<Mark>,
    pub(crate) ends: Vec<u64>,
}

impl Model for PlacedLog {
    ghost use Rattle.std.specs.Prelude.{◌<◌, vec_capacity, vec_len};
    ghost use Rattle.switch_model.specs.History.{History};

    ghost Value = { History };

    ghost view = { λ l. record { taken = l.taken.items; marks = l.marks.items; ends = l.ends.items } };

    ghost invariant = { λ l. (vec_len l.marks < vec_capacity l.marks) × (vec_len l.ends < vec_capacity l.ends) };
}

impl PlacedLog {
    ghost use Rattle.table_schema.specs.declared.write.Sent.{Sent};
    ghost use Rattle.switch_model.specs.declared.mark.Mark.{Mark};
    ghost use Rattle.switch_model.specs.History.{with_mark, with_end};

    /// The writes taken, in order.
    pub fn taken(&self) -> &[Sent]
        ensures { result.now ≡ self.now.taken }
    {
        self.taken.as_slice()
    }

    /// Enters a mark in its place.
    pub fn mark(self, mark: Mark) -> Log
        ensures { result ≡ with_mark self mark }
    {
        let PlacedLog {
            taken,
            mut marks,
            ends,
        } = self;
        marks.push_reserved(mark);
        Log { taken, marks, ends }
    }

    /// Enters a mark in its place, at which a round ends.
    pub fn mark_end(self, mark: Mark) -> Log
        ensures { result ≡ with_end (with_mark self mark) }
    {
        let PlacedLog {
            taken,
            mut marks,
            mut ends,
        } = self;
        marks.push_reserved(mark);
        ends.push_reserved(marks.len() as u64);
        Log { taken, marks, ends }
    }

    /// The same log, where no mark is entered.
    pub fn give_up(self) -> Log
        ensures { result ≡ self }
    {
        let PlacedLog { taken, marks, ends } = self;
        Log { taken, marks, ends }
    }
}
