// The lists of a script.
ghost use Rattle.std.specs.Prelude.{◌≡◌, [], ◌∷◌, ◌++◌, IfOk, OnOk, OnErr, map};
ghost use Rattle.swss_script.specs.Behind.{opened_with};
ghost use Rattle.swss_script.specs.declared.parts.Act.TheVariants as act;

use crate::copies::copy_each;
use crate::{Act, Round, Section, Show};
use std::alloc::Global;
use std::marker::Model;
use swss_types::{OutOfMemory, Text};
use table_schema::Write;

/// The names of the producers, in order of first appearance.
#[derive(Debug, Drop)]
pub struct Producers {
    names: Vec<Text>,
}

impl Model for Producers {
    ghost use Rattle.std.specs.Prelude.{List, ℕ};

    ghost Value = { List (List ℕ) };

    ghost view = { λ l. l.names.items };
}

impl Producers {
    /// No name.
    pub fn new(alloc: Global) -> Producers
        ensures { result ≡ [] }
    {
        Producers {
            names: Vec::new(alloc),
        }
    }

    /// Puts a name last.
    pub fn push(&mut self, name: Text) -> Result<(), OutOfMemory>
        ensures ok { OnOk result (self.new ≡ self.old ++ name ∷ []) }
        ensures err { OnErr result (self.new ≡ self.old) }
    {
        self.names.push(name)?;
        Ok(())
    }

    /// The names.
    pub fn items(&self) -> &[Text]
        ensures { result.now ≡ self.now }
    {
        self.names.as_slice()
    }

    /// The same names once more.
    pub fn copy(&self) -> Result<Producers, OutOfMemory>
        ensures { IfOk result (λ names. names ≡ self.now) }
    {
        Ok(Producers {
            names: copy_each(&self.names)?,
        })
    }
}

/// Rounds, in order.
#[derive(Debug, Drop)]
pub struct RoundList {
    rounds: Vec<Round>,
}

impl Model for RoundList {
    ghost use Rattle.std.specs.Prelude.{List};
    ghost use Rattle.swss_script.specs.declared.parts.Round.{Round};

    ghost Value = { List Round };

    ghost view = { λ l. l.rounds.items };
}

impl RoundList {
    /// No round.
    pub fn new(alloc: Global) -> RoundList
        ensures { result ≡ [] }
    {
        RoundList {
            rounds: Vec::new(alloc),
        }
    }

    /// Puts a round last.
    pub fn push(&mut self, round: Round) -> Result<(), OutOfMemory>
        ensures ok { OnOk result (self.new ≡ self.old ++ round ∷ []) }
        ensures err { OnErr result (self.new ≡ self.old) }
    {
        self.rounds.push(round)?;
        Ok(())
    }

    /// Puts a section before those of the first round, where there is one.
    pub(crate) fn open_with(&mut self, section: Section) -> Result<(), OutOfMemory>
        ensures { OnOk result (self.new ≡ opened_with section self.old) }
    {
        match self.rounds.first_mut() {
            Some(round) => round.sections.put_first(section),
            None => Ok(()),
        }
    }

    /// The rounds.
    pub fn items(&self) -> &[Round]
        ensures { result.now ≡ self.now }
    {
        self.rounds.as_slice()
    }

    /// Hands the list over.
    pub fn into_vec(self) -> Vec<Round>
        ensures { result.items ≡ self }
    {
        self.rounds
    }

    /// The same rounds once more.
    pub fn copy(&self) -> Result<RoundList, OutOfMemory>
        ensures { IfOk result (λ rounds. rounds ≡ self.now) }
    {
        Ok(RoundList {
            rounds: copy_each(&self.rounds)?,
        })
    }
}

/// The sections of a round, in order.
#[derive(Debug, Drop)]
pub struct Sections {
    sections: Vec<Section>,
}

impl Model for Sections {
    ghost use Rattle.std.specs.Prelude.{List};
    ghost use Rattle.swss_script.specs.declared.parts.Section.{Section};

    ghost Value = { List Section };

    ghost view = { λ l. l.sections.items };
}

impl Sections {
    /// No section.
    pub fn new(alloc: Global) -> Sections
        ensures { result ≡ [] }
    {
        Sections {
            sections: Vec::new(alloc),
        }
    }

    /// Puts a section last.
    pub fn push(&mut self, section: Section) -> Result<(), OutOfMemory>
        ensures ok { OnOk result (self.new ≡ self.old ++ section ∷ []) }
        ensures err { OnErr result (self.new ≡ self.old) }
    {
        self.sections.push(section)?;
        Ok(())
    }

    /// Puts a section before the others.
    pub(crate) fn put_first(&mut self, section: Section) -> Result<(), OutOfMemory>
        ensures { OnOk result (self.new ≡ section ∷ self.old) }
    {
        self.sections.insert(0, section)?;
        Ok(())
    }

    /// The sections.
    pub fn items(&self) -> &[Section]
        ensures { result.now ≡ self.now }
    {
        self.sections.as_slice()
    }

    /// Hands the list over.
    pub fn into_vec(self) -> Vec<Section>
        ensures { result.items ≡ self }
    {
        self.sections
    }

    /// The same sections once more.
    pub fn copy(&self) -> Result<Sections, OutOfMemory>
        ensures { IfOk result (λ sections. sections ≡ self.now) }
    {
        Ok(Sections {
            sections: copy_each(&self.sections)?,
        })
    }
}

/// What is shown behind a round, in order.
#[derive(Debug, Drop)]
pub struct Shows {
    shows: Vec<Show>,
}

impl Model for Shows {
    ghost use Rattle.std.specs.Prelude.{List};
    ghost use Rattle.swss_script.specs.declared.parts.Show.{Show};

    ghost Value = { List Show };

    ghost view = { λ l. l.shows.items };
}

impl Shows {
    /// No show.
    pub fn new(alloc: Global) -> Shows
        ensures { result ≡ [] }
    {
        Shows {
            shows: Vec::new(alloc),
        }
    }

    /// Puts a show last.
    pub fn push(&mut self, show: Show) -> Result<(), OutOfMemory>
        ensures ok { OnOk result (self.new ≡ self.old ++ show ∷ []) }
        ensures err { OnErr result (self.new ≡ self.old) }
    {
        self.shows.push(show)?;
        Ok(())
    }

    /// The shows.
    pub fn items(&self) -> &[Show]
        ensures { result.now ≡ self.now }
    {
        self.shows.as_slice()
    }

    /// The same shows once more.
    pub fn copy(&self) -> Result<Shows, OutOfMemory>
        ensures { IfOk result (λ shows. shows ≡ self.now) }
    {
        Ok(Shows {
            shows: self.shows.clone()?,
        })
    }
}

/// What a producer does in a section, in order.
#[derive(Debug, Drop)]
pub struct Acts {
    acts: Vec<Act>,
}

impl Model for Acts {
    ghost use Rattle.std.specs.Prelude.{List};
    ghost use Rattle.swss_script.specs.declared.parts.Act.{Act};

    ghost Value = { List Act };

    ghost view = { λ l. l.acts.items };
}

impl Acts {
    /// No act.
    pub fn new(alloc: Global) -> Acts
        ensures { result ≡ [] }
    {
        Acts {
            acts: Vec::new(alloc),
        }
    }

    /// Puts an act last.
    pub fn push(&mut self, act: Act) -> Result<(), OutOfMemory>
        ensures ok { OnOk result (self.new ≡ self.old ++ act ∷ []) }
        ensures err { OnErr result (self.new ≡ self.old) }
    {
        self.acts.push(act)?;
        Ok(())
    }

    /// Puts writes last, in their order.
    pub(crate) fn push_writes(&mut self, writes: Writes) -> Result<(), OutOfMemory>
        ensures { OnOk result (self.new ≡ self.old ++ map act.Write writes) }
    {
        for write in writes.writes {
            self.acts.push(Act::Write(write))?;
        }
        Ok(())
    }

    /// Gives back the room that no act takes.
    pub(crate) fn shrink(&mut self)
        ensures { self.new ≡ self.old }
    {
        self.acts.shrink_to_fit();
    }

    /// The acts.
    pub fn items(&self) -> &[Act]
        ensures { result.now ≡ self.now }
    {
        self.acts.as_slice()
    }

    /// Hands the list over.
    pub fn into_vec(self) -> Vec<Act>
        ensures { result.items ≡ self }
    {
        self.acts
    }

    /// The same acts once more.
    pub fn copy(&self) -> Result<Acts, OutOfMemory>
        ensures { IfOk result (λ acts. acts ≡ self.now) }
    {
        Ok(Acts {
            acts: copy_each(&self.acts)?,
        })
    }
}

/// Writes to the tables, in order.
#[derive(Debug, Drop)]
pub struct Writes {
    writes: Vec<Write>,
}

impl Model for Writes {
    ghost use Rattle.std.specs.Prelude.{List};
    ghost use Rattle.table_schema.specs.declared.write.Write.{Write};

    ghost Value = { List Write };

    ghost view = { λ l. l.writes.items };
}

impl Writes {
    /// No write.
    pub fn new(alloc: Global) -> Writes
        ensures { result ≡ [] }
    {
        Writes {
            writes: Vec::new(alloc),
        }
    }

    /// Puts a write last.
    pub fn push(&mut self, write: Write) -> Result<(), OutOfMemory>
        ensures ok { OnOk result (self.new ≡ self.old ++ write ∷ []) }
        ensures err { OnErr result (self.new ≡ self.old) }
    {
        self.writes.push(write)?;
        Ok(())
    }

    /// The writes.
    pub fn items(&self) -> &[Write]
        ensures { result.now ≡ self.now }
    {
        self.writes.as_slice()
    }

    /// The same writes once more.
    pub fn copy(&self) -> Result<Writes, OutOfMemory>
        ensures { IfOk result (λ writes. writes ≡ self.now) }
    {
        Ok(Writes {
            writes: copy_each(&self.writes)?,
        })
    }
}
