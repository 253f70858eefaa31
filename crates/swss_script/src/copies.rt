// What the lists of a script hold, once more.
ghost use Rattle.std.specs.Prelude.{◌≡◌, IfOk};

use crate::{Act, Round, Section};
use swss_types::{OutOfMemory, Text};
use table_schema::Write;

/// What a list holds.
pub trait Element: Drop {
    /// The same once more.
    fn copied(&self) -> Result<Self, OutOfMemory>
        ensures { IfOk result (λ element. element ≡ self.now) };
}

/// The same elements once more, in their order.
pub fn copy_each<T: Element>(elements: &Vec<T>) -> Result<Vec<T>, OutOfMemory>
    ensures { IfOk result (λ copies. copies.items ≡ elements.now.items) }
{
    let mut copies = Vec::with_capacity(*elements.allocator(), elements.len())?;
    for element in elements.as_slice() {
        copies.push(element.copied()?)?;
    }
    Ok(copies)
}

impl Element for Text {
    fn copied(&self) -> Result<Text, OutOfMemory> {
        self.copy()
    }
}

impl Element for Write {
    fn copied(&self) -> Result<Write, OutOfMemory> {
        self.copy()
    }
}

impl Element for Act {
    fn copied(&self) -> Result<Act, OutOfMemory> {
        match self {
            Act::Write(write) => Ok(Act::Write(write.copy()?)),
            Act::Restart => Ok(Act::Restart),
        }
    }
}

impl Element for Section {
    fn copied(&self) -> Result<Section, OutOfMemory> {
        Ok(Section {
            producer: self.producer,
            acts: self.acts.copy()?,
        })
    }
}

impl Element for Round {
    fn copied(&self) -> Result<Round, OutOfMemory> {
        // Nothing is asked for behind the sections, so that they are never made for nothing.
        let shows = self.shows.copy()?;
        Ok(Round {
            sections: self.sections.copy()?,
            shows,
        })
    }
}
