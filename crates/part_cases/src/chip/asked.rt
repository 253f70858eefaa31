// A chip, and what it is asked.
use crate::chip::call::{answer, call, list_answer, object};
use crate::chip::way::other_way;
use crate::chips::put_away;
use crate::words::{kind, number, with_room};
use anyhow::{Result, bail};
use sai_chip::{Fail, SimChip};
use sai_types::{Caps, Chip, KINDS, Object, Rid};
use std::alloc::Global;
use std::fmt::Debug;
use std::mem::replace;

/// A chip in the middle of a case.
#[derive(Drop)]
pub struct Asked {
    room: Caps,
    fails: Vec<Fail>,
    chip: SimChip,
    listed: Vec<Object<Rid>>,
    named: usize,
}

impl Asked {
    /// An empty chip with room for 100 objects of each kind.
    pub fn new(alloc: Global) -> Asked {
        let room = Caps([100; KINDS]);
        Asked {
            room,
            fails: Vec::new(alloc),
            chip: SimChip::new(alloc, room, Vec::new(alloc)),
            listed: Vec::new(alloc),
            named: 0,
        }
    }

    /// The chip, of which no more is asked.
    pub fn into_chip(self) -> SimChip {
        self.chip
    }

    /// The chip.
    pub fn chip(&self) -> &SimChip {
        &self.chip
    }

    /// Does what a line says of a chip before its first call, and tells whether it is such a line.
    pub fn prepare(&mut self, alloc: Global, words: &[&str]) -> Result<bool> {
        match words {
            ["room", most] => self.room = Caps([number(most)?; KINDS]),
            ["room", name, most] => self.room = with_room(self.room, name, most)?,
            ["fail", at, when] => self.fails.push(Fail {
                at: number(at)?,
                after: *when == "after",
            })?,
            ["hold", words @ ..] => self.listed.push(object(alloc, words)?)?,
            _ => return Ok(false),
        }
        if self.chip.effects() == 0 {
            let fails = self.fails.clone()?;
            let chip = SimChip::new(alloc, self.room, fails);
            put_away(replace(&mut self.chip, chip));
        }
        Ok(true)
    }

    /// Makes a call. What it answered, where another answer is wanted.
    pub fn call(&mut self, alloc: Global, words: &str, wanted: &str) -> Result<Option<String>> {
        let words = words.split_whitespace().collect::<Vec<&str>>(alloc)?;
        let wanted = wanted.split_whitespace().collect::<Vec<&str>>(alloc)?;
        let wanted = answer(wanted.as_slice())?;
        let found = self.chip.call(&call(alloc, words.as_slice())?);
        unless_equal(alloc, &found, &wanted)
    }

    /// What was found, where a line wants something else.
    pub fn find(&mut self, alloc: Global, words: &[&str]) -> Result<Option<String>> {
        match words {
            ["list", wanted] => self.list(alloc, wanted),
            ["listed", "all"] => self.expect_listed(alloc, None),
            ["listed", words @ ..] => self.expect_listed(alloc, Some(&object(alloc, words)?)),
            ["effect", at] => unless_equal(alloc, &self.has_effect(number(at)?), &true),
            ["goes", words @ ..] => other_way(alloc, &self.chip, words),
            ["no", "effect", at] => unless_equal(alloc, &self.has_effect(number(at)?), &false),
            [what @ .., wanted] => unless_equal(alloc, &self.count(what)?, &number(wanted)?),
            [] => bail!("a line of a case"),
        }
    }

    /// Lists what stands behind what was listed before.
    fn list(&mut self, alloc: Global, wanted: &str) -> Result<Option<String>> {
        let wanted = list_answer(wanted)?;
        let found = self.chip.list(&mut self.listed);
        self.named = 0;
        unless_equal(alloc, &found, &wanted)
    }

    /// The next object of the list, where it is another than this.
    fn expect_listed(
        &mut self,
        alloc: Global,
        wanted: Option<&Object<Rid>>,
    ) -> Result<Option<String>> {
        let found = self.listed.get(self.named);
        self.named = self.named.saturating_add(1);
        unless_equal(alloc, &found, &wanted)
    }

    /// Whether there is an effect of this number.
    fn has_effect(&self, at: u64) -> bool {
        self.chip.effect(at).is_some()
    }

    /// A count of the chip.
    fn count(&self, what: &[&str]) -> Result<u64> {
        match what {
            ["used", name] => Ok(self.chip.used(kind(name)?)),
            ["capacity", name] => Ok(self.chip.capacity(kind(name)?)),
            ["effects"] => Ok(self.chip.effects()),
            ["faults"] => Ok(self.chip.faults()),
            _ => bail!("a line of a case"),
        }
    }
}

/// What was found, where something else is wanted.
fn unless_equal<T: Debug + PartialEq>(
    alloc: Global,
    found: &T,
    wanted: &T,
) -> Result<Option<String>> {
    if found == wanted {
        return Ok(None);
    }
    Ok(Some(format!(in alloc; "{found:?}")?))
}
