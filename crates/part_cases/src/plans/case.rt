// A case as its line gives it.
use anyhow::{Context, Result, bail};
use sai_types::Mode;
use std::alloc::Global;

/// What no view of the service has, but a chip where an earlier service was broken off.
#[derive(Clone, Copy)]
pub struct Odd {
    /// Each group is there twice.
    pub doubles: bool,
    /// There are groups that lack members.
    pub half: bool,
}

impl Odd {
    /// Nothing is odd.
    pub const NONE: Odd = Odd {
        doubles: false,
        half: false,
    };
}

/// What a line of the cases says.
#[derive(Drop)]
pub struct Case {
    /// What is drawn.
    pub seed: u64,
    /// How many things the old view has.
    pub old: usize,
    /// How many things the new view has.
    pub new: usize,
    /// Whether there are virtual routers.
    pub routers: bool,
    /// Whether the new view has each interface in another router.
    pub moved: bool,
    /// Whether next hops have weights.
    pub weights: bool,
    /// What is odd about the old chip.
    pub odd: Odd,
    /// Whether the chip has room for the greater of both views alone.
    pub tight: bool,
    /// How plans with a call are to be, where the line says so.
    pub mode: Option<Mode>,
    /// After how many calls an apply is broken off, one apply after another.
    pub breaks: Vec<u64>,
}

impl Case {
    /// The case of a line.
    pub fn read(alloc: Global, line: &str) -> Result<Case> {
        let mut words = line.split_whitespace();
        let mut case = Case {
            seed: number(words.next())?,
            old: number(words.next())? as usize,
            new: number(words.next())? as usize,
            routers: false,
            moved: false,
            weights: false,
            odd: Odd::NONE,
            tight: false,
            mode: None,
            breaks: Vec::new(alloc),
        };
        while let Some(word) = words.next() {
            match word {
                "routers" => case.routers = true,
                "moved" => case.moved = true,
                "weights" => case.weights = true,
                "doubles" => case.odd.doubles = true,
                "half" => case.odd.half = true,
                "tight" => case.tight = true,
                "hitless" => case.mode = Some(Mode::Hitless),
                "cold" => case.mode = Some(Mode::Cold),
                "break" => case.breaks.push(number(words.next())?)?,
                _ => bail!("no word of a case"),
            }
        }
        Ok(case)
    }
}

/// A number.
fn number(word: Option<&str>) -> Result<u64> {
    let word = word.context("a number is missing")?;
    word.parse::<u64>().context("a number")
}
