// The words of the program.
use anyhow::Result;
use std::alloc::Global;

/// The names of what can be timed.
pub const NAMES: &str =
    "chip, rounds, writes, waiting, fields, alone, together, names, keys, reasons, churn, full, routes, slow, plan";

/// A name and the numbers behind it.
#[derive(Drop)]
pub struct Group {
    /// The name, which is not looked at yet.
    pub name: String,
    /// The numbers.
    pub numbers: Vec<u32>,
}

/// The groups of the words: each word that is no number begins one.
pub fn groups_of(alloc: Global, words: Vec<String>) -> Result<Vec<Group>> {
    let mut groups = Vec::<Group>::new(alloc);
    for word in words {
        match (word.parse::<u32>(), groups.last_mut()) {
            (Ok(number), Some(group)) => group.numbers.push(number)?,
            _ => groups.push(Group {
                name: word,
                numbers: Vec::new(alloc),
            })?,
        }
    }
    Ok(groups)
}
