// Entries.
ghost use Rattle.std.specs.Prelude.{◌≤◌, length};

use crate::words::{id, ip, prefix};
use anyhow::{Result, bail};
use sai_types::{Entry, Rid};

/// How many of the words are those of the entry at their front.
pub fn entry_end(words: &[&str]) -> usize
    ensures { result ≤ length words.now }
{
    let end = match words {
        ["neighbor", ..] => 3,
        ["own" | "route", _, "in", ..] => 4,
        _ => 2,
    };
    words.len().min(end)
}

/// The entry of these words.
pub fn entry(words: &[&str]) -> Result<Entry<Rid>> {
    match words {
        ["id", number] => Ok(Entry::Oid(id(number)?)),
        ["own", address] => Ok(Entry::Own(None, ip(address)?)),
        ["own", address, "in", router] => Ok(Entry::Own(Some(id(router)?), ip(address)?)),
        ["neighbor", rif, address] => Ok(Entry::Neigh(id(rif)?, ip(address)?)),
        ["route", covers] => Ok(Entry::Route(None, prefix(covers)?)),
        ["route", covers, "in", router] => Ok(Entry::Route(Some(id(router)?), prefix(covers)?)),
        _ => bail!("an entry"),
    }
}
