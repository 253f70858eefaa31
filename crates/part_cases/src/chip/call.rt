// Calls, and what the chip answers to them.
use crate::chip::entry::{entry, entry_end};
use crate::chip::object::{body, target};
use crate::words::{id, mac, short, tagging};
use anyhow::{Result, bail};
use sai_types::{Attr, Call, ChipAnswer, ListAnswer, Object, Rid};
use std::alloc::Global;

/// What the chip answers to calls, by their names in the chip's table; the answer with an identifier is not among them.
const ANSWERS: [(&str, ChipAnswer); 8] = [
    ("done", ChipAnswer::Done),
    ("exists", ChipAnswer::Exists),
    ("bad-reference", ChipAnswer::BadReference),
    ("not-found", ChipAnswer::NotFound),
    ("in-use", ChipAnswer::InUse),
    ("full", ChipAnswer::Full),
    ("failed", ChipAnswer::Failed),
    ("no-memory", ChipAnswer::NoMemory),
];

/// The call of these words.
pub fn call(alloc: Global, words: &[&str]) -> Result<Call<Rid>> {
    match words {
        ["create", object @ ..] => Ok(Call::Create(body(alloc, object)?)),
        ["remove", at @ ..] => Ok(Call::Remove(entry(at)?)),
        ["set", change @ ..] => set(change),
        _ => bail!("a call"),
    }
}

/// A change of an attribute.
fn set(words: &[&str]) -> Result<Call<Rid>> {
    let (at, change) = words.split_at(entry_end(words));
    Ok(Call::Set(entry(at)?, attribute(change)?))
}

/// A new value of an attribute.
fn attribute(words: &[&str]) -> Result<Attr<Rid>> {
    match words {
        ["speed", speed] => Ok(Attr::Speed(short(speed)?)),
        ["mtu", mtu] => Ok(Attr::Mtu(short(mtu)?)),
        ["up"] => Ok(Attr::Up(true)),
        ["down"] => Ok(Attr::Up(false)),
        ["tagging", word] => Ok(Attr::Tagging(tagging(word)?)),
        ["mac", address] => Ok(Attr::Mac(mac(address)?)),
        ["to", to @ ..] => Ok(Attr::To(target(to)?)),
        _ => bail!("an attribute"),
    }
}

/// An object with its entry.
pub fn object(alloc: Global, words: &[&str]) -> Result<Object<Rid>> {
    let (at, object) = words.split_at(entry_end(words));
    Ok(Object {
        entry: entry(at)?,
        body: body(alloc, object)?,
    })
}

/// The answer of these words.
pub fn answer(words: &[&str]) -> Result<ChipAnswer> {
    match words {
        ["made", made] => Ok(ChipAnswer::Made(id(made)?)),
        [word] => named_answer(word),
        _ => bail!("an answer"),
    }
}

/// The answer of this name.
fn named_answer(word: &str) -> Result<ChipAnswer> {
    for (name, answer) in ANSWERS {
        if name == word {
            return Ok(answer);
        }
    }
    bail!("an answer")
}

/// What a listing answers.
pub fn list_answer(word: &str) -> Result<ListAnswer> {
    match word {
        "done" => Ok(ListAnswer::Done),
        "failed" => Ok(ListAnswer::Failed),
        "no-memory" => Ok(ListAnswer::NoMemory),
        _ => bail!("an answer"),
    }
}
