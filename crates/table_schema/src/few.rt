// A few pairs of a name and a value, in a list by rising names.
ghost use Rattle.std.specs.Prelude.{◌≡◌, ◌++◌, ◌<◌, ℕ, List, suc, true, length, slice_index_or, IfOk, OnOk, OnErr, option_map};
ghost use Rattle.std.specs.declared.cmp.Ordering.TheVariants.{Less};
ghost use Rattle.table_schema.specs.Fields.{HasRisingNames, IsPlace, by_bytes, restored, value_of, with_pair};

use crate::held::FEW;
use std::alloc::Global;
use std::mem::replace;
use swss_types::{OutOfMemory, Text};

/// Where a name stands among the pairs, or where a pair with it is to be put.
fn place_of(pairs: &[(Text, Text)], name: &[u8]) -> Result<usize, usize>
    requires { HasRisingNames pairs.now }
    ensures { IsPlace pairs.now name.now result }
{
    pairs.binary_search_by(|pair| pair.0.bytes().cmp(name))
}

/// Whether each name is less than the next, so that the names rise.
pub(crate) fn have_rising_names(pairs: &[(Text, Text)]) -> bool
    ensures { result ≡ true → HasRisingNames pairs.now }
{
    let mut at = pairs.len();
    while at > 0 {
        at -= 1;
        if !is_below_next(pairs, at) {
            return false;
        }
    }
    true
}

/// Whether the name at a place is less than the next, where there is one.
fn is_below_next(pairs: &[(Text, Text)], at: usize) -> bool
    requires { at < length pairs.now }
    ensures { result ≡ true → (d : List ℕ × List ℕ) → suc at < length pairs.now → by_bytes (slice_index_or pairs.now at d).0 (slice_index_or pairs.now (suc at) d).0 ≡ Less }
{
    match pairs.get(at + 1) {
        Some(next) => pairs[at].0 < next.0,
        None => true,
    }
}

/// The value under a name. Of a few pairs most have a name of another length, which takes no comparison of bytes.
pub(crate) fn find_few<'a>(pairs: &'a [(Text, Text)], name: &[u8]) -> Option<&'a Text>
    requires { HasRisingNames pairs.now }
    ensures { option_map (λ value. value.now) result ≡ value_of name.now pairs.now }
{
    if pairs.len() <= FEW {
        return find_in_turn(pairs, name);
    }
    match place_of(pairs, name) {
        Ok(at) => Some(&pairs[at].1),
        Err(_) => None,
    }
}

/// The value under a name, which is looked for from the first pair on.
fn find_in_turn<'a>(pairs: &'a [(Text, Text)], name: &[u8]) -> Option<&'a Text>
    ensures { option_map (λ value. value.now) result ≡ value_of name.now pairs.now }
{
    for pair in pairs {
        if name == pair.0.bytes() {
            return Some(&pair.1);
        }
    }
    None
}

/// Puts a value under a name, and answers the one that it replaced.
pub(crate) fn put_few(
    pairs: &mut Vec<(Text, Text)>,
    name: Text,
    value: Text,
) -> Result<Option<Text>, OutOfMemory>
    requires { HasRisingNames pairs.old.items }
    ensures ok { OnOk result (pairs.new.items ≡ with_pair pairs.old.items name value) }
    ensures was { IfOk result (λ was. was ≡ value_of name pairs.old.items) }
    ensures err { OnErr result (pairs.new.items ≡ pairs.old.items) }
{
    match place_of(pairs.as_slice(), name.bytes()) {
        Ok(at) => Ok(Some(replace(&mut pairs[at].1, value))),
        Err(at) => {
            pairs.insert(at, (name, value))?;
            Ok(None)
        }
    }
}

/// Puts a copy of a value under a copy of a name, and answers the value that it replaced.
pub(crate) fn lay_few(
    pairs: &mut Vec<(Text, Text)>,
    name: &Text,
    value: &Text,
) -> Result<Option<Text>, OutOfMemory>
    requires { HasRisingNames pairs.old.items }
    ensures ok { OnOk result (pairs.new.items ≡ with_pair pairs.old.items name.now value.now) }
    ensures was { IfOk result (λ was. was ≡ value_of name.now pairs.old.items) }
    ensures err { OnErr result (pairs.new.items ≡ pairs.old.items) }
{
    match place_of(pairs.as_slice(), name.bytes()) {
        Ok(at) => Ok(Some(replace(&mut pairs[at].1, value.copy()?))),
        Err(at) => {
            pairs.insert(at, copy_pair(name, value)?)?;
            Ok(None)
        }
    }
}

/// Takes a put under a name back: what stood there stands there again, or nothing.
pub(crate) fn restore_few(pairs: &mut Vec<(Text, Text)>, name: &Text, was: Option<Text>)
    requires { HasRisingNames pairs.old.items }
    ensures { pairs.new.items ≡ restored pairs.old.items name.now was }
{
    match (place_of(pairs.as_slice(), name.bytes()), was) {
        (Ok(at), Some(value)) => pairs[at].1 = value,
        (Ok(at), None) => {
            pairs.remove(at);
        }
        (Err(_), _) => {}
    }
}

/// A name and a value once more.
pub(crate) fn copy_pair(name: &Text, value: &Text) -> Result<(Text, Text), OutOfMemory>
    ensures { IfOk result (λ pair. pair ≡ (name.now, value.now)) }
{
    Ok((name.copy()?, value.copy()?))
}

/// The same pairs once more.
pub(crate) fn copy_few(
    alloc: Global,
    pairs: &[(Text, Text)],
) -> Result<Vec<(Text, Text)>, OutOfMemory>
    ensures { IfOk result (λ copies. copies.items ≡ pairs.now) }
{
    let mut copies = Vec::with_capacity(alloc, pairs.len())?;
    for pair in pairs {
        copies.push(copy_pair(&pair.0, &pair.1)?)?;
    }
    Ok(copies)
}
