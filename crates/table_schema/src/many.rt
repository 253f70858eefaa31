// Many pairs of a name and a value, in a map.
ghost use Rattle.std.specs.Prelude.{◌≡◌, IfOk, option_map};
ghost use Rattle.table_schema.specs.Fields.{HasRisingNames, restored, value_of};

use crate::Items;
use crate::few::copy_pair;
use std::alloc::Global;
use std::collections::BTreeMap;
use swss_types::{OutOfMemory, Text};

/// The value under a name. The map compares texts: without the memory for one the pairs are gone over.
// Most rows have few pairs, so what searches a map stands apart from what searches a list.
#[inline(never)]
pub(crate) fn find_many<'a>(
    alloc: Global,
    pairs: &'a BTreeMap<Text, Text>,
    name: &[u8],
) -> Option<&'a Text>
    ensures { option_map (λ value. value.now) result ≡ value_of name.now pairs.now.entries }
{
    match Text::new(alloc, name) {
        Ok(Some(name)) => pairs.get(&name),
        _ => find_by_going_over(pairs, name),
    }
}

/// The value under a name.
fn find_by_going_over<'a>(pairs: &'a BTreeMap<Text, Text>, name: &[u8]) -> Option<&'a Text>
    ensures { option_map (λ value. value.now) result ≡ value_of name.now pairs.now.entries }
{
    for (other, value) in pairs.iter() {
        if name.cmp(other.bytes()).is_eq() {
            return Some(value);
        }
    }
    None
}

/// Takes a put under a name back: what stood there stands there again, or nothing.
pub(crate) fn restore_many(pairs: &mut BTreeMap<Text, Text>, name: &Text, was: Option<Text>)
    ensures { pairs.new.entries ≡ restored pairs.old.entries name.now was }
{
    let Some(value) = was else {
        pairs.remove(name);
        return;
    };
    if let Some(there) = pairs.get_mut(name) {
        *there = value;
    }
}

/// A map of copies of pairs whose names rise. One after the other is put, so that nothing else takes room beside the map.
pub(crate) fn map_of(alloc: Global, pairs: Items<'_>) -> Result<BTreeMap<Text, Text>, OutOfMemory>
    requires { HasRisingNames pairs }
    ensures { IfOk result (λ map. map.entries ≡ pairs.entry) }
{
    let mut map = BTreeMap::new(alloc);
    for (name, value) in pairs {
        let (name, value) = copy_pair(name, value)?;
        map.insert(name, value)?;
    }
    Ok(map)
}
