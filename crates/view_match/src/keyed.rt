// The natural keys of old objects, and those of new ones as they are asked for: both the pairing and the plan need them.
ghost use Rattle.std.specs.Prelude.{◌≡◌, List, IfOk};
ghost use Rattle.sai_types.specs.declared.body.Object.{Object};
ghost use Rattle.sai_types.specs.declared.ids.Vid.{Vid};
ghost use Rattle.view_match.specs.Keyed.{AreNaturalKeysOf, AreNewNames};
ghost use Rattle.view_match.specs.Pairs.{new_key};

use crate::key::{NaturalKey, names_of_others, natural_keys, new_key_of};
use chip_names::Names;
use sai_types::{Object, Rid, Vid};
use std::alloc::Global;
use swss_types::OutOfMemory;

/// The natural keys of old objects, and the names by which those of new objects are made, one at a time.
#[derive(Drop)]
pub struct NaturalKeys {
    /// That of each old object, in their order.
    pub of_old: Vec<Option<NaturalKey>>,
    /// The names of the new objects that are no routes.
    pub new_names: Names,
}

impl NaturalKeys {
    /// The natural key of a new object: None where a reference is absent.
    pub fn of_new(&self, object: &Object<Vid>) -> Result<Option<NaturalKey>, OutOfMemory>
        ensures { IfOk result (λ key. (new : List (Object Vid)) → AreNewNames new self.now.new_names → key ≡ new_key new object.now) }
    {
        let key = new_key_of(&self.new_names, object)?;
        Ok(key)
    }
}

/// The natural keys of these old objects, and what those of these new ones are made by.
pub fn natural_keys_of(
    alloc: Global,
    old: &[Object<Rid>],
    new: &[Object<Vid>],
) -> Result<NaturalKeys, OutOfMemory>
    ensures { IfOk result (λ keys. AreNaturalKeysOf old.now new.now keys) }
{
    let of_old = natural_keys(alloc, old)?;
    let new_names = names_of_others(alloc, new)?;
    Ok(NaturalKeys { of_old, new_names })
}
