// How an apply begins.
ghost use Rattle.std.specs.Prelude.{◌≡◌, ◌∷◌, true, IfOk};
ghost use Rattle.sai_types.specs.ChipState.{asked};
ghost use Rattle.sai_types.specs.Named.{those};
ghost use Rattle.chip_layout.specs.Counted.{AreDistinct};
ghost use Rattle.view_match.specs.Pairs.{new_keys};
ghost use Rattle.part_cases.specs.Tested.{AreLinked};

use anyhow::{Result, bail, ensure};
use sai_chip::SimChip;
use sai_types::{Mode, Object, Vid};
use std::alloc::Global;
use syncd_core::{Listed, Syncd};
use view_match::{NaturalKey, as_listed, natural_keys};

/// Takes a list of the chip, and plans the way to the temporary view, whose objects are listed too.
pub fn start(
    alloc: Global,
    syncd: &mut Syncd,
    chip: &mut SimChip,
    second: &SimChip,
    objects: &[Object<Vid>],
) -> Result<Mode>
    requires { AreLinked syncd.old objects.now second.now }
    ensures { IfOk result (λ mode. chip.new ≡ asked chip.old) }
{
    find_distinct(alloc, objects)?;
    match syncd.take_list(chip)? {
        Listed::Done => Ok(syncd.begin_apply()?),
        Listed::Failed => bail!("the list failed"),
    }
}

/// Fails where two of the objects have one natural key.
fn find_distinct(alloc: Global, objects: &[Object<Vid>]) -> Result<()>
    ensures { IfOk result (λ done. AreDistinct (those (new_keys objects.now))) }
{
    let listed = as_listed(alloc, objects)?;
    let keys = natural_keys(alloc, listed.as_slice())?;
    ensure!(are_distinct(keys.as_slice()), "two new things of one key");
    Ok(())
}

/// Whether no two of the keys that are there are equal.
fn are_distinct(keys: &[Option<NaturalKey>]) -> bool
    ensures { result ≡ true → AreDistinct (those keys.now) }
{
    let mut left = keys.len();
    while 0 < left {
        left -= 1;
        if !is_apart(&keys[left], &keys[left + 1..]) {
            return false;
        }
    }
    true
}

/// Whether a key, where it is there, is none of the others.
fn is_apart(key: &Option<NaturalKey>, others: &[Option<NaturalKey>]) -> bool
    ensures { result ≡ true → AreDistinct (those others.now) → AreDistinct (those (key.now ∷ others.now)) }
{
    key.is_none() || !others.contains(key)
}
