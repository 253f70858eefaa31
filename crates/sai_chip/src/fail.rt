// Calls at which a simulated chip fails.
ghost use Rattle.std.specs.Prelude.{◌≡◌, IfOk};
ghost use Rattle.sai_chip.specs.Failing.{IsFailIndex, fail_at};

use sai_types::Fail;
use std::alloc::Global;
use std::collections::BTreeMap;
use std::marker::Model;
use swss_types::OutOfMemory;

/// The failing calls of a chip. They are put in order when the first is looked for.
#[derive(Drop)]
pub struct Failing {
    alloc: Global,
    fails: Vec<Fail>,
    by_number: BTreeMap<u64, bool>,
    in_order: bool,
}

impl Model for Failing {
    ghost use Rattle.std.specs.Prelude.{List};
    ghost use Rattle.sai_types.specs.declared.fail.Fail.{Fail};

    ghost Value = { List Fail };

    ghost use Rattle.std.specs.Prelude.{◌≡◌, true};
    ghost use Rattle.sai_chip.specs.Failing.{IsFailIndex};

    ghost view = { λ f. f.fails.items };

    ghost invariant = { λ f. f.in_order ≡ true → IsFailIndex f.fails.items f.by_number };
}

impl Failing {
    /// The chip fails at the calls with these numbers.
    pub fn new(alloc: Global, fails: Vec<Fail>) -> Failing
        ensures { result ≡ fails.items }
    {
        Failing {
            alloc,
            fails,
            by_number: BTreeMap::new(alloc),
            in_order: false,
        }
    }

    /// The first entry for a number: whether the call takes effect. None where the call does not fail.
    pub fn at(&mut self, number: u64) -> Result<Option<bool>, OutOfMemory>
        ensures found { IfOk result (λ fault. fault ≡ fail_at self.old number) }
        ensures kept { self.new ≡ self.old }
    {
        if !self.in_order {
            self.by_number = index(self.alloc, &self.fails)?;
            self.in_order = true;
        }
        Ok(self.by_number.get(&number).copied())
    }
}

/// The entries by their numbers; of several with one number, the first.
fn index(alloc: Global, fails: &[Fail]) -> Result<BTreeMap<u64, bool>, OutOfMemory>
    ensures { IfOk result (IsFailIndex fails.now) }
{
    let mut by_number = BTreeMap::new(alloc);
    let mut left = fails.len();
    while 0 < left {
        left -= 1;
        let fail = fails[left];
        by_number.insert(fail.at, fail.after)?;
    }
    Ok(by_number)
}
