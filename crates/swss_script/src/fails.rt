// The chip calls that fail.
ghost use Rattle.std.specs.Prelude.{◌≡◌, [], ◌∷◌, ◌++◌, ◌==◌, IfOk, OnOk, OnErr};
ghost use Rattle.std.specs.List.{list_any};

use crate::Fail2;
use std::alloc::Global;
use std::collections::BTreeSet;
use std::marker::Model;
use swss_types::OutOfMemory;

/// The chip calls that fail, in the order of their lines.
#[derive(Debug, Drop)]
pub struct Fails {
    fails: Vec<Fail2>,
    // the numbers of these calls
    numbers: BTreeSet<u64>,
}

impl Model for Fails {
    ghost use Rattle.std.specs.Prelude.{List};
    ghost use Rattle.swss_script.specs.Fails.{AreNumbers};
    ghost use Rattle.swss_script.specs.declared.parts.Fail2.{Fail2};

    ghost Value = { List Fail2 };

    ghost view = { λ f. f.fails.items };

    ghost invariant = { λ f. AreNumbers f.fails.items f.numbers.keys };
}

impl Fails {
    /// No call.
    pub fn new(alloc: Global) -> Fails
        ensures { result ≡ [] }
    {
        Fails {
            fails: Vec::new(alloc),
            numbers: BTreeSet::new(alloc),
        }
    }

    /// Puts a call last.
    pub fn push(&mut self, fail: Fail2) -> Result<(), OutOfMemory>
        ensures ok { OnOk result (self.new ≡ self.old ++ fail ∷ []) }
        ensures err { OnErr result (self.new ≡ self.old) }
    {
        self.fails.reserve(1)?;
        self.numbers.insert(fail.at)?;
        self.fails.push(fail)?;
        Ok(())
    }

    /// Whether the call with this number fails.
    pub fn has(&self, at: u64) -> bool
        ensures { result ≡ list_any (λ fail. fail.at == at) self.now }
    {
        self.numbers.contains(&at)
    }

    /// The calls.
    pub fn items(&self) -> &[Fail2]
        ensures { result.now ≡ self.now }
    {
        self.fails.as_slice()
    }

    /// The same calls once more.
    pub fn copy(&self) -> Result<Fails, OutOfMemory>
        ensures { IfOk result (λ fails. fails ≡ self.now) }
    {
        Ok(Fails {
            fails: self.fails.clone()?,
            numbers: self.numbers.clone()?,
        })
    }
}
