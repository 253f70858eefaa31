// Which old object is which new one.
ghost use Rattle.std.specs.Prelude.{◌≡◌, [], ◌∷◌, ◌++◌, IfOk, OnOk, OnErr};
ghost use Rattle.sai_types.specs.Pairing.{IsFreePair};

use std::alloc::Global;
use std::marker::Model;
use swss_types::OutOfMemory;

/// Pairs of a place in the old objects and a place in the new ones, each place at most once.
#[derive(Debug, Drop)]
pub struct Pairing {
    pairs: Vec<(u64, u64)>,
}

impl Model for Pairing {
    ghost use Rattle.std.specs.Prelude.{List, ℕ};

    ghost Value = { List (ℕ × ℕ) };

    ghost view = { λ p. p.pairs.items };
}

impl Pairing {
    /// No pair.
    pub fn new(alloc: Global) -> Pairing
        ensures { result ≡ [] }
    {
        Pairing {
            pairs: Vec::new(alloc),
        }
    }

    /// Puts a pair last.
    pub fn push(&mut self, pair: (u64, u64)) -> Result<(), OutOfMemory>
        requires { IsFreePair self.old pair }
        ensures ok { OnOk result (self.new ≡ self.old ++ pair ∷ []) }
        ensures err { OnErr result (self.new ≡ self.old) }
    {
        self.pairs.push(pair)?;
        Ok(())
    }

    /// The same pairs once more.
    pub fn copy(&self) -> Result<Pairing, OutOfMemory>
        ensures { IfOk result (λ pairing. pairing ≡ self.now) }
    {
        Ok(Pairing {
            pairs: self.pairs.clone()?,
        })
    }

    /// The pairs.
    pub fn items(&self) -> &[(u64, u64)]
        ensures { result.now ≡ self.now }
    {
        self.pairs.as_slice()
    }
}
