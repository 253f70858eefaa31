// Next hops with their weights and Ethernet addresses.
ghost use Rattle.std.specs.Prelude.{◌≡◌, [], ◌∷◌, ◌++◌, IfOk, OnOk, OnErr};

use sai_types::WHop;
use std::alloc::Global;
use std::marker::Model;
use swss_types::{Mac, OutOfMemory};

/// Next hops with their weights and Ethernet addresses.
#[derive(Debug, Drop)]
pub struct Ways {
    ways: Vec<(WHop, Mac)>,
}

impl Model for Ways {
    ghost use Rattle.std.specs.Prelude.{List};
    ghost use Rattle.sai_types.specs.declared.weight.WHop.{WHop};
    ghost use Rattle.swss_types.specs.declared.address.Mac.{Mac};

    ghost Value = { List (WHop × Mac) };

    ghost view = { λ w. w.ways.items };
}

impl Ways {
    /// No hop.
    pub fn new(alloc: Global) -> Ways
        ensures { result ≡ [] }
    {
        Ways {
            ways: Vec::new(alloc),
        }
    }

    /// Puts a hop last.
    pub fn push(&mut self, way: (WHop, Mac)) -> Result<(), OutOfMemory>
        ensures ok { OnOk result (self.new ≡ self.old ++ way ∷ []) }
        ensures err { OnErr result (self.new ≡ self.old) }
    {
        self.ways.push(way)?;
        Ok(())
    }

    /// The same hops once more.
    pub fn copy(&self) -> Result<Ways, OutOfMemory>
        ensures { IfOk result (λ ways. ways ≡ self.now) }
    {
        Ok(Ways {
            ways: self.ways.clone()?,
        })
    }

    /// The hops, in order.
    pub fn items(&self) -> &[(WHop, Mac)]
        ensures { result.now ≡ self.now }
    {
        self.ways.as_slice()
    }
}
