// Room on a chip, and the places that are reserved of it.
ghost use Rattle.std.specs.Prelude.{◌≡◌, ℕ, ◌+◌, ◌<◌, ◌≤◌, ◌⊎◌, slice_index, IfSome, IfNone};
ghost use Rattle.ref_counts.specs.Room.{GivesBack, Reserves, all_free, first_lacking, lacking, lacks, number_of_kind};

use sai_types::{Caps, KINDS, Kind, KindCounts};
use std::marker::Model;

/// How many places are counted: for each of four workers those of each kind.
const COUNTS: usize = 4 * KINDS;

/// The capacity of each kind, and the places of each kind that each of the four workers has reserved.
#[derive(Debug, Drop)]
pub struct Room {
    capacities: KindCounts,
    reserved: [u64; COUNTS],
}

impl Model for Room {
    ghost use Rattle.ref_counts.specs.Room.{IsWithin, RoomState};

    ghost Value = { RoomState };

    ghost view = { λ r. record { capacities = r.capacities; reserved = r.reserved } };

    ghost invariant = { λ r. IsWithin (record { capacities = r.capacities; reserved = r.reserved }) };
}

impl Room {
    /// So much room, of which nothing is reserved.
    pub fn new(caps: Caps) -> Room
        ensures { result ≡ all_free caps.0 }
    {
        let capacities = caps.0;
        let reserved = [0; COUNTS];
        Room {
            capacities,
            reserved,
        }
    }

    /// Reserves places of each kind for a worker, numbered 0 to 3, beside those that it has, unless there is too little
    /// room: the answer is then the first kind of which a place is needed and whose used, reserved and needed places exceed
    /// the capacity.
    pub fn reserve(&mut self, worker: u32, need: &KindCounts, used: &KindCounts) -> Option<Kind>
        requires { worker < 4 }
        ensures kind { result ≡ lacking self.old need.now used.now }
        ensures none { IfNone result (Reserves self.old worker need.now self.new) }
        ensures some { IfSome result (λ kind. self.new ≡ self.old) }
    {
        if let Some(kind) = self.lacking(need, used) {
            return Some(kind);
        }
        add(
            &mut self.reserved,
            KINDS * worker as usize,
            need,
            &self.capacities,
        );
        None
    }

    /// Gives back all places that a worker, numbered 0 to 3, has reserved.
    pub fn give_back(&mut self, worker: u32)
        requires { worker < 4 }
        ensures { GivesBack self.old worker self.new }
    {
        clear(&mut self.reserved, KINDS * worker as usize);
    }

    /// The first kind of which a place is needed and whose used, reserved and needed places exceed the capacity.
    pub fn lacking(&self, need: &KindCounts, used: &KindCounts) -> Option<Kind>
        ensures { result ≡ lacking self.now need.now used.now }
    {
        self.first_lacking(&Kind::ALL, need, used)
    }

    /// The first of these kinds of which a place is needed and whose used, reserved and needed places exceed the capacity.
    fn first_lacking(&self, kinds: &[Kind], need: &KindCounts, used: &KindCounts) -> Option<Kind>
        ensures { result ≡ first_lacking self.now need.now used.now kinds.now }
    {
        for kind in kinds {
            if need[kind.index()] == 0 {
                continue;
            }
            if self.lacks(*kind, need, used) {
                return Some(*kind);
            }
        }
        None
    }

    /// Whether room is lacking for a kind of which a place is needed.
    fn lacks(&self, kind: Kind, need: &KindCounts, used: &KindCounts) -> bool
        requires { 0 < number_of_kind need.now kind }
        ensures { result ≡ lacks self.now need.now used.now kind }
    {
        let at = kind.index();
        let reserved = self.reserved[at]
            + self.reserved[KINDS + at]
            + self.reserved[2 * KINDS + at]
            + self.reserved[3 * KINDS + at];
        u128::from(self.capacities[at])
            < u128::from(used[at]) + u128::from(reserved) + u128::from(need[at])
    }
}

/// Adds numbers to those from a place on: no sum is above its bound.
fn add(reserved: &mut [u64; COUNTS], first: usize, need: &KindCounts, bounds: &KindCounts)
    requires within { first + KINDS ≤ COUNTS }
    requires bounds { (j : ℕ) → j < KINDS → slice_index reserved.old (first + j) + slice_index need.now j ≤ slice_index bounds.now j }
    ensures sums { (j : ℕ) → j < KINDS → slice_index reserved.new (first + j) ≡ slice_index reserved.old (first + j) + slice_index need.now j }
    ensures others { (i : ℕ) → i < first ⊎ first + KINDS ≤ i → slice_index reserved.new i ≡ slice_index reserved.old i }
{
    for at in 0..KINDS {
        let _most = bounds[at];
        let sum = reserved[first + at] + need[at];
        reserved[first + at] = sum;
    }
}

/// Makes the numbers of the kinds from a place on 0.
fn clear(reserved: &mut [u64; COUNTS], first: usize)
    requires { first + KINDS ≤ COUNTS }
    ensures none { (j : ℕ) → j < KINDS → slice_index reserved.new (first + j) ≡ 0 }
    ensures others { (i : ℕ) → i < first ⊎ first + KINDS ≤ i → slice_index reserved.new i ≡ slice_index reserved.old i }
{
    for at in 0..KINDS {
        reserved[first + at] = 0;
    }
}
