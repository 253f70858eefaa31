// The lanes of a port.
ghost use Rattle.std.specs.Prelude.{◌≡◌, [], ◌∷◌, ◌++◌, ◌<◌, length, slice_index, flat_map, IfOk, OnOk, OnErr, take, option_map};
ghost use Rattle.std.specs.Fmt.{decimal};
ghost use Rattle.std.specs.Prelude.{◌==◌};
ghost use Rattle.std.proofs.Common.{rules};
ghost use Rattle.std.specs.Cmp.{partial_order_from_own_ties};
ghost use Rattle.std.specs.Cmp.Rules.{comparing};
ghost use Rattle.std.specs.Cmp.Lexicographic.{slice_cmp, pointwise};
ghost use Rattle.std.specs.Ordering.{nat_cmp, as_partial_cmp};
ghost use Rattle.swss_types.specs.Lanes.{lanes_of, lanes_in, lanes_text, rising, IsLaneList};
ghost use Rattle.swss_types.specs.Parts.{parts_at};

use crate::{OutOfMemory, cut_at, insert_rising, read_number, write_number};
use smallvec::SmallVec;
use std::alloc::Global;
use std::cmp::Ordering;
use std::marker::Model;

/// How many lanes a switch has: the number of each is below it.
pub const LANE_BOUND: u32 = 512;

/// How many lanes a port has at most.
const MOST_LANES: usize = 8;

/// The serial lanes of a port: 1 to `MOST_LANES` rising numbers below `LANE_BOUND`.
#[derive(Debug, Drop)]
pub struct Lanes {
    count: u8,
    // those behind the first `count` are 0
    lanes: [u16; 8],
}

impl Model for Lanes {
    ghost use Rattle.std.specs.Prelude.{List, ℕ, ◌≤◌, take};
    ghost use Rattle.swss_types.specs.Lanes.{IsLaneList};

    ghost Value = { List ℕ };

    ghost view = { λ l. take l.count l.lanes };

    ghost invariant = { λ l. (l.count ≤ 8) × IsLaneList (take l.count l.lanes) };
}

impl Lanes {
    /// The lanes that the text lists, or None where it is no list of lanes.
    pub fn read(alloc: Global, text: &[u8]) -> Result<Option<Lanes>, OutOfMemory>
        ensures { IfOk result (λ lanes. lanes ≡ lanes_of text.now) }
    {
        let Some(numbers) = read_numbers(alloc, text)? else {
            return Ok(None);
        };
        let lanes = in_order(alloc, numbers.as_slice())?;
        if lanes.len() != numbers.len() || numbers.len() > MOST_LANES {
            return Ok(None);
        }
        Ok(Some(Lanes::of_list(lanes.as_slice())))
    }

    /// These lanes.
    fn of_list(list: &[u16]) -> Lanes
        requires { IsLaneList list.now }
        ensures { result ≡ list.now }
    {
        let mut lanes = [0; 8];
        lanes[..list.len()].copy_from_slice(list);
        Lanes {
            count: list.len() as u8,
            lanes,
        }
    }

    /// The lanes, rising.
    pub fn items(&self) -> &[u16]
        ensures value { result.now ≡ self.now }
        ensures lanes { IsLaneList result.now }
    {
        &self.lanes[..usize::from(self.count)]
    }

    /// The least lane.
    pub fn first(&self) -> u16
        ensures { result ≡ slice_index self.now 0 }
    {
        self.items()[0]
    }

    /// Appends the written form: the lanes, rising, joined by commas.
    pub fn write(&self, out: &mut Vec<u8>) -> Result<(), OutOfMemory>
        ensures ok { OnOk result (out.new.items ≡ out.old.items ++ lanes_text self.now) }
        ensures err { OnErr result (out.new.items ≡ out.old.items) }
    {
        let before = out.len();
        if let Err(error) = write_joined(out, self.items()) {
            out.truncate(before);
            return Err(error);
        }
        Ok(())
    }

    /// The same lanes once more.
    pub fn copy(&self) -> Result<Lanes, OutOfMemory>
        ensures { IfOk result (λ lanes. lanes ≡ self.now) }
    {
        Ok(Lanes {
            count: self.count,
            lanes: self.lanes,
        })
    }
}

impl PartialEq for Lanes {
    ghost eq = { pointwise ◌==◌ };

    ghost laws = { Prim.search (comparing, rules) };

    fn eq(&self, other: &Lanes) -> bool {
        self.items() == other.items()
    }
}

impl Eq for Lanes {
    ghost laws = { Prim.search (comparing, rules) };
}

impl PartialOrd for Lanes {
    ghost partial_cmp = { as_partial_cmp (slice_cmp nat_cmp) };

    ghost laws = { partial_order_from_own_ties (Prim.search (comparing, rules)) (Prim.search (comparing, rules)) };

    fn partial_cmp(&self, other: &Lanes) -> Option<Ordering> {
        Some(self.cmp(other))
    }
}

impl Ord for Lanes {
    ghost cmp = { slice_cmp nat_cmp };

    ghost total = { Prim.search (comparing, rules) };

    ghost matches_partial_cmp = { Prim.search (comparing, rules) };

    ghost matches_eq = { Prim.search (comparing, rules) };

    fn cmp(&self, other: &Lanes) -> Ordering {
        self.items().cmp(other.items())
    }
}

/// The numbers below `LANE_BOUND` that the text lists between commas, or None where a part is no such number.
fn read_numbers(alloc: Global, text: &[u8]) -> Result<Option<SmallVec<u16, 8>>, OutOfMemory>
    ensures { IfOk result (λ numbers. option_map (λ n. n.items) numbers ≡ lanes_in (parts_at 44 text.now)) }
{
    let mut numbers = SmallVec::new(alloc);
    let mut left = Some(text);
    while let Some(list) = left {
        let (part, behind) = cut_at(list, b',');
        let Some(number) = read_number(part, LANE_BOUND - 1) else {
            return Ok(None);
        };
        numbers.push(number as u16)?;
        left = behind;
    }
    Ok(Some(numbers))
}

/// The numbers in rising order, each once.
fn in_order(alloc: Global, numbers: &[u16]) -> Result<Vec<u16>, OutOfMemory>
    ensures { IfOk result (λ lanes. lanes.items ≡ rising [] numbers.now) }
{
    let mut lanes = Vec::with_capacity(alloc, numbers.len())?;
    for number in numbers {
        insert_rising(&mut lanes, *number)?;
    }
    Ok(lanes)
}

/// Appends numbers joined by commas. An Err may leave some of them.
fn write_joined(out: &mut Vec<u8>, lanes: &[u16]) -> Result<(), OutOfMemory>
    ensures ok { OnOk result (out.new.items ≡ out.old.items ++ lanes_text lanes.now) }
    ensures err { OnErr result (take (length out.old.items) out.new.items ≡ out.old.items) }
{
    match lanes {
        [] => Ok(()),
        [first, others @ ..] => {
            write_number(out, u64::from(*first))?;
            write_behind(out, others)?;
            Ok(())
        }
    }
}

/// Appends each number behind a comma. An Err may leave some of them.
fn write_behind(out: &mut Vec<u8>, lanes: &[u16]) -> Result<(), OutOfMemory>
    ensures ok { OnOk result (out.new.items ≡ out.old.items ++ flat_map (λ lane. 44 ∷ decimal lane) lanes.now) }
    ensures err { OnErr result (take (length out.old.items) out.new.items ≡ out.old.items) }
{
    for lane in lanes {
        out.push(b',')?;
        write_number(out, u64::from(*lane))?;
    }
    Ok(())
}
