// The chip as the service sees it.
ghost use Rattle.std.specs.Prelude.{◌≡◌, ◌≤◌, length};
ghost use Rattle.sai_types.specs.ChipState.{IsAnswered, IsListed};
ghost use Rattle.sai_types.specs.Objects.{used};
ghost use Rattle.sai_types.specs.Refusal.{capacity_of};

use crate::{Call, ChipAnswer, Kind, ListAnswer, Object, Rid};

/// A SAI chip: it answers each call by the table of answers (docs/FORMATS.md), counts the calls and lists that are made
/// of it, whatever it answers, and counts its faults. Its capacities and the calls at which it is made to fail stay.
pub trait Chip {
    ghost use Rattle.sai_types.specs.ChipState.{ChipState};

    /// What stands on the chip, and what it did so far.
    ghost state: { Self → ChipState };

    /// Makes a call, which counts as one, whatever the answer. The answer is the first refusal of the table that holds;
    /// after one the chip is as before, but for that count. A failure counts as one fault.
    fn call(&mut self, call: &Call<Rid>) -> ChipAnswer
        ensures { IsAnswered (state self.old) call.now result (state self.new) };

    /// Appends each object once, in any order. After Failed and NoMemory `out` is as before. It counts as a call, whatever
    /// the answer, and a failure counts as one fault.
    fn list(&mut self, out: &mut Vec<Object<Rid>>) -> ListAnswer
        ensures { IsListed (state self.old) result out.old.items out.new.items (state self.new) };

    /// How many objects of the kind the chip has room for.
    fn capacity(&self, kind: Kind) -> u64
        ensures { result ≡ capacity_of (state self.now).capacities kind };

    /// How many objects of the kind stand on the chip.
    fn used(&self, kind: Kind) -> u64
        ensures { result ≡ used (state self.now).objects kind };

    /// How many calls took effect so far.
    fn effects(&self) -> u64
        ensures { result ≡ length (state self.now).effects };

    /// How many calls the chip failed at so far: no more than it is made to fail at.
    fn faults(&self) -> u64
        ensures faults { result ≡ (state self.now).faults }
        ensures made { (state self.now).faults ≤ length (state self.now).fails };
}
