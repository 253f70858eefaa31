// The sections of a round in the calling thread: their writes are taken in order, and their restarts made.
ghost use Rattle.std.specs.Prelude.{◌≡◌, ◌≢◌, List, [], ◌∷◌, length};
ghost use Rattle.table_schema.specs.declared.write.Sent.{Sent};
ghost use Rattle.table_schema.specs.Writes.{HasReadKey};
ghost use Rattle.swss_script.specs.Sent.{writes_in};
ghost use Rattle.swss_script.specs.declared.parts.Act.TheVariants as act;
ghost use Rattle.swss_service.specs.Served.{StaysServed};
ghost use Rattle.swss_service.specs.Taking.{AreCounted, HaveReadKeys, IsMade, IsNextNumber, IsRestartMade, IsRoundMade, acts_by, acts_in, writes_by};

use crate::locked::Locked;
use round_actors::Kept;
use sai_types::Chip;
use std::alloc::Global;
use std::collections::BTreeMap;
use swss_script::{Act, Acts, Sections};
use swss_types::OutOfMemory;
use table_schema::{Sent, Write};

/// How many writes of the round each producer has sent.
type Counts = BTreeMap<u32, u64>;

/// Takes the writes of a round's sections, and makes their restarts, in order, until one is refused; the writes of each producer are
/// numbered from 0. Tells the refusal.
pub(crate) fn take_sections<C: Chip>(
    alloc: Global,
    locked: &mut Locked<C>,
    sections: Sections,
) -> Kept
    requires read { HaveReadKeys (writes_in sections) }
    ensures made { IsRoundMade (length locked.old.chip.effects) (acts_in sections) locked.old.core result locked.new.core }
    ensures chip { locked.new.chip ≡ locked.old.chip }
    ensures goes_on { StaysServed locked.old locked.new }
{
    let mut counts = BTreeMap::new(alloc);
    for section in sections.into_vec() {
        match take_section(locked, section.producer, section.acts, &mut counts) {
            Kept::Nothing => {}
            kept => return kept,
        }
    }
    Kept::Nothing
}

/// Takes the writes of a section, and makes its restarts.
fn take_section<C: Chip>(
    locked: &mut Locked<C>,
    producer: u32,
    acts: Acts,
    counts: &mut Counts,
) -> Kept
    requires read { HaveReadKeys (writes_by producer acts) }
    ensures made { (before : List Sent) → AreCounted counts.old.entries before → IsMade (length locked.old.chip.effects) before (acts_by producer acts) locked.old.core result locked.new.core counts.new.entries }
    ensures chip { locked.new.chip ≡ locked.old.chip }
    ensures goes_on { StaysServed locked.old locked.new }
{
    for act in acts.into_vec() {
        match take_act(locked, producer, act, counts) {
            Kept::Nothing => {}
            kept => return kept,
        }
    }
    Kept::Nothing
}

/// Takes a write, or restarts.
fn take_act<C: Chip>(locked: &mut Locked<C>, producer: u32, act: Act, counts: &mut Counts) -> Kept
    requires read { HaveReadKeys (writes_by producer (act ∷ [])) }
    ensures made { (before : List Sent) → AreCounted counts.old.entries before → IsMade (length locked.old.chip.effects) before ((producer, act) ∷ []) locked.old.core result locked.new.core counts.new.entries }
    ensures chip { locked.new.chip ≡ locked.old.chip }
    ensures goes_on { StaysServed locked.old locked.new }
{
    match act {
        Act::Write(write) => take_write(locked, producer, write, counts),
        Act::Restart => restart(locked),
    }
}

/// Takes a write, numbered by how many of its producer came before it in the round.
fn take_write<C: Chip>(
    locked: &mut Locked<C>,
    producer: u32,
    write: Write,
    counts: &mut Counts,
) -> Kept
    requires read { HasReadKey write }
    ensures made { (before : List Sent) → AreCounted counts.old.entries before → IsMade (length locked.old.chip.effects) before ((producer, act.Write write) ∷ []) locked.old.core result locked.new.core counts.new.entries }
    ensures chip { locked.new.chip ≡ locked.old.chip }
    ensures goes_on { StaysServed locked.old locked.new }
{
    let Ok(number) = next_number(counts, producer) else {
        return Kept::NoMemory;
    };
    let sent = Sent {
        from: producer,
        number,
        write,
    };
    match locked.take(sent) {
        Ok(()) => Kept::Nothing,
        Err(refusal) => refusal.kept(),
    }
}

/// Makes a restart.
fn restart<C: Chip>(locked: &mut Locked<C>) -> Kept
    ensures made { IsRestartMade (length locked.old.chip.effects) locked.old.core result locked.new.core }
    ensures chip { locked.new.chip ≡ locked.old.chip }
    ensures goes_on { StaysServed locked.old locked.new }
{
    match locked.restart() {
        Ok(()) => Kept::Nothing,
        Err(refusal) => refusal.kept(),
    }
}

/// The number of a producer's next write, which is counted then. No memory holds so many writes that the count ends.
fn next_number(counts: &mut Counts, producer: u32) -> Result<u64, OutOfMemory>
    ensures { (before : List Sent) → AreCounted counts.old.entries before → IsNextNumber producer before result counts.new.entries }
{
    let number = counts.get(&producer).copied().unwrap_or(0);
    let next = number.checked_add(1).ok_or(OutOfMemory)?;
    counts.insert(producer, next)?;
    Ok(number)
}
