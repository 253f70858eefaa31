// Turns.
ghost use Rattle.std.specs.Prelude.{◌≡◌, ◌<◌};
ghost use Rattle.consumer_table.specs.Ops.{AreOpsInOrder};
ghost use Rattle.restart_laws.specs.Logged.{LoggedService};
ghost use Rattle.sync_tables.specs.Tables.{IsToSync};
ghost use Rattle.session_laws.specs.Standing.{IsSessionOf};
ghost use Rattle.session_laws.specs.Turning.{IsAtRest};
ghost use Rattle.orch_core.specs.Outcomes.{IsInSession};
ghost use Rattle.orch_core.specs.Settled.{Brings, MakesTurn, MakesTurns};

use crate::Core;
use crate::answer::{Ran, Tried, Turned};
use sai_types::Chip;
use swss_types::OutOfMemory;
use table_schema::Key;

/// With room for so many keys a list is long.
const LONG: usize = 512;

impl Core {
    /// Makes turns until no key is left to sync or a turn took none away.
    pub(crate) fn make_turns<C: Chip>(&mut self, chip: &mut C) -> Result<Turned, OutOfMemory>
        requires session { IsInSession self.old (C.state chip.old) }
        requires rest { IsAtRest self.old }
        ensures { (s : LoggedService) → IsSessionOf self.old (C.state chip.old) s → MakesTurns s self.old (C.state chip.old) result self.new (C.state chip.new) }
    {
        let mut turns = 0u64;
        let mut left = self.count();
        while left > 0 {
            turns += 1;
            match self.turn(chip)? {
                Ran::Whole => {}
                Ran::Faulted => return Ok(Turned::Faulted),
                Ran::LogFull => return Ok(Turned::LogFull),
            }
            let still = self.count();
            if still == left {
                return Ok(Turned::Whole(turns));
            }
            left = still;
        }
        Ok(Turned::Whole(turns))
    }

    /// Tries each key to sync once, in key order, and runs what it begins to its end.
    fn turn<C: Chip>(&mut self, chip: &mut C) -> Result<Ran, OutOfMemory>
        requires session { IsInSession self.old (C.state chip.old) }
        requires rest { IsAtRest self.old }
        ensures { (s : LoggedService) → IsSessionOf self.old (C.state chip.old) s → MakesTurn s self.old (C.state chip.old) result self.new (C.state chip.new) }
    {
        // the first key stands last, so that the list gets shorter from its end
        let mut keys = self.keys()?;
        keys.reverse();
        while let Some(key) = keys.pop() {
            give_back(&mut keys);
            // It says that the keys are in order still.
            let _count = self.count();
            match self.bring(chip, key)? {
                Ran::Whole => {}
                stopped => return Ok(stopped),
            }
        }
        Ok(Ran::Whole)
    }

    /// Brings a key to the chip, or puts it on the list of those that wait.
    fn bring<C: Chip>(&mut self, chip: &mut C, key: Key) -> Result<Ran, OutOfMemory>
        requires session { IsInSession self.old (C.state chip.old) }
        requires rest { IsAtRest self.old }
        requires order { AreOpsInOrder self.old.tables.ops }
        requires key { IsToSync self.old.tables key }
        ensures { (s : LoggedService) → IsSessionOf self.old (C.state chip.old) s → Brings s key self.old (C.state chip.old) result self.new (C.state chip.new) }
    {
        match self.try_key(0, &key)? {
            Tried::Dropped => Ok(Ran::Whole),
            Tried::Begun => self.run(chip, 0),
            Tried::Waits(wait) => {
                self.wait(key, wait)?;
                Ok(Ran::Whole)
            }
        }
    }
}

/// Gives memory back where most of a long list is gone.
fn give_back(keys: &mut Vec<Key>)
    ensures { keys.new.items ≡ keys.old.items }
{
    if keys.capacity() >= LONG && keys.len() < keys.capacity() / 2 {
        keys.shrink_to_fit();
    }
}
