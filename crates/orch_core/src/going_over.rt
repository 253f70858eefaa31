// All rows are gone over once, in key order, by the same operations as ever, on the temporary view alone.
ghost use Rattle.std.specs.Prelude.{◌≡◌, ◌⊎◌, ◌∷◌, List, [], IsSome};
ghost use Rattle.std.specs.Map.{keys_of};
ghost use Rattle.table_schema.specs.declared.key.Key.{Key};
ghost use Rattle.consumer_table.specs.Ops.{AreOpsInOrder, without_op};
ghost use Rattle.flight_board.specs.Board.{flown_at};
ghost use Rattle.session_laws.specs.Core.{CoreState, good_in};
ghost use Rattle.session_laws.specs.Events.{vid_made_by};
ghost use Rattle.session_laws.specs.Service.Built.{IsBringing, IsBuilt};
ghost use Rattle.orch_core.specs.Restarting.{CallsView, GoesOver};

use crate::Core;
use sai_types::{Chip, SyncAnswer, Vid};
use swss_types::OutOfMemory;
use table_schema::{Key, Row};

impl Core {
    /// Goes over the keys to sync: each has its good row, or is brought to the view, or is put on the list of those that wait.
    pub(crate) fn go_over<C: Chip>(&mut self, chip: &mut C) -> Result<(), OutOfMemory>
        requires built { (first : CoreState) × IsBuilt first self.old (keys_of self.old.tables.ops) }
        ensures { (first : CoreState) → IsBuilt first self.old (keys_of self.old.tables.ops) → GoesOver first [] (C.state chip.old) result self.new (C.state chip.new) }
    {
        for key in self.keys()? {
            // It says that the keys are in order still.
            let _count = self.count();
            self.restore_key(chip, key)?;
        }
        Ok(())
    }

    /// Brings a key to the view, or puts it on the list of those that wait.
    fn restore_key<C: Chip>(&mut self, chip: &mut C, key: Key) -> Result<(), OutOfMemory>
        requires built { (first : CoreState) × (rest : List Key) × IsBuilt first self.old (key ∷ rest) }
        requires order { AreOpsInOrder self.old.tables.ops }
        ensures over { (first : CoreState) (rest : List Key) → IsBuilt first self.old (key ∷ rest) → GoesOver first rest (C.state chip.old) result self.new (C.state chip.new) }
        ensures ops { (self.new.tables ≡ self.old.tables) ⊎ (self.new.tables ≡ record self.old.tables { ops = without_op self.old.tables.ops key }) }
    {
        let new = self.good_row(&key)?;
        self.restore_row(chip, key, new)
    }

    /// The same, where this is the good row of the key.
    fn restore_row<C: Chip>(
        &mut self,
        chip: &mut C,
        key: Key,
        new: Option<Row>,
    ) -> Result<(), OutOfMemory>
        requires built { (first : CoreState) × (rest : List Key) × IsBuilt first self.old (key ∷ rest) }
        requires order { AreOpsInOrder self.old.tables.ops }
        requires row { new ≡ good_in self.old key }
        ensures over { (first : CoreState) (rest : List Key) → IsBuilt first self.old (key ∷ rest) → GoesOver first rest (C.state chip.old) result self.new (C.state chip.new) }
        ensures ops { (self.new.tables ≡ self.old.tables) ⊎ (self.new.tables ≡ record self.old.tables { ops = without_op self.old.tables.ops key }) }
    {
        if self.is_there(&key, new.as_ref()) {
            self.done(&key);
            return Ok(());
        }
        let used = self.used();
        match self.start(&used, 0, &key, new)? {
            Ok(()) => {
                self.done(&key);
                self.run_on_view(chip)
            }
            Err(wait) => self.wait(key, wait),
        }
    }

    /// Runs the operation that has begun to its end.
    fn run_on_view<C: Chip>(&mut self, chip: &mut C) -> Result<(), OutOfMemory>
        requires bringing { (first : CoreState) × (rest : List Key) × IsBringing first self.old rest }
        ensures over { (first : CoreState) (rest : List Key) → IsBringing first self.old rest → GoesOver first rest (C.state chip.old) result self.new (C.state chip.new) }
        ensures tables { self.new.tables ≡ self.old.tables }
    {
        while self.is_flying(0) {
            self.call_view(chip)?;
        }
        Ok(())
    }

    /// Makes the next call of the operation.
    fn call_view<C: Chip>(&mut self, chip: &mut C) -> Result<(), OutOfMemory>
        requires bringing { (first : CoreState) × (rest : List Key) × IsBringing first self.old rest }
        requires flying { IsSome (flown_at self.old.board 0) }
        ensures tables { self.new.tables ≡ self.old.tables }
        ensures called { (first : CoreState) (rest : List Key) → IsBringing first self.old rest → CallsView first rest self.old (C.state chip.old) result self.new (C.state chip.new) }
    {
        self.prepare(0)?;
        let call = self.due_call(0)?;
        let answer = self.call_chip(chip, &call)?;
        self.took(0, made(answer));
        Ok(())
    }
}

/// The identifier of what a call made.
fn made(answer: SyncAnswer) -> Option<Vid>
    ensures { result ≡ vid_made_by answer }
{
    match answer {
        SyncAnswer::Made(vid) => Some(vid),
        SyncAnswer::Done | SyncAnswer::Failed => None,
    }
}
