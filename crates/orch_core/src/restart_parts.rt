// What the core has its parts do over a restart: each call is one of the board, of syncd or of the tables, and the rest of the core stays.
ghost use Rattle.std.specs.Prelude.{◌≡◌, ◌↔◌, [], IsSome, IfOk, OnOk, OnErr};
ghost use Rattle.std.specs.Map.{keys_of};
ghost use Rattle.table_schema.specs.Rows.{fields_at};
ghost use Rattle.table_schema.specs.declared.key.Key.{Key};
ghost use Rattle.sai_types.specs.Alike.{IsIn};
ghost use Rattle.sai_types.specs.ChipState.{IsAskedOnce, asked};
ghost use Rattle.consumer_table.specs.Ops.{AreOpsInOrder, Ops, without_op};
ghost use Rattle.syncd_core.specs.Begun.{Begins, CanBegin};
ghost use Rattle.syncd_core.specs.Synced.{Applies, CanApply, SyncState, TakesList};
ghost use Rattle.session_laws.specs.Service.Built.{building, given_up};
ghost use Rattle.orch_core.specs.Restarting.{forgotten_core, places_left};

use crate::Core;
use sai_types::{Chip, Mode};
use swss_types::OutOfMemory;
use syncd_core::{ApplyStep, Listed};
use table_schema::Key;
use warm_state::Warm;

impl Core {
    /// The core is in this warm state from now on.
    pub(crate) fn enter(&mut self, state: Warm)
        ensures { self.new ≡ record self.old { warm = state } }
    {
        self.state = state;
    }

    /// Forgets all but the rows, the writes that wait to be popped, and the log.
    pub(crate) fn forget(&mut self)
        ensures { self.new ≡ forgotten_core self.old }
    {
        self.tables.forget_ops();
        self.board.forget(self.caps);
        self.syncd.forget();
        self.waiting.forget_all();
        self.state = Warm::Initialized;
    }

    /// Has syncd list the chip.
    pub(crate) fn list_chip<C: Chip>(&mut self, chip: &mut C) -> Result<Listed, OutOfMemory>
        ensures ok { IfOk result (λ listed. (y : SyncState) × TakesList self.old.sync (C.state chip.old) listed y (C.state chip.new) × (self.new ≡ record self.old { sync = y })) }
        ensures err { OnErr result (self.new ≡ self.old) }
        ensures unmade { OnErr result (C.state chip.new ≡ asked (C.state chip.old)) }
    {
        self.syncd.take_list(chip)
    }

    /// Makes every key with a row one to sync, and starts an empty temporary view.
    pub(crate) fn begin_view(&mut self) -> Result<(), OutOfMemory>
        ensures ok { OnOk result ((ops : Ops) × (self.new ≡ building self.old ops) × AreOpsInOrder ops × ((k : Key) → IsIn k (keys_of ops) ↔ IsSome (fields_at self.old.tables.rows k))) }
        ensures err { OnErr result (self.new ≡ self.old) }
    {
        self.tables.sync_rows()?;
        self.syncd.init_view();
        self.waiting.forget_all();
        Ok(())
    }

    /// Gives up a view that is built: no key is to sync, and nothing is known of the chip but the list of it.
    pub(crate) fn give_up(&mut self)
        ensures { self.new ≡ given_up self.old }
    {
        self.tables.forget_ops();
        self.board.forget(self.caps);
        self.syncd.drop_view();
        self.waiting.forget_all();
    }

    /// Takes a key from those to sync.
    pub(crate) fn done(&mut self, key: &Key)
        ensures { self.new ≡ record self.old { tables = record self.old.tables { ops = without_op self.old.tables.ops key.now } } }
    {
        self.tables.done(key);
    }

    /// Has syncd plan the way from the list of the chip to the temporary view.
    pub(crate) fn plan_apply(&mut self) -> Result<Mode, OutOfMemory>
        requires { CanBegin self.old.sync }
        ensures ok { IfOk result (λ mode. (y : SyncState) × Begins self.old.sync mode y × (self.new ≡ record self.old { sync = y })) }
        ensures err { OnErr result (self.new ≡ self.old) }
    {
        self.syncd.begin_apply()
    }

    /// How many places of the log the next event of an apply needs: two for a call, and one where no call is left and the end is
    /// marked alone.
    pub(crate) fn places(&self) -> u128
        ensures { result ≡ places_left self.now.sync.left }
    {
        if self.syncd.left() == 0 { 1 } else { 2 }
    }

    /// Has syncd make the next call of the plan.
    pub(crate) fn apply_next<C: Chip>(&mut self, chip: &mut C) -> Result<ApplyStep, OutOfMemory>
        requires { CanApply self.old.sync.left self.old.sync.view (C.state chip.old) }
        ensures ok { IfOk result (λ step. (y : SyncState) × Applies self.old.sync.left self.old.sync (C.state chip.old) step y (C.state chip.new) × (self.new ≡ record self.old { sync = y })) }
        ensures err { OnErr result (self.new ≡ self.old) }
        ensures unmade { OnErr result (IsAskedOnce (C.state chip.old) (C.state chip.new)) }
    {
        self.syncd.apply_one(chip)
    }
}
