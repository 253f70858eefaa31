// The core.
ghost use Rattle.std.specs.Prelude.{◌≡◌, ◌≤◌, ◌^◌};
ghost use Rattle.sai_types.specs.declared.kind.Kind.TheVariants as kind;
ghost use Rattle.ref_counts.specs.Room.{number_of_kind};
ghost use Rattle.session_laws.specs.Core.{new_core};
ghost use Rattle.orch_core.specs.Outcomes.{AreKindsCounted};

use flight_board::Board;
use retry_list::Retry;
use row_store::Rows;
use sai_types::{Caps, KindCounts};
use std::alloc::Global;
use std::marker::Model;
use switch_model::Log;
use sync_tables::Tables;
use syncd_core::Syncd;
use table_schema::PortPlan;
use warm_state::Warm;

/// The core: the tables, the board of operations, syncd, the keys that wait, and the log.
#[derive(Drop)]
pub struct Core {
    pub(crate) alloc: Global,
    // how many objects of each kind the chip has room for, which a restart has to know again
    pub(crate) caps: Caps,
    pub(crate) tables: Tables,
    pub(crate) board: Board,
    pub(crate) syncd: Syncd,
    pub(crate) waiting: Retry,
    pub(crate) log: Log,
    // how many keys the marks list, and how many places the log has
    pub(crate) listed: u64,
    pub(crate) limit: u64,
    pub(crate) state: Warm,
}

impl Model for Core {
    ghost use Rattle.std.specs.Prelude.{◌≡◌};
    ghost use Rattle.session_laws.specs.Core.{CoreState};

    ghost Value = { CoreState };

    ghost view = { λ c. record { tables = c.tables; board = c.board; sync = c.syncd; waiting = c.waiting; log = c.log; listed = c.listed; limit = c.limit; warm = c.state } };

    ghost invariant = { λ c. c.caps.0 ≡ c.syncd.capacities };
}

impl Core {
    /// A core over an empty chip with these capacities, whose log has so many places.
    pub fn new(alloc: Global, plan: PortPlan, caps: Caps, log_limit: u64) -> Core
        ensures { result ≡ new_core plan caps.0 log_limit }
    {
        Core {
            alloc,
            caps,
            tables: Tables::new(alloc),
            board: Board::new(alloc, plan, caps),
            syncd: Syncd::new(alloc, caps),
            waiting: Retry::new(alloc),
            log: Log::new(alloc),
            listed: 0,
            limit: log_limit,
            state: Warm::Reconciled,
        }
    }

    /// The warm state.
    pub fn state(&self) -> Warm
        ensures { result ≡ self.now.warm }
    {
        self.state
    }

    /// The rows of the tables, as far as they were popped.
    pub fn rows(&self) -> &Rows
        ensures { result.now ≡ self.now.tables.rows }
    {
        self.tables.rows()
    }

    /// The log.
    pub fn log(&self) -> &Log
        ensures { result.now ≡ self.now.log }
    {
        &self.log
    }

    /// Hands the log over.
    pub fn into_log(self) -> Log
        ensures { result ≡ self.log }
    {
        let Core {
            tables,
            board,
            syncd,
            waiting,
            log,
            ..
        } = self;
        // each by its destructor, which is so proved by itself
        drop(tables);
        drop(board);
        drop(syncd);
        drop(waiting);
        log
    }

    /// The keys that wait, each with the reason that the last turn found.
    pub fn waiting(&self) -> &Retry
        ensures { result.now ≡ self.now.waiting }
    {
        &self.waiting
    }

    /// The port plan.
    pub fn plan(&self) -> &PortPlan
        ensures { result.now ≡ self.now.board.plan }
    {
        self.board.plan()
    }

    /// How many objects of each kind stand. They are few.
    pub(crate) fn used(&self) -> KindCounts
        ensures kinds { AreKindsCounted self.now.sync (number_of_kind result) }
        ensures few { number_of_kind result kind.Rif ≤ 2 ^ 63 }
    {
        self.syncd.counts()
    }
}
