// What happens that reasons are about.
ghost use Rattle.std.specs.Prelude.{◌≡◌, IfOk};
ghost use Rattle.retry_list.specs.Reasons.{event_of};

use sai_types::Kind;
use switch_model::Wait;
use swss_types::OutOfMemory;
use table_schema::Key;

/// What may end a reason to wait.
#[derive(Debug, PartialEq, Eq, PartialOrd, Ord, Drop)]
pub enum Event {
    /// The row of this key was applied.
    Applied(Key),
    /// The row of this key is applied no longer.
    Gone(Key),
    /// An object of this kind went, or places for such objects were given back.
    Freed(Kind),
    /// The running operation of this worker ended.
    Ended(u32),
}

impl Event {
    /// The event that a reason is about.
    pub(crate) fn of(wait: Wait) -> Event
        ensures { result ≡ event_of wait }
    {
        match wait {
            Wait::Missing(key) => Event::Applied(key),
            Wait::Held(key) => Event::Gone(key),
            Wait::NoRoom(kind) => Event::Freed(kind),
            Wait::Busy(worker) => Event::Ended(worker),
        }
    }

    /// The same event once more.
    pub(crate) fn copy(&self) -> Result<Event, OutOfMemory>
        ensures { IfOk result (λ event. event ≡ self.now) }
    {
        Ok(match self {
            Event::Applied(key) => Event::Applied(key.copy()?),
            Event::Gone(key) => Event::Gone(key.copy()?),
            Event::Freed(kind) => Event::Freed(*kind),
            Event::Ended(worker) => Event::Ended(*worker),
        })
    }
}
