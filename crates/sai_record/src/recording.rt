// Recordings: the room of a chip, and the calls that took effect on it.
ghost use Rattle.std.specs.Prelude.{◌≡◌, [], ◌∷◌, ◌++◌, OnOk, OnErr};

use sai_types::{Call, Caps, Rid};
use std::alloc::Global;
use std::marker::Model;
use swss_types::OutOfMemory;

/// A call that took effect, by the identifiers of the recording.
#[derive(Debug, PartialEq, Eq, Drop)]
pub struct Recorded {
    /// The identifier of the object that the call makes, where it makes one with an identifier.
    pub made: Option<Rid>,
    /// The call.
    pub call: Call<Rid>,
}

/// Recorded calls, in order.
#[derive(Debug, Drop)]
pub struct RecordedCalls {
    calls: Vec<Recorded>,
}

/// What a chip was made to do.
#[derive(Debug, Drop)]
pub struct Recording {
    /// How many objects of each kind the chip has room for.
    pub caps: Caps,
    /// The calls that took effect, in order.
    pub calls: RecordedCalls,
}

impl Model for RecordedCalls {
    ghost use Rattle.std.specs.Prelude.{List};
    ghost use Rattle.sai_record.specs.declared.recording.Recorded.{Recorded};

    ghost Value = { List Recorded };

    ghost view = { λ c. c.calls.items };
}

impl RecordedCalls {
    /// No call.
    pub fn new(alloc: Global) -> RecordedCalls
        ensures { result ≡ [] }
    {
        RecordedCalls {
            calls: Vec::new(alloc),
        }
    }

    /// Puts a call last.
    pub fn push(&mut self, call: Recorded) -> Result<(), OutOfMemory>
        ensures ok { OnOk result (self.new ≡ self.old ++ call ∷ []) }
        ensures err { OnErr result (self.new ≡ self.old) }
    {
        self.calls.push(call)?;
        Ok(())
    }

    /// The calls.
    pub fn items(&self) -> &[Recorded]
        ensures { result.now ≡ self.now }
    {
        self.calls.as_slice()
    }
}
