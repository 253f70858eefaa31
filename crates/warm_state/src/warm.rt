// The states of a warm restart.
ghost use Rattle.std.specs.Prelude.{◌≡◌, ◌↔◌, true};
ghost use Rattle.warm_state.specs.Warm.{IsReady, warm_text};

/// How far a control plane has come since it started, in the order of SONiC's WARM_RESTART_TABLE.
#[derive(Clone, Copy, Debug, PartialEq, Eq)]
pub enum Warm {
    /// It has its rows, and knows nothing of the chip.
    Initialized,
    /// It has the list of what stands on the chip.
    Restored,
    /// It has made its view from the rows, and brings the chip to it.
    Applying,
    /// The chip is what it remembers.
    Reconciled,
    /// A chip call failed, and whether it took effect is not known.
    Suspect,
}

impl Warm {
    /// The state's word: `initialized`, `restored` (also while the view is applied), `reconciled`, or `unknown`.
    pub fn text(self) -> &'static [u8]
        ensures { result.now ≡ warm_text self }
    {
        match self {
            Warm::Initialized => b"initialized",
            Warm::Restored | Warm::Applying => b"restored",
            Warm::Reconciled => b"reconciled",
            Warm::Suspect => b"unknown",
        }
    }
}

/// Whether the switch is ready for another restart: it is reconciled, and no row is pending.
pub fn ready(state: Warm, pending: u64) -> bool
    ensures { (result ≡ true) ↔ IsReady state pending }
{
    state == Warm::Reconciled && pending == 0
}
