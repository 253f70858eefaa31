// Where a simulated chip sends packets.
use crate::ways::Ways;
use sai_types::Base;

/// Where the packets of an address in a router go.
#[derive(Debug, Drop)]
pub enum Forward {
    /// To the switch itself.
    Cpu,
    /// Nowhere.
    Drop,
    /// To whoever is on the interface.
    Direct(Base),
    /// To one of these next hops.
    Via(Ways),
}
