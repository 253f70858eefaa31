// What a script consists of.
use crate::{Acts, Sections, Shows};
use swss_types::{Ip, Vrf};
use table_schema::Write;

/// A chip call that fails.
#[derive(Clone, Copy, Debug, PartialEq, Eq)]
pub struct Fail2 {
    /// The number of the call, from 1.
    pub at: u64,
    /// Whether it takes effect before it fails.
    pub after: bool,
}

/// A round: what the producers do up to a settle, and what is shown behind it.
#[derive(Debug, Drop)]
pub struct Round {
    /// The sections, in order.
    pub sections: Sections,
    /// The shows, in order.
    pub shows: Shows,
}

/// What one producer does in a stretch of a round.
#[derive(Debug, Drop)]
pub struct Section {
    /// The producer's number, from 1.
    pub producer: u32,
    /// What it does, in order.
    pub acts: Acts,
}

/// What a producer does.
#[derive(Debug, Drop)]
pub enum Act {
    /// It writes to a table.
    Write(Write),
    /// It restarts the service.
    Restart,
}

/// What is shown.
#[derive(Clone, Copy, Debug, PartialEq, Eq)]
pub enum Show {
    /// The objects of the chip.
    Chip,
    /// The rows of the tables.
    Tables,
    /// The rows that do not read.
    Ignored,
    /// The waiting keys.
    Waiting,
    /// The state of the restart.
    Warm,
    /// Whether nothing waits.
    Ready,
    /// The chip calls of the round.
    Calls,
    /// The counts of the session.
    Counts,
    /// The image of the rows.
    Image,
    /// The way of an address in a virtual router.
    Forward(Vrf, Ip),
}
