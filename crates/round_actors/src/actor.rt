// The actors of a round.
use crate::name::{RoundName, Stops};
use intake_queue::Pass;
use std::sync::ledger::Share;

/// A producer: its number, its pass, and its shares of the restarts and of the stops.
#[derive(Drop)]
pub struct Producer<J: RoundName> {
    /// Its number, from 1.
    pub number: u32,
    /// Its pass of the intake.
    pub pass: Pass,
    /// Its share of the restarts.
    pub restarts: Share<J>,
    /// Its share of the stops.
    pub stops: Share<Stops<J>>,
}

/// An actor.
#[derive(Drop)]
pub enum Actor<J: RoundName> {
    /// A producer.
    Producer(Producer<J>),
    /// The worker of this number.
    Worker(u32),
}
