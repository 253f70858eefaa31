// Workers, and the order in which they step.
ghost use Rattle.std.specs.Prelude.{◌<◌};

use anyhow::{Result, bail};
use part_cases::words::number;
use std::alloc::Global;

/// In which order workers step.
#[derive(Clone, Copy)]
pub enum Order {
    /// One after the other, once all writes are taken; in the end each is to be idle where this is true.
    Turn(bool),
    /// One after the other, once all writes are taken; then the core restarts.
    Restarts,
    /// As this seed draws, and writes are taken in between.
    Drawn(u64),
}

/// So many workers, who make so many steps in each round.
#[derive(Drop)]
pub struct CaseWorkers {
    line: String,
    count: u32,
    /// In which order they step.
    pub order: Order,
    /// How many steps they make together.
    pub steps: u64,
}

impl CaseWorkers {
    /// A worker that makes no step: the settling finds all still to be done.
    pub fn none(alloc: Global) -> Result<CaseWorkers> {
        Ok(CaseWorkers {
            line: String::from_str(alloc, "no worker")?,
            count: 1,
            order: Order::Turn(false),
            steps: 0,
        })
    }

    /// The workers of a line, by its words.
    pub fn read(alloc: Global, line: &str, count: &str, order: &[&str]) -> Result<CaseWorkers> {
        let count = match count {
            "1" => 1,
            "2" => 2,
            "3" => 3,
            "4" => 4,
            _ => bail!("one to four workers"),
        };
        let (order, steps) = match order {
            ["turn", steps] => (Order::Turn(false), number(steps)?),
            ["turn", steps, "idle"] => (Order::Turn(true), number(steps)?),
            ["turn", steps, "restart"] => (Order::Restarts, number(steps)?),
            ["drawn", seed, steps] => (Order::Drawn(number(seed)?), number(steps)?),
            _ => bail!("an order of steps"),
        };
        Ok(CaseWorkers {
            line: String::from_str(alloc, line)?,
            count,
            order,
            steps,
        })
    }

    /// Their line.
    pub fn line(&self) -> &str {
        self.line.as_str()
    }

    /// How many there are.
    pub fn count(&self) -> u64 {
        u64::from(self.count)
    }

    /// The seed by which they step.
    pub fn seed(&self) -> u64 {
        match self.order {
            Order::Turn(_) | Order::Restarts => 0,
            Order::Drawn(seed) => seed,
        }
    }

    /// The worker of a number, one after the other.
    pub fn at(&self, number: u64) -> u32
        ensures { result < 4 }
    {
        match self.count {
            1 => 0,
            2 => (number % 2) as u32,
            3 => (number % 3) as u32,
            _ => (number % 4) as u32,
        }
    }
}
