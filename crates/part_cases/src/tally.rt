// How many cases passed and failed.
use std::fmt;

/// How many cases passed, and how many failed.
#[derive(Clone, Copy, Default)]
pub struct Tally {
    passed: u32,
    failed: u32,
}

impl Tally {
    /// Counts a case.
    pub fn count(&mut self, passes: bool) {
        if passes {
            self.passed = self.passed.saturating_add(1);
        } else {
            self.failed = self.failed.saturating_add(1);
        }
    }

    /// Counts the cases of another tally too.
    pub fn add(&mut self, other: Tally) {
        self.passed = self.passed.saturating_add(other.passed);
        self.failed = self.failed.saturating_add(other.failed);
    }

    /// Whether no case was counted.
    pub fn is_empty(self) -> bool {
        self.passed == 0 && self.failed == 0
    }

    /// Whether no case failed.
    pub fn passes(self) -> bool {
        self.failed == 0
    }
}

impl fmt::Display for Tally {
    fn fmt<W: fmt::Write>(&self, f: &mut fmt::Formatter<W>) -> fmt::Result {
        write!(f, "{} passed, {} failed", self.passed, self.failed)
    }
}
