//! The calls of a device, and which of them fail.

use std::io;
use std::io::ErrorKind;

/// Counts calls down to the one that fails.
#[derive(Clone, Copy)]
pub struct Calls {
    /// How many pass before it.
    pub passing: u64,
    /// Whether those after it pass.
    pub goes_on: bool,
}

impl Calls {
    /// None of them fails.
    pub fn all_pass() -> Calls {
        Calls {
            passing: u64::MAX,
            goes_on: true,
        }
    }

    /// This many pass, the next fails, and those after it pass.
    pub fn one_fails(passing: u64) -> Calls {
        Calls {
            passing,
            goes_on: true,
        }
    }

    /// This many pass, and those after them fail.
    pub fn pass_at_first(passing: u64) -> Calls {
        Calls {
            passing,
            goes_on: false,
        }
    }

    /// How many were made, where all pass.
    pub fn count_made(self) -> u64 {
        u64::MAX - self.passing
    }

    /// Whether the next call passes.
    pub(crate) fn passes(&mut self) -> bool {
        if self.passing > 0 {
            self.passing -= 1;
            return true;
        }
        if self.goes_on {
            self.passing = u64::MAX;
        }
        false
    }
}

/// What a device does in a call that fails, and at its end.
#[derive(Clone, Copy, PartialEq, Eq)]
pub enum AtEnd {
    /// It tells a fault.
    Fails,
    /// It gives or takes no bytes.
    NoBytes,
}

impl AtEnd {
    /// The fault of a call, where it tells one.
    pub(crate) fn tell(self, fault: ErrorKind) -> io::Result<()> {
        match self {
            AtEnd::Fails => Err(io::Error::from(fault)),
            AtEnd::NoBytes => Ok(()),
        }
    }
}
