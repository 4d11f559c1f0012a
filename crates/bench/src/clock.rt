//! Time, as the monotonic clock has it.

use crate::check::Check;
use crate::fault::BenchFault;
use std::rt::Clock;
use std::time::{Duration, Instant};

/// A workload's result, and how long it took without its preparation.
#[derive(Drop)]
pub struct Outcome {
    pub check: Check,
    pub spent: Duration,
}

/// When a workload began.
#[derive(Clone, Copy)]
pub struct Timer {
    /// None where the clock can't be read.
    begin: Option<Instant>,
}

impl Timer {
    pub fn start(clock: &impl Clock) -> Timer {
        Timer {
            begin: Instant::now(clock).ok(),
        }
    }

    /// How long it took until now.
    pub fn spent(self, clock: &impl Clock) -> Result<Duration, BenchFault> {
        match self.begin {
            Some(begin) => Ok(begin.elapsed(clock)?),
            None => Err(BenchFault::Io),
        }
    }

    /// The result of a workload that ends now, where it came to one.
    pub fn stop(
        self,
        clock: &impl Clock,
        check: Result<Check, BenchFault>,
    ) -> Result<Outcome, BenchFault> {
        let spent = self.spent(clock)?;
        let check = check?;
        Ok(Outcome { check, spent })
    }
}
