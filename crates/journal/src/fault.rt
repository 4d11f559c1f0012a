//! Why a journal isn't read.

ghost use Rattle.std.specs.Prelude.{◌≡◌};
ghost use Rattle.journal.specs.declared.fault.JournalFault.TheVariants as faults;

use std::alloc::{AllocError, AllocFailed};

/// Why a journal isn't read.
#[derive(Clone, Copy, Debug, PartialEq, Eq)]
pub enum JournalFault {
    /// This line, counted from 1, isn't one that is printed.
    BadLine(usize),
    Memory,
}

impl From<AllocError> for JournalFault {
    ghost from_gives = { λ _ fault. fault ≡ faults.Memory };

    fn from(_error: AllocError) -> JournalFault {
        JournalFault::Memory
    }
}

impl<T: Drop> From<AllocFailed<T>> for JournalFault {
    ghost from_gives = { λ _ fault. fault ≡ faults.Memory };

    fn from(_error: AllocFailed<T>) -> JournalFault {
        JournalFault::Memory
    }
}
