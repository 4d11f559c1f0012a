//! Why a transaction could not be read.

ghost use Rattle.std.specs.Prelude.{◌≡◌, Some, None};
ghost use Rattle.txn.specs.Fault.{wire_fault_of};

use std::alloc::{AllocError, AllocFailed};
use std::error::Error;
use std::fmt;
use wire::{Memory, WireFault};

/// Why a transaction could not be read.
#[derive(Clone, Copy, Debug, PartialEq, Eq)]
pub enum TxFault {
    /// The bytes end before the transaction does.
    Short = 1,
    /// A count is spelled in more bytes than it needs.
    LongForm,
    /// A count is above [`wire::LIMIT`].
    TooLarge,
    /// There is no memory for it.
    Memory,
}

impl fmt::Display for TxFault {
    fn fmt<W: fmt::Write>(&self, f: &mut fmt::Formatter<W>) -> fmt::Result {
        match self {
            TxFault::Short => WireFault::Short.fmt(f),
            TxFault::LongForm => WireFault::LongForm.fmt(f),
            TxFault::TooLarge => WireFault::TooLarge.fmt(f),
            TxFault::Memory => Memory.fmt(f),
        }
    }
}

impl Error for TxFault {}

impl From<WireFault> for TxFault {
    ghost from_gives = { λ f e. wire_fault_of e ≡ Some f };

    fn from(fault: WireFault) -> TxFault {
        match fault {
            WireFault::Short => TxFault::Short,
            WireFault::LongForm => TxFault::LongForm,
            WireFault::TooLarge => TxFault::TooLarge,
        }
    }
}

impl From<AllocError> for TxFault {
    ghost from_gives = { λ _ e. wire_fault_of e ≡ None };

    fn from(_error: AllocError) -> TxFault {
        TxFault::Memory
    }
}

impl<T: Drop> From<AllocFailed<T>> for TxFault {
    ghost from_gives = { λ _ e. wire_fault_of e ≡ None };

    fn from(_error: AllocFailed<T>) -> TxFault {
        TxFault::Memory
    }
}
