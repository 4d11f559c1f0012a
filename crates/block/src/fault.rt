//! Why bytes are no block.

ghost use Rattle.std.specs.Prelude.{◌≡◌};
ghost use Rattle.block.specs.inside.Fault.{read_fault_of, wire_read_fault_of};

use std::error::Error;
use std::fmt;
use txn::TxFault;
use wire::WireFault;

/// Why a block could not be read.
#[derive(Clone, Copy, Debug, PartialEq, Eq)]
pub enum ReadFault {
    /// The bytes end before the block does.
    Short = 1,
    /// A count is spelled in more bytes than it needs.
    LongForm,
    /// A count is above [`wire::LIMIT`].
    TooLarge,
    /// There are bytes after the block.
    Extra,
    /// There is no memory for it.
    Memory,
}

impl fmt::Display for ReadFault {
    fn fmt<W: fmt::Write>(&self, f: &mut fmt::Formatter<W>) -> fmt::Result {
        match self {
            ReadFault::Short => TxFault::Short.fmt(f),
            ReadFault::LongForm => TxFault::LongForm.fmt(f),
            ReadFault::TooLarge => TxFault::TooLarge.fmt(f),
            ReadFault::Extra => f.write_str("bytes stand after the block"),
            ReadFault::Memory => TxFault::Memory.fmt(f),
        }
    }
}

impl Error for ReadFault {}

impl From<TxFault> for ReadFault {
    ghost from_gives = { λ f e. e ≡ read_fault_of f };

    fn from(fault: TxFault) -> ReadFault {
        match fault {
            TxFault::Short => ReadFault::Short,
            TxFault::LongForm => ReadFault::LongForm,
            TxFault::TooLarge => ReadFault::TooLarge,
            TxFault::Memory => ReadFault::Memory,
        }
    }
}

impl From<WireFault> for ReadFault {
    ghost from_gives = { λ f e. e ≡ wire_read_fault_of f };

    fn from(fault: WireFault) -> ReadFault {
        match fault {
            WireFault::Short => ReadFault::Short,
            WireFault::LongForm => ReadFault::LongForm,
            WireFault::TooLarge => ReadFault::TooLarge,
        }
    }
}
