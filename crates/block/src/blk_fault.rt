//! Why a blk file isn't read on.

ghost use Rattle.std.specs.Prelude.{◌≡◌};
ghost use Rattle.block.specs.declared.blk_fault.BlkFault.TheVariants as faults;

use crate::source::ReadFailed;
use std::alloc::AllocError;
use std::error::Error;
use std::fmt;

/// Why a blk file could not be read on. An offset is where a record begins, from the start of the file.
#[derive(Clone, Copy, Debug, PartialEq, Eq)]
pub enum BlkFault {
    /// There is neither a record nor zero bytes alone at this offset.
    Foreign(u64),
    /// The record at this offset ends early.
    Cut(u64),
    /// The record at this offset has a length above [`wire::LIMIT`].
    TooLong(u64),
    /// The source failed.
    Read,
    /// There is no memory for a block.
    Memory,
    /// An earlier call has met a fault.
    Stopped,
}

impl fmt::Display for BlkFault {
    fn fmt<W: fmt::Write>(&self, f: &mut fmt::Formatter<W>) -> fmt::Result {
        match self {
            BlkFault::Foreign(at) => write!(f, "no record at {at}"),
            BlkFault::Cut(at) => write!(f, "the record at {at} ends early"),
            BlkFault::TooLong(at) => write!(f, "the record at {at} is too long"),
            BlkFault::Read => ReadFailed.fmt(f),
            BlkFault::Memory => wire::Memory.fmt(f),
            BlkFault::Stopped => f.write_str("stopped at an earlier fault"),
        }
    }
}

impl Error for BlkFault {}

impl From<ReadFailed> for BlkFault {
    ghost from_gives = { λ _ e. e ≡ faults.Read };

    fn from(_: ReadFailed) -> BlkFault {
        BlkFault::Read
    }
}

impl From<AllocError> for BlkFault {
    ghost from_gives = { λ _ e. e ≡ faults.Memory };

    fn from(_: AllocError) -> BlkFault {
        BlkFault::Memory
    }
}
