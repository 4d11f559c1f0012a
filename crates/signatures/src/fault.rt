//! Why a table's text isn't read.

ghost use Rattle.std.specs.Prelude.{◌≡◌};

use std::alloc::{AllocError, AllocFailed};
use std::error::Error;
use std::fmt;
use wire::Memory;

/// Why a table could not be read.
#[derive(Clone, Copy, Debug, PartialEq, Eq)]
pub enum TableFault {
    /// The line of this number, from 1, is the first that can't be read.
    BadLine(usize),
    /// There was no memory for the table.
    Memory,
}

impl fmt::Display for TableFault {
    fn fmt<W: fmt::Write>(&self, f: &mut fmt::Formatter<W>) -> fmt::Result {
        match self {
            TableFault::BadLine(number) => write!(f, "line {number} of the table can't be read"),
            TableFault::Memory => write!(f, "{Memory}"),
        }
    }
}

impl Error for TableFault {}

impl From<AllocError> for TableFault {
    ghost use Rattle.signatures.specs.declared.fault.TableFault.TheVariants as fault;

    ghost from_gives = { λ _ result. result ≡ fault.Memory };

    fn from(_error: AllocError) -> TableFault {
        TableFault::Memory
    }
}

impl<T: Drop> From<AllocFailed<T>> for TableFault {
    ghost use Rattle.signatures.specs.declared.fault.TableFault.TheVariants as fault;

    ghost from_gives = { λ _ result. result ≡ fault.Memory };

    fn from(_error: AllocFailed<T>) -> TableFault {
        TableFault::Memory
    }
}
