//! Why a run ends without its lines.

use std::alloc::{AllocError, AllocFailed};
use std::{fmt, io};
use wire::Memory;
use workloads::inputs;

/// Why a run ends without its lines. Its `Display` is the line on the standard error.
#[derive(Drop)]
pub enum BenchFault {
    /// The command line has other words than a workload's name and a size.
    Words,
    Memory,
    /// More coins are asked for than the first hundred coinbases are spent for.
    TooManyCoins,
    /// The clock can't be read, or the output can't be written.
    Io,
    /// A block that was made here isn't read again.
    Unread,
    /// A node isn't opened, or doesn't answer.
    Node,
}

/// What was made here, or that it isn't read again.
pub fn read_again<T, E: Drop>(read: Result<T, E>) -> Result<T, BenchFault> {
    match read {
        Ok(value) => Ok(value),
        Err(_) => Err(BenchFault::Unread),
    }
}

impl fmt::Display for BenchFault {
    fn fmt<W: fmt::Write>(&self, f: &mut fmt::Formatter<W>) -> fmt::Result {
        let text = match self {
            BenchFault::Words => "usage: bench [WORKLOAD SIZE]",
            BenchFault::Memory => "memory",
            BenchFault::TooManyCoins => "too many coins",
            BenchFault::Io => "the clock or the output failed",
            BenchFault::Unread => "a block is not read",
            BenchFault::Node => "the node failed",
        };
        writeln!(f, "bench: {text}")
    }
}

impl From<inputs::InputsFault> for BenchFault {
    fn from(fault: inputs::InputsFault) -> Self {
        match fault {
            inputs::InputsFault::Memory => BenchFault::Memory,
            inputs::InputsFault::TooManyCoins => BenchFault::TooManyCoins,
        }
    }
}

impl From<Memory> for BenchFault {
    fn from(_fault: Memory) -> Self {
        BenchFault::Memory
    }
}

impl From<AllocError> for BenchFault {
    fn from(_error: AllocError) -> Self {
        BenchFault::Memory
    }
}

impl<T: Drop> From<AllocFailed<T>> for BenchFault {
    fn from(_error: AllocFailed<T>) -> Self {
        BenchFault::Memory
    }
}

impl From<io::Error> for BenchFault {
    fn from(_error: io::Error) -> Self {
        BenchFault::Io
    }
}

impl From<node::Fault> for BenchFault {
    fn from(_fault: node::Fault) -> Self {
        BenchFault::Node
    }
}

impl From<node::OpenFault> for BenchFault {
    fn from(_fault: node::OpenFault) -> Self {
        BenchFault::Node
    }
}
