//! Why a call has no answer, and why a node can't be opened.

ghost use Rattle.std.specs.Prelude.{◌≡◌};

use model::Entry;
use std::error::Error;
use std::fmt;
use wire::Memory;

/// Why a call of a seat has no answer.
#[derive(Clone, Copy, Debug, PartialEq, Eq)]
pub enum Fault {
    /// There was no memory. No step was taken.
    Memory = 1,
    /// The step was taken, and can't be shown yet.
    Owed,
    /// Seat and node don't fit each other, or nothing is published any more. No step was taken.
    Closed,
    /// Scripts want signatures of which the node doesn't know whether they are valid: [`Seat::wants`](crate::Seat::wants). No
    /// step was taken. A node with a table never answers it.
    Unknown,
}

impl fmt::Display for Fault {
    fn fmt<W: fmt::Write>(&self, f: &mut fmt::Formatter<W>) -> fmt::Result {
        f.write_str(match self {
            Fault::Memory => "memory",
            Fault::Owed => "owed",
            Fault::Closed => "closed",
            Fault::Unknown => "unknown",
        })
    }
}

impl Error for Fault {}

impl From<Memory> for Fault {
    ghost use Rattle.node.specs.declared.fault.Fault.TheVariants as variants;

    ghost from_gives = { λ _ fault. fault ≡ variants.Memory };

    fn from(_fault: Memory) -> Fault {
        Fault::Memory
    }
}

/// That a seat which was passed at the end doesn't fit the node's history ([`Fault::Closed`]). The history is given back
/// all the same: it is the only copy.
#[derive(Debug, Drop)]
pub struct EndFault {
    pub history: Vec<Entry>,
}

impl fmt::Display for EndFault {
    fn fmt<W: fmt::Write>(&self, f: &mut fmt::Formatter<W>) -> fmt::Result {
        f.write_str("closed")
    }
}

impl Error for EndFault {}

impl From<EndFault> for Fault {
    ghost use Rattle.node.specs.declared.fault.Fault.TheVariants as variants;

    ghost from_gives = { λ _ fault. fault ≡ variants.Closed };

    fn from(_fault: EndFault) -> Fault {
        Fault::Closed
    }
}

/// Why a node can't be opened. The numbers are tested in this order.
#[derive(Clone, Copy, Debug, PartialEq, Eq)]
pub enum OpenFault {
    /// The number of workers isn't 1 to 16.
    Workers = 1,
    /// The number of seats isn't 1 to 16.
    Seats,
    /// There was no memory.
    Memory,
    /// No reader was handed out, for another cause. There is none today.
    Readers,
}

impl fmt::Display for OpenFault {
    fn fmt<W: fmt::Write>(&self, f: &mut fmt::Formatter<W>) -> fmt::Result {
        f.write_str(match self {
            OpenFault::Workers => "workers",
            OpenFault::Seats => "seats",
            OpenFault::Memory => "memory",
            OpenFault::Readers => "readers",
        })
    }
}

impl Error for OpenFault {}
