//! Why a list of jobs has no answer.

ghost use Rattle.std.specs.Prelude.{◌≡◌};

use signatures::KeptTriple;
use std::alloc::{AllocError, AllocFailed};
use wire::Memory;

/// Why nothing is said of a list of jobs.
#[derive(Drop)]
pub enum Undecided {
    /// There was no memory.
    Memory,
    /// Scripts ask for these signatures, and whether they are valid isn't known: of each job that stops the one at
    /// which it stops.
    Unknown(Vec<KeptTriple>),
}

impl From<Memory> for Undecided {
    ghost use Rattle.queue.specs.declared.no_answer.Undecided.TheVariants as undecided;

    ghost from_gives = { λ _ result. result ≡ undecided.Memory };

    fn from(_error: Memory) -> Undecided {
        Undecided::Memory
    }
}

impl<T: Drop> From<AllocFailed<T>> for Undecided {
    ghost use Rattle.queue.specs.declared.no_answer.Undecided.TheVariants as undecided;

    ghost from_gives = { λ _ result. result ≡ undecided.Memory };

    fn from(_error: AllocFailed<T>) -> Undecided {
        Undecided::Memory
    }
}

impl From<AllocError> for Undecided {
    ghost use Rattle.queue.specs.declared.no_answer.Undecided.TheVariants as undecided;

    ghost from_gives = { λ _ result. result ≡ undecided.Memory };

    fn from(_error: AllocError) -> Undecided {
        Undecided::Memory
    }
}
