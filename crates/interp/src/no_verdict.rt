//! Why an input isn't verified.

ghost use Rattle.std.specs.Prelude.{◌≡◌};

use signatures::KeptTriple;
use std::alloc::{AllocError, AllocFailed};
use wire::Memory;

/// Why an input was neither accepted nor refused.
#[derive(Drop)]
pub enum Unverified {
    /// There was no memory.
    Memory,
    /// Its scripts ask for this signature, and whether it is valid isn't known. In a box, since each opcode's step
    /// answers a result with this error: with the triple in its place a run of SWAPs took 1.5 times as long.
    Unknown(Box<KeptTriple>),
}

impl From<Memory> for Unverified {
    ghost use Rattle.interp.specs.declared.no_verdict.Unverified.TheVariants as unverified;

    ghost from_gives = { λ _ result. result ≡ unverified.Memory };

    fn from(_error: Memory) -> Unverified {
        Unverified::Memory
    }
}

impl<T: Drop> From<AllocFailed<T>> for Unverified {
    ghost use Rattle.interp.specs.declared.no_verdict.Unverified.TheVariants as unverified;

    ghost from_gives = { λ _ result. result ≡ unverified.Memory };

    fn from(_error: AllocFailed<T>) -> Unverified {
        Unverified::Memory
    }
}

impl From<AllocError> for Unverified {
    ghost use Rattle.interp.specs.declared.no_verdict.Unverified.TheVariants as unverified;

    ghost from_gives = { λ _ result. result ≡ unverified.Memory };

    fn from(_error: AllocError) -> Unverified {
        Unverified::Memory
    }
}
