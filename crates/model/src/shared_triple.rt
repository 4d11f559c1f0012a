//! Signatures of which a history has the verdict.

ghost use Rattle.std.specs.Prelude.{◌≡◌, Decides, IfOk};

use signatures::KeptTriple;
use std::alloc::AllocError;
use std::fmt::{self, Display};
use std::marker::Model;
use wire::Memory;

/// A key, a signature without its hash type, and a digest, which copies of a command share. A clause sees the triple.
#[derive(Drop)]
pub struct SharedTriple {
    shared: KeptTriple,
}

impl Model for SharedTriple {
    ghost use Rattle.signatures.specs.Triple.{Triple};

    ghost Value = { Triple };

    ghost view = { λ t. t.shared };
}

// A clone is the same value. It takes no memory: it is refused only where 2^63 of them are kept.
impl Clone for SharedTriple {
    ghost is_clone = { λ old new. new ≡ old };

    fn clone(&self) -> Result<SharedTriple, AllocError> {
        Ok(SharedTriple {
            shared: self.shared.clone()?,
        })
    }
}

impl fmt::Debug for SharedTriple {
    fn fmt<W: fmt::Write>(&self, f: &mut fmt::Formatter<W>) -> fmt::Result {
        self.triple().fmt(f)
    }
}

impl SharedTriple {
    /// The same triple. It takes no memory.
    pub fn of(triple: &KeptTriple) -> Result<SharedTriple, Memory>
        ensures { IfOk result (λ shared. shared ≡ triple.now) }
    {
        Ok(SharedTriple {
            shared: triple.copy()?,
        })
    }

    /// The same triple. It takes no memory.
    pub fn copy(&self) -> Result<SharedTriple, Memory>
        ensures { IfOk result (λ triple. triple ≡ self.now) }
    {
        Ok(self.clone()?)
    }

    /// Whether it is the same as another.
    pub fn is(&self, other: &SharedTriple) -> bool
        ensures { Decides result (self.now ≡ other.now) }
    {
        self.triple().compare_kept(other.triple()).is_eq()
    }

    /// The triple, lent.
    pub fn triple(&self) -> &KeptTriple
        ensures { result.now ≡ self.now }
    {
        &self.shared
    }
}
