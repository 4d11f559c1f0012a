//! The bytes of a block, shared.

ghost use Rattle.std.specs.Prelude.{◌≡◌, IfOk, IsTrue, ◌↔◌, [], length};

use std::alloc::{AllocError, Global};
use std::fmt;
use std::marker::Model;
use std::sync::Arc;
use wire::Memory;

/// The bytes of a block, or what was submitted as one. They never change, and all copies share them. A clause sees
/// their list.
#[derive(Drop)]
pub struct Bytes {
    shared: Arc<Vec<u8>>,
}

impl Model for Bytes {
    ghost use Rattle.std.specs.Arc.{arc_value};
    ghost use Rattle.std.specs.Prelude.{List, ℕ};

    ghost Value = { List ℕ };

    ghost view = { λ s. (arc_value s.shared).items };
}

// A clone is the same value. It takes no memory: it is refused only where 2^63 of them are kept.
impl Clone for Bytes {
    ghost is_clone = { λ old new. new ≡ old };

    fn clone(&self) -> Result<Bytes, AllocError> {
        Ok(Bytes {
            shared: Arc::try_clone(&self.shared)?,
        })
    }
}

impl fmt::Debug for Bytes {
    fn fmt<W: fmt::Write>(&self, f: &mut fmt::Formatter<W>) -> fmt::Result {
        self.as_slice().fmt(f)
    }
}

impl Bytes {
    /// These bytes, taken over.
    pub fn from_vec(alloc: Global, bytes: Vec<u8>) -> Result<Bytes, Memory>
        ensures { IfOk result (λ shared. shared ≡ bytes.items) }
    {
        match Arc::new(alloc, bytes) {
            Ok(shared) => Ok(Bytes { shared }),
            Err(_) => Err(Memory),
        }
    }

    /// These bytes, copied.
    pub fn from_slice(alloc: Global, bytes: &[u8]) -> Result<Bytes, Memory>
        ensures { IfOk result (λ shared. shared ≡ bytes.now) }
    {
        Bytes::from_vec(alloc, Vec::from_slice(alloc, bytes)?)
    }

    /// The same bytes, shared.
    pub fn copy(&self) -> Result<Bytes, Memory>
        ensures { IfOk result (λ copy. copy ≡ self.now) }
    {
        Ok(self.clone()?)
    }

    /// The bytes, lent.
    pub fn as_slice(&self) -> &[u8]
        ensures { result.now ≡ self.now }
    {
        self.shared.as_slice()
    }

    /// How many there are.
    pub fn len(&self) -> usize
        ensures { result ≡ length self.now }
    {
        self.shared.len()
    }

    /// Whether there is none.
    pub fn is_empty(&self) -> bool
        ensures { IsTrue result ↔ (self.now ≡ []) }
    {
        self.shared.is_empty()
    }
}
