//! Entries of the history, each once.

ghost use Rattle.std.specs.Prelude.{◌≡◌, IfOk};

use model::Entry;
use std::alloc::{AllocError, Global};
use std::marker::Model;
use std::sync::Arc;
use wire::Memory;

/// An entry that both copies of the published view share. A clause sees the entry.
#[derive(Drop)]
pub struct SharedEntry {
    shared: Arc<Entry>,
}

impl Model for SharedEntry {
    ghost use Rattle.std.specs.Arc.{arc_value};
    ghost use Rattle.model.specs.declared.entry.Entry.{Entry};

    ghost Value = { Entry };

    ghost view = { λ e. arc_value e.shared };
}

// A clone is the same value. It takes no memory: it is refused only where 2^63 of them are kept.
impl Clone for SharedEntry {
    ghost is_clone = { λ old new. new ≡ old };

    fn clone(&self) -> Result<SharedEntry, AllocError> {
        Ok(SharedEntry {
            shared: Arc::try_clone(&self.shared)?,
        })
    }
}

impl SharedEntry {
    /// This entry, taken over.
    pub fn of(alloc: Global, entry: Entry) -> Result<SharedEntry, Memory>
        ensures { IfOk result (λ shared. shared ≡ entry) }
    {
        match Arc::new(alloc, entry) {
            Ok(shared) => Ok(SharedEntry { shared }),
            Err(_) => Err(Memory),
        }
    }

    /// The entry, lent.
    pub fn entry(&self) -> &Entry
        ensures { result.now ≡ self.now }
    {
        &self.shared
    }
}
