//! The step that is owed to readers.

ghost use Rattle.std.specs.Prelude.{◌≡◌};
ghost use Rattle.node.specs.inside.PublishedState.{changes_of, is_new, is_owed};

use coins::Changes;
use std::alloc::Global;

/// The step that is owed to readers, if one is, and where the coins are that it changes.
#[derive(Drop)]
pub(crate) enum Pending {
    /// None is owed.
    None,
    /// It was in no publication yet. These are its changes.
    New(Changes),
    /// It is in a publication that waits, with its changes; further ones bring its entry again.
    Again,
}

impl Pending {
    /// Whether a step is owed.
    pub(crate) fn is_owed(&self) -> bool
        ensures { result ≡ is_owed self.now }
    {
        !matches!(self, Pending::None)
    }

    /// Whether no publication has it yet.
    pub(crate) fn is_new(&self) -> bool
        ensures { result ≡ is_new self.now }
    {
        matches!(self, Pending::New(_))
    }

    /// The changes that no publication has yet.
    pub(crate) fn into_changes(self, alloc: Global) -> Changes
        ensures { result ≡ changes_of self }
    {
        match self {
            Pending::New(changes) => changes,
            _ => Changes::new(alloc),
        }
    }
}
