//! The steps of a history.

ghost use Rattle.std.specs.Prelude.{◌≡◌, IfOk};

use crate::command::Command;
use crate::reply::Reply;
use std::alloc::AllocError;
use wire::Memory;

/// A step of the history: by which seat, of which command, with which reply.
#[derive(Debug, Drop)]
pub struct Entry {
    /// The seat's number, from 0.
    pub seat: usize,
    pub command: Command,
    /// Without one the step was taken and the seat wasn't told: its reply is owed.
    pub reply: Option<Reply>,
}

// A clone is the same value, which a type that contains entries can build on.
impl Clone for Entry {
    ghost is_clone = { λ old new. new ≡ old };

    fn clone(&self) -> Result<Entry, AllocError> {
        Ok(Entry {
            seat: self.seat,
            command: self.command.clone()?,
            reply: self.reply,
        })
    }
}

impl Entry {
    /// An equal entry.
    pub fn copy(&self) -> Result<Entry, Memory>
        ensures { IfOk result (λ entry. entry ≡ self.now) }
    {
        Ok(self.clone()?)
    }
}
