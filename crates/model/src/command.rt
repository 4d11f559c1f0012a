//! What is asked of the chainstate.

ghost use Rattle.std.specs.Prelude.{◌≡◌, IfOk};

use crate::shared_triple::SharedTriple;
use block::Bytes;
use hash::Id;
use std::alloc::AllocError;
use wire::Memory;

/// What is asked of the chainstate, as a history keeps it.
#[derive(Debug, Drop)]
pub enum Command {
    /// To take the block of these bytes, at this moment in seconds since 1970.
    Submit(Bytes, u64),
    /// To mark the block of this id as invalid.
    Invalidate(Id),
    /// To take the marks from the block of this id, its ancestors and its descendants.
    Reconsider(Id),
    /// To prefer the block of this id to all that are as high.
    Precious(Id),
    /// To take down whether this signature is valid. No block changes by it.
    Learn(SharedTriple, bool),
}

// A clone is the same value, which a type that contains commands can build on.
impl Clone for Command {
    ghost is_clone = { λ old new. new ≡ old };

    fn clone(&self) -> Result<Command, AllocError> {
        match self {
            Command::Submit(bytes, now) => Ok(Command::Submit(bytes.clone()?, *now)),
            Command::Invalidate(id) => Ok(Command::Invalidate(*id)),
            Command::Reconsider(id) => Ok(Command::Reconsider(*id)),
            Command::Precious(id) => Ok(Command::Precious(*id)),
            Command::Learn(triple, valid) => Ok(Command::Learn(triple.clone()?, *valid)),
        }
    }
}

impl Command {
    /// An equal command, which shares the bytes, or the triple.
    pub fn copy(&self) -> Result<Command, Memory>
        ensures { IfOk result (λ command. command ≡ self.now) }
    {
        Ok(self.clone()?)
    }
}
