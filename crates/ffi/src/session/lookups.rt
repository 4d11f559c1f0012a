//! What is asked of a session's blocks.

ghost use Rattle.std.specs.Prelude.{◌≡◌, ◌≤◌, IfOk, IfSome};
ghost use Rattle.tree.specs.Limits.{max_blocks};
ghost use Rattle.activate.specs.Lookups.{active_id, ancestor_of, confirmations, fork_of, header_of, height_of, spent_by};
ghost use Rattle.ffi.specs.SessionState.{rules_of, tree_of};

use crate::session::Session;
use hash::Id;
use std::alloc::Global;
use undo::BlockUndo;
use wire::Memory;

impl Session {
    /// The 80 bytes of the header of the block with this id.
    pub(crate) fn header(&self, id: &Id) -> Option<[u8; 80]>
        ensures { result ≡ header_of (tree_of self.now).blocks id.now }
    {
        self.chain.header(id)
    }

    /// The id of the active block at a height.
    pub(crate) fn id_at(&self, height: usize) -> Option<Id>
        ensures { result ≡ active_id (rules_of self.now) (tree_of self.now) height }
    {
        self.chain.id_at(height)
    }

    /// The height of the block with this id.
    pub(crate) fn height_of(&self, id: &Id) -> Option<usize>
        ensures { result ≡ height_of (tree_of self.now).blocks id.now }
    {
        self.chain.height_of(id)
    }

    /// How many active blocks there are from the one with this id on, with both ends; none where it isn't active.
    pub(crate) fn confirmations(&self, id: &Id) -> Option<usize>
        ensures value { result ≡ confirmations (rules_of self.now) (tree_of self.now) id.now }
        ensures few { IfSome result (λ count. count ≤ max_blocks) }
    {
        self.chain.confirmations(id)
    }

    /// The id of the block at a height of the branch of the block with this id.
    pub(crate) fn ancestor(&self, id: &Id, height: usize) -> Option<Id>
        ensures { result ≡ ancestor_of (tree_of self.now).blocks id.now height }
    {
        self.chain.ancestor(id, height)
    }

    /// The id of the last block that the branches of two blocks share.
    pub(crate) fn fork(&self, one: &Id, other: &Id) -> Option<Id>
        ensures { result ≡ fork_of (tree_of self.now).blocks one.now other.now }
    {
        self.chain.fork(one, other)
    }

    /// The coins that the block with this id spent; none where it isn't active.
    pub(crate) fn spent(&self, alloc: Global, id: &Id) -> Result<Option<BlockUndo>, Memory>
        ensures { IfOk result (λ found.
            found ≡ spent_by (rules_of self.now) (tree_of self.now) id.now) }
    {
        self.chain.spent(alloc, id)
    }
}
