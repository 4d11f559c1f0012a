//! What is asked of a core's blocks, by their ids.

ghost use Rattle.std.specs.Prelude.{◌≡◌, ◌≤◌, IfOk, IfSome};
ghost use Rattle.std.specs.Option.{option_map, option_and_then};
ghost use Rattle.tree.specs.Branches.{id_at, place_of};
ghost use Rattle.tree.specs.Limits.{max_blocks};
ghost use Rattle.tree.specs.Names.{names};
ghost use Rattle.activate.specs.Lookups.{ancestor_at, ancestor_of, depth_at, fork_of, header_of, height_of, spent_at};
ghost use Rattle.activate.specs.inside.Heights.{AreActive};

use crate::core_state::Core;
use crate::lookups::{ActiveBlocks, ancestor_of, fork_of, header_of, height_of};
use hash::Id;
use std::alloc::Global;
use undo::BlockUndo;
use wire::Memory;

impl Core {
    fn active_blocks(&self) -> ActiveBlocks<'_>
        ensures { AreActive self.now result }
    {
        ActiveBlocks {
            tree: &self.tree,
            active: self.active,
            branch: self.branch.as_slice(),
            packed: self.packed.as_slice(),
        }
    }

    /// The id of the active block at a height.
    pub(crate) fn id_at(&self, height: usize) -> Option<Id>
        ensures { let t = self.now.state.blocks in
            result ≡ option_map (id_at names t) (ancestor_at t self.now.active height) }
    {
        self.active_blocks().id(height)
    }

    /// The height of the block with this id.
    pub(crate) fn height_of(&self, id: &Id) -> Option<usize>
        ensures { result ≡ height_of self.now.state.blocks id.now }
    {
        height_of(&self.tree, id)
    }

    /// The 80 bytes of the header of the block with this id.
    pub(crate) fn header(&self, id: &Id) -> Option<[u8; 80]>
        ensures { result ≡ header_of self.now.state.blocks id.now }
    {
        header_of(&self.tree, id)
    }

    /// How many active blocks there are from the one with this id on, with both ends; none where it isn't active.
    pub(crate) fn confirmations(&self, id: &Id) -> Option<usize>
        ensures value { let t = self.now.state.blocks in
            result ≡ option_and_then (depth_at t self.now.active) (place_of names t id.now) }
        ensures few { IfSome result (λ count. count ≤ max_blocks) }
    {
        self.active_blocks().confirmations(id)
    }

    /// The id of the block at a height of the branch of the block with this id.
    pub(crate) fn ancestor(&self, id: &Id, height: usize) -> Option<Id>
        ensures { result ≡ ancestor_of self.now.state.blocks id.now height }
    {
        ancestor_of(&self.tree, id, height)
    }

    /// The id of the last block that the branches of two blocks share.
    pub(crate) fn fork(&self, one: &Id, other: &Id) -> Option<Id>
        ensures { result ≡ fork_of self.now.state.blocks one.now other.now }
    {
        fork_of(&self.tree, one, other)
    }

    /// The coins that the block with this id spent, transaction by transaction from the second on (Bitcoin Core's undo
    /// data); none where it isn't active.
    pub fn spent(&self, alloc: Global, id: &Id) -> Result<Option<BlockUndo>, Memory>
        ensures { let t = self.now.state.blocks in IfOk result (λ found.
            found ≡ option_and_then (spent_at t self.now.active) (place_of names t id.now)) }
    {
        self.active_blocks().spent(alloc, id)
    }
}
