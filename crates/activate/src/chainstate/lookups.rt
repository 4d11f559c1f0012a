//! What is asked of a chainstate's blocks, by their ids.

ghost use Rattle.std.specs.Prelude.{◌≡◌, ◌≤◌, IfOk, IfSome};
ghost use Rattle.signatures.specs.Triple.{Triples};
ghost use Rattle.tree.specs.Limits.{max_blocks};
ghost use Rattle.model.specs.Regtest.{regtest};
ghost use Rattle.activate.specs.CoreState.{IsChainstate};
ghost use Rattle.activate.specs.Lookups.{active_id, ancestor_of, confirmations, fork_of, header_of, height_of, spent_by};

use crate::chainstate::Chainstate;
use hash::Id;
use std::alloc::Global;
use undo::BlockUndo;
use wire::Memory;

impl Chainstate {
    /// The id of the active block at a height (Bitcoin Core's `getblockhash`). It costs nothing that grows with the chain.
    pub fn id_at(&self, height: usize) -> Option<Id>
        ensures { (triples : Triples) → IsChainstate self.now triples → let c = self.now.core in
            result ≡ active_id (regtest c.params triples) c.state height }
    {
        self.core.id_at(height)
    }

    /// The height of the block with this id, on whatever branch it is.
    pub fn height_of(&self, id: &Id) -> Option<usize>
        ensures { result ≡ height_of self.now.core.state.blocks id.now }
    {
        self.core.height_of(id)
    }

    /// The 80 bytes of the header of the block with this id, on whatever branch it is.
    pub fn header(&self, id: &Id) -> Option<[u8; 80]>
        ensures { result ≡ header_of self.now.core.state.blocks id.now }
    {
        self.core.header(id)
    }

    /// How many active blocks there are from the one with this id on, with both ends: 1 of the active block itself. None
    /// where it isn't active.
    pub fn confirmations(&self, id: &Id) -> Option<usize>
        ensures value { (triples : Triples) → IsChainstate self.now triples
            → let c = self.now.core in
            result ≡ confirmations (regtest c.params triples) c.state id.now }
        ensures few { IfSome result (λ count. count ≤ max_blocks) }
    {
        self.core.confirmations(id)
    }

    /// The id of the block at a height of the branch of the block with this id. It walks the branch down to there.
    pub fn ancestor(&self, id: &Id, height: usize) -> Option<Id>
        ensures { result ≡ ancestor_of self.now.core.state.blocks id.now height }
    {
        self.core.ancestor(id, height)
    }

    /// The id of the last block that the branches of two blocks share. It walks both branches down to there.
    pub fn fork(&self, one: &Id, other: &Id) -> Option<Id>
        ensures { result ≡ fork_of self.now.core.state.blocks one.now other.now }
    {
        self.core.fork(one, other)
    }

    /// The coins that the block with this id spent, transaction by transaction from the second on (Bitcoin Core's undo
    /// files). None where the block isn't active; of genesis an empty list.
    pub fn spent(&self, alloc: Global, id: &Id) -> Result<Option<BlockUndo>, Memory>
        ensures { (triples : Triples) → IsChainstate self.now triples → let c = self.now.core in
            IfOk result (λ found.
            found ≡ spent_by (regtest c.params triples) c.state id.now) }
    {
        self.core.spent(alloc, id)
    }
}
