//! What the tree keeps of a block.

use block::StoredBlock;
use hash::Id;

/// What is kept of a block and never changes (Bitcoin Core's `CBlockIndex`).
#[derive(Debug, Drop)]
pub(crate) struct BlockIndex {
    pub(crate) block: StoredBlock,
    pub(crate) id: Id,
    /// The place of its parent; 0 for genesis.
    pub(crate) parent: usize,
    pub(crate) height: usize,
    /// The median time past, in seconds since 1970.
    pub(crate) median: u32,
}

/// What is kept of a block and changes (Bitcoin Core's `nStatus`).
#[derive(Clone, Copy, Debug)]
pub(crate) struct Mark {
    /// It is marked as invalid.
    pub(crate) bad: bool,
    /// It was found valid once.
    pub(crate) seen: bool,
    /// No block of its branch is marked.
    pub(crate) usable: bool,
    /// The number of the last call that named it precious, from 1; 0 where none did.
    pub(crate) rank: usize,
}
