//! The genesis block, as the tree keeps it.

ghost use Rattle.std.specs.Prelude.{◌≡◌};
ghost use Rattle.tree.specs.inside.Nodes.{first_node};

use crate::block_index::BlockIndex;
use block::{GENESIS_ID, GENESIS_TIME, StoredBlock};

pub(crate) fn genesis_node() -> BlockIndex
    ensures { result ≡ first_node }
{
    BlockIndex {
        block: StoredBlock::genesis(),
        id: GENESIS_ID,
        parent: 0,
        height: 0,
        median: GENESIS_TIME,
    }
}
