//! Walks along a branch.

ghost use Rattle.std.specs.Prelude.{◌≡◌, ◌<◌, length, IfOk};
ghost use Rattle.tree.specs.Branches.{branch};
ghost use Rattle.tree.specs.Nodes.{blocks_of};
ghost use Rattle.tree.specs.inside.Nodes.{AreNodes};

use crate::block_index::BlockIndex;
use std::alloc::Global;
use wire::Memory;

/// The places from this one down to genesis.
pub(crate) fn branch_of(
    alloc: Global,
    nodes: &[BlockIndex],
    place: usize,
) -> Result<Vec<usize>, Memory>
    requires nodes { AreNodes (blocks_of nodes.now) nodes.now }
    requires kept { place < length nodes.now }
    ensures { IfOk result (λ places. places.items ≡ branch (blocks_of nodes.now) place) }
{
    let mut places = Vec::new(alloc);
    let mut next = place;
    'down: loop {
        places.push(next)?;
        if next == 0 {
            return Ok(places);
        }
        next = nodes[next].parent;
    }
}
