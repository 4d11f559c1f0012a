//! The blocks that are kept, in the order of arrival, genesis first.

ghost use Rattle.std.specs.Prelude.{◌≡◌, ◌<◌, length, IfOk};
ghost use Rattle.tree.specs.Branches.{branch, place_of};
ghost use Rattle.tree.specs.Names.{names};
ghost use Rattle.reference.specs.inside.Replay.{AreKeptBlocks, blocks_of};

use crate::branch_replay::Trial;
use block::Block;
use hash::Id;
use std::alloc::Global;
use wire::Memory;

/// A block that is kept.
#[derive(Drop)]
pub(crate) struct KeptBlock {
    pub(crate) block: Block,
    pub(crate) id: Id,
    /// The place of its parent; 0 for genesis.
    pub(crate) parent: usize,
    /// The outcome of the replay of its branch. It is a function of the branch, so it was found when the block came.
    pub(crate) trial: Trial,
}

/// The places from this one down to genesis.
pub(crate) fn branch_of(
    alloc: Global,
    held: &[KeptBlock],
    place: usize,
) -> Result<Vec<usize>, Memory>
    requires held { AreKeptBlocks (blocks_of held.now) held.now }
    requires kept { place < length held.now }
    ensures { IfOk result (λ places. places.items ≡ branch (blocks_of held.now) place) }
{
    let mut places = Vec::new(alloc);
    let mut next = place;
    'down: loop {
        places.push(next)?;
        if next == 0 {
            return Ok(places);
        }
        next = held[next].parent;
    }
}

/// The place of the block with this id.
pub(crate) fn find(held: &[KeptBlock], id: &Id) -> Option<usize>
    requires some { 0 < length held.now }
    requires held { AreKeptBlocks (blocks_of held.now) held.now }
    ensures { result ≡ place_of names (blocks_of held.now) id.now }
{
    let mut found = None;
    for place in 0..held.len() {
        if held[place].id.cmp(id).is_eq() {
            found = Some(place);
        }
    }
    found
}
