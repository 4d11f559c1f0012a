//! How a block is added.

ghost use Rattle.std.specs.Prelude.{◌≡◌, ℕ, ◌<◌, ◌==◌, nat_eq, if◌then◌else◌, true, false, length, OnOk, Some, ◌∷◌};
ghost use Rattle.std.specs.HashMap.{get, spare};
ghost use Rattle.std.specs.HashSet as set;
ghost use Rattle.hash.specs.declared.id.Id.{Id};
ghost use Rattle.block.specs.Identity.{id_of};
ghost use Rattle.tree.specs.Limits.{max_blocks};
ghost use Rattle.hash.specs.Id.{same_id};
ghost use Rattle.tree.specs.Nodes.{blocks_of, kept_of};
ghost use Rattle.tree.specs.inside.Nodes.{AreNodes, IsNode};

use crate::block_index::BlockIndex;
use crate::median_time::median_on;
use block::StoredBlock;
use hash::Id;
use std::alloc::AllocError;
use std::collections::{HashMap, HashSet};

/// The node of a new block on this parent.
pub(crate) fn node_on(nodes: &[BlockIndex], block: StoredBlock, id: Id, parent: usize) -> BlockIndex
    requires nodes { AreNodes (blocks_of nodes.now) nodes.now }
    requires kept { parent < length nodes.now }
    requires room { length nodes.now < max_blocks }
    requires id { id ≡ id_of block.header }
    ensures kept { kept_of result ≡ record { block = block; parent = parent } }
    ensures node { let t = blocks_of nodes.now in
        IsNode (kept_of result ∷ t) (length nodes.now) result }
{
    let height = nodes[parent].height + 1;
    let median = median_on(nodes, parent, block.time());
    BlockIndex {
        block,
        id,
        parent,
        height,
        median,
    }
}

/// Room for the id of one block more, and for one leaf more. What is kept stays.
pub(crate) fn reserve_leaf(
    ids: &mut HashMap<Id, usize>,
    leaves: &mut HashSet<usize>,
) -> Result<(), AllocError>
    ensures ids { (i : Id) → get same_id ids.new i ≡ get same_id ids.old i }
    ensures leaves { (p : ℕ) → set.contains nat_eq leaves.new p ≡ set.contains nat_eq leaves.old p }
    ensures once { set.IsUnique nat_eq leaves.new }
    ensures room { OnOk result (0 < spare ids.new) }
    ensures room_too { OnOk result (0 < set.spare leaves.new) }
{
    leaves.reserve(1)?;
    ids.reserve(1)
}

/// Notes the id of a new block, and that it is a leaf and its parent is none. There is room for both.
pub(crate) fn enter(
    ids: &mut HashMap<Id, usize>,
    leaves: &mut HashSet<usize>,
    id: Id,
    parent: usize,
    place: usize,
)
    requires ids { 0 < spare ids.old }
    requires leaves { 0 < set.spare leaves.old }
    ensures ids { (i : Id) → get same_id ids.new i ≡
        (if same_id id i then Some place else get same_id ids.old i) }
    ensures leaves { (p : ℕ) → set.contains nat_eq leaves.new p ≡
        (if place == p then true
        else if parent == p then false else set.contains nat_eq leaves.old p) }
    ensures once { set.IsUnique nat_eq leaves.new }
{
    match ids.insert(id, place) {
        Ok(_) => {}
        Err(_) => unreachable!(),
    }
    leaves.remove(&parent);
    match leaves.insert(place) {
        Ok(_) => {}
        Err(_) => unreachable!(),
    }
}
