//! The blocks of the active branch, taken back from the coins.

ghost use Rattle.std.specs.Prelude.{◌≡◌, ◌<◌, ◌-◌, true, length, IfOk, IfSome};
ghost use Rattle.tree.specs.Branches.{on};
ghost use Rattle.activate.specs.CoreState.{coins_after};
ghost use Rattle.activate.specs.Lookups.{undo_at};
ghost use Rattle.activate.specs.inside.Paths.{AreConnected, IsActiveBranch};
ghost use Rattle.activate.specs.inside.Disconnection.{place_at, CanDisconnect};

use crate::path::ActiveBranch;
use coins::{Base, Cache};
use connect::disconnect_in_layer;
use std::alloc::Global;
use undo::BlockUndo;
use wire::Memory;

/// Takes the active blocks above the fork back from the coins (Bitcoin Core's `DisconnectTip`), the highest first.
/// Out of memory, it drops the layer.
pub(crate) fn disconnect_to_fork<'b, B: Base>(
    alloc: Global,
    active_branch: &ActiveBranch<'_>,
    layer: Cache<'b, B>,
    fork: usize,
) -> Result<Cache<'b, B>, Memory>
    requires active { IsActiveBranch active_branch.now layer.coins }
    requires on { let b = active_branch.now in on b.tree.now.blocks b.active fork ≡ true }
    requires connected { let b = active_branch.now in AreConnected b.tree.now.blocks b.active }
    ensures coins { IfOk result (λ left.
        left.coins ≡ coins_after active_branch.now.tree.now.blocks fork) }
    ensures base { IfOk result (λ left. left.base ≡ layer.entry.base) }
{
    let tree = active_branch.tree;
    let (low, top) = (tree.height(fork), tree.height(active_branch.active));
    let mut left = layer;
    for done in 0..top - low {
        left = disconnect_tip(alloc, active_branch, left, top - done)?;
    }
    Ok(left)
}

/// Takes the active block at a height back.
fn disconnect_tip<'b, B: Base>(
    alloc: Global,
    active_branch: &ActiveBranch<'_>,
    layer: Cache<'b, B>,
    height: usize,
) -> Result<Cache<'b, B>, Memory>
    requires branch { let b = active_branch.now in
        CanDisconnect b.tree.now.blocks b.branch.now b.undo.now.items b.packed.now }
    requires above { 0 < height }
    requires inside { height < length active_branch.now.branch.now }
    requires coins { let b = active_branch.now in
        layer.coins ≡ coins_after b.tree.now.blocks (place_at b.branch.now height) }
    ensures coins { let b = active_branch.now in IfOk result (λ left.
        left.coins ≡ coins_after b.tree.now.blocks (place_at b.branch.now (height - 1))) }
    ensures base { IfOk result (λ left. left.base ≡ layer.entry.base) }
{
    let place = active_branch.branch[height];
    let (block, ids) = active_branch.tree.block(place).read_with_ids(alloc)?;
    match highest_undo(active_branch, height) {
        Some(undo) => disconnect_in_layer(alloc, layer, &block, &ids, undo),
        None => {
            let undo = active_branch.packed[height - 1].unpack(alloc)?;
            disconnect_in_layer(alloc, layer, &block, &ids, &undo)
        }
    }
}

/// What the active block at a height spent, if it is one of the highest, of which that is kept as it is.
fn highest_undo<'a>(active_branch: &ActiveBranch<'a>, height: usize) -> Option<&'a BlockUndo>
    requires branch { let b = active_branch.now in
        CanDisconnect b.tree.now.blocks b.branch.now b.undo.now.items b.packed.now }
    ensures { let b = active_branch.now in IfSome result (λ undo.
        undo.now ≡ undo_at b.tree.now.blocks (place_at b.branch.now height)) }
{
    let undo = active_branch.undo;
    // It is kept of the blocks above this height.
    let low = active_branch.packed.len() - undo.len();
    if height <= low {
        return None;
    }
    undo.get(height - low - 1)
}
