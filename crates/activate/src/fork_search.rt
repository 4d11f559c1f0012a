//! Where two branches part.

ghost use Rattle.std.specs.Prelude.{◌≡◌, ◌≤◌, ◌<◌, ◌==◌, ◌&&◌, nat_lt, length, slice_index, reverse, IfOk};
ghost use Rattle.tree.specs.Branches as branches;
ghost use Rattle.tree.specs.Limits.{max_blocks};
ghost use Rattle.activate.specs.inside.Paths.{IsPath};

use crate::path::{ActiveBranch, BranchPath};
use std::alloc::Global;
use wire::Memory;

/// The path from the active block to another one. It walks the other one's branch down to the active one (Bitcoin
/// Core's `CChain::FindFork`).
pub(crate) fn path_to(
    alloc: Global,
    active_branch: &ActiveBranch<'_>,
    place: usize,
) -> Result<BranchPath, Memory>
    requires active { active_branch.now.active ≤ length active_branch.now.tree.now.blocks }
    requires branch { let b = active_branch.now in
        b.branch.now ≡ reverse (branches.branch b.tree.now.blocks b.active) }
    requires place { place ≤ length active_branch.now.tree.now.blocks }
    ensures path { let b = active_branch.now in
        IfOk result (λ path. IsPath b.tree.now.blocks b.active place path) }
    ensures few { IfOk result (λ path. path.height < max_blocks) }
{
    let tree = active_branch.tree;
    let branch = active_branch.branch;
    let mut up = Vec::new(alloc);
    let mut next = place;
    'down: loop {
        let height = tree.height(next);
        if stands_at(branch, height, next) {
            return Ok(BranchPath {
                fork: next,
                height,
                up,
            });
        }
        up.push(next)?;
        next = tree.parent(next);
    }
}

/// Whether this block is at this height of a branch.
pub(crate) fn stands_at(branch: &[usize], height: usize, place: usize) -> bool
    ensures { result
        ≡ (nat_lt height (length branch.now) && (slice_index branch.now height == place)) }
{
    height < branch.len() && branch[height] == place
}
