//! The tips of a tree, in their order.

ghost use Rattle.std.specs.Prelude.{◌≡◌, ◌≤◌, ◌==◌, ◌&&◌, nat_lt, length, slice_index, map, reverse, filter, if◌then◌else◌, ◌++◌, ◌∷◌, [], IfOk};
ghost use Rattle.tree.specs.Branches.{places, branch};
ghost use Rattle.tree.specs.Names.{names};
ghost use Rattle.tree.specs.inside.Tops.{top_at};
ghost use Rattle.tree.specs.inside.Leaves.{AreLeaves, is_leaf};
ghost use Rattle.tree.specs.Tips.{goes_first, is_tip, sort_places, tip_of_id, status, tip};

use crate::tip::{Status, Tip};
use crate::tip_order::Top;
use crate::tree::{MAX_BLOCKS, Tree};
use std::alloc::Global;
use std::collections::HashSet;
use wire::Memory;

/// The tips beside the active block `best`: by height downwards, then by arrival.
pub(crate) fn tops(alloc: Global, tree: &Tree, best: usize) -> Result<Vec<Top>, Memory>
    requires { best ≤ length tree.now.blocks }
    ensures { let t = tree.now.blocks in
        IfOk result (λ tops. tops.items ≡
        map (top_at t) (sort_places (goes_first t) (filter (is_tip t best) (places t)))) }
{
    let mut tops = all_tops(alloc, tree, tree.leaves(), best)?;
    tops.sort_unstable();
    Ok(tops)
}

/// The leaves, and the active block if it is none.
fn all_tops(
    alloc: Global,
    tree: &Tree,
    leaves: &HashSet<usize>,
    best: usize,
) -> Result<Vec<Top>, Memory>
    requires kept { best ≤ length tree.now.blocks }
    requires leaves { AreLeaves tree.now.blocks leaves.now.keys }
    ensures { let t = tree.now.blocks in
        IfOk result (λ tops. tops.items ≡
        map (top_at t) (leaves.now.keys ++ (if is_leaf t best then [] else best ∷ []))) }
{
    let mut tops = Vec::new(alloc);
    for place in leaves {
        tops.push(top(tree, *place))?;
    }
    if !tree.is_leaf(best) {
        tops.push(top(tree, best))?;
    }
    Ok(tops)
}

fn top(tree: &Tree, place: usize) -> Top
    requires { place ≤ length tree.now.blocks }
    ensures { result ≡ top_at tree.now.blocks place }
{
    Top {
        depth: MAX_BLOCKS.saturating_sub(tree.height(place)),
        place,
    }
}

/// What is said of the tip at this place, `active` being the branch of `best` from genesis on.
pub(crate) fn tip_at(tree: &Tree, best: usize, active: &[usize], place: usize) -> Tip
    requires best { best ≤ length tree.now.blocks }
    requires active { active.now ≡ reverse (branch tree.now.blocks best) }
    requires kept { place ≤ length tree.now.blocks }
    ensures { result ≡ tip_of_id (tip names tree.now best place) }
{
    let mut shared = place;
    'down: loop {
        let height = tree.height(shared);
        if stands_at(active, height, shared) {
            return Tip {
                id: tree.id(place),
                height: tree.height(place),
                length: tree.height(place) - height,
                status: status_of(tree, best, place),
            };
        }
        shared = tree.parent(shared);
    }
}

/// Whether this block is at this height of a branch.
fn stands_at(branch: &[usize], height: usize, place: usize) -> bool
    ensures { result ≡ (nat_lt height (length branch.now) &&
        (slice_index branch.now height == place)) }
{
    height < branch.len() && branch[height] == place
}

fn status_of(tree: &Tree, best: usize, place: usize) -> Status
    requires { place ≤ length tree.now.blocks }
    ensures { result ≡ status tree.now best place }
{
    if place == best {
        Status::Active
    } else if !tree.usable(place) {
        Status::Invalid
    } else if tree.seen(place) {
        Status::ValidFork
    } else {
        Status::ValidHeaders
    }
}
