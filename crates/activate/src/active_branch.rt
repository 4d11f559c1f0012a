//! What is kept of the active branch by height, led over to another branch.

ghost use Rattle.std.specs.Prelude.{◌≡◌, ◌≤◌, ◌+◌, ◌-◌, ◌++◌, All, length, map, reverse, vec_capacity};
ghost use Rattle.std.specs.VecDeque.{deque_capacity};
ghost use Rattle.activate.specs.inside.ActiveBranch.{median_at, last_of};
ghost use Rattle.activate.specs.CoreState.{most_undo};

use std::collections::VecDeque;
use tree::Tree;
use undo::{BlockUndo, PackedUndo};

/// Of how many blocks undo is kept at most (Bitcoin Core's `MIN_BLOCKS_TO_KEEP`).
pub const MOST_UNDO: usize = 288;

/// Adds these places and their medians, the last one first.
pub(crate) fn append_places(
    tree: &Tree,
    up: &[usize],
    branch: &mut Vec<usize>,
    medians: &mut Vec<u32>,
)
    requires kept { All (λ p. p ≤ length tree.now.blocks) up.now }
    requires places { length branch.old.items + length up.now ≤ vec_capacity branch.old }
    requires medians { length medians.old.items + length up.now ≤ vec_capacity medians.old }
    ensures branch { branch.new.items ≡ branch.old.items ++ reverse up.now }
    ensures medians { medians.new.items
        ≡ medians.old.items ++ reverse (map (median_at tree.now.blocks) up.now) }
    ensures room { vec_capacity branch.new ≡ vec_capacity branch.old }
    ensures room_too { vec_capacity medians.new ≡ vec_capacity medians.old }
{
    for index in 0..up.len() {
        let place = up[up.len() - 1 - index];
        branch.push_reserved(place);
        medians.push_reserved(tree.median(place));
    }
}

/// Adds what further blocks spend, the lowest first, and lets go what lies too deep.
pub(crate) fn keep_undo(kept: &mut VecDeque<BlockUndo>, more: Vec<BlockUndo>)
    requires few { length kept.old.items ≤ most_undo }
    requires room { most_undo ≤ deque_capacity kept.old }
    ensures kept { kept.new.items ≡ last_of most_undo (kept.old.items ++ more.items) }
    ensures room { deque_capacity kept.new ≡ deque_capacity kept.old }
{
    for undo in more {
        drop_oldest(kept);
        kept.push_back_reserved(undo);
    }
}

/// Adds what further blocks spend, packed, the lowest first.
pub(crate) fn append_packed(kept: &mut Vec<PackedUndo>, more: Vec<PackedUndo>)
    requires room { length kept.old.items + length more.items ≤ vec_capacity kept.old }
    ensures kept { kept.new.items ≡ kept.old.items ++ more.items }
    ensures room { vec_capacity kept.new ≡ vec_capacity kept.old }
{
    for undo in more {
        kept.push_reserved(undo);
    }
}

/// Lets the lowest go where no more can be kept.
fn drop_oldest(kept: &mut VecDeque<BlockUndo>)
    requires { length kept.old.items ≤ most_undo }
    ensures kept { kept.new.items ≡ last_of (most_undo - 1) kept.old.items }
    ensures room { deque_capacity kept.new ≡ deque_capacity kept.old }
{
    if kept.len() >= MOST_UNDO {
        kept.pop_front();
    }
}
