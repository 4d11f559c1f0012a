//! What is asked of kept blocks, by their places.

ghost use Rattle.std.specs.Prelude.{◌≡◌, ◌≤◌, length, slice_get, IfOk, IfSome};
ghost use Rattle.std.specs.Option.{option_and_then, option_map};
ghost use Rattle.tree.specs.Branches.{id_at, place_of};
ghost use Rattle.tree.specs.Limits.{max_blocks};
ghost use Rattle.tree.specs.Names.{names};
ghost use Rattle.tree.specs.Tips.{last_shared};
ghost use Rattle.activate.specs.Lookups.{ancestor_at, ancestor_of, depth_at, fork_of, header_of, height_of, spent_at};
ghost use Rattle.activate.specs.inside.Heights.{AreByHeight};

use crate::fork_search::stands_at;
use crate::headers::header_bytes;
use hash::Id;
use std::alloc::Global;
use tree::Tree;
use undo::{BlockUndo, PackedUndo};
use wire::Memory;

/// The active branch by height: its places, and what its blocks but genesis spent.
#[derive(Clone, Copy)]
pub(crate) struct ActiveBlocks<'a> {
    pub(crate) tree: &'a Tree,
    pub(crate) active: usize,
    pub(crate) branch: &'a [usize],
    pub(crate) packed: &'a [PackedUndo],
}

/// The place of the block with this id.
fn place_of(tree: &Tree, id: &Id) -> Option<usize>
    ensures value { result ≡ place_of names tree.now.blocks id.now }
    ensures kept { IfSome result (λ place. place ≤ length tree.now.blocks) }
{
    tree.find(id)
}

/// The place at a height of a branch.
fn place_at(branch: &[usize], height: usize) -> Option<usize>
    ensures { result ≡ slice_get branch.now height }
{
    branch.get(height).copied()
}

/// The height of the block with this id, on whatever branch it is.
pub fn height_of(tree: &Tree, id: &Id) -> Option<usize>
    ensures { result ≡ height_of tree.now.blocks id.now }
{
    match place_of(tree, id) {
        Some(place) => Some(tree.height(place)),
        None => None,
    }
}

/// The 80 bytes of the header of the block with this id.
pub fn header_of(tree: &Tree, id: &Id) -> Option<[u8; 80]>
    ensures { result ≡ header_of tree.now.blocks id.now }
{
    match place_of(tree, id) {
        Some(place) => Some(header_bytes(tree.block(place))),
        None => None,
    }
}

/// The id of the block at a height of the branch of the block with this id. It walks the branch down to there.
pub fn ancestor_of(tree: &Tree, id: &Id, height: usize) -> Option<Id>
    ensures { result ≡ ancestor_of tree.now.blocks id.now height }
{
    let place = place_of(tree, id)?;
    match ancestor(tree, place, height) {
        Some(found) => Some(tree.id(found)),
        None => None,
    }
}

/// The id of the last block that the branches of two blocks share.
pub fn fork_of(tree: &Tree, one: &Id, other: &Id) -> Option<Id>
    ensures { result ≡ fork_of tree.now.blocks one.now other.now }
{
    let left = place_of(tree, one)?;
    let right = place_of(tree, other)?;
    let shared = fork(tree, left, right);
    Some(tree.id(shared))
}

/// The block of a branch at a height. It walks the branch down to there.
fn ancestor(tree: &Tree, place: usize, height: usize) -> Option<usize>
    requires { place ≤ length tree.now.blocks }
    ensures value { result ≡ ancestor_at tree.now.blocks place height }
    ensures kept { IfSome result (λ found. found ≤ length tree.now.blocks) }
{
    let mut next = place;
    'down: loop {
        let found = tree.height(next);
        if found < height {
            return None;
        }
        if found == height {
            return Some(next);
        }
        next = tree.parent(next);
    }
}

/// The last block that two branches share. Of two that differ, the one that came later isn't on the other's branch.
fn fork(tree: &Tree, one: usize, other: usize) -> usize
    requires one { one ≤ length tree.now.blocks }
    requires other { other ≤ length tree.now.blocks }
    ensures value { result ≡ last_shared tree.now.blocks one other }
    ensures kept { result ≤ length tree.now.blocks }
{
    let mut left = one;
    let mut right = other;
    'down: loop {
        if left == right {
            return left;
        }
        if left < right {
            right = tree.parent(right);
        } else {
            left = tree.parent(left);
        }
    }
}

impl<'a> ActiveBlocks<'a> {
    /// The id of the active block at a height.
    pub(crate) fn id(&self, height: usize) -> Option<Id>
        requires { AreByHeight self.now }
        ensures { let b = self.now in let t = b.tree.now.blocks in
            result ≡ option_map (id_at names t) (ancestor_at t b.active height) }
    {
        match place_at(self.branch, height) {
            Some(place) => Some(self.tree.id(place)),
            None => None,
        }
    }

    /// How many active blocks there are from the one with this id on, with both ends; none where it isn't active.
    pub(crate) fn confirmations(&self, id: &Id) -> Option<usize>
        requires { AreByHeight self.now }
        ensures value { let b = self.now in let t = b.tree.now.blocks in
            result ≡ option_and_then (depth_at t b.active) (place_of names t id.now) }
        ensures few { IfSome result (λ count. count ≤ max_blocks) }
    {
        match place_of(self.tree, id) {
            Some(place) => self.depth(place),
            None => None,
        }
    }

    /// What the block with this id spent; none where it isn't active.
    pub(crate) fn spent(&self, alloc: Global, id: &Id) -> Result<Option<BlockUndo>, Memory>
        requires { AreByHeight self.now }
        ensures { let b = self.now in let t = b.tree.now.blocks in IfOk result (λ found.
            found ≡ option_and_then (spent_at t b.active) (place_of names t id.now)) }
    {
        match place_of(self.tree, id) {
            Some(place) => self.spent_at(alloc, place),
            None => Ok(None),
        }
    }

    /// How many active blocks there are from this one on, with both ends; none where it isn't active.
    fn depth(&self, place: usize) -> Option<usize>
        requires branch { AreByHeight self.now }
        requires place { place ≤ length self.now.tree.now.blocks }
        ensures value { let b = self.now in
            result ≡ depth_at b.tree.now.blocks b.active place }
        ensures few { IfSome result (λ count. count ≤ max_blocks) }
    {
        let height = self.tree.height(place);
        if !stands_at(self.branch, height, place) {
            return None;
        }
        Some(self.tree.height(self.active) - height + 1)
    }

    /// What the block at a place spent; none where it isn't active.
    fn spent_at(&self, alloc: Global, place: usize) -> Result<Option<BlockUndo>, Memory>
        requires branch { AreByHeight self.now }
        requires place { place ≤ length self.now.tree.now.blocks }
        ensures { let b = self.now in IfOk result (λ found.
            found ≡ spent_at b.tree.now.blocks b.active place) }
    {
        let height = self.tree.height(place);
        if !stands_at(self.branch, height, place) {
            return Ok(None);
        }
        // Genesis has no transactions here.
        if height == 0 {
            return Ok(Some(BlockUndo::new(alloc)));
        }
        let undo = self.packed[height - 1].unpack(alloc)?;
        Ok(Some(undo))
    }
}
