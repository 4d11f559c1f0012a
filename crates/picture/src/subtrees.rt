//! Each block with what is built on it.

use crate::block_tree::{BlockTree, PlacedBlock};
use crate::status::BlockStatus;
use std::alloc::{AllocError, Global};

/// A block and all that is built on it.
#[derive(Clone, Copy)]
pub struct Subtree {
    /// How many blocks these are.
    pub count: usize,
    /// How many of them nothing is built on.
    pub tips: usize,
    /// The place of the highest, of several the first that came.
    pub top: usize,
    /// Its height.
    pub height: usize,
    /// None where they differ.
    pub status: Option<BlockStatus>,
    /// Whether one of them is marked itself.
    pub is_marked: bool,
}

impl Subtree {
    fn of_one(place: usize, node: &PlacedBlock) -> Subtree {
        Subtree {
            count: 1,
            tips: usize::from(node.first_child.is_none()),
            top: place,
            height: node.height,
            status: Some(node.block.status),
            is_marked: node.block.is_marked,
        }
    }

    /// With what stands on one more block on this one, which came before those that are here.
    fn with(self, other: Subtree) -> Subtree {
        let (top, height) = if other.height >= self.height {
            (other.top, other.height)
        } else {
            (self.top, self.height)
        };
        Subtree {
            count: self.count.saturating_add(other.count),
            tips: self.tips.saturating_add(other.tips),
            top,
            height,
            status: if self.status == other.status {
                self.status
            } else {
                None
            },
            is_marked: self.is_marked || other.is_marked,
        }
    }
}

/// That of each block of a tree, by its place. A block comes behind its parent, so each is whole when it is
/// counted in.
pub fn all_subtrees(alloc: Global, tree: &BlockTree) -> Result<Vec<Subtree>, AllocError> {
    let mut all = ones(alloc, tree)?;
    for place in (0..tree.len()).rev() {
        let Some(parent) = parent_of(tree, place) else {
            continue;
        };
        if let (Some(own), Some(below)) = (all.get(place).copied(), all.get(parent).copied()) {
            if let Some(sum) = all.get_mut(parent) {
                *sum = below.with(own);
            }
        }
    }
    Ok(all)
}

fn ones(alloc: Global, tree: &BlockTree) -> Result<Vec<Subtree>, AllocError> {
    let mut all = Vec::new(alloc);
    for place in 0..tree.len() {
        if let Some(node) = tree.node(place) {
            all.push(Subtree::of_one(place, node))?;
        }
    }
    Ok(all)
}

fn parent_of(tree: &BlockTree, place: usize) -> Option<usize> {
    tree.node(place)?.parent
}
