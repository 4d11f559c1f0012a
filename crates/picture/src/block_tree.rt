//! The tree that is drawn.

use crate::status::BlockStatus;
use std::alloc::{AllocError, Global};

/// A block that is drawn.
#[derive(Drop)]
pub struct TreeBlock {
    /// Its name, or what is shown in place of one.
    pub label: String,
    pub status: BlockStatus,
    /// Whether it is marked itself, and not only a block below it.
    pub is_marked: bool,
}

/// A block at its place: its parent, and its children, linked in the order in which they came.
#[derive(Drop)]
pub(crate) struct PlacedBlock {
    pub block: TreeBlock,
    pub height: usize,
    /// None for the block that all others are built on.
    pub parent: Option<usize>,
    pub first_child: Option<usize>,
    last_child: Option<usize>,
    pub next_sibling: Option<usize>,
}

/// A tree of blocks, each by the place at which it came.
#[derive(Drop)]
pub struct BlockTree {
    nodes: Vec<PlacedBlock>,
    top: usize,
}

impl BlockTree {
    /// The block that all others are built on, at place 0 and height 0.
    pub fn new(alloc: Global, genesis: TreeBlock) -> Result<BlockTree, AllocError> {
        let mut nodes = Vec::new(alloc);
        nodes.push(PlacedBlock::new(genesis, 0, None))?;
        Ok(BlockTree { nodes, top: 0 })
    }

    /// Adds a block on the one of a place, and gives its own; none, where there is no such block.
    pub fn add(&mut self, parent: usize, block: TreeBlock) -> Result<Option<usize>, AllocError> {
        let place = self.nodes.len();
        let Some(below) = self.nodes.get(parent) else {
            return Ok(None);
        };
        let before = below.last_child;
        let height = below.height.saturating_add(1);
        self.nodes
            .push(PlacedBlock::new(block, height, Some(parent)))?;
        self.top = self.top.max(height);
        if let Some(below) = self.nodes.get_mut(parent) {
            below.last_child = Some(place);
            if before.is_none() {
                below.first_child = Some(place);
            }
        }
        if let Some(before) = before {
            if let Some(sibling) = self.nodes.get_mut(before) {
                sibling.next_sibling = Some(place);
            }
        }
        Ok(Some(place))
    }

    /// How many blocks there are.
    pub fn len(&self) -> usize {
        self.nodes.len()
    }

    /// The height of its highest block, of whatever status.
    pub fn top(&self) -> usize {
        self.top
    }

    pub(crate) fn node(&self, place: usize) -> Option<&PlacedBlock> {
        self.nodes.get(place)
    }

    /// The places of the blocks on the one of a place, as they came.
    pub(crate) fn children(&self, alloc: Global, place: usize) -> Result<Vec<usize>, AllocError> {
        let mut children = Vec::new(alloc);
        let mut next = match self.node(place) {
            Some(node) => node.first_child,
            None => None,
        };
        for _ in 0..self.nodes.len() {
            let Some(child) = next else {
                break;
            };
            children.push(child)?;
            next = match self.node(child) {
                Some(node) => node.next_sibling,
                None => None,
            };
        }
        Ok(children)
    }
}

impl PlacedBlock {
    fn new(block: TreeBlock, height: usize, parent: Option<usize>) -> PlacedBlock {
        PlacedBlock {
            block,
            height,
            parent,
            first_child: None,
            last_child: None,
            next_sibling: None,
        }
    }
}
