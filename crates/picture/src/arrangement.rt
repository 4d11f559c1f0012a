//! The pieces of a picture: blocks by themselves, and blocks that are drawn as one.

use crate::block_tree::{BlockTree, PlacedBlock};
use crate::starts::{Branching, Order, PieceStart, What, add_roots, add_starts, stub_of};
use crate::status::{BlockStatus, Look};
use crate::subtrees::{Subtree, all_subtrees};
use std::alloc::{AllocError, Global};

/// Fewer blocks than these are drawn each by itself.
const MIN_RUN: usize = 4;

/// A block; a run: blocks one on the other, without another child, of one status and none marked; a branch that is
/// folded, with all that is on it; or a stub.
#[derive(Drop)]
pub struct Piece<'t> {
    pub first: &'t PlacedBlock,
    /// The highest of its blocks.
    pub last: &'t PlacedBlock,
    /// How many blocks it has.
    pub count: usize,
    /// On how many of them nothing is built, of a folded branch; of others 1.
    pub tips: usize,
    pub look: Look,
    pub is_marked: bool,
    /// Whether it is the highest of the active branch.
    pub is_best: bool,
    pub at: At,
    /// What is written before it on a terminal.
    pub lead: String,
}

/// Where a piece is.
#[derive(Clone, Copy)]
pub struct At {
    /// The heights of the columns in which it begins and ends.
    pub first: usize,
    pub last: usize,
    /// The line of pieces that it is in; they are counted as they begin.
    pub line: usize,
    /// The place of the piece that it is built on, of which it is drawn.
    pub below: Option<usize>,
}

/// How the pieces of a tree are found.
#[derive(Clone, Copy)]
pub struct PieceSearch {
    /// From which height on.
    pub from: usize,
    /// Whether a branch beside the active one is one piece, and each piece is in one column.
    pub is_folded: bool,
    pub order: Order,
}

/// The pieces that were found, and those to come.
#[derive(Drop)]
struct Finder<'t> {
    alloc: Global,
    tree: &'t BlockTree,
    finding: PieceSearch,
    subtrees: Vec<Subtree>,
    pieces: Vec<Piece<'t>>,
    starts: Vec<PieceStart>,
    /// How many lines of pieces have begun.
    lines: usize,
}

/// The pieces of a tree.
pub fn pieces<'t>(
    alloc: Global,
    tree: &'t BlockTree,
    finding: PieceSearch,
) -> Result<Vec<Piece<'t>>, AllocError> {
    let mut finder = Finder {
        alloc,
        tree,
        finding,
        subtrees: all_subtrees(alloc, tree)?,
        pieces: Vec::new(alloc),
        starts: Vec::new(alloc),
        lines: 0,
    };
    add_roots(alloc, tree, finding.from, finding.order, &mut finder.starts)?;
    // Each piece has a block at least, or is the stub of one.
    for _ in 0..tree.len().saturating_mul(2) {
        let Some(start) = finder.starts.pop() else {
            break;
        };
        finder.take(start)?;
    }
    let Finder { pieces, .. } = finder;
    Ok(pieces)
}

impl<'t> Finder<'t> {
    /// Takes a piece, and adds those on it to those to come.
    fn take(&mut self, start: PieceStart) -> Result<(), AllocError> {
        let line = start.line.unwrap_or(self.lines);
        self.lines = self.lines.max(line.saturating_add(1));
        match start.what {
            What::Blocks(place) => self.take_blocks(place, line, start),
            What::Stub(place) => self.take_stub(place, line, start, true),
            What::ActiveStub(place) => self.take_stub(place, line, start, false),
        }
    }

    /// Takes the piece whose first block is that of a place.
    fn take_blocks(
        &mut self,
        place: usize,
        line: usize,
        start: PieceStart,
    ) -> Result<(), AllocError> {
        let Some(first) = self.tree.node(place) else {
            return Ok(());
        };
        if self.finding.is_folded && first.block.status != BlockStatus::Active {
            return self.take_folded(place, line, start);
        }
        let end = end_of(self.tree, place);
        let Some(last) = self.tree.node(end) else {
            return Ok(());
        };
        let is_best = self.add_on(end, last, line, start.rest.as_str())?;
        let width = if self.finding.is_folded { first } else { last };
        self.pieces.push(Piece {
            first,
            last,
            count: last.height.saturating_sub(first.height).saturating_add(1),
            tips: 1,
            look: Look::of(Some(first.block.status)),
            is_marked: first.block.is_marked,
            is_best,
            at: At {
                first: first.height,
                last: width.height,
                line,
                below: start.below,
            },
            lead: start.lead,
        })?;
        Ok(())
    }

    /// Adds what is on the block of a place to what is to come: whether that block is the highest of the active branch.
    fn add_on(
        &mut self,
        place: usize,
        block: &PlacedBlock,
        line: usize,
        rest: &str,
    ) -> Result<bool, AllocError> {
        let children = self.tree.children(self.alloc, place)?;
        let is_active = block.block.status == BlockStatus::Active;
        let main = main_of(self.tree, block, children.as_slice());
        let branching = Branching {
            below: self.pieces.len(),
            line,
            main,
            is_active,
            order: self.finding.order,
        };
        add_starts(
            self.alloc,
            &branching,
            children.as_slice(),
            rest,
            &mut self.starts,
        )?;
        Ok(is_active && main.is_none())
    }

    /// Takes the block of a place with all that is on it as one piece.
    fn take_folded(
        &mut self,
        place: usize,
        line: usize,
        start: PieceStart,
    ) -> Result<(), AllocError> {
        let Some(all) = self.subtrees.get(place).copied() else {
            return Ok(());
        };
        let (Some(first), Some(last)) = (self.tree.node(place), self.tree.node(all.top)) else {
            return Ok(());
        };
        self.pieces.push(Piece {
            first,
            last,
            count: all.count,
            tips: all.tips,
            look: Look::of(all.status),
            is_marked: all.is_marked,
            is_best: false,
            at: At {
                first: first.height,
                last: first.height,
                line,
                below: start.below,
            },
            lead: start.lead,
        })?;
        Ok(())
    }

    /// Takes the stub of the branch of a place, and adds the branch to what is to come, where it doesn't come by itself.
    fn take_stub(
        &mut self,
        place: usize,
        line: usize,
        start: PieceStart,
        is_with_branch: bool,
    ) -> Result<(), AllocError> {
        let Some(block) = stub_of(self.tree, place) else {
            return Ok(());
        };
        if is_with_branch {
            self.starts.push(PieceStart {
                what: What::Blocks(place),
                below: Some(self.pieces.len()),
                line: Some(line),
                lead: String::from_str(self.alloc, start.rest.as_str())?,
                rest: String::from_str(self.alloc, start.rest.as_str())?,
            })?;
        }
        let height = self.finding.from.saturating_sub(1);
        self.pieces.push(Piece {
            first: block,
            last: block,
            count: 1,
            tips: 1,
            look: Look::Stub,
            is_marked: false,
            is_best: false,
            at: At {
                first: height,
                last: height,
                line,
                below: None,
            },
            lead: start.lead,
        })?;
        Ok(())
    }
}

/// Where a piece ends that begins at a place: there, unless a run does that is long enough.
fn end_of(tree: &BlockTree, place: usize) -> usize {
    let mut end = place;
    let mut count = 1usize;
    for _ in 0..tree.len() {
        match only_like(tree, end) {
            Some(next) if place > 0 => end = next,
            _ => break,
        }
        count = count.saturating_add(1);
    }
    if count < MIN_RUN { place } else { end }
}

/// The block on this one, where it is the only one, and both look the same.
fn only_like(tree: &BlockTree, place: usize) -> Option<usize> {
    let node = tree.node(place)?;
    let next = node.first_child?;
    let above = tree.node(next)?;
    let is_only = above.next_sibling.is_none();
    let is_like = above.block.status == node.block.status;
    let is_marked = above.block.is_marked || node.block.is_marked;
    if is_only && is_like && !is_marked {
        return Some(next);
    }
    None
}

/// Which of the blocks on one goes on in its line: on an active one the active one, else the first.
fn main_of(tree: &BlockTree, node: &PlacedBlock, children: &[usize]) -> Option<usize> {
    if node.block.status != BlockStatus::Active {
        return children.first().copied();
    }
    for child in children {
        if let Some(above) = tree.node(*child) {
            if above.block.status == BlockStatus::Active {
                return Some(*child);
            }
        }
    }
    None
}
