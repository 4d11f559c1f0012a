//! The active branch, the path from it to another block, and the outcome of a try of that.

use crate::new_undo::NewUndo;
use coins::Changes;
use rules::Params;
use std::collections::VecDeque;
use tree::Tree;
use txn::Reason;
use undo::{BlockUndo, PackedUndo};

/// The active branch, as a try looks at it.
#[derive(Clone, Copy)]
pub(crate) struct ActiveBranch<'a> {
    pub(crate) tree: &'a Tree,
    pub(crate) params: &'a Params,
    pub(crate) active: usize,
    /// The places of the active branch, by height.
    pub(crate) branch: &'a [usize],
    /// Their medians time past, by height.
    pub(crate) medians: &'a [u32],
    /// What the highest of its blocks spent, the lowest first.
    pub(crate) undo: &'a VecDeque<BlockUndo>,
    /// What each of them but genesis spent, by height.
    pub(crate) packed: &'a [PackedUndo],
}

/// From the active branch up to a block.
#[derive(Drop)]
pub(crate) struct BranchPath {
    /// The place of the last block of both branches.
    pub(crate) fork: usize,
    /// Its height.
    pub(crate) height: usize,
    /// The places of the blocks above it on the block's branch, the highest first.
    pub(crate) up: Vec<usize>,
}

/// What is to be put in place for a block to become active.
#[derive(Drop)]
pub(crate) struct Reorganisation {
    pub(crate) path: BranchPath,
    /// What the blocks above the fork spend, the lowest first.
    pub(crate) undo: NewUndo,
    /// The coins that change.
    pub(crate) changes: Changes,
}

/// A branch with a block that doesn't connect.
#[derive(Drop)]
pub(crate) struct FailedTry {
    pub(crate) path: BranchPath,
    /// How many blocks above the fork connect before that one.
    pub(crate) passed: usize,
    pub(crate) reason: Reason,
}

/// The outcome of a try of a block.
#[derive(Drop)]
pub(crate) enum TryOutcome {
    Succeeds(Reorganisation),
    Fails(FailedTry),
}
