//! What a command does, before it is done.

use crate::new_undo::NewUndo;
use crate::path::{BranchPath, FailedTry};
use coins::Changes;
use model::{Reply, SubmitReply};
use tree::{Marks, NewBlock};

/// A command that was looked at whole, over a core that was only read. What is left to do takes room alone, and what
/// the coins take.
#[derive(Drop)]
pub(crate) struct Prepared {
    pub(crate) reply: Reply,
    /// What changes in the tree, beside what a try found.
    pub(crate) edit: Edit,
    pub(crate) rest: Completion,
    /// The coins that change.
    pub(crate) changes: Changes,
}

/// What changes in the tree before what a try found is put in place.
#[derive(Drop)]
pub(crate) enum Edit {
    /// Nothing.
    Leave,
    /// A block is kept.
    Keep(NewBlock),
    /// The block at a place is called precious.
    Call(usize),
    /// Other marks come in the place of all that there are.
    Remark(Marks),
}

/// What was found by a try, to be put in place.
#[derive(Drop)]
pub(crate) enum Completion {
    /// Nothing was tried.
    Nothing,
    /// The block at a place was tried and isn't valid: what the try found is flagged.
    Flag(usize, FailedTry),
    /// The block at a place becomes active, by this path, and its blocks spend this, the lowest first.
    Activate(usize, BranchPath, NewUndo),
}

/// What settles the state, before it is put in place.
#[derive(Drop)]
pub(crate) struct Settled {
    pub(crate) rest: Completion,
    pub(crate) changes: Changes,
    /// The reply to the submission of the block that was tried.
    pub(crate) said: SubmitReply,
}
