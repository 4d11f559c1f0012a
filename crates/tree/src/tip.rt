//! A tip of the tree.

use hash::Id;

/// The active block, or one without a child (Bitcoin Core's `getchaintips`).
#[derive(Clone, Copy, Debug, PartialEq, Eq)]
pub struct Tip {
    pub id: Id,
    pub height: usize,
    /// How many blocks of its branch aren't on the active one.
    pub length: usize,
    pub status: Status,
}

/// What is known of a tip (Bitcoin Core's `getchaintips`).
#[derive(Clone, Copy, Debug, PartialEq, Eq)]
pub enum Status {
    /// It is the active block.
    Active,
    /// A block of its branch is marked.
    Invalid,
    /// It was found valid, and another block is active.
    ValidFork,
    /// It was never looked at whole.
    ValidHeaders,
}
