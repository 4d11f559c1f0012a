//! What is drawn of a tree, and how.

use crate::block_tree::BlockTree;

/// What is drawn of a tree, and how.
#[derive(Clone, Copy)]
pub struct TreeView {
    pub part: Part,
    pub fold: Fold,
    /// Whether text has the colours of a terminal (ECMA-48).
    pub is_colored: bool,
    /// Whether the shapes are explained behind a text; a picture always does that.
    pub has_legend: bool,
}

/// The heights that are drawn.
#[derive(Clone, Copy)]
pub enum Part {
    All,
    /// From this one on.
    From(usize),
    /// The highest ones: this many, up to the height of the highest block, of whatever status.
    Last(usize),
}

/// Whether a branch that leaves the active one is drawn as one shape, with all that is on it.
#[derive(Clone, Copy)]
pub enum Fold {
    /// In a picture that would be wide or high otherwise.
    Auto,
    Always,
    Never,
}

impl TreeView {
    /// All of a tree.
    pub const ALL: TreeView = TreeView {
        part: Part::All,
        fold: Fold::Auto,
        is_colored: false,
        has_legend: false,
    };

    /// The height from which on a tree is drawn.
    pub fn first_height(&self, tree: &BlockTree) -> usize {
        match self.part {
            Part::All => 0,
            Part::From(height) => height,
            Part::Last(count) => tree.top().saturating_add(1).saturating_sub(count),
        }
    }
}
