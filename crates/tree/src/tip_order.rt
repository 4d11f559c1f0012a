//! A tip, as tips are sorted.

/// The place of a tip. In order the highest comes first, and of two as high the earlier.
#[derive(Clone, Copy, Debug, PartialEq, Eq, PartialOrd, Ord)]
pub(crate) struct Top {
    /// How far its height is below the greatest that a tree can have.
    pub(crate) depth: usize,
    pub(crate) place: usize,
}
