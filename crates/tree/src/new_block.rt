//! A block that isn't kept yet.

use block::StoredBlock;
use hash::Id;

/// A block that isn't kept yet, with its id and its parent's place.
#[derive(Debug, Drop)]
pub struct NewBlock {
    pub block: StoredBlock,
    pub id: Id,
    pub parent: usize,
}
