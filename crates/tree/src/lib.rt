//! The tree of kept blocks: branches, marks, which block is the better one, and tips.
#![tactic(auto)]

mod block_index;
mod branch;
mod copies;
mod genesis;
mod growth;
pub mod laws;
mod lays;
mod leaves;
mod marking;
mod marks;
mod median_time;
mod new_block;
mod overlay;
mod rank;
mod tip;
mod tip_order;
mod tips;
mod tree;

pub use lays::Lays;
pub use marking::Marking;
pub use new_block::NewBlock;
pub use overlay::{Marks, Overlay};
pub use tip::{Status, Tip};
pub use tree::{MAX_BLOCKS, Tree};
