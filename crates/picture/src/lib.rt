//! A block tree as text and as SVG.
#![tactic(auto)]

mod arrangement;
mod block_tree;
mod geometry;
mod legend;
mod rows;
mod shapes;
mod starts;
mod status;
mod subtrees;
mod svg;
mod text;
mod view;
mod xml_text;

pub use block_tree::{BlockTree, TreeBlock};
pub use status::BlockStatus;
pub use svg::to_svg;
pub use text::to_text;
pub use view::{Fold, Part, TreeView};
