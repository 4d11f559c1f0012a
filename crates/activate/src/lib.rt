//! The chainstate of one thread: it keeps the coins of the best branch, and reorganises them by undo.
#![tactic(auto)]

mod active_branch;
mod ascent;
mod block_faults;
mod branch_try;
mod chainstate;
mod core_state;
mod disconnection;
mod fork_search;
mod headers;
pub mod laws;
mod lookups;
mod medians;
mod new_undo;
mod own_coins;
mod path;
mod plan;
mod try_flags;

pub use active_branch::MOST_UNDO;
pub use chainstate::Chainstate;
pub use core_state::Core;
pub use lookups::{ancestor_of, fork_of, header_of, height_of};
