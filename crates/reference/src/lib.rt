//! The definition of the chainstate as a program: it replays the branch of each block from genesis.
#![tactic(auto)]

mod branch_replay;
mod judgement;
mod kept_block;
mod replies;
mod settlement;
mod state;
mod step;

pub use replies::{Unwatched, Watch, slow, slow_watched};
