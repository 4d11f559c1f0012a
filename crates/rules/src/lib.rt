//! The rules that a block obeys by itself, and by its place in the tree.
#![tactic(auto)]

mod alone;
mod context;
mod deployment;
mod height;
mod in_force;
mod params;
mod sigops;

pub use alone::{MAX_BLOCK_SIGOPS, MAX_BLOCK_SIZE, block_alone, block_alone_with};
pub use context::{
    MAX_FUTURE_BLOCK_TIME, REGTEST_BITS, block_context, context_fault, header_context,
};
pub use deployment::Deployment;
pub use in_force::InForce;
pub use params::Params;
pub use sigops::tx_sigops;
