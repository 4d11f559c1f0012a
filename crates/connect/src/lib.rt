//! Connecting a block to the coins of its parent's branch, and disconnecting it.
#![tactic(auto)]

mod amounts;
mod block_fault;
mod connect_block;
mod context;
mod counts;
mod disconnect_block;
mod early;
mod inputs;
pub mod laws;
mod lookups;
mod runs_scripts;
mod scripts;
mod turn;

pub use connect_block::{Applied, apply_in_layer, connect, connect_in_layer};
pub use context::{BlockWithIds, Context, Env};
pub use disconnect_block::{disconnect, disconnect_in_layer};
pub use early::{early_jobs, script_flags};
pub use inputs::check_tx_inputs;
pub use runs_scripts::RunsScripts;
pub use turn::COINBASE_MATURITY;
