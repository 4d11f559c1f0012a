//! What a transaction does to the coins, applied and taken back.
#![tactic(auto)]

mod apply;
mod block_undo;
mod coin_head;
pub mod laws;
mod packed_coins;
mod packed_txs;
mod packed_undo;
mod revert;

pub use apply::{add_outputs, apply_in_layer, apply_tx, take_inputs};
pub use block_undo::{BlockUndo, Spent};
pub use packed_undo::PackedUndo;
pub use revert::{revert_in_layer, revert_tx};
