//! Transactions: their parts, their bytes, their ids, and the reasons for which a block is refused.
#![tactic(auto)]

mod block_ids;
mod check_transaction;
mod decode;
mod encode;
mod fault;
pub mod hasher_input;
mod input;
pub mod laws;
mod many_ids;
mod outpoint;
mod output;
mod reason;
mod script;
pub mod sequence;
pub mod sizes;
mod tx;
mod witness_decode;
mod witness_encode;

pub use block_ids::witness_ids;
pub use check_transaction::{MAX_COINBASE_SCRIPT, MAX_MONEY, MIN_COINBASE_SCRIPT, check};
pub use decode::read;
pub use encode::write;
pub use fault::TxFault;
pub use input::{Inputs, TxIn, Witness};
pub use many_ids::ids;
pub use outpoint::OutPoint;
pub use output::{Outputs, TxOut};
pub use reason::Reason;
pub use script::Script;
pub use tx::{LOCKTIME_THRESHOLD, Tx};
pub use witness_decode::read_by;
pub use witness_encode::write_by;
