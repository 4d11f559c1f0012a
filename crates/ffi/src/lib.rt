//! What C calls: the proved chainstate behind a handle. `c/wakotehu.c` calls these, and is called by users.
#![tactic(auto)]

mod answers;
mod bits;
mod block_rules;
mod blocks;
mod box_address;
mod deployments;
mod division;
mod evaluation;
mod exports;
mod front;
mod hashes;
mod headers;
mod kept;
mod kept_tx;
mod kept_utxo;
mod known;
pub mod laws;
mod lists;
mod lookups;
mod medians;
mod merkle;
mod named_failures;
mod parsed_known;
mod parsed_transaction;
mod parts;
mod room;
mod scripts;
mod session;
mod shown;
mod signature_sources;
mod slot;
mod tables;
mod transactions;
mod tx_slot;
mod utxo;
mod utxo_calls;
mod utxo_slot;
mod work;

pub use answers::{
    Answer, Heights, Made, MaybeHeight, Name, Place, ShownCoin, ShownHeader, ShownSpent, ShownTip,
};
pub use kept::Kept;
pub use kept_tx::KeptTx;
pub use kept_utxo::KeptUtxo;
pub use session::Session;
pub use slot::Slot;
pub use tx_slot::TxSlot;
pub use utxo::Utxo;
pub use utxo_slot::UtxoSlot;
