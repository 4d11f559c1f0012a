//! Double SHA-256 with the ids of blocks and transactions that it gives, and HASH160.
#![tactic(auto)]

mod double;
mod id;
mod key_hash;
mod order;

pub use double::{double_sha, finish};
pub use id::Id;
pub use key_hash::hash160;
