//! Coins by their outpoints: a plain map of them, and layers of changes over a map.
#![tactic(auto)]

mod base;
mod batch_write;
mod cache;
mod changes;
mod coin;
mod coin_map;
mod entry;
pub mod laws;
mod lent;
mod shards;
mod writes;

pub use base::Base;
pub use cache::Cache;
pub use changes::{Change, Changes};
pub use coin::Coin;
pub use coin_map::CoinMap;
pub use entry::CacheEntry;
pub use lent::Lent;
pub use writes::Writes;
