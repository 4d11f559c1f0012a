//! Numbers, counts and pieces of bytes, read from left to right, as Bitcoin's messages spell them.
#![tactic(auto)]

mod compact_size;
mod cursor;
mod encode;
mod fault;
pub mod laws;
mod memory;
mod parts;

pub use compact_size::CompactSize;
pub use cursor::{Cursor, LIMIT, in_range};
pub use encode::put_compact;
pub use fault::WireFault;
pub use memory::Memory;
pub use parts::Parts;
