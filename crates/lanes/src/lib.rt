//! Double SHA-256 of eight messages at once, a lane each: Merkle levels, and messages of any lengths.
#![tactic(auto)]

mod blocks;
mod constants;
mod digests;
mod level;
mod many;
mod midstate;
mod padded_blocks;
mod rounds;
mod schedule;
mod words;

pub use level::pairs;
pub use many::double_sha_many;
pub use midstate::Midstate;
pub use words::LANES;
