//! The RIPEMD-160 hash function (Dobbertin, Bosselaers and Preneel, 1996), whose digest has 20 bytes.
#![tactic(auto)]

pub use hasher::{Ripemd160, digest};

mod block;
mod hasher;
pub mod laws;
mod line;
mod state;
