//! The digest that a signature of an input signs.
#![tactic(auto)]

mod ahead;
mod code_pieces;
mod first_code;
mod flat;
mod hasher_input;
mod kind;
mod midstates;
mod precomputed_tx;
mod signature_hash;
mod spent;
mod witness_hashes;

pub use midstates::Midstates;
pub use precomputed_tx::PrecomputedTx;
pub use signature_hash::digest;
pub use spent::SpentScripts;
pub use witness_hashes::WitnessHashes;
