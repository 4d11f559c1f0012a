//! What no clause says of the crates below the chain, and only a call in Rattle shows.
#![tactic(auto)]

#[cfg(test)]
mod blk_vectors;
#[cfg(test)]
mod block_vectors;
#[cfg(test)]
mod coins_vectors;
#[cfg(test)]
mod connect_vectors;
#[cfg(test)]
mod queue_vectors;
#[cfg(test)]
mod undo_vectors;
