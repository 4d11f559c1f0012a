//! What is measured is done on these: transactions and blocks of them, branches of blocks, chains that leave coins for
//! payments, and scripts with their signatures. Nothing is random that isn't the same in each run.

pub mod blocks;
pub mod branch;
pub mod fault;
pub mod hoard;
pub mod lists;
pub mod payments;
pub mod random_bytes;
pub mod scripts;
pub mod signed_transaction;
pub mod spends;
pub mod start;

pub use fault::InputsFault;
