//! Locks of transactions: median time past, finality, and relative locks.
#![tactic(auto)]

mod finality;
pub mod laws;
mod median_time;
mod relative;

pub use finality::is_final;
pub use median_time::{MEDIAN_TIME_SPAN, median};
pub use relative::{LockStart, relative_ok};
pub use txn::sequence::SEQUENCE_FINAL;
