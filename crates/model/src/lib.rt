//! The chainstate, defined: which block is active, what a command does, and what it answers; histories of commands;
//! and what holds of them.
#![tactic(auto)]

mod command;
mod entry;
pub mod laws;
mod reply;
mod shared_triple;
mod submission;

pub use block::Bytes;
pub use command::Command;
pub use entry::Entry;
pub use reply::{MarkReply, Reply, SubmitReply};
pub use shared_triple::SharedTriple;
pub use submission::{PreparedCommand, Submission, SubmittedBlock};
