//! What is saved of a run, written and read back, and its replay.
#![tactic(auto)]

mod audit;
mod blk_records;
mod difference;
mod fault;
mod heights;
mod lines;
mod quick;
mod records;
mod replies;
mod saved_journal;
mod state_replay;
mod step;

pub use audit::Finding;
pub use blk_records::{Records, read_out, read_records};
pub use difference::{Refuted, Replayer, first_refuted};
pub use fault::JournalFault;
pub use heights::read_heights;
pub use records::{RecordFault, blk_file, put_record};
pub use saved_journal::{read_journal, read_line};
pub use state_replay::{ReplayedState, replayed_state};
pub use step::{Asked, Step, block_of};
