//! A node that answers requests, a JSON object a line.
#![tactic(auto)]

mod answers;
mod blocks;
mod board;
mod by_need;
mod delivery;
mod earlier;
mod growth;
mod input_lines;
mod lists;
mod log_gap;
mod lookups;
pub mod node_faults;
mod outbox;
mod save_request;
mod saves;
mod service;
mod session;
mod submissions;
mod tally;
pub mod texts;
mod turn;
mod undo_told;
mod waste;
mod words;

pub use session::serve;
