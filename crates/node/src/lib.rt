//! Seats at one history: each call acts as one step of one chainstate.
#![tactic(auto)]

mod answer;
mod dry_run;
mod early;
mod entries;
mod fault;
pub mod laws;
mod learnt;
mod lookups;
mod node;
mod note;
mod origin;
mod published_history;
mod reader_home;
mod reads;
mod seat;
mod writes;

pub use answer::{Learning, Stamped, UnspentOutput};
pub use fault::{EndFault, Fault, OpenFault};
pub use model::{Bytes, Command, Entry, MarkReply, Reply, Submission, SubmitReply};
pub use node::{Node, NodeOf};
pub use note::Note;
pub use origin::Opening;
pub use queue::{Gate, Open};
pub use rules::Params;
pub use seat::Seat;
pub use signatures::{KeptTriple, Table};
pub use tree::{Status, Tip};
pub use undo::BlockUndo;
pub use view::Naming;
