//! A scenario's text: the blocks, transactions and signatures that it defines, and what its clients ask.
#![tactic(auto)]

mod client;
mod coinbase;
mod complaint;
mod defined_blocks;
mod definitions;
mod draft;
mod fault;
mod known;
mod label;
mod line;
mod line_forms;
mod recipe;
mod valid_signature;

pub use client::{BLK, Call, Client, Payload, Request, Words, read_clients};
pub use complaint::{Complaint, Why};
pub use defined_blocks::Named;
pub use definitions::{Definitions, Shown};
pub use fault::{LineFault, ScenarioFault};
pub use label::Label;
pub use line::{Line, is_name, lines, number_after};
