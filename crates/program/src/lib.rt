//! The program: a scenario's clients run on a node, a thread each, and what they were answered is printed; a journal is replayed.
#![tactic(auto)]

mod answer;
mod clients;
mod comparison;
mod node_run;
mod objects;
mod output;
mod play;
mod run;
mod told;
mod writer;

pub use run::{program, program_with_gate, tell_waiting, words};
