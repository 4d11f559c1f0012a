//! What the programs that tests play have in common: the words of their command line, and a gate.
#![tactic(auto)]

mod gate;
mod words;

pub use gate::Meeting;
pub use words::{HEIGHTS, Options};
