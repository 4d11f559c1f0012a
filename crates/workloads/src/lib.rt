//! What tests play and what measurements work on: a table of scenarios with every answer that there must be, lists of
//! commands drawn at random, and blocks, chains and spends of any size.
#![tactic(auto)]

pub mod drawn;
pub mod inputs;
pub mod table;
