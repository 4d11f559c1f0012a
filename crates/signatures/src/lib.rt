//! The shape of signatures, and what is known of them, in place of arithmetic on the curve: a table of those that are
//! valid, or verdicts on some.
#![tactic(auto)]

mod fault;
mod found_tables;
mod known_signatures;
mod knows_signatures;
pub mod laws;
mod lines;
mod shape;
mod table;
mod triple;

pub use fault::TableFault;
pub use found_tables::FoundTables;
pub use known_signatures::KnownSignatures;
pub use knows_signatures::KnowsSignatures;
pub use lines::read as read_line;
pub use shape::der_shape;
pub use table::Table;
pub use triple::KeptTriple;
