//! The script interpreter: whether an input may spend what it names.
#![tactic(auto)]

mod base;
mod changes;
mod conditions;
mod element;
mod evaluation;
mod execution;
mod failures;
mod flags;
mod hashes;
mod job;
pub mod laws;
mod moves;
mod multisig;
mod no_verdict;
mod numbers;
mod op;
mod pile;
mod places;
mod running;
mod script_error;
mod signature_check;
mod timelocks;
mod verification;
mod witness;

pub use element::Element;
pub use evaluation::{eval_script, verify_script};
pub use flags::Flags;
pub use job::Job;
pub use no_verdict::Unverified;
pub use pile::Pile;
pub use script_error::ScriptError;
pub use verification::{verify, verify_with};
pub use witness::verify_witness;
