//! What holds of whole histories: with and without their verdicts, and of two that were asked the same.
#![tactic(auto)]

pub mod laws;
