//! How many rounds it takes to find out the signatures that scripts ask for.
#![tactic(auto)]

pub mod laws;
