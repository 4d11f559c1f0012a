//! The table of scenarios: what is defined, what is asked, and every answer that there must be. It is played through
//! the program, the definition, the chainstate and the node.

pub mod branches;
pub mod spends;

use branches::BRANCHES;
use spends::{A_LONG_BRANCH_TAKEN_BACK, SPENDS};
use std::alloc::{AllocError, Global};
use std::fmt::Write;

/// The heights of soft forks of regtest.
pub const REGTEST: &str = "1,1,1,1";

/// A scenario of the client `a`, and its answers.
#[derive(Clone, Copy)]
pub struct Scenario {
    pub name: &'static str,
    /// From which heights the rules of BIP 34, of BIP 65, of BIP 66 and of BIPs 68, 112 and 113 are in force, as the
    /// command line has them.
    pub heights: &'static str,
    pub definitions: &'static str,
    /// A line for each command, `COMMAND = ANSWER @STAMP`. The stamp of an `each` is its first answer's.
    /// `now N` has no answer.
    pub told: &'static str,
}

/// The scenario of this name.
pub fn find(name: &str) -> Option<Scenario> {
    let all = BRANCHES.iter().chain(SPENDS.iter());
    for scenario in all.chain([A_LONG_BRANCH_TAKEN_BACK].iter()) {
        if scenario.name == name {
            return Some(*scenario);
        }
    }
    None
}

impl Scenario {
    /// The text as the program reads it: what is defined, and the client with its commands.
    pub fn text(&self, alloc: Global) -> Result<String, AllocError> {
        let mut text = format!(in alloc; "{}\nclient a\n", self.definitions)?;
        for line in self.told.split('\n') {
            let command = line.split_once(" = ").map_or(line, |(command, _)| command);
            writeln!(text, "{command}")?;
        }
        Ok(text)
    }
}
