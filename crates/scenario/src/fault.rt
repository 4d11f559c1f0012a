//! Why a scenario isn't read.

use crate::complaint::{Complaint, Why};
use std::alloc::{AllocError, AllocFailed, Global};
use wire::Memory;

/// Why a scenario isn't read.
#[derive(Drop)]
pub enum ScenarioFault {
    /// This line, counted from 1, can't be read, and why.
    Line(usize, Why),
    /// There was no memory.
    Memory,
}

impl From<Memory> for ScenarioFault {
    fn from(_fault: Memory) -> ScenarioFault {
        ScenarioFault::Memory
    }
}

impl From<AllocError> for ScenarioFault {
    fn from(_error: AllocError) -> ScenarioFault {
        ScenarioFault::Memory
    }
}

/// Why a line of the scenario has no effect.
#[derive(Drop)]
pub enum LineFault {
    /// It isn't a line that can stand there.
    Unreadable,
    /// The same, and what is wrong with it.
    Refused(Why),
    /// There was no memory for what it defines.
    Memory,
}

impl LineFault {
    /// That a word of the line has this fault.
    pub fn of_word(alloc: Global, word: &str, complaint: Complaint) -> LineFault {
        match Why::of_word(alloc, word, complaint) {
            Ok(why) => LineFault::Refused(why),
            Err(AllocError) => LineFault::Memory,
        }
    }

    /// That the line as a whole has this fault.
    pub fn of_line(complaint: Complaint) -> LineFault {
        LineFault::Refused(Why::of_line(complaint))
    }

    /// The scenario's fault that it is, at the line of this number.
    pub fn at(self, number: usize) -> ScenarioFault {
        match self {
            LineFault::Unreadable => {
                ScenarioFault::Line(number, Why::of_line(Complaint::Misplaced))
            }
            LineFault::Refused(why) => ScenarioFault::Line(number, why),
            LineFault::Memory => ScenarioFault::Memory,
        }
    }
}

impl From<Memory> for LineFault {
    fn from(_fault: Memory) -> LineFault {
        LineFault::Memory
    }
}

impl From<AllocError> for LineFault {
    fn from(_error: AllocError) -> LineFault {
        LineFault::Memory
    }
}

impl<T: Drop> From<AllocFailed<T>> for LineFault {
    fn from(_error: AllocFailed<T>) -> LineFault {
        LineFault::Memory
    }
}
