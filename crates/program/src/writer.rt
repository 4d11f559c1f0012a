//! Who writes what clients are answered, and reports how far they are.

use crate::answer::AnsweredCommand;
use crate::output::RunOutput;
use console::fault::RunFault;
use console::progress::Progress;
use std::alloc::Global;
use std::io::Write;
use std::slice;
use std::time::Clock;

/// The output of a run, and its progress.
#[derive(Drop)]
pub struct Writer<'c, 'e, 'o, C, E, O> {
    pub output: RunOutput<'o, O>,
    pub progress: Progress<'c, 'e, C, E>,
    /// The client whose answers are written.
    pub name: String,
    pub alloc: Global,
}

impl<C: Clock, E: Write, O: Write> Writer<'_, '_, '_, C, E, O> {
    /// The answers that follow are this client's.
    pub fn client(&mut self, name: &str) -> Result<(), RunFault<'static>> {
        self.name = String::from_str(self.alloc, name)?;
        self.output.client(name)
    }

    /// Writes an answer of the client.
    pub fn answer(&mut self, answer: &AnsweredCommand<'_>) -> Result<(), RunFault<'static>> {
        self.answers(slice::from_ref(answer))
    }

    /// Writes answers of the client, in their order.
    pub fn answers(&mut self, answers: &[AnsweredCommand<'_>]) -> Result<(), RunFault<'static>> {
        for answer in answers {
            self.progress.count(answer.is_submission);
        }
        self.output.answers(self.name.as_str(), answers)
    }
}
