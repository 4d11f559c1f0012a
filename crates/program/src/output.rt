//! The standard output of a run, written as it comes.

use crate::answer::AnsweredCommand;
use crate::comparison::compare;
use crate::objects;
use console::fault::RunFault;
use console::files::print;
use console::options::Form;
use console::report::Report;
use journal::Step;
use scenario::Label;
use std::alloc::Global;
use std::io::Write;

/// The standard output of a run.
#[derive(Drop)]
pub struct RunOutput<'o, O> {
    alloc: Global,
    stream: &'o mut O,
    pub form: Form,
    /// What was written, where that is to be compared.
    kept: Option<String>,
}

impl<'o, O: Write> RunOutput<'o, O> {
    /// Only where it is to be compared, what is written is kept.
    pub fn new(
        alloc: Global,
        stream: &'o mut O,
        form: Form,
        is_compared: bool,
    ) -> RunOutput<'o, O> {
        RunOutput {
            alloc,
            stream,
            form,
            kept: if is_compared {
                Some(String::new(alloc))
            } else {
                None
            },
        }
    }

    /// The line above a client's answers.
    pub fn client(&mut self, name: &str) -> Result<(), RunFault<'static>> {
        match self.form {
            Form::Text => {
                let line = format!(in self.alloc; "client {name}\n")?;
                self.put(line.as_str())
            }
            Form::Json | Form::Tree => Ok(()),
        }
    }

    /// Answers of a client, in their order.
    pub fn answers(
        &mut self,
        client: &str,
        answers: &[AnsweredCommand<'_>],
    ) -> Result<(), RunFault<'static>> {
        let mut text = String::new(self.alloc);
        for answer in answers {
            match self.form {
                Form::Text => write!(text, "{answer}")?,
                Form::Json => text.push_str(objects::answer(self.alloc, client, answer)?.as_str())?,
                Form::Tree => {}
            }
        }
        self.put(text.as_str())
    }

    /// The journal of a history, with the names of blocks, below a line of its own.
    pub fn journal(&mut self, report: &Report<'_, '_>) -> Result<(), RunFault<'static>> {
        if self.form == Form::Text {
            self.put("journal\n")?;
        }
        for place in 0..report.entries().len() {
            if let Some(step) = report.labelled(place) {
                self.step(&step)?;
            }
        }
        Ok(())
    }

    /// The block tree, below a line of its own where there is more.
    pub fn tree(&mut self, text: &str) -> Result<(), RunFault<'static>> {
        if self.form == Form::Text {
            self.put("tree\n")?;
        }
        self.put(text)
    }

    /// A line of the journal.
    fn step(&mut self, step: &Step<'_, Label<'_>>) -> Result<(), RunFault<'static>> {
        let text = match self.form {
            Form::Text => format!(in self.alloc; "{step}\n")?,
            Form::Json => objects::step(self.alloc, step)?,
            Form::Tree => return Ok(()),
        };
        self.put(text.as_str())
    }

    /// Writes a text, and hands it on at once.
    fn put(&mut self, text: &str) -> Result<(), RunFault<'static>> {
        if let Some(kept) = &mut self.kept {
            kept.push_str(text)?;
        }
        print(self.stream, text)
    }

    /// Refuses an output that isn't this, by its first line that differs.
    pub fn compare(&self, expected: &[u8]) -> Result<(), RunFault<'static>> {
        match &self.kept {
            Some(kept) => compare(self.alloc, expected, kept.as_str()),
            None => Ok(()),
        }
    }
}
