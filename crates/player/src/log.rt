//! What is printed of a play.

use doors::Options;
use rules::Params;
use scenario::{Call, Client, Definitions};
use std::alloc::Global;
use std::fmt;
use wire::Memory;

/// What is played, and how.
#[derive(Clone, Copy)]
pub struct PlayOptions<'a> {
    pub options: &'a Options<'a>,
    pub params: Params,
    pub definitions: &'a Definitions,
    pub clients: &'a [Client<'a, 'a>],
    /// The node ends by `close`, not by `finish`.
    pub closes: bool,
}

impl<'a> PlayOptions<'a> {
    /// The calls of the client of this number.
    pub fn calls(&self, number: usize) -> &'a [Call<'a, 'a>] {
        match self.clients.get(number) {
            Some(client) => client.calls.as_slice(),
            None => &[],
        }
    }

    /// Of so many seats the number of the one whose turn it is at the call of this place.
    pub fn turn(&self, place: usize, seats: usize) -> usize {
        let turn = place.checked_div(self.options.count("in-a-row", 1));
        turn.and_then(|turn| turn.checked_rem(seats)).unwrap_or(0)
    }
}

/// The lines of a play.
#[derive(Drop)]
pub struct PlayLog {
    /// A line for each answer.
    pub text: String,
    /// A line for each call in which memory was refused.
    pub refusals: String,
}

impl PlayLog {
    pub fn new(alloc: Global) -> PlayLog {
        PlayLog {
            text: String::new(alloc),
            refusals: String::new(alloc),
        }
    }

    /// Writes that a command is answered this.
    pub fn answer<W: fmt::Display, A: fmt::Display + Drop>(
        &mut self,
        words: &W,
        answer: A,
    ) -> Result<(), Memory> {
        writeln!(self.text, "{words} = {answer}")?;
        Ok(())
    }

    /// Writes how a call ended in which so many allocations were refused.
    pub fn refused<O: fmt::Display + Drop>(
        &mut self,
        count: u64,
        call: &str,
        outcome: O,
    ) -> Result<(), Memory> {
        if count > 0 {
            writeln!(self.refusals, "refused {count} {call} {outcome}")?;
        }
        Ok(())
    }

    /// Adds what a client was answered.
    pub fn client(&mut self, name: &str, answers: &PlayLog) -> Result<(), Memory> {
        writeln!(self.text, "client {name}")?;
        self.text.push_str(answers.text.as_str())?;
        self.refusals.push_str(answers.refusals.as_str())?;
        Ok(())
    }
}
