//! The lines of the journal.

ghost use Rattle.std.specs.Prelude.{◌≡◌, ◌⊎◌, IfErr, IfOk, None, Some};
ghost use Rattle.std.specs.Fmt.{◌++?◌};
ghost use Rattle.block.specs.declared.fault.ReadFault.TheVariants as faults;
ghost use Rattle.journal.specs.Line.{asked_of, named_by, when_of, word_of, moment_of, text_of_answer, front_of, rest_of};

use block::ReadFault;
use hash::Id;
use model::{Command, Entry, Reply};
use std::alloc::Global;
use std::fmt;

/// What a step was asked. A submission has its moment, in seconds since 1970.
#[derive(Clone, Copy, Debug)]
pub enum Asked {
    Submit(u64),
    Invalidate,
    Reconsider,
    Precious,
    /// To take down that a signature is valid, or that it isn't.
    Learn(bool),
}

/// A line of the journal: a step, and how the block, or the digest, that it is about is told.
#[derive(Clone, Copy)]
pub struct Step<'t, B> {
    /// Its place, from 1.
    pub number: usize,
    pub client: &'t str,
    pub asked: Asked,
    pub block: B,
    /// None where it is owed.
    pub reply: Option<Reply>,
}

impl Asked {
    /// What a command asks.
    pub fn from_command(command: &Command) -> Asked
        ensures { result ≡ asked_of command.now }
    {
        match command {
            Command::Submit(_, now) => Asked::Submit(*now),
            Command::Invalidate(_) => Asked::Invalidate,
            Command::Reconsider(_) => Asked::Reconsider,
            Command::Precious(_) => Asked::Precious,
            Command::Learn(_, valid) => Asked::Learn(*valid),
        }
    }

    /// The word of a command.
    pub fn word(self) -> &'static str
        ensures { result.now ≡ word_of self }
    {
        match self {
            Asked::Submit(_) => "submit",
            Asked::Invalidate => "invalidate",
            Asked::Reconsider => "reconsider",
            Asked::Precious => "precious",
            Asked::Learn(true) => "valid",
            Asked::Learn(false) => "invalid",
        }
    }

    /// The moment of a submission.
    pub fn moment(self) -> Option<u64>
        ensures { result ≡ when_of self }
    {
        match self {
            Asked::Submit(now) => Some(now),
            _ => None,
        }
    }
}

/// The id of the block that an entry is about; of a verdict, the digest that is signed.
pub fn block_of(alloc: Global, entry: &Entry) -> Result<Id, ReadFault>
    ensures named { IfOk result (λ id. named_by entry.now.command ≡ Some id) }
    // Only bytes that are no block name none, unless memory runs out.
    ensures unnamed { IfErr result (λ fault. (fault ≡ faults.Memory)
        ⊎ (named_by entry.now.command ≡ None)) }
{
    match &entry.command {
        Command::Submit(bytes, _) => Ok(block::read(alloc, bytes.as_slice())?.header.id()),
        Command::Invalidate(id) => Ok(*id),
        Command::Reconsider(id) => Ok(*id),
        Command::Precious(id) => Ok(*id),
        Command::Learn(triple, _) => Ok(Id(*triple.triple().digest())),
    }
}

/// The moment of a submission behind a space; else nothing.
#[derive(Clone, Copy)]
struct Moment(Asked);

impl fmt::Display for Moment {
    ghost output = { λ moment. Some (moment_of moment.0) };

    fn fmt<W: fmt::Write>(&self, f: &mut fmt::Formatter<W>) -> fmt::Result {
        match self.0 {
            Asked::Submit(now) => write!(f, " {now}"),
            _ => Ok(()),
        }
    }
}

/// The reply to a step, or that it is owed.
#[derive(Clone, Copy)]
struct Answer(Option<Reply>);

impl fmt::Display for Answer {
    ghost output = { λ answer. Some (text_of_answer answer.0) };

    fn fmt<W: fmt::Write>(&self, f: &mut fmt::Formatter<W>) -> fmt::Result {
        match self.0 {
            Some(reply) => reply.fmt(f),
            None => f.write_str("owed"),
        }
    }
}

impl<B: fmt::Display> fmt::Display for Step<'_, B> {
    ghost output = { λ step. Some (front_of step) ++? B.output step.block ++? Some (rest_of step) };

    fn fmt<W: fmt::Write>(&self, f: &mut fmt::Formatter<W>) -> fmt::Result {
        write!(f, "{} {} {} ", self.number, self.client, self.asked.word())?;
        self.block.fmt(f)?;
        write!(f, "{} = {}", Moment(self.asked), Answer(self.reply))
    }
}
