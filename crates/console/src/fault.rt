//! Why a run ends without its whole output.

use crate::datadir::LOG;
use arrayvec::ArrayString;
use durable::AppendFault;
use journal::JournalFault;
use model::Reply;
use scenario::{ScenarioFault, Why};
use std::alloc::{AllocError, AllocFailed};
use std::fmt;
use std::fmt::Write as _;
use std::io::Error;
use wire::Memory;

/// As long as what the system says of a file can be, at least.
const MAX_ERROR: usize = 512;

/// Why a run ends without its whole output. Its `Display` is the line that users read, and a second one that says why.
#[derive(Drop)]
pub enum RunFault<'w> {
    /// The command line isn't one of ours: `clap`'s text.
    CommandLine(clap::Error),
    /// This line of the scenario, counted from 1, can't be read.
    ScenarioLine(usize, Why),
    /// The heights of soft forks aren't four numbers.
    Heights,
    /// This line of the table, counted from 1, can't be read.
    TableLine(usize),
    /// This line of the journal, counted from 1, can't be read.
    JournalLine(usize),
    /// The record of this line of the journal, counted from 1, isn't the block of its id.
    OtherRecord(usize),
    /// This line of the journal, counted from 1, is a verdict on a signature, which can't be told again from it.
    VerdictLine(usize),
    /// This line of a log, counted from 1, is no step behind those before it.
    NoStep(usize),
    /// The blk file isn't read on from this offset.
    BlkStopped(u64, BlkStop),
    /// The blk file has too few records, or too many.
    BlkRecords,
    /// This file can't be read; `-` is the standard input.
    CannotRead(&'w str, Error),
    /// This file can't be written; `-` is the standard output.
    CannotWrite(&'w str, Error),
    /// In this folder the file of this name can't be written.
    CannotSave(&'w str, &'static str, Error),
    /// In this folder the file of this name can't be read.
    CannotOpen(&'w str, &'static str, Error),
    /// In this folder what is to be cut off the log can't be kept, in the file of this number.
    CannotKeep(&'w str, u64, Error),
    /// The log of this folder has whole lines behind the zero byte at this place.
    Spoiled(&'w str, u64),
    /// The scenario defines no block and no transaction of this name.
    NoName(&'w str),
    /// No block has this height; the highest has the second.
    NoHeight(usize, usize),
    /// The output isn't the one that was expected: the first line that differs, counted from 1, and both.
    Differs(Difference),
    /// The node gives another reply than this line of the journal, counted from 1.
    OtherReply(usize, Reply),
    /// A thread can't be made.
    NoThread,
    /// There was no memory.
    Memory,
    /// There was no memory to show a step that was taken.
    Owed,
    /// The node has no seat or no history to give.
    Closed,
}

/// Why a blk file isn't read on.
#[derive(Clone, Copy)]
pub enum BlkStop {
    /// There is neither a record nor a rest of zero bytes.
    Foreign,
    /// A record ends early.
    Cut,
    /// A record is longer than it may be.
    TooLong,
}

/// The first line of an output that isn't the one that was expected.
#[derive(Drop)]
pub struct Difference {
    /// From 1.
    pub line: usize,
    /// None where the file ends before it.
    pub expected: Option<String>,
    /// None where the output ends before it.
    pub written: Option<String>,
}

impl fmt::Display for Difference {
    fn fmt<W: fmt::Write>(&self, f: &mut fmt::Formatter<W>) -> fmt::Result {
        writeln!(f, "regchain: line {} differs", self.line)?;
        write_line("expected", &self.expected, f)?;
        write_line("written", &self.written, f)
    }
}

fn write_line<W: fmt::Write>(
    name: &str,
    line: &Option<String>,
    f: &mut fmt::Formatter<W>,
) -> fmt::Result {
    match line {
        Some(line) => writeln!(f, "{name}: {line}"),
        None => writeln!(f, "{name} no such line"),
    }
}

impl fmt::Display for RunFault<'_> {
    fn fmt<W: fmt::Write>(&self, f: &mut fmt::Formatter<W>) -> fmt::Result {
        match self {
            RunFault::CommandLine(error) => return error.fmt(f),
            RunFault::Differs(difference) => return difference.fmt(f),
            _ => {}
        }
        let line = FaultLine(self);
        writeln!(f, "regchain: {line}")?;
        if self.has_reason() {
            writeln!(f, "{line}: {}", FaultReason(self))?;
        }
        Ok(())
    }
}

impl RunFault<'_> {
    /// Whether there is more to say than its line does.
    pub fn has_reason(&self) -> bool {
        !matches!(
            self,
            RunFault::CommandLine(_)
                | RunFault::NoName(_)
                | RunFault::Differs(_)
                | RunFault::NoThread
                | RunFault::Memory
                | RunFault::Closed
        )
    }
}

/// A fault's line, without the program's name.
#[derive(Clone, Copy)]
pub struct FaultLine<'f, 'w>(pub &'f RunFault<'w>);

impl fmt::Display for FaultLine<'_, '_> {
    fn fmt<W: fmt::Write>(&self, f: &mut fmt::Formatter<W>) -> fmt::Result {
        match self.0 {
            RunFault::CommandLine(error) => error.fmt(f),
            RunFault::ScenarioLine(number, _) => write!(f, "scenario line {number}"),
            RunFault::Heights => f.write_str("heights"),
            RunFault::TableLine(number) => write!(f, "table line {number}"),
            RunFault::JournalLine(number) => write!(f, "journal line {number}"),
            RunFault::OtherRecord(number) => write!(f, "journal line {number}"),
            RunFault::VerdictLine(number) => write!(f, "journal line {number}"),
            RunFault::NoStep(number) => write!(f, "journal line {number}"),
            RunFault::OtherReply(number, _) => write!(f, "journal line {number}"),
            RunFault::BlkStopped(offset, _) => write!(f, "blk stopped at {offset}"),
            RunFault::BlkRecords => f.write_str("blk records"),
            RunFault::CannotRead(file, _) => write!(f, "cannot read {file}"),
            RunFault::CannotOpen(folder, file, _) => write!(f, "cannot read {folder}/{file}"),
            RunFault::CannotKeep(folder, number, _) => {
                write!(f, "cannot write {folder}/torn-{number}")
            }
            RunFault::Spoiled(folder, _) => write!(f, "spoiled {folder}/{LOG}"),
            RunFault::NoName(name) => write!(f, "no name {name}"),
            RunFault::NoHeight(height, _) => write!(f, "no height {height}"),
            RunFault::Differs(difference) => difference.fmt(f),
            RunFault::CannotWrite(file, _) => write!(f, "cannot write {file}"),
            RunFault::CannotSave(folder, file, _) => write!(f, "cannot write {folder}/{file}"),
            RunFault::NoThread => f.write_str("no thread"),
            RunFault::Memory => f.write_str("memory"),
            RunFault::Owed => f.write_str("owed"),
            RunFault::Closed => f.write_str("closed"),
        }
    }
}

/// Why there is a fault, where its line doesn't say it.
#[derive(Clone, Copy)]
pub struct FaultReason<'f, 'w>(pub &'f RunFault<'w>);

impl fmt::Display for FaultReason<'_, '_> {
    fn fmt<W: fmt::Write>(&self, f: &mut fmt::Formatter<W>) -> fmt::Result {
        match self.0 {
            RunFault::ScenarioLine(_, why) => why.fmt(f),
            RunFault::Heights => {
                f.write_str("they are four numbers from 0 to 4294967295, parted by commas")
            }
            RunFault::TableLine(_) => f.write_str(
                "it is no key, signature and digest of 64 digits, in lower-case hexadecimal digits or -",
            ),
            RunFault::JournalLine(_) => {
                f.write_str("it isn't what is printed for a step of this number")
            }
            RunFault::OtherRecord(_) => f.write_str("its record isn't the block of its id"),
            RunFault::VerdictLine(_) => {
                f.write_str("it is a verdict, and has neither the key nor the signature")
            }
            RunFault::NoStep(_) => f.write_str("it is no step behind those before it"),
            RunFault::OtherReply(_, reply) => write!(f, "the node replies {reply}"),
            RunFault::NoHeight(_, top) => write!(f, "the highest block is at {top}"),
            RunFault::BlkStopped(_, stop) => f.write_str(stop.text()),
            RunFault::BlkRecords => f.write_str("there isn't one for each submit line"),
            RunFault::CannotRead(_, error) => write_error(error, f),
            RunFault::CannotWrite(_, error) => write_error(error, f),
            RunFault::CannotSave(_, _, error) => write_error(error, f),
            RunFault::CannotOpen(_, _, error) => write_error(error, f),
            RunFault::CannotKeep(_, _, error) => write_error(error, f),
            RunFault::Spoiled(_, place) => {
                write!(f, "whole lines follow a zero byte at {place}")
            }
            RunFault::Owed => f.write_str("there was no memory to show a step that was taken"),
            _ => Ok(()),
        }
    }
}

/// What the system says of a file, without the number that it has there.
fn write_error<W: fmt::Write>(error: &Error, f: &mut fmt::Formatter<W>) -> fmt::Result {
    let mut text = ArrayString::<MAX_ERROR>::new();
    write!(text, "{error}")?;
    let text = text.as_str();
    match text.split_once(" (os error ") {
        Some((words, _)) => f.write_str(words),
        None => f.write_str(text),
    }
}

impl BlkStop {
    fn text(self) -> &'static str {
        match self {
            BlkStop::Foreign => "there is neither a record nor a rest of zero bytes",
            BlkStop::Cut => "the record ends early",
            BlkStop::TooLong => "the record is longer than 33554432 bytes",
        }
    }
}

impl From<clap::Error> for RunFault<'_> {
    fn from(error: clap::Error) -> Self {
        match error.kind() {
            clap::error::ErrorKind::OutOfMemory => RunFault::Memory,
            _ => RunFault::CommandLine(error),
        }
    }
}

impl From<AppendFault> for RunFault<'_> {
    fn from(fault: AppendFault) -> Self {
        match fault {
            AppendFault::Memory => RunFault::Memory,
            AppendFault::NoLine | AppendFault::Full => RunFault::Closed,
        }
    }
}

impl From<Memory> for RunFault<'_> {
    fn from(_fault: Memory) -> Self {
        RunFault::Memory
    }
}

impl From<AllocError> for RunFault<'_> {
    fn from(_error: AllocError) -> Self {
        RunFault::Memory
    }
}

impl<T: Drop> From<AllocFailed<T>> for RunFault<'_> {
    fn from(_error: AllocFailed<T>) -> Self {
        RunFault::Memory
    }
}

impl From<block::ReadFault> for RunFault<'_> {
    fn from(fault: block::ReadFault) -> Self {
        match fault {
            block::ReadFault::Memory => RunFault::Memory,
            _ => RunFault::Closed,
        }
    }
}

impl From<block::BlkFault> for RunFault<'_> {
    fn from(fault: block::BlkFault) -> Self {
        match fault {
            block::BlkFault::Foreign(offset) => RunFault::BlkStopped(offset, BlkStop::Foreign),
            block::BlkFault::Cut(offset) => RunFault::BlkStopped(offset, BlkStop::Cut),
            block::BlkFault::TooLong(offset) => RunFault::BlkStopped(offset, BlkStop::TooLong),
            block::BlkFault::Memory => RunFault::Memory,
            // The reader is asked no more after a fault, and a slice of bytes has none of its own.
            block::BlkFault::Read | block::BlkFault::Stopped => RunFault::Closed,
        }
    }
}

impl From<JournalFault> for RunFault<'_> {
    fn from(fault: JournalFault) -> Self {
        match fault {
            JournalFault::BadLine(number) => RunFault::JournalLine(number),
            JournalFault::Memory => RunFault::Memory,
        }
    }
}

impl From<ScenarioFault> for RunFault<'_> {
    fn from(fault: ScenarioFault) -> Self {
        match fault {
            ScenarioFault::Line(number, why) => RunFault::ScenarioLine(number, why),
            ScenarioFault::Memory => RunFault::Memory,
        }
    }
}

impl From<signatures::TableFault> for RunFault<'_> {
    fn from(fault: signatures::TableFault) -> Self {
        match fault {
            signatures::TableFault::BadLine(number) => RunFault::TableLine(number),
            signatures::TableFault::Memory => RunFault::Memory,
        }
    }
}
