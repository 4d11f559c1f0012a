//! The steps of a log, read from its file a batch at a time.

use crate::datadir::{LOG, path_of, unread};
use crate::fault::RunFault;
use crate::replay::check_record;
use crate::report::SEATS;
use durable::{Found, first_line};
use hash::Id;
use journal::{Asked, Step, read_line};
use memchr::{memchr, memrchr};
use model::{Bytes, Command, Reply, SharedTriple};
use scenario::BLK;
use signatures::TableFault;
use std::alloc::Global;
use std::fs;
use std::fs::File;
use std::io::{Error, ErrorKind};
use std::os::unix::fs::FileExt;
use std::rt::Files;

/// About how many bytes of a log become steps at once.
const BATCH: usize = 4_000_000;

/// How many bytes are read at once.
const PIECE: usize = 1 << 18;

/// The whole lines of a log, from the next one on.
#[derive(Drop)]
pub struct KeptSteps {
    alloc: Global,
    log: File,
    /// How many bytes were read, and how many there are.
    read: u64,
    end: u64,
    /// What was read and is no step yet.
    rest: Vec<u8>,
    /// How many steps there were.
    count: usize,
}

/// Steps that follow one another.
#[derive(Drop)]
pub struct StepBatch {
    /// How many steps are before them.
    pub before: usize,
    pub commands: Vec<Command>,
    pub replies: Vec<Option<Reply>>,
    pub clients: Vec<&'static str>,
}

impl KeptSteps {
    /// Of the log of a folder, which has these whole lines.
    pub fn open<'w, R>(rt: &R, folder: &'w str, found: Found) -> Result<KeptSteps, RunFault<'w>>
    where
        R: Files<File = File> + AllocGlobal,
    {
        let path = path_of(rt.alloc(), folder, LOG)?;
        Ok(KeptSteps {
            alloc: rt.alloc(),
            log: fs::open(rt, path.as_str()).map_err(|error| unread(error, folder, LOG))?,
            read: 0,
            end: found.end,
            rest: Vec::new(rt.alloc()),
            count: 0,
        })
    }

    /// The next steps; none where the lines end.
    pub fn next(&mut self) -> Result<Option<StepBatch>, RunFault<'static>> {
        if let Err(error) = self.read_on() {
            return Err(unread_log(error));
        }
        let Some(last) = memrchr(b'\n', self.rest.as_slice()) else {
            return Ok(None);
        };
        let (lines, behind) = self.rest.split_at(last.saturating_add(1));
        let mut batch = StepBatch {
            before: self.count,
            commands: Vec::new(self.alloc),
            replies: Vec::new(self.alloc),
            clients: Vec::new(self.alloc),
        };
        batch.add_all(self.alloc, lines)?;
        let behind = Vec::from_slice(self.alloc, behind)?;
        self.count = self.count.saturating_add(batch.commands.len());
        self.rest = behind;
        Ok(Some(batch))
    }

    /// Reads until there is a batch that has a whole line, or nothing is left.
    fn read_on(&mut self) -> Result<(), Error> {
        let mut piece = vec![in self.alloc; 0; PIECE]?;
        let mut has_line = false;
        for _ in 0..u64::MAX {
            let left = self.end.saturating_sub(self.read);
            if left == 0 || has_line && self.rest.len() >= BATCH {
                break;
            }
            let count = self.log.read_at(piece.as_mut_slice(), self.read)?;
            let count = left.min(count as u64);
            let read = piece.get(..count as usize).unwrap_or(&[]);
            if read.is_empty() {
                return Err(Error::from(ErrorKind::UnexpectedEof));
            }
            has_line |= memchr(b'\n', read).is_some();
            self.rest.extend_from_slice(read)?;
            self.read = self.read.saturating_add(count);
        }
        Ok(())
    }
}

fn unread_log(error: Error) -> RunFault<'static> {
    match error.kind() {
        ErrorKind::OutOfMemory => RunFault::Memory,
        _ => RunFault::CannotRead(LOG, error),
    }
}

impl StepBatch {
    /// Adds the steps of these whole lines.
    fn add_all(&mut self, alloc: Global, text: &[u8]) -> Result<(), RunFault<'static>> {
        let mut rest = text;
        for _ in 0..usize::MAX {
            let Some((line, behind)) = first_line(rest) else {
                break;
            };
            self.add(alloc, line)?;
            rest = behind;
        }
        Ok(())
    }

    /// Adds the step of a line.
    fn add(&mut self, alloc: Global, line: &[u8]) -> Result<(), RunFault<'static>> {
        let number = self
            .before
            .saturating_add(self.commands.len())
            .saturating_add(1);
        let (text, more) = match memchr(b'\t', line) {
            Some(place) => (line.get(..place), line.get(place.saturating_add(1)..)),
            None => (Some(line), None),
        };
        let step = read_line(alloc, number, text.unwrap_or(&[]))?;
        let step = step.ok_or(RunFault::JournalLine(number))?;
        let client = client_of(step.client).ok_or(RunFault::JournalLine(number))?;
        self.commands.push(command_of(alloc, &step, more)?)?;
        self.replies.push(step.reply)?;
        self.clients.push(client)?;
        Ok(())
    }
}

/// The name of a client that a log can have.
fn client_of(name: &str) -> Option<&'static str> {
    if name == BLK {
        return Some(BLK);
    }
    SEATS.iter().copied().find(|seat| *seat == name)
}

/// What a step asks, which has this behind its line in the journal.
fn command_of(
    alloc: Global,
    step: &Step<'_, Id>,
    more: Option<&[u8]>,
) -> Result<Command, RunFault<'static>> {
    match (step.asked, more) {
        (Asked::Invalidate, None) => Ok(Command::Invalidate(step.block)),
        (Asked::Reconsider, None) => Ok(Command::Reconsider(step.block)),
        (Asked::Precious, None) => Ok(Command::Precious(step.block)),
        (Asked::Learn(valid), Some(line)) => verdict_of(alloc, step, valid, line),
        (Asked::Submit(now), Some(digits)) => submission_of(alloc, step, now, digits),
        _ => Err(RunFault::JournalLine(step.number)),
    }
}

/// A submission of the block that these digits spell, whose id must be the step's.
fn submission_of(
    alloc: Global,
    step: &Step<'_, Id>,
    now: u64,
    digits: &[u8],
) -> Result<Command, RunFault<'static>> {
    match hex::decode(alloc, digits) {
        Ok(block) => {
            check_record(alloc, step, block.as_slice())?;
            Ok(Command::Submit(Bytes::from_vec(alloc, block)?, now))
        }
        Err(hex::FromHexError::OutOfMemory) => Err(RunFault::Memory),
        Err(_) => Err(RunFault::JournalLine(step.number)),
    }
}

/// A verdict on the signature of a table's line, whose digest must be the step's.
fn verdict_of(
    alloc: Global,
    step: &Step<'_, Id>,
    valid: bool,
    line: &[u8],
) -> Result<Command, RunFault<'static>> {
    match signatures::read_line(alloc, line, step.number) {
        Ok(Some(triple)) if *triple.digest() == step.block.0 => {
            Ok(Command::Learn(SharedTriple::of(&triple)?, valid))
        }
        Err(TableFault::Memory) => Err(RunFault::Memory),
        _ => Err(RunFault::JournalLine(step.number)),
    }
}
