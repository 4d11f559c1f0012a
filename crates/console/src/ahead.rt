//! Blocks that are submitted next, decoded and hashed by several threads at once.

use block::{BlkFault, Bytes};
use journal::{Records, read_out};
use model::{Command, Submission};
use std::alloc::Global;
use std::thread::{Threads, for_each_mut};
use wire::Memory;

/// How many bytes of blocks are read ahead, unless one block has more.
const READ_AHEAD: usize = 4_000_000;

/// The most blocks that are read ahead.
const MOST_BLOCKS: usize = 64;

/// A thread is started for at least this many bytes, so that its start is a small part of its time.
const FOR_EACH_WORKER: usize = 100_000;

/// A block's bytes, with what was made of them, if there was time and memory.
#[derive(Drop)]
pub struct NextBlock {
    pub bytes: Bytes,
    pub submission: Option<Submission>,
}

/// Blocks that were read ahead.
#[derive(Drop)]
struct Ahead {
    workers: usize,
    /// The next one is the last.
    blocks: Vec<NextBlock>,
    /// How many bytes they have.
    size: usize,
}

impl Ahead {
    fn new(alloc: Global, workers: usize) -> Ahead {
        Ahead {
            workers,
            blocks: Vec::new(alloc),
            size: 0,
        }
    }

    /// Whether one more is read. A single worker reads none ahead.
    fn has_room(&self) -> bool {
        let most = if self.workers > 1 { READ_AHEAD } else { 1 };
        self.size < most && self.blocks.len() < MOST_BLOCKS
    }

    /// Puts a block behind the others.
    fn add(&mut self, bytes: Bytes) -> Result<(), Memory> {
        self.size = self.size.saturating_add(bytes.len());
        self.blocks.push(NextBlock {
            bytes,
            submission: None,
        })?;
        Ok(())
    }

    /// Decodes and hashes the blocks, if that is worth starting threads, and puts the first one last.
    fn prepare<R: Threads + Sync>(&mut self, rt: &R, alloc: Global) {
        let workers = self.workers.min(self.size / FOR_EACH_WORKER);
        if workers > 1 {
            for_each_mut(
                rt,
                self.blocks.as_mut_slice(),
                workers,
                &|_place: usize, block: &mut NextBlock| {
                    block.submission = read(alloc, &block.bytes);
                },
            );
        }
        self.blocks.as_mut_slice().reverse();
        self.size = 0;
    }
}

/// What is made of a block's bytes, if there is memory for it.
fn read(alloc: Global, bytes: &Bytes) -> Option<Submission> {
    Submission::read(alloc, bytes.copy().ok()?).ok()
}

/// The records of a blk file, some of them ahead.
#[derive(Drop)]
pub struct RecordsAhead<'f> {
    alloc: Global,
    records: Records<'f>,
    ahead: Ahead,
    /// Why no more are read, behind those that were.
    fault: Option<BlkFault>,
}

impl<'f> RecordsAhead<'f> {
    /// The records that are to come, with at most so many threads.
    pub fn new(alloc: Global, records: Records<'f>, workers: usize) -> RecordsAhead<'f> {
        RecordsAhead {
            alloc,
            records,
            ahead: Ahead::new(alloc, workers),
            fault: None,
        }
    }

    /// The next record's block, or none at the file's end. A fault comes behind the blocks before it.
    pub fn next<R: Threads + Sync>(&mut self, rt: &R) -> Result<Option<NextBlock>, BlkFault> {
        if self.ahead.blocks.is_empty() && self.fault.is_none() {
            self.fault = self.read_on().err();
            self.ahead.prepare(rt, self.alloc);
        }
        if let Some(block) = self.ahead.blocks.pop() {
            return Ok(Some(block));
        }
        match self.fault {
            Some(fault) => Err(fault),
            None => Ok(None),
        }
    }

    /// Reads records until there is no more room, or none is left.
    fn read_on(&mut self) -> Result<(), BlkFault> {
        for _ in 0..MOST_BLOCKS {
            if !self.ahead.has_room() {
                return Ok(());
            }
            let Some(record) = self.records.next()? else {
                return Ok(());
            };
            let added = Bytes::from_vec(self.alloc, record).and_then(|bytes| self.ahead.add(bytes));
            added.map_err(|_| BlkFault::Memory)?;
        }
        Ok(())
    }

    /// Reads on to the file's end.
    pub fn read_out(&mut self) -> Result<(), BlkFault> {
        match self.fault {
            Some(fault) => Err(fault),
            None => read_out(&mut self.records),
        }
    }
}

/// The submissions among commands, some of them ahead.
#[derive(Drop)]
pub struct CommandsAhead<'c> {
    alloc: Global,
    commands: &'c [Command],
    ahead: Ahead,
}

impl<'c> CommandsAhead<'c> {
    /// The submissions among these commands, with at most so many threads.
    pub fn new(alloc: Global, commands: &'c [Command], workers: usize) -> CommandsAhead<'c> {
        CommandsAhead {
            alloc,
            commands,
            ahead: Ahead::new(alloc, workers),
        }
    }

    /// What was made of the next command, if it is a submission.
    pub fn next<R: Threads + Sync>(&mut self, rt: &R) -> Option<Submission> {
        let commands = self.commands;
        let (command, behind) = commands.split_first()?;
        if !matches!(command, Command::Submit(..)) {
            self.commands = behind;
            return None;
        }
        if self.ahead.blocks.is_empty() {
            // Without memory for one more, those before it are prepared.
            let _ = self.read_on();
            self.ahead.prepare(rt, self.alloc);
        }
        self.commands = behind;
        self.ahead.blocks.pop()?.submission
    }

    /// Adds the submissions among what is left, until there is no more room.
    fn read_on(&mut self) -> Result<(), Memory> {
        for command in self.commands {
            if !self.ahead.has_room() {
                return Ok(());
            }
            if let Command::Submit(bytes, _) = command {
                self.ahead.add(bytes.copy()?)?;
            }
        }
        Ok(())
    }
}
