//! What was saved of a run, read to be replayed.

use crate::datadir::{
    JudgedSignature, KeptSteps, LOG, PlaySetting, Unpacked, check_lines, read_bytes, read_lines,
    read_setting, table_of,
};
use crate::fault::RunFault;
use crate::files::{read_file, read_table, read_table_file};
use crate::options::Saved;
use crate::saves::{SavedFiles, read_saved};
use block::{ReadFault, SliceSource};
use durable::{Found, whole_lines};
use hash::Id;
use journal::{Asked, Records, Step, read_heights, read_journal, read_records};
use model::{Bytes, Command, Reply, SharedTriple};
use rules::Params;
use signatures::Table;
use std::alloc::{AllocError, Global};
use std::fs::File;
use std::rt::Files;
use std::{str, vec};

/// The moment at which the blocks of a blk file are submitted: the last that a header's time can be.
pub const BLK_MOMENT: u64 = 4_294_967_295;

/// How a run was made, what was asked, in order, and the replies that were recorded.
#[derive(Drop)]
pub struct Replay {
    pub params: Params,
    pub table: Table,
    pub commands: Vec<Command>,
    pub recorded: Vec<Option<Reply>>,
    /// How many of the commands are submissions.
    pub blocks: usize,
}

/// What was saved of a run.
#[derive(Drop)]
pub struct SavedRun {
    pub params: Params,
    pub journal: Vec<u8>,
    pub blk: Vec<u8>,
    /// Those of the journal's lines, where they are told again.
    pub verdicts: Vec<JudgedSignature>,
    pub table: Table,
}

/// What so many lines of a saved journal ask, at most. Where there are more, records of theirs aren't looked at.
pub fn read_replay<'w, R>(rt: &R, saved: &Saved<'w>, limit: usize) -> Result<Replay, RunFault<'w>>
where
    R: Files<File = File> + AllocGlobal,
{
    if let Saved::Datadir(folder) = saved {
        return read_kept(rt, folder, limit);
    }
    let SavedRun {
        params,
        journal,
        blk,
        verdicts,
        table,
    } = read_inputs(rt, saved)?;
    let steps = read_steps(
        rt.alloc(),
        journal.as_slice(),
        blk.as_slice(),
        verdicts,
        limit,
    )?;
    check_verdicts(steps.commands.as_slice(), &table)?;
    Ok(Replay {
        params,
        table,
        blocks: steps.blocks,
        commands: steps.commands,
        recorded: steps.recorded,
    })
}

/// What so many lines of a node's log ask, at most. The node may go on.
fn read_kept<'w, R>(rt: &R, folder: &'w str, limit: usize) -> Result<Replay, RunFault<'w>>
where
    R: Files<File = File> + AllocGlobal,
{
    let alloc = rt.alloc();
    let PlaySetting { params, table } = read_setting(rt, folder)?;
    let found = read_found(rt, folder)?;
    let mut steps = KeptSteps::open(rt, folder, found)?;
    let mut commands = Vec::new(alloc);
    let mut recorded = Vec::new(alloc);
    for _ in 0..u64::MAX {
        if commands.len() >= limit {
            break;
        }
        let Some(mut batch) = steps.next()? else {
            break;
        };
        commands.append(&mut batch.commands)?;
        recorded.append(&mut batch.replies)?;
    }
    commands.truncate(limit);
    recorded.truncate(limit);
    let table = match table {
        Some(table) => table,
        None => table_learnt(alloc, commands.as_slice())?,
    };
    check_verdicts(commands.as_slice(), &table)?;
    Ok(Replay {
        params,
        table,
        blocks: blocks_of(commands.as_slice()),
        commands,
        recorded,
    })
}

/// The whole lines of a log, which isn't spoiled.
fn read_found<'w, R>(rt: &R, folder: &'w str) -> Result<Found, RunFault<'w>>
where
    R: Files<File = File> + AllocGlobal,
{
    let log = read_bytes(rt, folder, LOG)?;
    check_lines(rt.alloc(), folder, log.as_slice())?;
    Ok(whole_lines(log.as_slice()))
}

/// The signatures that these commands say are valid.
fn table_learnt(alloc: Global, commands: &[Command]) -> Result<Table, RunFault<'static>> {
    let mut lines = String::new(alloc);
    for command in commands {
        if let Command::Learn(triple, true) = command {
            writeln!(lines, "{}", triple.triple())?;
        }
    }
    Ok(Table::from_lines(alloc, lines.as_bytes())?)
}

/// How many of these commands are submissions.
fn blocks_of(commands: &[Command]) -> usize {
    let is_submission = |command: &&Command| matches!(command, Command::Submit(..));
    commands.iter().filter(is_submission).count()
}

/// Refuses a verdict that a signature isn't valid which another says is.
fn check_verdicts(commands: &[Command], table: &Table) -> Result<(), RunFault<'static>> {
    for (place, command) in commands.iter().enumerate() {
        if let Command::Learn(triple, false) = command {
            let triple = triple.triple();
            if table.has(triple.key(), triple.signature(), triple.digest()) {
                return Err(RunFault::NoStep(place.saturating_add(1)));
            }
        }
    }
    Ok(())
}

/// What the lines of a journal ask, and the replies that were recorded.
#[derive(Drop)]
struct Steps {
    commands: Vec<Command>,
    recorded: Vec<Option<Reply>>,
    blocks: usize,
}

fn read_steps(
    alloc: Global,
    journal: &[u8],
    blk: &[u8],
    verdicts: Vec<JudgedSignature>,
    limit: usize,
) -> Result<Steps, RunFault<'static>> {
    let front = first_lines(journal, limit);
    let steps = read_journal(alloc, front)?;
    let records = if front.len() < journal.len() {
        first_records(alloc, blk, submissions(steps.as_slice()))?
    } else {
        read_records(alloc, blk)?
    };
    let blocks = records.len();
    Ok(Steps {
        commands: commands(alloc, steps.as_slice(), records, verdicts)?,
        recorded: replies(alloc, steps.as_slice())?,
        blocks,
    })
}

/// The replies that were recorded.
fn replies(alloc: Global, steps: &[Step<'_, Id>]) -> Result<Vec<Option<Reply>>, AllocError> {
    let mut replies = Vec::new(alloc);
    for step in steps {
        replies.push(step.reply)?;
    }
    Ok(replies)
}

/// The files of an audit, in the order in which one that can't be read is told.
pub fn read_inputs<'w, R>(rt: &R, saved: &Saved<'w>) -> Result<SavedRun, RunFault<'w>>
where
    R: Files<File = File> + AllocGlobal,
{
    match saved {
        Saved::Folder(folder) => read_folder(rt, folder),
        Saved::Datadir(folder) => read_datadir(rt, folder),
        Saved::Files {
            journal,
            blk,
            table,
            heights,
        } => {
            let params = read_heights(heights).ok_or(RunFault::Heights)?;
            let journal = read_file(rt, journal)?;
            let blk = read_file(rt, blk)?;
            let table = read_table_file(rt, *table)?;
            Ok(SavedRun {
                params,
                journal,
                blk,
                verdicts: Vec::new(rt.alloc()),
                table,
            })
        }
    }
}

/// The four files that a run saved.
fn read_folder<'w, R>(rt: &R, folder: &'w str) -> Result<SavedRun, RunFault<'w>>
where
    R: Files<File = File> + AllocGlobal,
{
    let SavedFiles {
        journal,
        blocks,
        table,
        heights,
    } = read_saved(rt, folder)?;
    let params = read_heights_line(heights.as_slice()).ok_or(RunFault::Heights)?;
    Ok(SavedRun {
        params,
        journal,
        blk: blocks,
        verdicts: Vec::new(rt.alloc()),
        table: read_table(rt.alloc(), Some(table.as_slice()))?,
    })
}

/// What the whole lines of a node's log say. The node may go on.
fn read_datadir<'w, R>(rt: &R, folder: &'w str) -> Result<SavedRun, RunFault<'w>>
where
    R: Files<File = File> + AllocGlobal,
{
    let PlaySetting { params, table } = read_setting(rt, folder)?;
    let log = read_bytes(rt, folder, LOG)?;
    check_lines(rt.alloc(), folder, log.as_slice())?;
    let Unpacked {
        journal,
        blk,
        verdicts,
    } = read_lines(rt.alloc(), log.as_slice())?;
    let table = match table {
        Some(table) => table,
        None => table_of(rt.alloc(), verdicts.as_slice())?,
    };
    Ok(SavedRun {
        params,
        journal,
        blk,
        verdicts,
        table,
    })
}

/// The heights of a file's only line.
pub fn read_heights_line(line: &[u8]) -> Option<Params> {
    let word = str::from_utf8(line).unwrap_or("");
    read_heights(word.strip_suffix('\n').unwrap_or(word))
}

/// The first lines of a text, or all if it has fewer.
fn first_lines(text: &[u8], count: usize) -> &[u8] {
    let mut left = count;
    for (place, byte) in text.iter().enumerate() {
        if left == 0 {
            return text.get(..place).unwrap_or(text);
        }
        if *byte == b'\n' {
            left -= 1;
        }
    }
    text
}

/// The first records of a blk file, or all if it has fewer.
fn first_records(
    alloc: Global,
    blk: &[u8],
    count: usize,
) -> Result<Vec<Vec<u8>>, RunFault<'static>> {
    let mut records = Records::new(alloc, SliceSource::new(blk));
    let mut first = Vec::new(alloc);
    for _ in 0..count {
        let Some(record) = records.next()? else {
            break;
        };
        first.push(record)?;
    }
    Ok(first)
}

/// How many of these steps are submissions.
fn submissions(steps: &[Step<'_, Id>]) -> usize {
    let is_submission = |step: &&Step<'_, Id>| matches!(step.asked, Asked::Submit(_));
    steps.iter().filter(is_submission).count()
}

/// What a journal's steps ask, each submission of its record, and each verdict on its signature.
pub fn commands(
    alloc: Global,
    steps: &[Step<'_, Id>],
    records: Vec<Vec<u8>>,
    verdicts: Vec<JudgedSignature>,
) -> Result<Vec<Command>, RunFault<'static>> {
    if submissions(steps) != records.len() {
        return Err(RunFault::BlkRecords);
    }
    let mut records = records.into_iter();
    let mut verdicts = verdicts.into_iter();
    let mut commands = Vec::new(alloc);
    for step in steps {
        commands.push(command_of(alloc, step, &mut records, &mut verdicts)?)?;
    }
    Ok(commands)
}

/// The command of a step. A submission takes the next of the records, whose id must be the step's, and a verdict the next
/// of the verdicts, whose digest must be. Where there is none the line has the digest alone.
fn command_of(
    alloc: Global,
    step: &Step<'_, Id>,
    records: &mut vec::IntoIter<Vec<u8>>,
    verdicts: &mut vec::IntoIter<JudgedSignature>,
) -> Result<Command, RunFault<'static>> {
    Ok(match step.asked {
        Asked::Invalidate => Command::Invalidate(step.block),
        Asked::Reconsider => Command::Reconsider(step.block),
        Asked::Precious => Command::Precious(step.block),
        Asked::Learn(valid) => {
            let verdict = verdicts.next().ok_or(RunFault::VerdictLine(step.number))?;
            if verdict.valid != valid || *verdict.triple.digest() != step.block.0 {
                return Err(RunFault::JournalLine(step.number));
            }
            Command::Learn(SharedTriple::of(&verdict.triple)?, valid)
        }
        Asked::Submit(now) => {
            let record = records.next().ok_or(RunFault::BlkRecords)?;
            check_record(alloc, step, record.as_slice())?;
            Command::Submit(Bytes::from_vec(alloc, record)?, now)
        }
    })
}

/// Refuses a record that isn't the block of a step.
pub fn check_record(
    alloc: Global,
    step: &Step<'_, Id>,
    record: &[u8],
) -> Result<(), RunFault<'static>> {
    match block::read(alloc, record) {
        Ok(block) if block.id() == step.block => Ok(()),
        Err(ReadFault::Memory) => Err(RunFault::Memory),
        _ => Err(RunFault::OtherRecord(step.number)),
    }
}
