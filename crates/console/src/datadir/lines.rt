//! A line of the log: a step's line in the journal, and behind a tab what that line lacks. Of a submission it is the block's
//! bytes in hexadecimal digits, of a verdict its signature as a line of a table.

use crate::fault::RunFault;
use crate::report::Clients;
use durable::{Found, first_line, spoiled_at, whole_lines};
use journal::{Asked, RecordFault, Step, block_of, put_record};
use memchr::memchr;
use model::{Command, Entry};
use signatures::{KeptTriple, Table, TableFault, read_line};
use std::alloc::Global;

/// The line of an entry of this number, from 1, without its end.
pub fn entry_line(
    alloc: Global,
    clients: &Clients<'_>,
    number: u64,
    entry: &Entry,
) -> Result<Vec<u8>, RunFault<'static>> {
    let number = number as usize;
    let step = Step {
        number,
        client: clients.name(number.saturating_sub(1), entry.seat),
        asked: Asked::from_command(&entry.command),
        block: block_of(alloc, entry)?,
        reply: entry.reply,
    };
    let mut line = format!(in alloc; "{step}")?;
    match &entry.command {
        Command::Submit(block, _) => {
            let digits = hex::encode(alloc, block.as_slice())?;
            write!(line, "\t{digits}")?;
        }
        Command::Learn(triple, _) => write!(line, "\t{}", triple.triple())?,
        _ => {}
    }
    Ok(line.into_bytes())
}

/// Refuses the text of this folder's log if whole lines stand behind a zero byte, or the line that follows one ended by it.
pub fn check_lines<'w>(alloc: Global, folder: &'w str, text: &[u8]) -> Result<(), RunFault<'w>> {
    if let Some(place) = spoiled_at(text) {
        return Err(RunFault::Spoiled(folder, place));
    }
    let Found { count, end } = whole_lines(text);
    let behind = text.get(end as usize..).unwrap_or(&[]);
    let Some(zero) = memchr(0, behind) else {
        return Ok(());
    };
    let next = behind.get(zero.saturating_add(1)..).unwrap_or(&[]);
    let number = format!(in alloc; "{} ", count.saturating_add(2))?;
    if next.starts_with(number.as_bytes()) && memchr(b'\n', next).is_some() {
        return Err(RunFault::Spoiled(folder, end.saturating_add(zero as u64)));
    }
    Ok(())
}

/// A signature, and whether it is valid.
#[derive(Drop)]
pub struct JudgedSignature {
    pub triple: KeptTriple,
    pub valid: bool,
}

/// A journal's text, the blk file of its submissions, and its verdicts, in order.
#[derive(Drop)]
pub struct Unpacked {
    pub journal: Vec<u8>,
    pub blk: Vec<u8>,
    pub verdicts: Vec<JudgedSignature>,
}

/// What the lines of a log say.
pub fn read_lines(alloc: Global, text: &[u8]) -> Result<Unpacked, RunFault<'static>> {
    let mut unpacked = Unpacked {
        journal: Vec::new(alloc),
        blk: Vec::new(alloc),
        verdicts: Vec::new(alloc),
    };
    let mut rest = text;
    for number in 1..usize::MAX {
        let Some((line, behind)) = first_line(rest) else {
            break;
        };
        unpacked.add(alloc, line, number)?;
        rest = behind;
    }
    Ok(unpacked)
}

impl Unpacked {
    /// Adds the line of this number.
    fn add(&mut self, alloc: Global, line: &[u8], number: usize) -> Result<(), RunFault<'static>> {
        let Some(place) = memchr(b'\t', line) else {
            return self.add_step(line);
        };
        let (step, behind) = line.split_at(place);
        self.add_step(step)?;
        let behind = behind.get(1..).unwrap_or(&[]);
        match word_of(step) {
            b"submit" => self.add_digits(alloc, behind, number),
            b"valid" => self.add_verdict(alloc, behind, true, number),
            b"invalid" => self.add_verdict(alloc, behind, false, number),
            _ => Err(RunFault::JournalLine(number)),
        }
    }

    /// Adds the block that these digits spell.
    fn add_digits(
        &mut self,
        alloc: Global,
        digits: &[u8],
        number: usize,
    ) -> Result<(), RunFault<'static>> {
        match hex::decode(alloc, digits) {
            Ok(block) => self.add_block(block.as_slice()),
            Err(hex::FromHexError::OutOfMemory) => Err(RunFault::Memory),
            Err(_) => Err(RunFault::JournalLine(number)),
        }
    }

    /// Adds a verdict on the signature of a table's line.
    fn add_verdict(
        &mut self,
        alloc: Global,
        line: &[u8],
        valid: bool,
        number: usize,
    ) -> Result<(), RunFault<'static>> {
        match read_line(alloc, line, number) {
            Ok(Some(triple)) => {
                self.verdicts.push(JudgedSignature { triple, valid })?;
                Ok(())
            }
            Ok(None) | Err(TableFault::BadLine(_)) => Err(RunFault::JournalLine(number)),
            Err(TableFault::Memory) => Err(RunFault::Memory),
        }
    }

    fn add_step(&mut self, step: &[u8]) -> Result<(), RunFault<'static>> {
        self.journal.extend_from_slice(step)?;
        self.journal.push(b'\n')?;
        Ok(())
    }

    fn add_block(&mut self, block: &[u8]) -> Result<(), RunFault<'static>> {
        match put_record(&mut self.blk, block) {
            Ok(()) => Ok(()),
            Err(RecordFault::Memory) => Err(RunFault::Memory),
            Err(RecordFault::TooLong) => Err(RunFault::BlkRecords),
        }
    }
}

/// The word that says what a step was asked.
fn word_of(step: &[u8]) -> &[u8] {
    step.split(|byte| *byte == b' ').nth(2).unwrap_or(&[])
}

/// The signatures that these verdicts say are valid.
pub fn table_of(alloc: Global, verdicts: &[JudgedSignature]) -> Result<Table, RunFault<'static>> {
    let lines = triple_lines(alloc, verdicts, true)?;
    Ok(Table::from_lines(alloc, lines.as_bytes())?)
}

/// The lines of the signatures of which these verdicts say that they are valid, or that they aren't.
pub fn triple_lines(
    alloc: Global,
    verdicts: &[JudgedSignature],
    are_valid: bool,
) -> Result<String, RunFault<'static>> {
    let mut lines = String::new(alloc);
    for JudgedSignature { triple, valid } in verdicts {
        if *valid == are_valid {
            writeln!(lines, "{triple}")?;
        }
    }
    Ok(lines)
}
