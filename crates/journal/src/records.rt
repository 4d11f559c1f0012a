//! Blk files: the records of a run's submissions, written.

ghost use Rattle.std.specs.Prelude.{◌≡◌, ◌++◌, ◌<◌, ◌≤◌, true, false, length, IfOk, IfErr, OnOk};
ghost use Rattle.std.specs.List.{flat_map, list_any};
ghost use Rattle.wire.specs.Numbers.{limit};
ghost use Rattle.block.specs.Blk.{record_bytes};
ghost use Rattle.journal.specs.SavedRun.{record_of, is_long};
ghost use Rattle.journal.specs.declared.records.RecordFault.TheVariants as faults;

use model::{Command, Entry};
use std::alloc::{AllocError, Global};

/// What each of regtest's records begins with (Bitcoin Core's message start).
const MAGIC: [u8; 4] = [0xfa, 0xbf, 0xb5, 0xda];

/// Why a blk file isn't made.
#[derive(Clone, Copy, Debug, PartialEq, Eq)]
pub enum RecordFault {
    /// A block is longer than a record may be.
    TooLong,
    Memory,
}

impl From<AllocError> for RecordFault {
    ghost from_gives = { λ _ fault. fault ≡ faults.Memory };

    fn from(_error: AllocError) -> RecordFault {
        RecordFault::Memory
    }
}

/// The blk file of the submissions among these entries, in their order.
pub fn blk_file(alloc: Global, entries: &[Entry]) -> Result<Vec<u8>, RecordFault>
    ensures file { IfOk result (λ file. file.items ≡ flat_map record_of entries.now) }
    // Every block has its record, or the fault is that one is too long, unless memory runs out.
    ensures fits { OnOk result (list_any (λ entry. is_long entry.command) entries.now ≡ false) }
    ensures long { IfErr result (λ fault. fault ≡ faults.TooLong
        → list_any (λ entry. is_long entry.command) entries.now ≡ true) }
{
    let mut file = Vec::new(alloc);
    for entry in entries {
        put_submission(&mut file, entry)?;
    }
    Ok(file)
}

/// Writes the record of a submission at the end. After a fault the file is of no use.
fn put_submission(out: &mut Vec<u8>, entry: &Entry) -> Result<(), RecordFault>
    ensures file { OnOk result (out.new.items ≡ out.old.items ++ record_of entry.now) }
    ensures fits { OnOk result (is_long entry.now.command ≡ false) }
    ensures long { IfErr result (λ fault.
        fault ≡ faults.TooLong → is_long entry.now.command ≡ true) }
{
    match &entry.command {
        Command::Submit(block, _) => put_record(out, block.as_slice()),
        _ => Ok(()),
    }
}

/// Writes a block's record at the end. After a fault the file is of no use.
pub fn put_record(out: &mut Vec<u8>, block: &[u8]) -> Result<(), RecordFault>
    ensures file { OnOk result (out.new.items ≡ out.old.items ++ record_bytes block.now) }
    ensures fits { OnOk result (length block.now ≤ limit) }
    ensures long { IfErr result (λ fault. fault ≡ faults.TooLong → limit < length block.now) }
{
    if block.len() as u64 > wire::LIMIT {
        return Err(RecordFault::TooLong);
    }
    let length = block.len() as u32;
    out.extend_from_slice(&MAGIC)?;
    out.extend_from_slice(&length.to_le_bytes())?;
    out.extend_from_slice(block)?;
    Ok(())
}
