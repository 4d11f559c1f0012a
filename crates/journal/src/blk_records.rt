//! The records of a blk file, read back.

ghost use Rattle.std.specs.Prelude.{◌≡◌, List, ℕ, IfOk, IfErr, OnOk, map};
ghost use Rattle.block.specs.declared.blk.Stage.TheVariants as stages;
ghost use Rattle.journal.specs.SavedRun.{AreAll, IsRefused};

use block::{BlkFault, BlkReader, SliceSource};
use std::alloc::Global;

/// The records of a blk file's bytes, one after the other.
pub type Records<'f> = BlkReader<SliceSource<'f>>;

/// Reads on to the file's end.
pub fn read_out(reader: &mut Records<'_>) -> Result<(), BlkFault>
    ensures read { reader.old.stage ≡ stages.Reading
        → OnOk result ((blocks : List (List ℕ)) × AreAll reader.old.to_come blocks) }
    ensures refused { reader.old.stage ≡ stages.Reading
        → IfErr result (IsRefused reader.old.offset reader.old.to_come) }
{
    while let Some(_block) = reader.next()? {}
    Ok(())
}

/// The blocks of a blk file's bytes, in the order of their records.
pub fn read_records(alloc: Global, bytes: &[u8]) -> Result<Vec<Vec<u8>>, BlkFault>
    ensures read { IfOk result (λ records.
        AreAll bytes.now (map (λ block. block.items) records.items)) }
    ensures refused { IfErr result (IsRefused 0 bytes.now) }
{
    let mut records = Vec::new(alloc);
    let mut reader = Records::new(alloc, SliceSource::new(bytes));
    while let Some(record) = reader.next()? {
        records.push(record).map_err(|_| BlkFault::Memory)?;
    }
    Ok(records)
}
