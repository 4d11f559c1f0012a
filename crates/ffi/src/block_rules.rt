//! What is asked of a block by itself and by its place, and of a blk file's record.

ghost use Rattle.std.specs.Prelude.{◌≡◌, ◌⊎◌, ℕ, List, length, pos, IfOk, IfErr, Err, None, Some};
ghost use Rattle.txn.specs.First.{first_broken};
ghost use Rattle.block.specs.Blk.{IsEnd, IsFault, IsOutside, IsRecord};
ghost use Rattle.block.specs.BlockOfBytes.{block_of_bytes};
ghost use Rattle.block.specs.Reward.{subsidy_of};
ghost use Rattle.block.specs.Target.{meets_target};
ghost use Rattle.block.specs.Whole.{Faulty};
ghost use Rattle.block.specs.declared.blk_fault.BlkFault.{BlkFault};
ghost use Rattle.block.specs.declared.fault.ReadFault.{ReadFault};
ghost use Rattle.rules.specs.Context.{context_rules};
ghost use Rattle.rules.specs.Params.{at};
ghost use Rattle.ffi.specs.Answers.{id_of, params_of};
ghost use Rattle.ffi.specs.BlockRules.{IsMedianTold, ShowsBlock};
ghost use Rattle.ffi.specs.Refusals.{IsBlockTold, IsFaultTold, IsRecordTold, bit, blk_number, broken_number, read_number};

use crate::answers::{DONE, Heights, MEMORY, MISMATCH, NONE, Name};
use crate::shown::ShownBlock;
use crate::transactions::broken;
use block::{
    BlkFault, BlkReader, Block, ReadFault, SliceSource, meets_target, merkle, read, size, subsidy,
};
use hash::Id;
use locks::median;
use rules::{block_alone_with, context_fault};
use std::alloc::Global;
use txn::ids;
use wire::Memory;

/// Why there is no block, by its number.
pub(crate) fn refusal(fault: ReadFault) -> u32
    ensures { result ≡ read_number fault }
{
    match fault {
        ReadFault::Short => 20,
        ReadFault::LongForm => 21,
        ReadFault::TooLarge => 22,
        ReadFault::Extra => 23,
        ReadFault::Memory => MEMORY,
    }
}

/// The block that all these bytes spell, with its id, its root and the first rule that it breaks by itself.
#[unsafe(no_mangle)]
pub extern "C" fn ffi_block(alloc: Global, bytes: &[u8], shown: &mut ShownBlock) -> u32
    ensures told { IsBlockTold bytes.now (block_of_bytes bytes.now)
        (λ b. (result ≡ 0) × ShowsBlock b shown.new)
        (shown.new ≡ shown.old) result }
    ensures fault { (e : ReadFault) → Faulty e bytes.now → IsFaultTold e result }
{
    match read(alloc, bytes) {
        Err(fault) => refusal(fault),
        Ok(block) => match show(alloc, &block) {
            Err(_) => MEMORY,
            Ok(found) => {
                *shown = found;
                DONE
            }
        },
    }
}

fn name(id: &Id) -> Name
    ensures { result.bytes ≡ id.now.0 }
{
    let bytes = id.0;
    Name { bytes }
}

fn show(alloc: Global, block: &Block) -> Result<ShownBlock, Memory>
    ensures { IfOk result (ShowsBlock block.now) }
{
    let id = block.id();
    let ids = ids(alloc, block.txs.as_slice())?;
    let (root, twin) = merkle(alloc, &ids)?;
    let found = block_alone_with(alloc, block, &id, &ids)?;
    let header = block.header;
    Ok(ShownBlock {
        id: name(&id),
        parent: name(&header.prev),
        root: name(&header.root),
        merkle: name(&root),
        size: size(block),
        transactions: block.txs.len() as u64,
        version: header.version,
        time: header.time,
        bits: header.bits,
        nonce: header.nonce,
        twin: twin as u32,
        target: meets_target(&id) as u32,
        reason: broken(found),
    })
}

/// The first rule that a block breaks by its place: at this height, with its parent's median time past, at a moment,
/// under these heights of soft forks. 0 where there is none.
#[unsafe(no_mangle)]
pub extern "C" fn ffi_block_place(
    alloc: Global,
    bytes: &[u8],
    height: u32,
    median: u32,
    now: u64,
    heights: &Heights,
    reason: &mut u32,
) -> u32
    ensures told { IsBlockTold bytes.now (block_of_bytes bytes.now) (λ b. (result ≡ 0) × (reason.new
        ≡ broken_number (first_broken
        (context_rules (at (params_of heights.now) height) b height median now))))
        (reason.new ≡ reason.old) result }
    ensures fault { (e : ReadFault) → Faulty e bytes.now → IsFaultTold e result }
{
    match read(alloc, bytes) {
        Err(fault) => refusal(fault),
        Ok(block) => {
            let params = heights.params();
            *reason = broken(context_fault(&block, height, median, now, &params));
            DONE
        }
    }
}

/// How many bytes the block has of the record at the front of a blk file's bytes, behind the record's first 8.
#[unsafe(no_mangle)]
pub extern "C" fn ffi_record(alloc: Global, bytes: &[u8], size: &mut u64) -> u32
    ensures told { IsRecordTold bytes.now size.old size.new result }
    ensures record { (block after : List ℕ) → IsRecord block bytes.now after
        → ((result ≡ 0) × (size.new ≡ length block)) ⊎ ((result ≡ 1) × (size.new ≡ size.old)) }
    ensures end { IsEnd bytes.now → ((result ≡ 4) ⊎ (result ≡ 1)) × (size.new ≡ size.old) }
    ensures fault { (e : BlkFault) → IsFault 0 bytes.now e → (IsOutside e → ⊥)
        → ((result ≡ blk_number e) ⊎ (result ≡ 1)) × (size.new ≡ size.old) }
{
    let mut reader = BlkReader::new(alloc, SliceSource::new(bytes));
    match reader.next() {
        Ok(None) => NONE,
        Ok(Some(block)) => {
            *size = block.len() as u64;
            DONE
        }
        Err(fault) => record_refusal(fault),
    }
}

// No read of bytes in memory fails, and a new reader hasn't stopped.
fn record_refusal(fault: BlkFault) -> u32
    ensures { result ≡ blk_number fault }
{
    match fault {
        BlkFault::Foreign(_) => 26,
        BlkFault::Cut(_) => 27,
        BlkFault::TooLong(_) => 28,
        BlkFault::Read | BlkFault::Memory | BlkFault::Stopped => MEMORY,
    }
}

/// The new coins that a block of this height may make, in satoshis.
#[unsafe(no_mangle)]
pub extern "C" fn ffi_subsidy(height: u32) -> i64
    ensures { result ≡ pos (subsidy_of height) }
{
    subsidy(height)
}

/// 1 where a block of this id has regtest's proof of work, and else 0.
#[unsafe(no_mangle)]
pub extern "C" fn ffi_meets_target(id: &Name) -> u32
    ensures { result ≡ bit (meets_target (id_of id.now)) }
{
    let bytes = id.bytes;
    meets_target(&Id(bytes)) as u32
}

/// The median of 1 to 11 times.
#[unsafe(no_mangle)]
pub extern "C" fn ffi_median(times: &[u32], middle: &mut u32) -> u32
    ensures { IsMedianTold times.now middle.old middle.new result }
{
    if times.is_empty() || times.len() > 11 {
        return MISMATCH;
    }
    *middle = median(times);
    DONE
}
