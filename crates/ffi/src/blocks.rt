//! The transactions of a block's bytes. No chainstate is looked at.

ghost use Rattle.std.specs.Prelude.{◌≡◌, IfOk, map};
ghost use Rattle.block.specs.BlockOfBytes.{block_of_bytes};
ghost use Rattle.ffi.specs.Blocks.{IsListed, made_of};
ghost use Rattle.ffi.specs.Room.{IsCounted};

use crate::answers::{MEMORY, Made, NONE, Name};
use crate::room::fill;
use block::{ReadFault, read};
use std::alloc::Global;
use txn::Tx;
use wire::Memory;

/// The transactions of the block that these bytes spell, in order, at the front of `rows` where that is long enough,
/// and how many they are.
#[unsafe(no_mangle)]
pub extern "C" fn ffi_transactions(
    alloc: Global,
    bytes: &[u8],
    rows: &mut [Made],
    count: &mut u64,
) -> u32
    ensures { IsListed (block_of_bytes bytes.now) rows.old rows.new count.old count.new result }
{
    match read(alloc, bytes) {
        Err(ReadFault::Memory) => MEMORY,
        Err(_) => NONE,
        Ok(block) => list(alloc, block.txs.as_slice(), rows, count),
    }
}

fn list(alloc: Global, txs: &[Tx], rows: &mut [Made], count: &mut u64) -> u32
    ensures { IsCounted (map made_of txs.now) rows.old rows.new count.old count.new result }
{
    let Ok(made) = made_by(alloc, txs) else {
        return MEMORY;
    };
    *count = made.len() as u64;
    fill(made.as_slice(), rows)
}

fn made_by(alloc: Global, txs: &[Tx]) -> Result<Vec<Made>, Memory>
    ensures { IfOk result (λ made. made.items ≡ map made_of txs.now) }
{
    let mut made = Vec::new(alloc);
    for tx in txs {
        let bytes = tx.id().0;
        made.push(Made {
            id: Name { bytes },
            outputs: tx.outputs.len() as u64,
        })?;
    }
    Ok(made)
}
