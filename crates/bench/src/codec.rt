//! Blocks from bytes and back, judged by themselves, and blk files.

use crate::check::Check;
use crate::clock::{Outcome, Timer};
use crate::fault::{BenchFault, read_again};
use block::{BlkReader, Block, SliceSource};
use hash::{Id, double_sha};
use rules::block_alone;
use std::alloc::Global;
use std::rt::Clock;
use txn::ids;
use workloads::inputs;
use workloads::inputs::blocks::{blk_file, block_bytes};
use workloads::inputs::branch::bytes_of;
use workloads::inputs::payments::block_of;

/// The id of no transaction.
const NONE: Id = Id([0; 32]);

/// Reading a block of so many payments from its bytes. The last payment's id is the check.
pub fn decode<R: AllocGlobal + Clock>(rt: &R, size: usize) -> Result<Outcome, BenchFault> {
    let bytes = block_bytes(rt.alloc(), size)?;
    let timer = Timer::start(rt);
    let block = read_again(block::read(rt.alloc(), bytes.as_slice()));
    decoded(rt, timer, block)
}

/// The result of a block that was read until now.
fn decoded(
    clock: &impl Clock,
    timer: Timer,
    block: Result<Block, BenchFault>,
) -> Result<Outcome, BenchFault> {
    let block = block?;
    let spent = timer.spent(clock)?;
    let check = Check::of_id(last_id(&block));
    Ok(Outcome { check, spent })
}

/// The id of the last transaction.
fn last_id(block: &Block) -> Id {
    match block.txs.as_slice() {
        [.., tx] => tx.id(),
        [] => NONE,
    }
}

/// The ids of so many payments.
pub fn payment_ids<R: AllocGlobal + Clock>(rt: &R, size: usize) -> Result<Outcome, BenchFault> {
    let block = block_of(rt.alloc(), size)?;
    let timer = Timer::start(rt);
    let ids = ids(rt.alloc(), block.txs.as_slice())?;
    timer.stop(rt, Ok(Check::of_id(last_of(ids.as_slice()))))
}

fn last_of(ids: &[Id]) -> Id {
    match ids {
        [.., id] => *id,
        [] => NONE,
    }
}

/// The rules that a block of so many payments obeys by itself. Its Merkle root is the check if it does.
pub fn alone<R: AllocGlobal + Clock>(rt: &R, size: usize) -> Result<Outcome, BenchFault> {
    let block = block_of(rt.alloc(), size)?;
    let timer = Timer::start(rt);
    timer.stop(rt, judged(rt.alloc(), &block))
}

/// A block's Merkle root, or the rule that it breaks.
fn judged(alloc: Global, block: &Block) -> Result<Check, BenchFault> {
    Ok(match block_alone(alloc, block)? {
        None => Check::of_id(block.header.root),
        Some(reason) => Check::Count(u64::from(reason.number())),
    })
}

/// Writing a block of so many payments.
pub fn write<R: AllocGlobal + Clock>(rt: &R, size: usize) -> Result<Outcome, BenchFault> {
    let block = block_of(rt.alloc(), size)?;
    let timer = Timer::start(rt);
    written(rt, timer, bytes_of(rt.alloc(), &block))
}

/// The result of a block that was written until now.
fn written(
    clock: &impl Clock,
    timer: Timer,
    bytes: Result<Vec<u8>, inputs::InputsFault>,
) -> Result<Outcome, BenchFault> {
    let bytes = bytes?;
    let spent = timer.spent(clock)?;
    let check = Check::of_digest(double_sha(bytes.as_slice()));
    Ok(Outcome { check, spent })
}

/// Reading a blk file of so many records. The bytes of all of them are counted.
pub fn records<R: AllocGlobal + Clock>(rt: &R, size: usize) -> Result<Outcome, BenchFault> {
    let file = blk_file(rt.alloc(), size)?;
    let timer = Timer::start(rt);
    timer.stop(rt, read_records(rt.alloc(), file.as_slice(), size))
}

/// How many bytes the first records have.
fn read_records(alloc: Global, file: &[u8], count: usize) -> Result<Check, BenchFault> {
    let mut reader = BlkReader::new(alloc, SliceSource::new(file));
    let mut bytes = 0u64;
    for _ in 0..count {
        if let Some(record) = read_again(reader.next())? {
            bytes = bytes.wrapping_add(record.len() as u64);
        }
    }
    Ok(Check::Count(bytes))
}
