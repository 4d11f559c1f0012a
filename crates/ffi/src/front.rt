//! The block at the front of bytes, and how many of them it takes.

ghost use Rattle.std.specs.Prelude.{◌≡◌, ◌+◌, length, IfOk, Some};
ghost use Rattle.wire.specs.computed.Reader.{Gives, many_at, counted_at};
ghost use Rattle.txn.specs.computed.Reader.{tx_at};
ghost use Rattle.txn.specs.Fault.{wire_fault_of};
ghost use Rattle.block.specs.Grammar as grammar;
ghost use Rattle.block.specs.computed.Reader.{id_at, header_at, block_at};
ghost use Rattle.ffi.specs.Refusals.{IsTold};

use crate::answers::DONE;
use crate::transactions::refusal;
use block::{Block, Header, Txs};
use hash::Id;
use std::alloc::Global;
use txn::TxFault;
use wire::{Cursor, WireFault};

/// How many bytes the block at the front takes.
#[unsafe(no_mangle)]
pub extern "C" fn ffi_block_size(alloc: Global, bytes: &[u8], size: &mut u64) -> u32
    ensures { IsTold (block_at bytes.now)
        (λ b. (result ≡ 0) × (size.new ≡ length (grammar.block.spell b)))
        (size.new ≡ size.old) result }
{
    let mut cursor = Cursor::new(bytes);
    match whole(alloc, &mut cursor) {
        Err(fault) => refusal(fault),
        Ok(_block) => {
            *size = (bytes.len() - cursor.rest().len()) as u64;
            DONE
        }
    }
}

/// The block at the front. What it leaves are the bytes behind its spelling.
#[tactic(auto, using(crate::proofs::Fronts::sized))]
fn whole(alloc: Global, bytes: &mut Cursor) -> Result<Block, TxFault>
    ensures exact { Gives wire_fault_of result bytes.new (block_at bytes.old) }
    ensures size { IfOk result (λ b.
        length bytes.old ≡ length (grammar.block.spell b) + length bytes.new) }
{
    let _bytes = bytes.rest();
    front(alloc, bytes)
}

#[tactic(auto, unfolding(block::specs::computed::Reader::id_at))]
fn id(bytes: &mut Cursor) -> Result<Id, WireFault>
    ensures { Gives Some result bytes.new (id_at bytes.old) }
{
    let mut id = [0; 32];
    id.copy_from_slice(bytes.take(32)?);
    Ok(Id(id))
}

#[tactic(auto, unfolding(block::specs::computed::Reader::header_at))]
fn header(bytes: &mut Cursor) -> Result<Header, WireFault>
    ensures { Gives Some result bytes.new (header_at bytes.old) }
{
    let version = bytes.i32le()?;
    let prev = id(bytes)?;
    let root = id(bytes)?;
    let time = bytes.u32le()?;
    let bits = bytes.u32le()?;
    let nonce = bytes.u32le()?;
    Ok(Header {
        version,
        prev,
        root,
        time,
        bits,
        nonce,
    })
}

#[tactic(auto, unfolding(wire::specs::computed::Reader::counted_at))]
fn txs(alloc: Global, bytes: &mut Cursor) -> Result<Txs, TxFault>
    ensures { Gives wire_fault_of result bytes.new (counted_at tx_at bytes.old) }
{
    let count = bytes.compact()?;
    each_tx(alloc, bytes, count)
}

/// Reads this many transactions. Room for them is made as they come, so a count alone takes no memory.
fn each_tx(alloc: Global, bytes: &mut Cursor, count: u64) -> Result<Txs, TxFault>
    ensures { Gives wire_fault_of result bytes.new (many_at tx_at count bytes.old) }
{
    let mut items = Vec::new(alloc);
    for _ in 0..count {
        items.push(txn::read(alloc, bytes)?)?;
    }
    Ok(Txs::from_vec(items))
}

#[tactic(auto, unfolding(block::specs::computed::Reader::block_by_at))]
fn front(alloc: Global, bytes: &mut Cursor) -> Result<Block, TxFault>
    ensures { Gives wire_fault_of result bytes.new (block_at bytes.old) }
{
    let header = header(bytes)?;
    let txs = txs(alloc, bytes)?;
    Ok(Block { header, txs })
}
