//! Blocks read from bytes.

ghost use Rattle.std.specs.Prelude.{◌≡◌, ◌⊎◌, ◌/◌, ◌++◌, ℕ, List, min, [], length, vec_capacity, IfOk, IfErr, IsOkAnd, IsOkUnless, Some, Err};
ghost use Rattle.wire.specs.computed.Reader.{Gives, many_at, counted_at};
ghost use Rattle.txn.specs.computed.WitnessReader.{tx_by_at};
ghost use Rattle.txn.specs.Fault.{wire_fault_of};
ghost use Rattle.block.specs.Grammar.{header, block, block_by};
ghost use Rattle.block.specs.Whole.{Faulty, FaultyBy};
ghost use Rattle.block.specs.BlockOfBytes.{block_of_bytes, block_of_bytes_by, Decodes};
ghost use Rattle.block.specs.declared.block.Block.{Block};
ghost use Rattle.block.specs.declared.fault.ReadFault.{ReadFault};
ghost use Rattle.block.specs.declared.fault.ReadFault.TheVariants.{Memory};
ghost use Rattle.block.specs.computed.Reader.{id_at, header_at, block_by_at};
ghost use Rattle.block.specs.inside.Room.{least_transaction};

use crate::block::Block;
use crate::fault::ReadFault;
use crate::header::Header;
use crate::txs::Txs;
use hash::Id;
use std::alloc::Global;
use txn::{Tx, TxFault};
use wire::{Cursor, WireFault};

/// The fewest bytes of a transaction: a version of 4, two counts of 0, a lock time of 4.
const LEAST_TRANSACTION: usize = 10;

#[tactic(auto, unfolding(crate::specs::computed::Reader::id_at))]
fn id(bytes: &mut Cursor) -> Result<Id, WireFault>
    ensures { Gives Some result bytes.new (id_at bytes.old) }
{
    let mut id = [0; 32];
    id.copy_from_slice(bytes.take(32)?);
    Ok(Id(id))
}

#[tactic(auto, unfolding(crate::specs::computed::Reader::header_at))]
fn header(bytes: &mut Cursor) -> Result<Header, WireFault>
    ensures { Gives Some result bytes.new (header_at bytes.old) }
{
    let version = bytes.i32le()?;
    let prev = id(bytes)?;
    let root = id(bytes)?;
    let time = bytes.u32le()?;
    let bits = bytes.u32le()?;
    let nonce = bytes.u32le()?;
    Ok(Header {
        version,
        prev,
        root,
        time,
        bits,
        nonce,
    })
}

/// The header of the block that the bytes spell, or begin with: it looks at their first 80 alone, and takes no memory.
pub fn header_of(bytes: &[u8]) -> Result<Header, WireFault>
    // What is read is lawful, and spelled at the front.
    ensures found { IfOk result (λ h. header.Lawful h ×
        ((rest : List ℕ) × (bytes.now ≡ header.spell h ++ rest))) }
    // A refusal names the fault that the bytes have.
    ensures refused { IfErr result (λ fault. header.Faulty fault bytes.now) }
    // Where the bytes are a block, it is the header of that block.
    ensures of_block { (b : Block) → block_of_bytes bytes.now ≡ Some b
        → IsOkAnd result (λ h. h ≡ b.header) }
{
    header(&mut Cursor::new(bytes))
}

#[tactic(auto, unfolding(wire::specs::computed::Reader::counted_at))]
fn txs(alloc: Global, bytes: &mut Cursor, has_flag: bool) -> Result<Txs, TxFault>
    ensures { Gives wire_fault_of result bytes.new (counted_at (tx_by_at has_flag) bytes.old) }
{
    let count = bytes.compact()?;
    // A count alone takes no memory: there is no room for more than the bytes can spell.
    let empty = Vec::with_capacity(alloc, bytes.room(count, LEAST_TRANSACTION))?;
    each_tx(alloc, bytes, count, empty, has_flag)
}

/// Reads this many transactions into an empty list, with room for no more than the bytes can spell.
fn each_tx(
    alloc: Global,
    bytes: &mut Cursor,
    count: u64,
    empty: Vec<Tx>,
    has_flag: bool,
) -> Result<Txs, TxFault>
    requires empty { empty.items ≡ [] }
    requires room { vec_capacity empty ≡ min count (length bytes.old / least_transaction) }
    ensures { Gives wire_fault_of result bytes.new (many_at (tx_by_at has_flag) count bytes.old) }
{
    let mut items = empty;
    for _ in 0..count {
        items.push(txn::read_by(alloc, bytes, has_flag)?)?;
    }
    Ok(Txs::from_vec(items))
}

#[tactic(auto, unfolding(crate::specs::computed::Reader::block_by_at))]
fn front(alloc: Global, bytes: &mut Cursor, has_flag: bool) -> Result<Block, TxFault>
    ensures { Gives wire_fault_of result bytes.new (block_by_at has_flag bytes.old) }
{
    let header = header(bytes)?;
    let txs = txs(alloc, bytes, has_flag)?;
    Ok(Block { header, txs })
}

/// The block that the bytes spell, all of them. Numbers have their lowest byte first.
///
/// The first refusal met from the left is the answer.
pub fn read(alloc: Global, bytes: &[u8]) -> Result<Block, ReadFault>
    // What is read is lawful, and the bytes are its spelling.
    ensures found { IfOk result (λ b. block.Lawful b × (bytes.now ≡ block.spell b)) }
    // A refusal names a fault that the bytes have, unless memory ran out.
    ensures refused { IfErr result (λ e. (e ≡ Memory) ⊎ Faulty e bytes.now) }
    // What is spelled is read, unless memory runs out.
    ensures reads { (b : Block) → block.Lawful b → bytes.now ≡ block.spell b
        → IsOkUnless result Memory × IfOk result (λ x. x ≡ b) }
    // What has a fault is refused with it, unless memory runs out.
    ensures refuses { (e : ReadFault) → Faulty e bytes.now
        → (result ≡ Err Memory) ⊎ (result ≡ Err e) }
    // The same, as a function of the bytes.
    ensures exact { Decodes result (block_of_bytes bytes.now) }
{
    read_by(alloc, bytes, false)
}

/// The same, of transactions with their witnesses where `has_flag` is true (BIP 144): see
/// [`txn::read_by`](txn::read_by).
pub fn read_by(alloc: Global, bytes: &[u8], has_flag: bool) -> Result<Block, ReadFault>
    ensures found { IfOk result (λ b. (block_by has_flag).Lawful b
        × (bytes.now ≡ (block_by has_flag).spell b)) }
    ensures refused { IfErr result (λ e. (e ≡ Memory) ⊎ FaultyBy has_flag e bytes.now) }
    ensures reads { (b : Block) → (block_by has_flag).Lawful b
        → bytes.now ≡ (block_by has_flag).spell b
        → IsOkUnless result Memory × IfOk result (λ x. x ≡ b) }
    ensures refuses { (e : ReadFault) → FaultyBy has_flag e bytes.now
        → (result ≡ Err Memory) ⊎ (result ≡ Err e) }
    ensures exact { Decodes result (block_of_bytes_by has_flag bytes.now) }
{
    let mut cursor = Cursor::new(bytes);
    let block = front(alloc, &mut cursor, has_flag)?;
    if !cursor.rest().is_empty() {
        return Err(ReadFault::Extra);
    }
    Ok(block)
}
