//! Blocks written as bytes.

ghost use Rattle.std.specs.Prelude.{◌≡◌, ◌++◌, OnOk, OnErr};
ghost use Rattle.wire.specs.Grammar.{counted_list};
ghost use Rattle.wire.specs.laws.Extension.{Extends};
ghost use Rattle.txn.specs.WitnessGrammar.{transaction_by};
ghost use Rattle.block.specs.Grammar as grammar;
ghost use Rattle.block.specs.Limits.{AreWithin, IsWithinLimits, IsWithinLimitsBy};

use crate::block::Block;
use crate::header::Header;
use crate::txs::Txs;
use wire::{Memory, put_compact};

#[tactic(auto, using(wire::specs::laws::Extension::extending))]
fn put_header(out: &mut Vec<u8>, h: &Header) -> Result<(), Memory>
    ensures written { OnOk result (out.new.items ≡ out.old.items ++ grammar.header.spell h.now) }
    ensures extends { Extends out.old.items out.new.items }
    ensures lawful { grammar.header.Lawful h.now }
{
    knows_header(*h);
    out.extend_from_slice(&h.version.to_le_bytes())?;
    out.extend_from_slice(&h.prev.0)?;
    out.extend_from_slice(&h.root.0)?;
    out.extend_from_slice(&h.time.to_le_bytes())?;
    out.extend_from_slice(&h.bits.to_le_bytes())?;
    out.extend_from_slice(&h.nonce.to_le_bytes())?;
    Ok(())
}

/// A header is lawful, whatever it is: its fields have their types' ranges.
fn knows_header(h: Header)
    ensures { grammar.header.Lawful h }
{
    let _prev = h.prev.0;
    let _root = h.root.0;
}

#[tactic(auto, using(wire::specs::laws::Extension::extending))]
fn put_txs(out: &mut Vec<u8>, txs: &Txs, has_flag: bool) -> Result<(), Memory>
    ensures written { OnOk result (out.new.items
        ≡ out.old.items ++ (counted_list (transaction_by has_flag)).spell txs.now) }
    ensures extends { Extends out.old.items out.new.items }
    ensures lawful { OnOk result (AreWithin has_flag txs.now
        → (counted_list (transaction_by has_flag)).Lawful txs.now) }
{
    put_compact(out, txs.len() as u64)?;
    for tx in txs.as_slice() {
        txn::write_by(tx, out, has_flag)?;
    }
    Ok(())
}

#[tactic(auto, using(wire::specs::laws::Extension::extending))]
fn put_block(out: &mut Vec<u8>, b: &Block, has_flag: bool) -> Result<(), Memory>
    ensures written { OnOk result (out.new.items
        ≡ out.old.items ++ (grammar.block_by has_flag).spell b.now) }
    ensures extends { Extends out.old.items out.new.items }
    ensures lawful { OnOk result (IsWithinLimitsBy has_flag b.now
        → (grammar.block_by has_flag).Lawful b.now) }
{
    put_header(out, &b.header)?;
    put_txs(out, &b.txs, has_flag)
}

/// Writes the bytes of a block at the end, without witnesses.
pub fn write(block: &Block, out: &mut Vec<u8>) -> Result<(), Memory>
    ensures written { OnOk result (out.new.items ≡ out.old.items ++ grammar.block.spell block.now) }
    ensures kept { OnErr result (out.new.items ≡ out.old.items) }
    // What is written is lawful, and so read again (`laws::what_is_spelled_is_read`), unless a list or a
    // script is too long.
    ensures lawful { OnOk result (IsWithinLimits block.now → grammar.block.Lawful block.now) }
{
    write_by(block, out, false)
}

/// The same, of transactions with their witnesses where `has_flag` is true (BIP 144).
#[tactic(auto, using(wire::specs::laws::Extension::extending))]
pub fn write_by(block: &Block, out: &mut Vec<u8>, has_flag: bool) -> Result<(), Memory>
    ensures written { OnOk result (out.new.items
        ≡ out.old.items ++ (grammar.block_by has_flag).spell block.now) }
    ensures kept { OnErr result (out.new.items ≡ out.old.items) }
    // What is written is lawful, and so read again, unless a list or a string is too long, witnesses lack, or a
    // transaction has outputs and no input.
    ensures lawful { OnOk result (IsWithinLimitsBy has_flag block.now
        → (grammar.block_by has_flag).Lawful block.now) }
{
    let before = out.len();
    let written = put_block(out, block, has_flag);
    if written.is_err() {
        out.truncate(before);
    }
    written
}
