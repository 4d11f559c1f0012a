//! Transactions written with their witnesses (BIP 144), or without.

ghost use Rattle.std.specs.Prelude.{◌≡◌, ◌++◌, ◌∷◌, [], length, true, OnOk, OnErr};
ghost use Rattle.std.specs.List.{All, flat_map};
ghost use Rattle.wire.specs.Numbers.{i32le};
ghost use Rattle.wire.specs.Grammar.{number, signed32, times};
ghost use Rattle.wire.specs.laws.Extension.{Extends};
ghost use Rattle.txn.specs.Limits.{IsWitnessWithin, IsWithinLimitsBy};
ghost use Rattle.txn.specs.WitnessGrammar.{witness, has_witness, parts_of, witness_body, witness_transaction, transaction_by};
ghost use Rattle.txn.specs.laws.WitnessSpelling.{witnessed};

use crate::encode::{put_inputs, put_outputs, put_script, put_tx, write};
use crate::input::Witness;
use crate::tx::Tx;
use wire::{Memory, put_compact};

#[tactic(auto, using(wire::specs::laws::Extension::extending))]
fn put_witness(out: &mut Vec<u8>, strings: &Witness) -> Result<(), Memory>
    ensures written { OnOk result (out.new.items ≡ out.old.items ++ witness.spell strings.now) }
    ensures extends { Extends out.old.items out.new.items }
    ensures lawful { OnOk result (IsWitnessWithin strings.now → witness.Lawful strings.now) }
{
    put_compact(out, strings.len() as u64)?;
    for string in strings.as_slice() {
        put_script(out, string)?;
    }
    Ok(())
}

/// Writes witnesses one after the other, without their count.
#[tactic(auto, using(wire::specs::laws::Extension::extending))]
fn put_witnesses(out: &mut Vec<u8>, witnesses: &[Witness]) -> Result<(), Memory>
    ensures written { OnOk result (out.new.items
        ≡ out.old.items ++ flat_map witness.spell witnesses.now) }
    ensures extends { Extends out.old.items out.new.items }
    ensures lawful { OnOk result (All IsWitnessWithin witnesses.now
        → (times witness (length witnesses.now)).Lawful witnesses.now) }
{
    for strings in witnesses {
        put_witness(out, strings)?;
    }
    Ok(())
}

/// Writes the version, a count of 0 and the flag.
#[tactic(auto, using(wire::specs::laws::Extension::extending))]
fn put_front(out: &mut Vec<u8>, tx: &Tx, flag: u8) -> Result<(), Memory>
    ensures written { OnOk result (out.new.items
        ≡ out.old.items ++ (i32le tx.now.version ++ 0 ∷ flag ∷ [])) }
    ensures extends { Extends out.old.items out.new.items }
    ensures lawful { signed32.Lawful tx.now.version }
{
    out.extend_from_slice(&tx.version.to_le_bytes())?;
    out.extend_from_slice(&[0, flag])?;
    Ok(())
}

/// Writes what follows the flag of a transaction with witnesses.
#[tactic(auto, using(wire::specs::laws::Extension::extending))]
fn put_witnessed(out: &mut Vec<u8>, tx: &Tx) -> Result<(), Memory>
    ensures written { OnOk result (out.new.items ≡ out.old.items ++ witnessed tx.now) }
    ensures extends { Extends out.old.items out.new.items }
    ensures lawful { OnOk result (has_witness tx.now.witnesses ≡ true
        → IsWithinLimitsBy true tx.now → witness_body.Lawful (parts_of tx.now).1) }
{
    put_inputs(out, &tx.inputs.list)?;
    put_outputs(out, &tx.outputs)?;
    put_witnesses(out, tx.inputs.witnesses())?;
    out.extend_from_slice(&tx.lock_time.to_le_bytes())?;
    Ok(())
}

/// Writes the lock time alone: without inputs there are no outputs.
fn put_lock_time(out: &mut Vec<u8>, tx: &Tx) -> Result<(), Memory>
    ensures written { OnOk result (out.new.items
        ≡ out.old.items ++ (number 4).spell tx.now.lock_time) }
    ensures extends { Extends out.old.items out.new.items }
    ensures lawful { (number 4).Lawful tx.now.lock_time }
{
    out.extend_from_slice(&tx.lock_time.to_le_bytes())?;
    Ok(())
}

#[tactic(auto, using(wire::specs::laws::Extension::extending))]
fn put_witness_tx(out: &mut Vec<u8>, tx: &Tx) -> Result<(), Memory>
    ensures written { OnOk result (out.new.items
        ≡ out.old.items ++ witness_transaction.spell tx.now) }
    ensures extends { Extends out.old.items out.new.items }
    ensures lawful { OnOk result (IsWithinLimitsBy true tx.now
        → witness_transaction.Lawful tx.now) }
{
    if tx.has_witness() {
        put_front(out, tx, 1)?;
        put_witnessed(out, tx)
    } else if tx.inputs.is_empty() {
        put_front(out, tx, 0)?;
        put_lock_time(out, tx)
    } else {
        put_tx(out, tx)
    }
}

/// Writes the bytes of a transaction at the end, with its witnesses where `has_flag` is true (BIP 144); else as
/// [`write`] does.
#[tactic(auto, using(wire::specs::laws::Extension::extending))]
pub fn write_by(tx: &Tx, out: &mut Vec<u8>, has_flag: bool) -> Result<(), Memory>
    ensures written { OnOk result (out.new.items
        ≡ out.old.items ++ (transaction_by has_flag).spell tx.now) }
    ensures kept { OnErr result (out.new.items ≡ out.old.items) }
    // What is written is lawful, and so read again (`laws::what_is_spelled_with_witnesses_is_read`), unless a list or a
    // string is too long, witnesses lack, or there are outputs and no input.
    ensures lawful { OnOk result (IsWithinLimitsBy has_flag tx.now
        → (transaction_by has_flag).Lawful tx.now) }
{
    if !has_flag {
        return write(tx, out);
    }
    let before = out.len();
    let written = put_witness_tx(out, tx);
    if written.is_err() {
        out.truncate(before);
    }
    written
}
