//! Transactions written as bytes.

ghost use Rattle.std.specs.Prelude.{◌≡◌, ◌≤◌, ◌++◌, length, OnOk, OnErr};
ghost use Rattle.wire.specs.Grammar.{sized_bytes, counted_list};
ghost use Rattle.wire.specs.Numbers.{limit};
ghost use Rattle.wire.specs.laws.Extension.{Extends};
ghost use Rattle.txn.specs.Grammar.{outpoint, input, output, transaction};
ghost use Rattle.txn.specs.Limits.{AreInputsWithin, AreOutputsWithin, IsWithinLimits};

use crate::input::TxIn;
use crate::outpoint::OutPoint;
use crate::output::{Outputs, TxOut};
use crate::script::Script;
use crate::tx::Tx;
use wire::{Memory, Parts, put_compact};

#[tactic(auto, using(wire::specs::laws::Extension::extending))]
fn put_outpoint(out: &mut Vec<u8>, p: &OutPoint) -> Result<(), Memory>
    ensures written { OnOk result (out.new.items ≡ out.old.items ++ outpoint.spell p.now) }
    ensures extends { Extends out.old.items out.new.items }
    ensures lawful { outpoint.Lawful p.now }
{
    knows_outpoint(*p);
    out.extend_from_slice(&p.id.0)?;
    out.extend_from_slice(&p.index.to_le_bytes())?;
    Ok(())
}

/// An outpoint is lawful, whatever it is: its fields have their types' ranges.
fn knows_outpoint(p: OutPoint)
    ensures { outpoint.Lawful p }
{
    let _id = p.id.0;
}

#[tactic(auto, using(wire::specs::laws::Extension::extending))]
pub(crate) fn put_script(out: &mut Vec<u8>, s: &Script) -> Result<(), Memory>
    ensures written { OnOk result (out.new.items ≡ out.old.items ++ sized_bytes.spell s.now) }
    ensures extends { Extends out.old.items out.new.items }
    ensures lawful { length s.now ≤ limit → sized_bytes.Lawful s.now }
{
    let bytes = s.as_slice();
    put_compact(out, bytes.len() as u64)?;
    out.extend_from_slice(bytes)?;
    Ok(())
}

#[tactic(auto, using(wire::specs::laws::Extension::extending))]
fn put_tx_in(out: &mut Vec<u8>, i: &TxIn) -> Result<(), Memory>
    ensures written { OnOk result (out.new.items ≡ out.old.items ++ input.spell i.now) }
    ensures extends { Extends out.old.items out.new.items }
    ensures lawful { OnOk result (length i.now.script ≤ limit → input.Lawful i.now) }
{
    put_outpoint(out, &i.prev)?;
    put_script(out, &i.script)?;
    out.extend_from_slice(&i.sequence.to_le_bytes())?;
    Ok(())
}

#[tactic(auto, using(wire::specs::laws::Extension::extending))]
fn put_tx_out(out: &mut Vec<u8>, o: &TxOut) -> Result<(), Memory>
    ensures written { OnOk result (out.new.items ≡ out.old.items ++ output.spell o.now) }
    ensures extends { Extends out.old.items out.new.items }
    ensures lawful { OnOk result (length o.now.script ≤ limit → output.Lawful o.now) }
{
    out.extend_from_slice(&o.value.to_le_bytes())?;
    put_script(out, &o.script)
}

#[tactic(auto, using(wire::specs::laws::Extension::extending))]
pub(crate) fn put_inputs(out: &mut Vec<u8>, inputs: &Parts<TxIn>) -> Result<(), Memory>
    ensures written { OnOk result (out.new.items
        ≡ out.old.items ++ (counted_list input).spell inputs.now) }
    ensures extends { Extends out.old.items out.new.items }
    ensures lawful { OnOk result (AreInputsWithin inputs.now
        → (counted_list input).Lawful inputs.now) }
{
    put_compact(out, inputs.len() as u64)?;
    for i in inputs.as_slice() {
        put_tx_in(out, i)?;
    }
    Ok(())
}

#[tactic(auto, using(wire::specs::laws::Extension::extending))]
pub(crate) fn put_outputs(out: &mut Vec<u8>, outputs: &Outputs) -> Result<(), Memory>
    ensures written { OnOk result (out.new.items
        ≡ out.old.items ++ (counted_list output).spell outputs.now) }
    ensures extends { Extends out.old.items out.new.items }
    ensures lawful { OnOk result (AreOutputsWithin outputs.now
        → (counted_list output).Lawful outputs.now) }
{
    put_compact(out, outputs.len() as u64)?;
    for o in outputs.as_slice() {
        put_tx_out(out, o)?;
    }
    Ok(())
}

#[tactic(auto, using(wire::specs::laws::Extension::extending))]
pub(crate) fn put_tx(out: &mut Vec<u8>, t: &Tx) -> Result<(), Memory>
    ensures written { OnOk result (out.new.items ≡ out.old.items ++ transaction.spell t.now) }
    ensures extends { Extends out.old.items out.new.items }
    ensures lawful { OnOk result (IsWithinLimits t.now → transaction.Lawful t.now) }
{
    out.extend_from_slice(&t.version.to_le_bytes())?;
    put_inputs(out, &t.inputs.list)?;
    put_outputs(out, &t.outputs)?;
    out.extend_from_slice(&t.lock_time.to_le_bytes())?;
    Ok(())
}

/// Writes the bytes of a transaction at the end.
#[tactic(auto, using(wire::specs::laws::Extension::extending))]
pub fn write(tx: &Tx, out: &mut Vec<u8>) -> Result<(), Memory>
    ensures written { OnOk result (out.new.items ≡ out.old.items ++ transaction.spell tx.now) }
    ensures kept { OnErr result (out.new.items ≡ out.old.items) }
    // What is written is lawful, and so read again (`laws::what_is_spelled_is_read`), unless a list or a
    // script is too long.
    ensures lawful { OnOk result (IsWithinLimits tx.now → transaction.Lawful tx.now) }
{
    let before = out.len();
    let written = put_tx(out, tx);
    if written.is_err() {
        out.truncate(before);
    }
    written
}
