//! What the messages of a transaction's inputs have in common.

ghost use Rattle.std.specs.Prelude.{◌≡◌, ◌≤◌, ◌++◌, ◌+◌, ◌*◌, ℕ, IfOk, OnOk, [], length, map, take};
ghost use Rattle.std.specs.List.{flat_map};
ghost use Rattle.wire.specs.Grammar.{counted_list, sized_bytes};
ghost use Rattle.txn.specs.Grammar as grammar;
ghost use Rattle.sighash.specs.Digest.{other_input};
ghost use Rattle.sighash.specs.inside.MessageFront.{beginning};
ghost use Rattle.sighash.specs.inside.Flat.{IsFlat, IsFlat-prop};

use crate::hasher_input::after_id;
use crate::midstates::ALL;
use std::alloc::Global;
use txn::{OutPoint, Tx, TxIn, TxOut};
use wire::{Memory, put_compact};

/// The length of an input without a script.
const INPUT: usize = 41;

/// A transaction spelled without its inputs' scripts, and then the hash type ALL.
#[derive(Drop)]
pub struct Flat<'a> {
    tx: &'a Tx,
    pub bytes: Vec<u8>,
    first: usize,
    ghost is: { IsFlat tx.now bytes.items first } by { IsFlat-prop tx.now bytes.items first },
}

impl<'a> Flat<'a> {
    /// That of a transaction.
    pub fn of(alloc: Global, tx: &'a Tx) -> Result<Flat<'a>, Memory>
        ensures { IfOk result (λ flat. flat.tx.now ≡ tx.entry.now) }
    {
        let inputs = tx.inputs.as_slice();
        let mut bytes = Vec::new(alloc);
        bytes.extend_from_slice(&tx.version.to_le_bytes())?;
        put_compact(&mut bytes, inputs.len() as u64)?;
        let first = bytes.len();
        put_blanks(&mut bytes, inputs)?;
        put_outputs(&mut bytes, tx.outputs.as_slice())?;
        bytes.extend_from_slice(&tx.lock_time.to_le_bytes())?;
        bytes.extend_from_slice(&ALL.to_le_bytes())?;
        Ok(Flat { tx, bytes, first })
    }

    /// Where an input begins, or where the last one ends.
    pub fn place(&self, input: usize) -> usize
        requires { input ≤ length self.now.tx.now.inputs }
        ensures place { result ≡ length (beginning self.now.tx.now input) }
        ensures inside { result ≤ length self.now.bytes.items }
    {
        self.first + INPUT * input
    }
}

/// Writes an input without a script.
#[tactic(auto, using(wire::specs::laws::Extension::extending))]
fn put_blank(out: &mut Vec<u8>, prev: OutPoint, sequence: u32) -> Result<(), Memory>
    ensures written { OnOk result (out.new.items ≡ out.old.items ++ grammar.input.spell (record {
      prev = prev;
      script = [];
      sequence = sequence;
    })) }
    ensures len { length (grammar.input.spell (record {
      prev = prev;
      script = [];
      sequence = sequence;
    })) ≡ 41 }
{
    let last = after_id(prev.index, sequence);
    out.extend_from_slice(&prev.id.0)?;
    out.extend_from_slice(&last)?;
    Ok(())
}

/// Writes inputs without scripts.
fn put_blanks(out: &mut Vec<u8>, inputs: &[TxIn]) -> Result<(), Memory>
    ensures written { OnOk result (out.new.items
        ≡ out.old.items ++ flat_map grammar.input.spell (map (other_input 1) inputs.now)) }
    ensures places { OnOk result ((k : ℕ) → k ≤ length inputs.now
        → length (flat_map grammar.input.spell (map (other_input 1) (take k inputs.now))) ≡ 41 * k) }
{
    for input in inputs {
        put_blank(out, input.prev, input.sequence)?;
    }
    Ok(())
}

/// Writes a script after its length.
#[tactic(auto, using(wire::specs::laws::Extension::extending))]
pub fn put_script(out: &mut Vec<u8>, script: &[u8]) -> Result<(), Memory>
    ensures { OnOk result (out.new.items ≡ out.old.items ++ sized_bytes.spell script.now) }
{
    put_compact(out, script.len() as u64)?;
    out.extend_from_slice(script)?;
    Ok(())
}

/// Writes an output.
#[tactic(auto, using(wire::specs::laws::Extension::extending))]
fn put_output(out: &mut Vec<u8>, output: &TxOut) -> Result<(), Memory>
    ensures { OnOk result (out.new.items ≡ out.old.items ++ grammar.output.spell output.now) }
{
    out.extend_from_slice(&output.value.to_le_bytes())?;
    put_script(out, output.script.as_slice())
}

/// Writes outputs after their count.
#[tactic(auto, using(wire::specs::laws::Extension::extending))]
fn put_outputs(out: &mut Vec<u8>, outputs: &[TxOut]) -> Result<(), Memory>
    ensures { OnOk result (out.new.items
        ≡ out.old.items ++ (counted_list grammar.output).spell outputs.now) }
{
    put_compact(out, outputs.len() as u64)?;
    for output in outputs {
        put_output(out, output)?;
    }
    Ok(())
}
