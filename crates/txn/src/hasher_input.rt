//! Parts of a transaction, fed to a hasher as they are spelled.
//!
//! Where the hasher held some bytes before, it holds them and the part's spelling after. No call takes memory.

ghost use Rattle.std.specs.Prelude.{ℕ, List, [], ◌∷◌, ◌++◌};
ghost use Rattle.std.specs.List.{flat_map};
ghost use Rattle.sha2.specs.Hashers.{Holds256};
ghost use Rattle.wire.specs.Numbers.{compact_size, i32le};
ghost use Rattle.wire.specs.Grammar.{number, sized_bytes, counted_list};
ghost use Rattle.txn.specs.Grammar.{outpoint, input, output, transaction};
ghost use Rattle.txn.specs.WitnessGrammar.{witness, witness_transaction};
ghost use Rattle.txn.specs.laws.WitnessSpelling.{witnessed};

use crate::input::{TxIn, Witness};
use crate::outpoint::OutPoint;
use crate::output::TxOut;
use crate::script::Script;
use crate::tx::Tx;
use sha2::{Digest, Sha256};
use wire::CompactSize;

/// Feeds a count, in the shortest of its forms.
pub fn feed_count(hasher: &mut Sha256, n: u128)
    ensures { (fed : List ℕ) → Holds256 hasher.old fed
        → Holds256 hasher.new (fed ++ compact_size n) }
{
    hasher.update(CompactSize::of(n).as_slice());
}

/// Feeds an outpoint.
pub fn feed_outpoint(hasher: &mut Sha256, p: &OutPoint)
    ensures { (fed : List ℕ) → Holds256 hasher.old fed
        → Holds256 hasher.new (fed ++ outpoint.spell p.now) }
{
    hasher.update(p.id.0);
    hasher.update(p.index.to_le_bytes());
}

/// Feeds a script after its length.
pub fn feed_script(hasher: &mut Sha256, script: &Script)
    ensures { (fed : List ℕ) → Holds256 hasher.old fed
        → Holds256 hasher.new (fed ++ sized_bytes.spell script.now) }
{
    feed_count(hasher, script.len() as u128);
    hasher.update(script.as_slice());
}

/// Feeds an input.
pub fn feed_input(hasher: &mut Sha256, i: &TxIn)
    ensures { (fed : List ℕ) → Holds256 hasher.old fed
        → Holds256 hasher.new (fed ++ input.spell i.now) }
{
    feed_outpoint(hasher, &i.prev);
    feed_script(hasher, &i.script);
    hasher.update(i.sequence.to_le_bytes());
}

/// Feeds inputs one after the other, without their count.
fn feed_each_input(hasher: &mut Sha256, inputs: &[TxIn])
    ensures { (fed : List ℕ) → Holds256 hasher.old fed
        → Holds256 hasher.new (fed ++ flat_map input.spell inputs.now) }
{
    for i in inputs {
        feed_input(hasher, i);
    }
}

/// Feeds inputs after their count.
pub fn feed_inputs(hasher: &mut Sha256, inputs: &[TxIn])
    ensures { (fed : List ℕ) → Holds256 hasher.old fed
        → Holds256 hasher.new (fed ++ (counted_list input).spell inputs.now) }
{
    feed_count(hasher, inputs.len() as u128);
    feed_each_input(hasher, inputs);
}

/// Feeds an output.
pub fn feed_output(hasher: &mut Sha256, o: &TxOut)
    ensures { (fed : List ℕ) → Holds256 hasher.old fed
        → Holds256 hasher.new (fed ++ output.spell o.now) }
{
    hasher.update(o.value.to_le_bytes());
    feed_script(hasher, &o.script);
}

/// Feeds outputs one after the other, without their count.
pub fn feed_each_output(hasher: &mut Sha256, outputs: &[TxOut])
    ensures { (fed : List ℕ) → Holds256 hasher.old fed
        → Holds256 hasher.new (fed ++ flat_map output.spell outputs.now) }
{
    for o in outputs {
        feed_output(hasher, o);
    }
}

/// Feeds outputs after their count.
pub fn feed_outputs(hasher: &mut Sha256, outputs: &[TxOut])
    ensures { (fed : List ℕ) → Holds256 hasher.old fed
        → Holds256 hasher.new (fed ++ (counted_list output).spell outputs.now) }
{
    feed_count(hasher, outputs.len() as u128);
    feed_each_output(hasher, outputs);
}

/// Feeds a transaction.
pub fn feed_tx(hasher: &mut Sha256, tx: &Tx)
    ensures { (fed : List ℕ) → Holds256 hasher.old fed
        → Holds256 hasher.new (fed ++ transaction.spell tx.now) }
{
    hasher.update(tx.version.to_le_bytes());
    feed_inputs(hasher, tx.inputs.as_slice());
    feed_outputs(hasher, tx.outputs.as_slice());
    hasher.update(tx.lock_time.to_le_bytes());
}

/// Feeds a witness: the count of its strings, and each after its length.
fn feed_witness(hasher: &mut Sha256, strings: &Witness)
    ensures { (fed : List ℕ) → Holds256 hasher.old fed
        → Holds256 hasher.new (fed ++ witness.spell strings.now) }
{
    feed_count(hasher, strings.len() as u128);
    feed_each_string(hasher, strings.as_slice());
}

fn feed_each_string(hasher: &mut Sha256, strings: &[Script])
    ensures { (fed : List ℕ) → Holds256 hasher.old fed
        → Holds256 hasher.new (fed ++ flat_map sized_bytes.spell strings.now) }
{
    for string in strings {
        feed_script(hasher, string);
    }
}

fn feed_each_witness(hasher: &mut Sha256, witnesses: &[Witness])
    ensures { (fed : List ℕ) → Holds256 hasher.old fed
        → Holds256 hasher.new (fed ++ flat_map witness.spell witnesses.now) }
{
    for strings in witnesses {
        feed_witness(hasher, strings);
    }
}

/// Feeds the version, a count of 0 and the flag.
fn feed_front(hasher: &mut Sha256, tx: &Tx, flag: u8)
    ensures { (fed : List ℕ) → Holds256 hasher.old fed
        → Holds256 hasher.new (fed ++ (i32le tx.now.version ++ 0 ∷ flag ∷ [])) }
{
    hasher.update(tx.version.to_le_bytes());
    hasher.update([0, flag]);
}

fn feed_lock_time(hasher: &mut Sha256, tx: &Tx)
    ensures { (fed : List ℕ) → Holds256 hasher.old fed
        → Holds256 hasher.new (fed ++ (number 4).spell tx.now.lock_time) }
{
    hasher.update(tx.lock_time.to_le_bytes());
}

/// Feeds what follows the flag of a transaction with witnesses.
fn feed_witnessed(hasher: &mut Sha256, tx: &Tx)
    ensures { (fed : List ℕ) → Holds256 hasher.old fed
        → Holds256 hasher.new (fed ++ witnessed tx.now) }
{
    feed_inputs(hasher, tx.inputs.as_slice());
    feed_outputs(hasher, tx.outputs.as_slice());
    feed_each_witness(hasher, tx.inputs.witnesses());
    hasher.update(tx.lock_time.to_le_bytes());
}

/// Feeds a transaction with its witnesses (BIP 144). One without inputs has no outputs there.
pub fn feed_witness_tx(hasher: &mut Sha256, tx: &Tx)
    ensures { (fed : List ℕ) → Holds256 hasher.old fed
        → Holds256 hasher.new (fed ++ witness_transaction.spell tx.now) }
{
    if tx.has_witness() {
        feed_front(hasher, tx, 1);
        feed_witnessed(hasher, tx);
    } else if tx.inputs.is_empty() {
        feed_front(hasher, tx, 0);
        feed_lock_time(hasher, tx);
    } else {
        feed_tx(hasher, tx);
    }
}
