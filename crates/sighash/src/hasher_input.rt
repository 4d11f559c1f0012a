//! Parts of a transaction, fed to a hasher as they are spelled.

ghost use Rattle.std.specs.Prelude.{◌≡◌, ◌<◌, ℕ, List, [], ◌++◌, length, map, true};
ghost use Rattle.std.specs.List.{concat, flat_map};
ghost use Rattle.sha2.specs.Hashers.{Holds256};
ghost use Rattle.wire.specs.Grammar.{number, sized_bytes, counted_list};
ghost use Rattle.txn.specs.Grammar as grammar;
ghost use Rattle.script.specs.Removal.{bytes_of};
ghost use Rattle.sighash.specs.Digest.{other_input, blank_output, signed_inputs, signed_outputs};
ghost use Rattle.sighash.specs.Kind as kinds;
ghost use Rattle.sighash.specs.inside.MessageFront.{among};

use crate::kind::{frees_sequences, is_alone, is_none, is_single};
use sha2::{Digest, Sha256};
use txn::hasher_input::{feed_count, feed_each_output, feed_outpoint, feed_outputs};
use txn::{TxIn, TxOut};

/// The length of pieces that are joined.
fn joined_len(pieces: &[&[u8]]) -> u128
    ensures { result ≡ length (concat (bytes_of pieces.now)) }
{
    let mut total: u128 = 0;
    for piece in pieces {
        total += u128::from(len(piece));
    }
    total
}

fn len(piece: &[u8]) -> u64
    ensures { result ≡ length piece.now }
{
    piece.len() as u64
}

/// Feeds a script that is the pieces joined, after its length.
pub fn feed_script(hasher: &mut Sha256, pieces: &[&[u8]])
    ensures { (fed : List ℕ) → Holds256 hasher.old fed
        → Holds256 hasher.new (fed ++ sized_bytes.spell (concat (bytes_of pieces.now))) }
{
    feed_count(hasher, joined_len(pieces));
    for piece in pieces {
        hasher.update(*piece);
    }
}

/// Feeds an input with another script and another sequence.
fn feed_input(hasher: &mut Sha256, input: &TxIn, pieces: &[&[u8]], sequence: u32)
    ensures { (fed : List ℕ) → Holds256 hasher.old fed
        → let script = concat (bytes_of pieces.now) in
        Holds256 hasher.new (fed ++ grammar.input.spell (record {
          prev = input.now.prev;
          script = script;
          sequence = sequence;
        })) }
{
    feed_outpoint(hasher, &input.prev);
    feed_script(hasher, pieces);
    hasher.update(sequence.to_le_bytes());
}

/// What follows the id in an input that isn't the signed one: the index, an empty script, and the sequence.
pub fn after_id(index: u32, sequence: u32) -> [u8; 9]
    ensures { result ≡ (number 4).spell index ++ (sized_bytes.spell [] ++ (number 4).spell sequence) }
{
    let index = index.to_le_bytes();
    let last = sequence.to_le_bytes();
    [
        index[0], index[1], index[2], index[3], 0, last[0], last[1], last[2], last[3],
    ]
}

/// Feeds an input that isn't the signed one. Two pieces cost the hasher less than four.
fn feed_other(hasher: &mut Sha256, input: &TxIn, kind: u32)
    ensures { (fed : List ℕ) → Holds256 hasher.old fed
        → Holds256 hasher.new (fed ++ grammar.input.spell (other_input kind input.now)) }
{
    let sequence = if frees_sequences(kind) {
        0
    } else {
        input.sequence
    };
    hasher.update(input.prev.id.0);
    hasher.update(after_id(input.prev.index, sequence));
}

/// Feeds inputs that aren't the signed one.
pub fn feed_others(hasher: &mut Sha256, inputs: &[TxIn], kind: u32)
    ensures { (fed : List ℕ) → Holds256 hasher.old fed
        → let others = map (other_input kind) inputs.now in
        Holds256 hasher.new (fed ++ flat_map grammar.input.spell others) }
{
    for input in inputs {
        feed_other(hasher, input, kind);
    }
}

/// Feeds inputs, of which number `n` is the signed one, without their count.
pub fn feed_among(hasher: &mut Sha256, inputs: &[TxIn], n: usize, code: &[&[u8]], kind: u32)
    requires { n < length inputs.now }
    ensures { (fed : List ℕ) → Holds256 hasher.old fed
        → let signed = among kind n (concat (bytes_of code.now)) inputs.now in
        Holds256 hasher.new (fed ++ flat_map grammar.input.spell signed) }
{
    let (before, rest) = inputs.split_at(n);
    let (signed, after) = rest.split_at(1);
    let input = &signed[0];
    feed_others(hasher, before, kind);
    feed_input(hasher, input, code, input.sequence);
    feed_others(hasher, after, kind);
}

/// Feeds the inputs after their count, of which number `n` is the signed one.
pub fn feed_signed_inputs(hasher: &mut Sha256, inputs: &[TxIn], n: usize, code: &[&[u8]], kind: u32)
    requires { n < length inputs.now }
    ensures { (fed : List ℕ) → Holds256 hasher.old fed
        → let signed = signed_inputs kind n (concat (bytes_of code.now)) inputs.now in
        Holds256 hasher.new (fed ++ (counted_list grammar.input).spell signed) }
{
    if is_alone(kind) {
        let input = &inputs[n];
        feed_count(hasher, 1);
        feed_input(hasher, input, code, input.sequence);
        return;
    }
    feed_count(hasher, inputs.len() as u128);
    feed_among(hasher, inputs, n, code, kind);
}

/// Feeds so many outputs of value -1 without a script.
fn feed_blanks(hasher: &mut Sha256, outputs: &[TxOut])
    ensures { (fed : List ℕ) → Holds256 hasher.old fed
        → let blanks = map (λ _. blank_output) outputs.now in
        Holds256 hasher.new (fed ++ flat_map grammar.output.spell blanks) }
{
    for _ in outputs {
        hasher.update([255, 255, 255, 255, 255, 255, 255, 255, 0]);
    }
}

/// Feeds the outputs, for the input of number `n`.
pub fn feed_signed_outputs(hasher: &mut Sha256, outputs: &[TxOut], n: usize, kind: u32)
    requires { kinds.is_single kind ≡ true → n < length outputs.now }
    ensures { (fed : List ℕ) → Holds256 hasher.old fed
        → let signed = signed_outputs kind n outputs.now in
        Holds256 hasher.new (fed ++ (counted_list grammar.output).spell signed) }
{
    if is_none(kind) {
        feed_count(hasher, 0);
    } else if is_single(kind) {
        let (before, rest) = outputs.split_at(n);
        let (last, _) = rest.split_at(1);
        feed_count(hasher, before.len() as u128 + 1);
        feed_blanks(hasher, before);
        feed_each_output(hasher, last);
    } else {
        feed_outputs(hasher, outputs);
    }
}
