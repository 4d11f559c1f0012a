//! The digests that signatures of witnesses of version 0 sign (BIP 143).

ghost use Rattle.std.specs.Prelude.{◌≡◌, ◌++◌, ◌∷◌, [], List, ℕ, slice_get};
ghost use Rattle.std.specs.List.{concat};
ghost use Rattle.std.specs.Option.{option_map_or};
ghost use Rattle.sha2.specs.Hashers.{Holds256};
ghost use Rattle.script.specs.Removal.{bytes_of};
ghost use Rattle.sighash.specs.WitnessDigest.{prevouts_hash, sequences_hash, outputs_hash, signed_prevouts, signed_sequences, signed_outputs, signed_input, witness_digest_of};

use crate::hasher_input::feed_script;
use crate::kind::{frees_sequences, is_alone, is_none, is_single};
use hash::finish;
use sha2::{Digest, Sha256};
use txn::hasher_input::{feed_each_output, feed_outpoint, feed_output};
use txn::{Tx, TxIn, TxOut};

/// What stands in a message where nothing of the kind is signed.
const NO_HASH: [u8; 32] = [0; 32];

/// A transaction with the three hashes that its digests share, so that many inputs cost no more than one each
/// (Bitcoin Core's `hashPrevouts`, `hashSequence` and `hashOutputs` of `PrecomputedTransactionData`).
#[derive(Drop)]
pub struct WitnessHashes<'a> {
    pub tx: &'a Tx,
    prevouts: [u8; 32],
    sequences: [u8; 32],
    outputs: [u8; 32],
    ghost of_prevouts: { prevouts ≡ prevouts_hash tx.now.inputs },
    ghost of_sequences: { sequences ≡ sequences_hash tx.now.inputs },
    ghost of_outputs: { outputs ≡ outputs_hash tx.now.outputs },
}

impl<'a> WitnessHashes<'a> {
    /// Hashes a transaction's outpoints, sequences and outputs, once. It takes no memory.
    pub fn of(tx: &'a Tx) -> WitnessHashes<'a>
        ensures { result.tx.now ≡ tx.entry.now }
    {
        WitnessHashes {
            tx,
            prevouts: hash_of_prevouts(tx.inputs.as_slice()),
            sequences: hash_of_sequences(tx.inputs.as_slice()),
            outputs: hash_of_outputs(tx.outputs.as_slice()),
        }
    }

    /// What a signature of the input of this number signs, for a hash type of four bytes: the code, given in pieces, is
    /// signed as it stands, and the value, in satoshis, is that of the output that the input spends. Where there is no
    /// such input, the message has none.
    pub fn digest(&self, input: usize, code: &[&[u8]], value: i64, kind: u32) -> [u8; 32]
        ensures { result ≡ witness_digest_of self.now.tx.now input
            (concat (bytes_of code.now)) value kind }
    {
        let tx = self.tx;
        let mut hasher = Sha256::new();
        hasher.update(tx.version.to_le_bytes());
        hasher.update(self.signed_prevouts(kind));
        hasher.update(self.signed_sequences(kind));
        feed_input_at(&mut hasher, tx.inputs.as_slice(), input, code, value);
        hasher.update(self.signed_outputs(input, kind));
        hasher.update(tx.lock_time.to_le_bytes());
        hasher.update(kind.to_le_bytes());
        finish(hasher)
    }

    fn signed_prevouts(&self, kind: u32) -> [u8; 32]
        ensures { result ≡ signed_prevouts kind self.now.tx.now }
    {
        if is_alone(kind) {
            return NO_HASH;
        }
        self.prevouts
    }

    fn signed_sequences(&self, kind: u32) -> [u8; 32]
        ensures { result ≡ signed_sequences kind self.now.tx.now }
    {
        if is_alone(kind) || frees_sequences(kind) {
            return NO_HASH;
        }
        self.sequences
    }

    fn signed_outputs(&self, input: usize, kind: u32) -> [u8; 32]
        ensures { result ≡ signed_outputs kind input self.now.tx.now }
    {
        if is_none(kind) {
            return NO_HASH;
        }
        if !is_single(kind) {
            return self.outputs;
        }
        let tx = self.tx;
        match tx.outputs.as_slice().get(input) {
            Some(output) => hash_of_output(output),
            None => NO_HASH,
        }
    }
}

fn hash_of_prevouts(inputs: &[TxIn]) -> [u8; 32]
    ensures { result ≡ prevouts_hash inputs.now }
{
    let mut hasher = Sha256::new();
    for input in inputs {
        feed_outpoint(&mut hasher, &input.prev);
    }
    finish(hasher)
}

fn hash_of_sequences(inputs: &[TxIn]) -> [u8; 32]
    ensures { result ≡ sequences_hash inputs.now }
{
    let mut hasher = Sha256::new();
    for input in inputs {
        hasher.update(input.sequence.to_le_bytes());
    }
    finish(hasher)
}

fn hash_of_outputs(outputs: &[TxOut]) -> [u8; 32]
    ensures { result ≡ outputs_hash outputs.now }
{
    let mut hasher = Sha256::new();
    feed_each_output(&mut hasher, outputs);
    finish(hasher)
}

fn hash_of_output(output: &TxOut) -> [u8; 32]
    ensures { result ≡ outputs_hash (output.now ∷ []) }
{
    let mut hasher = Sha256::new();
    feed_output(&mut hasher, output);
    finish(hasher)
}

/// Feeds the signed input, if there is one of this number.
fn feed_input_at(hasher: &mut Sha256, inputs: &[TxIn], n: usize, code: &[&[u8]], value: i64)
    ensures { (fed : List ℕ) → Holds256 hasher.old fed → Holds256 hasher.new
        (fed ++ option_map_or (signed_input (concat (bytes_of code.now)) value)
        (slice_get inputs.now n) []) }
{
    if let Some(input) = inputs.get(n) {
        feed_signed_input(hasher, input, code, value);
    }
}

fn feed_signed_input(hasher: &mut Sha256, input: &TxIn, code: &[&[u8]], value: i64)
    ensures { (fed : List ℕ) → Holds256 hasher.old fed
        → Holds256 hasher.new
        (fed ++ signed_input (concat (bytes_of code.now)) value input.now) }
{
    feed_outpoint(hasher, &input.prev);
    feed_script(hasher, code);
    hasher.update(value.to_le_bytes());
    hasher.update(input.sequence.to_le_bytes());
}
