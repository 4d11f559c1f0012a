//! How many bytes a transaction and its parts have, without writing them. A sum stops at the highest `u64`, far above what
//! any has.

ghost use Rattle.std.specs.Prelude.{◌≡◌, ◌-◌, ◌^◌, ◌≤◌, length, min, sum_by};
ghost use Rattle.wire.specs.Numbers.{compact_size};
ghost use Rattle.wire.specs.Grammar.{sized_bytes};
ghost use Rattle.txn.specs.Grammar as grammar;
ghost use Rattle.txn.specs.Weight.{weight_of};
ghost use Rattle.txn.specs.WitnessGrammar.{witness, witness_transaction};

use crate::input::{TxIn, Witness};
use crate::output::TxOut;
use crate::script::Script;
use crate::tx::Tx;
use hash::Id;

/// Without inputs there are no outputs (BIP 144): a version of 4, two counts of 0, a lock time of 4.
const BYTES_WITHOUT_INPUTS: u64 = 10;

/// The bytes without witnesses: of inputs and outputs with their counts, and of version and lock time.
#[tactic(auto, using(crate::proofs::Lengths::of_transaction))]
pub fn size(tx: &Tx) -> u64
    ensures { result ≡ min (length (grammar.transaction.spell tx.now)) (2 ^ 64 - 1) }
{
    let inputs = tx.inputs.as_slice();
    let outputs = tx.outputs.as_slice();
    inputs_size(inputs)
        .saturating_add(outputs_size(outputs))
        .saturating_add(count_size(inputs.len()) + count_size(outputs.len()) + 8)
}

fn inputs_size(inputs: &[TxIn]) -> u64
    ensures { result ≡ min (sum_by (λ i. length (grammar.input.spell i)) inputs.now) (2 ^ 64 - 1) }
{
    let mut sum = 0u64;
    for input in inputs {
        sum = sum.saturating_add(input_size(input));
    }
    sum
}

fn outputs_size(outputs: &[TxOut]) -> u64
    ensures { result ≡ min (sum_by (λ o. length (grammar.output.spell o)) outputs.now)
        (2 ^ 64 - 1) }
{
    let mut sum = 0u64;
    for output in outputs {
        sum = sum.saturating_add(output_size(output));
    }
    sum
}

/// The bytes of an input: of its outpoint, its script and its sequence.
#[tactic(auto, using(crate::proofs::Lengths::of_input))]
fn input_size(input: &TxIn) -> u64
    ensures { result ≡ min (length (grammar.input.spell input.now)) (2 ^ 64 - 1) }
{
    script_size(&input.script).saturating_add(id_size(&input.prev.id) + 8)
}

/// The bytes of an output: its value's and its script's.
#[tactic(auto, using(crate::proofs::Lengths::of_output))]
fn output_size(output: &TxOut) -> u64
    ensures { result ≡ min (length (grammar.output.spell output.now)) (2 ^ 64 - 1) }
{
    script_size(&output.script).saturating_add(8)
}

#[tactic(auto, using(crate::proofs::Lengths::of_script))]
fn script_size(script: &Script) -> u64
    ensures { result ≡ min (length (sized_bytes.spell script.now)) (2 ^ 64 - 1) }
{
    (script.len() as u64).saturating_add(count_size(script.len()))
}

/// The bytes with witnesses (BIP 144; Bitcoin Core's `GetTotalSize`).
pub fn total_size(tx: &Tx) -> u64
    ensures { result ≡ min (length (witness_transaction.spell tx.now)) (2 ^ 64 - 1) }
{
    if tx.has_witness() {
        // A count of 0 and the flag stand before the inputs.
        return size(tx).saturating_add(witnesses_size(tx.inputs.witnesses()).saturating_add(2));
    }
    if tx.inputs.is_empty() {
        return BYTES_WITHOUT_INPUTS;
    }
    size(tx)
}

/// Three times the bytes without witnesses, and once those with them (BIP 141; Bitcoin Core's `GetTransactionWeight`).
pub fn weight(tx: &Tx) -> u64
    ensures { result ≡ min (weight_of tx.now) (2 ^ 64 - 1) }
{
    size(tx).saturating_mul(3).saturating_add(total_size(tx))
}

fn witnesses_size(witnesses: &[Witness]) -> u64
    ensures { result ≡ min (sum_by (λ w. length (witness.spell w)) witnesses.now) (2 ^ 64 - 1) }
{
    let mut sum = 0u64;
    for strings in witnesses {
        sum = sum.saturating_add(witness_size(strings));
    }
    sum
}

/// The bytes of a witness: of its strings with their count.
#[tactic(auto, using(crate::proofs::Lengths::of_witness))]
fn witness_size(strings: &Witness) -> u64
    ensures { result ≡ min (length (witness.spell strings.now)) (2 ^ 64 - 1) }
{
    let strings = strings.as_slice();
    strings_size(strings).saturating_add(count_size(strings.len()))
}

fn strings_size(strings: &[Script]) -> u64
    ensures { result ≡ min (sum_by (λ s. length (sized_bytes.spell s)) strings.now) (2 ^ 64 - 1) }
{
    let mut sum = 0u64;
    for string in strings {
        sum = sum.saturating_add(script_size(string));
    }
    sum
}

/// The bytes of an id: 32.
pub fn id_size(id: &Id) -> u64
    ensures value { result ≡ length id.now.0 }
    ensures is { result ≡ 32 }
{
    let bytes: &[u8] = &id.0;
    bytes.len() as u64
}

/// The bytes of a count, in the shortest of its forms.
#[tactic(auto, unfolding(wire::specs::Numbers::compact_size))]
pub fn count_size(n: usize) -> u64
    ensures value { result ≡ length (compact_size n) }
    ensures small { result ≤ 9 }
{
    match n {
        0..253 => 1,
        253..0x1_0000 => 3,
        0x1_0000..0x1_0000_0000 => 5,
        _ => 9,
    }
}
