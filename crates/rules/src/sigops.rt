//! Signature operations of transactions. A sum stops at the highest `u128`, far above what a block may have.

ghost use Rattle.std.specs.Prelude.{◌≡◌, ◌-◌, ◌^◌, sum_by, min};
ghost use Rattle.script.specs.Signatures.{sigops};
ghost use Rattle.script.specs.declared.signatures.Counting.TheVariants.{Plain};
ghost use Rattle.rules.specs.Alone.{tx_sigops};

use script::{Counting, sigops};
use txn::{Tx, TxIn, TxOut};

/// The operations of all scripts of transactions, counted plainly.
pub(crate) fn txs_sigops(txs: &[Tx]) -> u128
    ensures { result ≡ min (sum_by tx_sigops txs.now) (2 ^ 128 - 1) }
{
    let mut sum = 0u128;
    for tx in txs {
        sum = sum.saturating_add(tx_sigops(tx));
    }
    sum
}

/// The operations of all scripts of a transaction, whether or not they are run, counted plainly (Bitcoin Core's
/// `GetLegacySigOpCount`).
pub fn tx_sigops(tx: &Tx) -> u128
    ensures { result ≡ min (tx_sigops tx.now) (2 ^ 128 - 1) }
{
    input_sigops(tx.inputs.as_slice()).saturating_add(output_sigops(tx.outputs.as_slice()))
}

fn input_sigops(inputs: &[TxIn]) -> u128
    ensures { result ≡ min (sum_by (λ input. sigops Plain input.script) inputs.now) (2 ^ 128 - 1) }
{
    let mut sum = 0u128;
    for input in inputs {
        sum = sum.saturating_add(sigops(input.script.as_slice(), Counting::Plain));
    }
    sum
}

fn output_sigops(outputs: &[TxOut]) -> u128
    ensures { result ≡ min (sum_by (λ output.
        sigops Plain output.script) outputs.now) (2 ^ 128 - 1) }
{
    let mut sum = 0u128;
    for output in outputs {
        sum = sum.saturating_add(sigops(output.script.as_slice(), Counting::Plain));
    }
    sum
}
