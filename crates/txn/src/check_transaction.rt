//! The rules that a transaction obeys by itself.

ghost use Rattle.std.specs.Prelude.{◌≡◌, ◌<◌, ◌≤ℤ◌, ◌+ℤ◌, ◌&&◌, not, [], ◌∷◌, pos, int_lt, length, IfOk, IfNone, IsOk};
ghost use Rattle.std.specs.List.{list_any};
ghost use Rattle.txn.specs.declared.reason.Reason.TheVariants as reason;
ghost use Rattle.txn.specs.First.{first_broken};
ghost use Rattle.txn.specs.Check.{max_money, is_null, has_twice, prevs, is_coinbase, first_script, fits_coinbase, output_rules, tx_rules};

use crate::input::TxIn;
use crate::outpoint::OutPoint;
use crate::output::TxOut;
use crate::reason::Reason;
use crate::tx::Tx;
use std::alloc::Global;
use wire::Memory;

/// All the money there can be, in satoshis: 21 million coins of 10^8 (Bitcoin Core's `MAX_MONEY`).
pub const MAX_MONEY: i64 = 2_100_000_000_000_000;

/// The fewest bytes of a coinbase's script.
pub const MIN_COINBASE_SCRIPT: usize = 2;

/// The most bytes of a coinbase's script.
pub const MAX_COINBASE_SCRIPT: usize = 100;

/// The first rule that a transaction breaks by itself (Bitcoin Core's `CheckTransaction`).
#[tactic(auto, unfolding(crate::specs::Check::tx_rules))]
pub fn check(alloc: Global, tx: &Tx) -> Result<Option<Reason>, Memory>
    ensures found { IfOk result (λ found. found ≡ first_broken (tx_rules tx.now)) }
    // Of one input or none no memory is taken.
    ensures quiet { length tx.now.inputs < 2 → IsOk result }
{
    if tx.inputs.is_empty() {
        return Ok(Some(Reason::NoInputs));
    }
    if tx.outputs.is_empty() {
        return Ok(Some(Reason::NoOutputs));
    }
    if let Some(reason) = broken_output(tx.outputs.as_slice()) {
        return Ok(Some(reason));
    }
    if has_twice(alloc, tx.inputs.as_slice())? {
        return Ok(Some(Reason::DuplicateInputs));
    }
    if has_bad_length(tx) {
        return Ok(Some(Reason::CoinbaseLength));
    }
    if has_null(tx) {
        return Ok(Some(Reason::NullPrevout));
    }
    Ok(None)
}

/// The first rule that an output breaks.
fn broken_output(outputs: &[TxOut]) -> Option<Reason>
    ensures { result ≡ first_broken (output_rules [] outputs.now) }
{
    let mut sum = 0;
    for output in outputs {
        if let Some(reason) = broken_value(output.value, sum) {
            return Some(reason);
        }
        sum += output.value;
    }
    None
}

/// The first rule that an output's value breaks after others of this sum.
fn broken_value(value: i64, before: i64) -> Option<Reason>
    requires low { pos 0 ≤ℤ before }
    requires high { before ≤ℤ max_money }
    ensures reason { result ≡ first_broken
        ((int_lt value (pos 0), reason.OutputNegative)
        ∷ (int_lt max_money value, reason.OutputTooLarge)
        ∷ (int_lt max_money (before +ℤ value), reason.OutputSumTooLarge) ∷ []) }
    ensures low { IfNone result (pos 0 ≤ℤ (before +ℤ value)) }
    ensures high { IfNone result ((before +ℤ value) ≤ℤ max_money) }
{
    if value < 0 {
        return Some(Reason::OutputNegative);
    }
    if value > MAX_MONEY {
        return Some(Reason::OutputTooLarge);
    }
    if before + value > MAX_MONEY {
        return Some(Reason::OutputSumTooLarge);
    }
    None
}

/// Whether two inputs spend one outpoint.
fn has_twice(alloc: Global, inputs: &[TxIn]) -> Result<bool, Memory>
    ensures twice { IfOk result (λ twice. twice ≡ has_twice (prevs inputs.now)) }
    ensures quiet { length inputs.now < 2 → IsOk result }
{
    if inputs.len() < 2 {
        return Ok(false);
    }
    let mut outpoints = prevs(alloc, inputs)?;
    outpoints.sort_unstable();
    // What is twice in a sorted list is at two places that follow each other.
    for later in 1..outpoints.len() {
        if outpoints[later - 1] == outpoints[later] {
            return Ok(true);
        }
    }
    Ok(false)
}

/// The outpoints that inputs spend.
fn prevs(alloc: Global, inputs: &[TxIn]) -> Result<Vec<OutPoint>, Memory>
    ensures { IfOk result (λ outpoints. outpoints.items ≡ prevs inputs.now) }
{
    let mut outpoints = Vec::with_capacity(alloc, inputs.len())?;
    for input in inputs {
        outpoints.push(input.prev)?;
    }
    Ok(outpoints)
}

/// Whether it is a coinbase whose script is too short or too long.
fn has_bad_length(tx: &Tx) -> bool
    ensures { result ≡ (is_coinbase tx.now && not (fits_coinbase (first_script tx.now.inputs))) }
{
    tx.is_coinbase() && !fits_coinbase(first_script(tx.inputs.as_slice()))
}

/// Whether it isn't one, and spends the null outpoint.
fn has_null(tx: &Tx) -> bool
    ensures { result ≡ (not (is_coinbase tx.now)
        && list_any (λ input. is_null input.prev) tx.now.inputs) }
{
    !tx.is_coinbase() && spends_null(tx.inputs.as_slice())
}

/// The script of the first input.
fn first_script(inputs: &[TxIn]) -> &[u8]
    ensures { result.now ≡ first_script inputs.now }
{
    match inputs.first() {
        Some(input) => input.script.as_slice(),
        None => &[],
    }
}

/// Whether a coinbase may have this script.
fn fits_coinbase(script: &[u8]) -> bool
    ensures { result ≡ fits_coinbase script.now }
{
    MIN_COINBASE_SCRIPT <= script.len() && script.len() <= MAX_COINBASE_SCRIPT
}

/// Whether an input spends the null outpoint.
fn spends_null(inputs: &[TxIn]) -> bool
    ensures { result ≡ list_any (λ input. is_null input.prev) inputs.now }
{
    inputs.iter().any(|input| input.prev.is_null())
}
