//! What the inputs of a transaction break, apart from any block.

ghost use Rattle.std.specs.Prelude.{◌≡◌, ◌+◌, ◌≤◌, false, None, Some, IfOk, IfErr, length};
ghost use Rattle.txn.specs.Check.{tx_rules};
ghost use Rattle.txn.specs.First.{first_broken};
ghost use Rattle.connect.specs.BlockContext.{Setting};
ghost use Rattle.connect.specs.Turns.{turn, spent_in};
ghost use Rattle.connect.specs.Faults.{fee, input_rules, is_missing};
ghost use Rattle.coins.specs.Coins.{Coins};

use crate::amounts::{paid, worth};
use crate::turn::{has_immature, pays_too_much};
use coins::{Base, Cache, Coin};
use std::alloc::Global;
use txn::{Reason, Tx};
use undo::take_inputs;
use wire::Memory;

/// What a transaction gives to the coinbase of a block of this height, in satoshis, by these coins: what it spends without
/// what it pays; or the first rule that its inputs break (Bitcoin Core's `CheckTxInputs`). A coinbase spends nothing.
///
/// Locks, scripts and signature operations aren't asked.
pub fn check_tx_inputs<B: Base>(
    alloc: Global,
    coins: &B,
    tx: &Tx,
    height: u32,
) -> Result<Result<i128, Reason>, Memory>
    // It breaks no rule by itself.
    requires alone { first_broken (tx_rules tx.now) ≡ None }
    requires few { length tx.now.inputs + length tx.now.outputs ≤ 1000000 }
    ensures fault { let t = turn tx.now (B.coins coins.now) 0 in
        IfOk result (λ answer. (s : Setting) → s.height ≡ height
        → IfErr answer (λ reason. first_broken (input_rules s t) ≡ Some reason)) }
    ensures none { let t = turn tx.now (B.coins coins.now) 0 in
        IfOk result (λ answer. (s : Setting) → s.height ≡ height
        → IfOk answer (λ given. first_broken (input_rules s t) ≡ None)) }
    ensures fee { let t = turn tx.now (B.coins coins.now) 0 in
        IfOk result (λ answer. IfOk answer (λ given. given ≡ fee t)) }
{
    let Some((_layer, spent)) = take_inputs(alloc, Cache::over(alloc, coins), tx)? else {
        return Ok(Err(Reason::InputsMissingOrSpent));
    };
    Ok(test_coins(spent.as_slice(), tx, height))
}

/// The age and the worth of the coins that a transaction spends.
fn test_coins(coins: &[Coin], tx: &Tx, height: u32) -> Result<i128, Reason>
    requires few { length coins.now ≤ 1000000 }
    requires outputs { length tx.now.outputs ≤ 1000000 }
    ensures fault { (s : Setting) (m : Coins) → s.height ≡ height
        → coins.now ≡ spent_in (turn tx.now m 0) → is_missing (turn tx.now m 0) ≡ false
        → IfErr result (λ reason. first_broken (input_rules s (turn tx.now m 0)) ≡ Some reason) }
    ensures none { (s : Setting) (m : Coins) → s.height ≡ height
        → coins.now ≡ spent_in (turn tx.now m 0) → is_missing (turn tx.now m 0) ≡ false
        → IfOk result (λ given. first_broken (input_rules s (turn tx.now m 0)) ≡ None) }
    ensures fee { (m : Coins) → coins.now ≡ spent_in (turn tx.now m 0)
        → IfOk result (λ given. given ≡ fee (turn tx.now m 0)) }
{
    if has_immature(coins, height) {
        return Err(Reason::PrematureCoinbaseSpend);
    }
    let worth = worth(coins);
    let paid = paid(tx.outputs.as_slice());
    if pays_too_much(tx, worth, paid) {
        return Err(Reason::InputsBelowOutputs);
    }
    Ok(worth - paid)
}
