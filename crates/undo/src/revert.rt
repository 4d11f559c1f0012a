//! A transaction taken back.

ghost use Rattle.std.specs.Prelude.{◌≡◌, ℕ, ◌^◌, ◌≤◌, OnOk, OnErr, IfOk, false, length, IsSome, if◌then◌else◌};
ghost use Rattle.std.specs.List.{zip};
ghost use Rattle.std.specs.Map.{keys_of};
ghost use Rattle.std.specs.FinMap as coin_map;
ghost use Rattle.txn.specs.Check.{prevs};
ghost use Rattle.script.specs.Kinds.{is_unspendable};
ghost use Rattle.coins.specs.Coins.{Coins};
ghost use Rattle.coins.specs.Entries.{over, IsSound};
ghost use Rattle.undo.specs.Effect.{spends, spendable, without, with_coins, IsApplied};
ghost use Rattle.undo.specs.laws.Reversal.{coins_before, IsRevertible, AreCoins, AreNew};

use crate::block_undo::Spent;
use coins::{Base, Cache, Coin, Writes};
use hash::Id;
use script::unspendable;
use std::alloc::Global;
use txn::{OutPoint, Tx, TxIn, TxOut};
use wire::Memory;

/// Takes back a transaction of this id, with the coins that it spent (Bitcoin Core's
/// `DisconnectBlock`). Of a coinbase only the outputs go.
pub fn revert_tx<B: Base>(
    alloc: Global,
    cache: &mut Cache<'_, B>,
    tx: &Tx,
    id: Id,
    spent: &Spent,
) -> Result<(), Memory>
    requires { (before : Coins) × (height : ℕ) ×
        IsApplied before tx.now id height cache.old.coins spent.now }
    ensures ok { (before : Coins) (height : ℕ) →
        IsApplied before tx.now id height cache.old.coins spent.now →
        OnOk result (cache.new ≡ record cache.old { coins = before }) }
    ensures err { OnErr result (cache.new ≡ cache.old) }
{
    let writes = undone(alloc, &*cache, tx, id, spent)?;
    cache.absorb(writes)
}

/// What taking a transaction back writes, on a layer over these coins.
fn undone<B: Base>(
    alloc: Global,
    base: &B,
    tx: &Tx,
    id: Id,
    spent: &Spent,
) -> Result<Writes, Memory>
    requires { IsRevertible (B.coins base.now) tx.now id spent.now }
    ensures sound { IfOk result (λ writes. IsSound (B.coins base.now) writes) }
    ensures over { IfOk result (λ writes. over (B.coins base.now) writes ≡
        coins_before (B.coins base.now) tx.now id spent.now) }
{
    let layer = revert(Cache::over(alloc, base), tx, id, spent)?;
    Ok(layer.into_writes())
}

/// The same in a layer that is the caller's own, which is given back where the transaction was taken back: at a
/// refusal, when part of it may be, it is dropped. It does half the work.
pub fn revert_in_layer<'b, B: Base>(
    layer: Cache<'b, B>,
    tx: &Tx,
    id: Id,
    spent: &Spent,
) -> Result<Cache<'b, B>, Memory>
    requires { (before : Coins) × (height : ℕ) ×
        IsApplied before tx.now id height layer.coins spent.now }
    ensures { (before : Coins) (height : ℕ) →
        IsApplied before tx.now id height layer.entry.coins spent.now →
        IfOk result (λ left. left ≡ record layer.entry { coins = before }) }
{
    revert(layer, tx, id, spent)
}

fn revert<'b, B: Base>(
    mut layer: Cache<'b, B>,
    tx: &Tx,
    id: Id,
    spent: &Spent,
) -> Result<Cache<'b, B>, Memory>
    requires { IsRevertible layer.coins tx.now id spent.now }
    ensures { IfOk result (λ left.
        left ≡ record layer.entry { coins = coins_before layer.entry.coins tx.now id spent.now }) }
{
    take_all(&mut layer, id, tx.outputs.as_slice())?;
    return_inputs(&mut layer, tx, spent)?;
    Ok(layer)
}

/// Puts the coins back that a transaction spent. A coinbase spent none.
fn return_inputs<B: Base>(layer: &mut Cache<'_, B>, tx: &Tx, spent: &Spent) -> Result<(), Memory>
    requires new { AreNew layer.old.coins (zip (spends tx.now) spent.now) }
    requires alike { length spent.now ≡ length (spends tx.now) }
    ensures ok { OnOk result (layer.new ≡
        record layer.old { coins = with_coins layer.old.coins (zip (spends tx.now) spent.now) }) }
    ensures base { layer.new.base ≡ layer.old.base }
{
    if tx.is_coinbase() {
        return Ok(());
    }
    return_all(layer, tx.inputs.as_slice(), spent.as_slice())
}

/// Takes the coins of outputs away.
fn take_all<B: Base>(layer: &mut Cache<'_, B>, id: Id, outputs: &[TxOut]) -> Result<(), Memory>
    requires there { AreCoins layer.old.coins (keys_of (spendable id 0 outputs.now)) }
    requires numbered { length outputs.now ≤ 2 ^ 32 }
    ensures ok { OnOk result (layer.new ≡
        record layer.old {
          coins = without layer.old.coins (keys_of (spendable id 0 outputs.now));
        }) }
    ensures base { layer.new.base ≡ layer.old.base }
{
    for (place, output) in outputs.iter().enumerate() {
        let index = place as u32;
        take_one(layer, OutPoint { id, index }, output)?;
    }
    Ok(())
}

/// Takes the coin of an output away, if it can be one.
fn take_one<B: Base>(layer: &mut Cache<'_, B>, at: OutPoint, output: &TxOut) -> Result<(), Memory>
    requires { is_unspendable output.now.script ≡ false → IsSome (coin_map.get layer.old.coins at) }
    ensures ok { OnOk result (layer.new ≡
        record layer.old {
          coins = (if is_unspendable output.now.script then layer.old.coins else
              coin_map.remove layer.old.coins at);
        }) }
    ensures base { layer.new.base ≡ layer.old.base }
{
    if unspendable(output.script.as_slice()) {
        return Ok(());
    }
    layer.spend(&at)?;
    Ok(())
}

/// Puts the coins back that inputs took.
fn return_all<B: Base>(
    layer: &mut Cache<'_, B>,
    inputs: &[TxIn],
    spent: &[Coin],
) -> Result<(), Memory>
    requires new { AreNew layer.old.coins (zip (prevs inputs.now) spent.now) }
    requires alike { length spent.now ≡ length inputs.now }
    ensures ok { OnOk result (layer.new ≡
        record layer.old {
          coins = with_coins layer.old.coins (zip (prevs inputs.now) spent.now);
        }) }
    ensures base { layer.new.base ≡ layer.old.base }
{
    for index in 0..inputs.len() {
        layer.add(inputs[index].prev, spent[index].copy()?)?;
    }
    Ok(())
}
