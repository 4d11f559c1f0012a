//! A transaction applied to the coins.

ghost use Rattle.std.specs.Prelude.{◌≡◌, ℕ, ◌^◌, ◌≤◌, Bool, IfOk, IfSome, OnOk, OnErr, false, None, is_some, length, map, if◌then◌else◌};
ghost use Rattle.std.specs.List.{IsDistinct, list_all};
ghost use Rattle.std.specs.FinMap as coin_map;
ghost use Rattle.hash.specs.declared.id.Id.{Id};
ghost use Rattle.txn.specs.Check.{prevs};
ghost use Rattle.script.specs.Kinds.{is_unspendable};
ghost use Rattle.coins.specs.Coins.{Coins, same};
ghost use Rattle.coins.specs.Entries.{over, IsSound};
ghost use Rattle.undo.specs.Effect.{spends, spendable, coin_of, makes, without, with_coins, after, coins_at, spent_coins, IsApplicable};
ghost use Rattle.undo.specs.laws.Reversal.{AreNew};

use crate::block_undo::Spent;
use coins::{Base, Cache, Coin, Writes};
use hash::Id;
use script::unspendable;
use std::alloc::Global;
use txn::{OutPoint, Tx, TxIn, TxOut};
use wire::Memory;

/// Applies a transaction of this id in a block of this height, and gives the coins that it spent
/// (Bitcoin Core's `UpdateCoins`).
pub fn apply_tx<B: Base>(
    alloc: Global,
    cache: &mut Cache<'_, B>,
    tx: &Tx,
    id: Id,
    height: u32,
) -> Result<Spent, Memory>
    requires { IsApplicable cache.old.coins tx.now id }
    ensures spent { IfOk result (λ taken. taken ≡ spent_coins cache.old.coins tx.now) }
    ensures ok { OnOk result (cache.new ≡
        record cache.old { coins = after cache.old.coins tx.now id height }) }
    ensures err { OnErr result (cache.new ≡ cache.old) }
{
    let (spent, writes) = applied(alloc, &*cache, tx, id, height)?;
    cache.absorb(writes)?;
    Ok(spent)
}

/// What a transaction spends and writes, on a layer over these coins.
fn applied<B: Base>(
    alloc: Global,
    base: &B,
    tx: &Tx,
    id: Id,
    height: u32,
) -> Result<(Spent, Writes), Memory>
    requires { IsApplicable (B.coins base.now) tx.now id }
    ensures spent { IfOk result (λ applied. applied.0 ≡ spent_coins (B.coins base.now) tx.now) }
    ensures sound { IfOk result (λ applied. IsSound (B.coins base.now) applied.1) }
    ensures over { IfOk result (λ applied. over (B.coins base.now) applied.1 ≡
        after (B.coins base.now) tx.now id height) }
{
    let (layer, spent) = apply_in_layer(alloc, Cache::over(alloc, base), tx, id, height)?;
    Ok((spent, layer.into_writes()))
}

/// The same in a layer that is the caller's own, which is given back where the transaction was applied: at a
/// refusal, when part of it may be, it is dropped. It does half the work.
pub fn apply_in_layer<'b, B: Base>(
    alloc: Global,
    layer: Cache<'b, B>,
    tx: &Tx,
    id: Id,
    height: u32,
) -> Result<(Cache<'b, B>, Spent), Memory>
    requires { IsApplicable layer.coins tx.now id }
    ensures layer { IfOk result (λ done.
        done.0 ≡ record layer.entry { coins = after layer.entry.coins tx.now id height }) }
    ensures spent { IfOk result (λ done. done.1 ≡ spent_coins layer.entry.coins tx.now) }
{
    let (layer, spent) = take_inputs(alloc, layer, tx)?.unwrap();
    Ok((add_outputs(layer, tx, id, height)?, spent))
}

/// Takes the coins that a transaction spends, each looked up once: None where one isn't there, and the layer is
/// dropped then, as it is when memory runs out. A coinbase spends none.
pub fn take_inputs<'b, B: Base>(
    alloc: Global,
    mut layer: Cache<'b, B>,
    tx: &Tx,
) -> Result<Option<(Cache<'b, B>, Spent)>, Memory>
    requires { IsDistinct same (spends tx.now) }
    ensures all { IfOk result (λ taken. is_some taken ≡
        list_all (λ at. is_some (coin_map.get layer.entry.coins at)) (spends tx.now)) }
    ensures layer { IfOk result (λ taken. IfSome taken (λ done.
        done.0 ≡ record layer.entry { coins = without layer.entry.coins (spends tx.now) })) }
    ensures spent { IfOk result (λ taken. IfSome taken (λ done.
        done.1 ≡ spent_coins layer.entry.coins tx.now)) }
{
    if tx.is_coinbase() {
        return Ok(Some((layer, Spent::new(alloc))));
    }
    let Some(spent) = take_each(alloc, &mut layer, tx.inputs.as_slice())? else {
        return Ok(None);
    };
    Ok(Some((layer, spent)))
}

/// Takes the coins of inputs, in order, up to the first that isn't there.
fn take_each<B: Base>(
    alloc: Global,
    layer: &mut Cache<'_, B>,
    inputs: &[TxIn],
) -> Result<Option<Spent>, Memory>
    requires { IsDistinct same (prevs inputs.now) }
    ensures all { IfOk result (λ taken. is_some taken ≡
        list_all (λ at. is_some (coin_map.get layer.old.coins at)) (prevs inputs.now)) }
    ensures spent { IfOk result (λ taken. IfSome taken (λ spent_coins.
        spent_coins ≡ coins_at layer.old.coins (prevs inputs.now))) }
    ensures ok { IfOk result (λ taken. IfSome taken (λ _. layer.new ≡
        record layer.old { coins = without layer.old.coins (prevs inputs.now) })) }
    ensures base { layer.new.base ≡ layer.old.base }
{
    let mut spent = Spent::with_room(alloc, inputs.len())?;
    for input in inputs {
        let Some(coin) = layer.take(&input.prev)? else {
            return Ok(None);
        };
        spent.push(coin)?;
    }
    Ok(Some(spent))
}

/// Adds the coins that a transaction makes where what it spends was taken before, as by [`take_inputs`]. At want of
/// memory the layer is dropped.
pub fn add_outputs<'b, B: Base>(
    mut layer: Cache<'b, B>,
    tx: &Tx,
    id: Id,
    height: u32,
) -> Result<Cache<'b, B>, Memory>
    requires { (before : Coins) × IsApplicable before tx.now id ×
        (layer.coins ≡ without before (spends tx.now)) }
    ensures { (before : Coins) → IsApplicable before tx.now id →
        layer.entry.coins ≡ without before (spends tx.now) →
        IfOk result (λ left.
        left ≡ record layer.entry { coins = after before tx.now id height }) }
{
    add_all(
        &mut layer,
        id,
        tx.outputs.as_slice(),
        height,
        tx.is_coinbase(),
    )?;
    Ok(layer)
}

/// Adds the coins of outputs that can be coins.
fn add_all<B: Base>(
    layer: &mut Cache<'_, B>,
    id: Id,
    outputs: &[TxOut],
    height: u32,
    coinbase: bool,
) -> Result<(), Memory>
    requires new { AreNew layer.old.coins (map (λ o.
        (o.0, coin_of height coinbase o.1)) (spendable id 0 outputs.now)) }
    requires numbered { length outputs.now ≤ 2 ^ 32 }
    ensures ok { OnOk result (layer.new ≡
        record layer.old {
          coins = with_coins layer.old.coins (map (λ o.
              (o.0, coin_of height coinbase o.1)) (spendable id 0 outputs.now));
        }) }
    ensures base { layer.new.base ≡ layer.old.base }
{
    for (place, output) in outputs.iter().enumerate() {
        let index = place as u32;
        add_one(layer, OutPoint { id, index }, output, height, coinbase)?;
    }
    Ok(())
}

/// Adds the coin of an output, if it can be one.
fn add_one<B: Base>(
    layer: &mut Cache<'_, B>,
    at: OutPoint,
    output: &TxOut,
    height: u32,
    coinbase: bool,
) -> Result<(), Memory>
    requires { is_unspendable output.now.script ≡ false → coin_map.get layer.old.coins at ≡ None }
    ensures ok { OnOk result (layer.new ≡
        record layer.old {
          coins = (if is_unspendable output.now.script then layer.old.coins else
              coin_map.insert layer.old.coins at (coin_of height coinbase output.now));
        }) }
    ensures base { layer.new.base ≡ layer.old.base }
{
    if unspendable(output.script.as_slice()) {
        return Ok(());
    }
    let coin = coin_of(output, height, coinbase)?;
    layer.add(at, coin)
}

/// The coin that an output makes.
fn coin_of(output: &TxOut, height: u32, coinbase: bool) -> Result<Coin, Memory>
    ensures { IfOk result (λ coin. coin ≡ coin_of height coinbase output.now) }
{
    Ok(Coin {
        value: output.value,
        script: output.script.clone()?,
        height,
        coinbase,
    })
}
