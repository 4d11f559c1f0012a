//! Connecting a block.

ghost use Rattle.std.specs.Prelude.{◌≡◌, ◌+ℤ◌, ◌≤◌, ◌≤ℤ◌, ◌^◌, neg_ℤ, pos, false, int_lt, IfOk, IfErr, OnOk, OnErr, None, Some, length, IfSome, MatchOption};
ghost use Rattle.std.specs.List.{AllByRecursion, list_any, flat_map};
ghost use Rattle.std.specs.Result.{result_err};
ghost use Rattle.txn.specs.Check.{total};
ghost use Rattle.txn.specs.First.{first_broken};
ghost use Rattle.txn.specs.Identity.{ids_of};
ghost use Rattle.block.specs.Reward.{subsidy_of};
ghost use Rattle.coins.specs.Entries.{over, IsSound};
ghost use Rattle.rules.specs.Alone.{max_block_sigops, alone_rules};
ghost use Rattle.connect.specs.BlockContext.{setting};
ghost use Rattle.connect.specs.Turns.{turns, effect};
ghost use Rattle.connect.specs.Faults.{overwrites, fees, turn_rules, connect_rules};
ghost use Rattle.connect.specs.Scripts.{IsConnectFault, AreWantedByBlock};
ghost use Rattle.connect.specs.ConnectedBlock.{IsConnected};
ghost use Rattle.connect.specs.inside.Turns.{IsReason, IsLawful, PassInTurn, PassTogether};
ghost use Rattle.signatures.specs.Known.{Under};
ghost use Rattle.connect.specs.declared.lookups.Lookup.TheVariants.{Above};

use crate::amounts::paid;
use crate::block_fault::BlockFault;
use crate::context::{BlockWithIds, Context};
use crate::lookups::{Lookup, overwrites};
use crate::runs_scripts::RunsScripts;
use crate::scripts::first_refused;
use crate::turn::{Place, connect_tx};
use block::subsidy;
use coins::{Base, Cache, Writes};
use hash::Id;
use queue::Gate;
use std::alloc::Global;
use txn::{Reason, Tx, TxOut};
use undo::BlockUndo;
use wire::Memory;

/// Connects a block to the coins of its parent's branch: the first rule that it breaks over them, its scripts
/// last, or else the coins after it with what it spent (Bitcoin Core's `ConnectBlock`). Where signatures aren't all
/// known, it may instead list those that have to be verified first.
///
/// The answer depends on neither the crew, the number of workers, the gate nor the early verdicts.
pub fn connect<B: Base, S: RunsScripts>(
    alloc: Global,
    cache: &mut Cache<'_, B>,
    context: &Context,
    of: &BlockWithIds<'_>,
    env: &S,
    gate: &(dyn Gate + Sync),
) -> Result<Result<BlockUndo, Reason>, S::Stop>
    // It breaks no rule by itself.
    requires alone { first_broken (alone_rules of.now.block.now) ≡ None }
    requires ids { of.now.ids.now ≡ ids_of of.now.block.now.txs }
    ensures fault { let s = setting context.now in let m = cache.old.coins in
        IfOk result (λ answer. Under (S.known env.now) (λ triples.
        IsConnectFault s m of.now.block.now.txs triples (result_err answer))) }
    ensures stops { IfErr result (λ stop. IfSome (S.told stop) (AreWantedByBlock
        (setting context.now) cache.old.coins of.now.block.now.txs (S.known env.now))) }
    ensures coins { IfOk result (λ answer. OnOk answer (cache.new ≡ record cache.old {
      coins = effect context.now.height cache.old.coins of.now.block.now.txs;
    })) }
    // With its undo it can be taken back by `disconnect`.
    ensures connected { IfOk result (λ answer. IfOk answer (λ undo.
        IsConnected (setting context.now) cache.old.coins of.now.block.now cache.new.coins undo)) }
    // A reason leaves the coins as they were, and so does what ends without an answer.
    ensures kept { IfOk result (λ answer. OnErr answer (cache.new ≡ cache.old)) }
    ensures err { OnErr result (cache.new ≡ cache.old) }
{
    match attempt(alloc, &*cache, context, of, env, gate)? {
        Err(reason) => Ok(Err(reason)),
        Ok((undo, writes)) => {
            cache.absorb(writes)?;
            Ok(Ok(undo))
        }
    }
}

/// The first rule that a block breaks, or else what it spends, and what it writes on a layer over these coins.
fn attempt<B: Base, S: RunsScripts>(
    alloc: Global,
    base: &B,
    context: &Context,
    of: &BlockWithIds<'_>,
    env: &S,
    gate: &(dyn Gate + Sync),
) -> Result<Result<(BlockUndo, Writes), Reason>, S::Stop>
    requires alone { first_broken (alone_rules of.now.block.now) ≡ None }
    requires ids { of.now.ids.now ≡ ids_of of.now.block.now.txs }
    ensures fault { let s = setting context.now in let m = B.coins base.now in
        IfOk result (λ answer. Under (S.known env.now) (λ triples.
        IsConnectFault s m of.now.block.now.txs triples (result_err answer))) }
    ensures stops { IfErr result (λ stop. IfSome (S.told stop) (AreWantedByBlock
        (setting context.now) (B.coins base.now) of.now.block.now.txs (S.known env.now))) }
    ensures sound { IfOk result (λ answer. IfOk answer (λ done.
        IsSound (B.coins base.now) done.1)) }
    ensures over { IfOk result (λ answer. IfOk answer (λ done. over (B.coins base.now) done.1 ≡
        effect context.now.height (B.coins base.now) of.now.block.now.txs)) }
    ensures connected { IfOk result (λ answer. IfOk answer (λ done.
        IsConnected (setting context.now) (B.coins base.now) of.now.block.now
        (over (B.coins base.now) done.1) done.0)) }
{
    let layer = Cache::over(alloc, base);
    match connect_in_layer(alloc, layer, context, of, env, gate)? {
        Err(reason) => Ok(Err(reason)),
        Ok((layer, undo)) => Ok(Ok((undo, layer.into_writes()))),
    }
}

/// The same as [`connect`] in a layer that is the caller's own, on which other blocks may have written before. It is
/// given back where the block connects, with what that spent, and dropped at a reason or where there is no answer.
pub fn connect_in_layer<'b, B: Base, S: RunsScripts>(
    alloc: Global,
    layer: Cache<'b, B>,
    context: &Context,
    of: &BlockWithIds<'_>,
    env: &S,
    gate: &(dyn Gate + Sync),
) -> Result<Result<(Cache<'b, B>, BlockUndo), Reason>, S::Stop>
    // It breaks no rule by itself.
    requires alone { first_broken (alone_rules of.now.block.now) ≡ None }
    requires ids { of.now.ids.now ≡ ids_of of.now.block.now.txs }
    ensures fault { let s = setting context.now in let m = layer.entry.coins in
        IfOk result (λ answer. Under (S.known env.now) (λ triples.
        IsConnectFault s m of.now.block.now.txs triples (result_err answer))) }
    ensures stops { IfErr result (λ stop. IfSome (S.told stop) (AreWantedByBlock
        (setting context.now) layer.entry.coins of.now.block.now.txs (S.known env.now))) }
    ensures coins { let m = layer.entry.coins in
        IfOk result (λ answer. IfOk answer (λ done. done.0 ≡
        record layer.entry { coins = effect context.now.height m of.now.block.now.txs })) }
    // With its undo it can be taken back by `disconnect_in_layer`.
    ensures connected { IfOk result (λ answer. IfOk answer (λ done.
        IsConnected (setting context.now) layer.entry.coins of.now.block.now done.0.coins done.1)) }
{
    match apply_in_layer(alloc, layer, context, of, env, gate)? {
        Err(reason) => Ok(Err(reason)),
        Ok(Applied { layer, undo, stop }) => match stop {
            None => Ok(Ok((layer, undo))),
            Some(stop) => Err(stop),
        },
    }
}

/// A block that was applied in a layer: it breaks no rule, or its scripts have no answer.
#[derive(Drop)]
pub struct Applied<'b, B: Base, W: Drop> {
    /// The layer with the coins after it.
    pub layer: Cache<'b, B>,
    /// What it spent.
    pub undo: BlockUndo,
    /// Why its scripts have no answer: what they want, or there was no memory. None where they accept.
    pub stop: Option<W>,
}

/// The same as [`connect_in_layer`] for a caller who goes on above a block whose scripts have no answer: the layer comes
/// back then too, since signatures change no coins.
pub fn apply_in_layer<'b, B: Base, S: RunsScripts>(
    alloc: Global,
    layer: Cache<'b, B>,
    context: &Context,
    of: &BlockWithIds<'_>,
    env: &S,
    gate: &(dyn Gate + Sync),
) -> Result<Result<Applied<'b, B, S::Stop>, Reason>, S::Stop>
    // It breaks no rule by itself.
    requires alone { first_broken (alone_rules of.now.block.now) ≡ None }
    requires ids { of.now.ids.now ≡ ids_of of.now.block.now.txs }
    ensures fault { let s = setting context.now in let m = layer.entry.coins in
        IfOk result (λ answer. IfErr answer (λ reason. Under (S.known env.now) (λ triples.
        IsConnectFault s m of.now.block.now.txs triples (Some reason)))) }
    ensures scripts { let s = setting context.now in let m = layer.entry.coins in
        let txs = of.now.block.now.txs in let known = S.known env.now in
        IfOk result (λ answer. IfOk answer (λ done. MatchOption done.stop
        (Under known (λ triples. IsConnectFault s m txs triples None))
        (λ stop. IfSome (S.told stop) (AreWantedByBlock s m txs known)))) }
    ensures coins { let m = layer.entry.coins in
        IfOk result (λ answer. IfOk answer (λ done. done.layer ≡
        record layer.entry { coins = effect context.now.height m of.now.block.now.txs })) }
    // With its undo it can be taken back by `disconnect_in_layer`.
    ensures connected { IfOk result (λ answer. IfOk answer (λ done. IsConnected
        (setting context.now) layer.entry.coins of.now.block.now done.layer.coins done.undo)) }
    // Only of memory there is no answer at all.
    ensures memory { IfErr result (λ stop. S.told stop ≡ None) }
{
    let lookup = lookup_in(&layer);
    let place = Place { context, lookup };
    match connect_txs(alloc, layer, &place, of.block.txs.as_slice(), of.ids) {
        Err(BlockFault::Broken(reason)) => Ok(Err(reason)),
        Err(BlockFault::Memory) => Err(S::Stop::from(Memory)),
        Ok((layer, undo)) => {
            let others = &of.block.txs.as_slice()[1..];
            let rules = context.params.at(context.height);
            match first_refused(alloc, others, &undo, rules, env, gate) {
                Ok(Some(reason)) => Ok(Err(reason)),
                Ok(None) => Ok(Ok(Applied {
                    layer,
                    undo,
                    stop: None,
                })),
                Err(stop) => Ok(Ok(Applied {
                    layer,
                    undo,
                    stop: Some(stop),
                })),
            }
        }
    }
}

/// Where the outputs of a block's transactions are looked for in its layer.
fn lookup_in<B: Base>(layer: &Cache<'_, B>) -> Lookup
    ensures { result ≡ Above → layer.now.coins ≡ layer.now.base }
{
    if layer.is_untouched() {
        Lookup::Above
    } else {
        Lookup::Whole
    }
}

/// Tests and applies the transactions of a block. Where outputs are looked for above the layer's base alone, it wrote
/// nothing yet.
fn connect_txs<'b, B: Base>(
    alloc: Global,
    layer: Cache<'b, B>,
    place: &Place<'_>,
    txs: &[Tx],
    ids: &[Id],
) -> Result<(Cache<'b, B>, BlockUndo), BlockFault>
    requires fresh { place.now.lookup ≡ Above → layer.coins ≡ layer.base }
    requires some { 1 ≤ length txs.now }
    requires few { length txs.now ≤ 1000000 }
    requires lawful { AllByRecursion IsLawful txs.now }
    requires ids { ids.now ≡ ids_of txs.now }
    ensures fault { let s = setting place.now.context.now in let m = layer.entry.coins in
        IfErr result (IsReason (first_broken (connect_rules s m txs.now))) }
    ensures pass { IfOk result (λ done.
        PassTogether (setting place.now.context.now) layer.entry txs.now done.0 done.1) }
{
    if is_overwriting(&layer, txs, ids) {
        return Err(BlockFault::Broken(Reason::OverwritesCoin));
    }
    let coinbase = connect_tx(alloc, layer, place, &txs[0], ids[0], 0)?;
    let others = connect_others(
        alloc,
        coinbase.layer,
        place,
        &txs[1..],
        &ids[1..],
        coinbase.passed.counted,
    )?;
    let first = &txs[0];
    if is_overpaid(place.context.height, others.fees, first.outputs.as_slice()) {
        return Err(BlockFault::Broken(Reason::CoinbaseAmount));
    }
    Ok((others.layer, others.undo))
}

/// Whether an output of a transaction is a coin already.
fn is_overwriting<B: Base>(layer: &Cache<'_, B>, txs: &[Tx], ids: &[Id]) -> bool
    requires lawful { AllByRecursion IsLawful txs.now }
    requires ids { ids.now ≡ ids_of txs.now }
    ensures { result ≡ list_any (overwrites layer.now.coins) txs.now }
{
    for index in 0..txs.len() {
        if overwrites(layer, &txs[index], ids[index]) {
            return true;
        }
    }
    false
}

/// Transactions after their turns: the layer that they were applied to, the coins that each spent, and the sum of
/// their fees.
#[derive(Drop)]
struct Others<'b, B: Base> {
    layer: Cache<'b, B>,
    undo: BlockUndo,
    fees: i128,
}

/// Tests and applies transactions, after others that counted so many signature operations.
fn connect_others<'b, B: Base>(
    alloc: Global,
    mut layer: Cache<'b, B>,
    place: &Place<'_>,
    txs: &[Tx],
    ids: &[Id],
    counted: u128,
) -> Result<Others<'b, B>, BlockFault>
    requires few { length txs.now ≤ 1000000 }
    requires lawful { AllByRecursion IsLawful txs.now }
    requires ids { ids.now ≡ ids_of txs.now }
    requires counted { counted ≤ max_block_sigops }
    requires below { place.now.lookup ≡ Above → list_any (overwrites layer.base) txs.now ≡ false }
    ensures fault { let s = setting place.now.context.now in
        let ts = turns place.now.context.now.height layer.entry.coins counted txs.now in
        IfErr result (IsReason (first_broken (flat_map (turn_rules s) ts))) }
    ensures pass { let s = setting place.now.context.now in IfOk result (λ done.
        PassInTurn s layer.entry txs.now counted done.layer done.undo done.fees) }
{
    let mut undo = BlockUndo::new(alloc);
    let mut fees = 0;
    let mut so_far = counted;
    for index in 0..txs.len() {
        let turned = connect_tx(alloc, layer, place, &txs[index], ids[index], so_far)?;
        layer = turned.layer;
        undo.push(turned.spent)?;
        fees += turned.passed.fee;
        so_far = turned.passed.counted;
    }
    Ok(Others { layer, undo, fees })
}

/// Whether a coinbase pays more than subsidy and fees.
fn is_overpaid(height: u32, fees: i128, outputs: &[TxOut]) -> bool
    requires few { length outputs.now ≤ 1000000 }
    requires low { neg_ℤ (pos (2 ^ 104)) ≤ℤ fees }
    requires high { fees ≤ℤ pos (2 ^ 104) }
    ensures { result ≡ int_lt (pos (subsidy_of height) +ℤ fees) (total outputs.now) }
{
    i128::from(subsidy(height)) + fees < paid(outputs)
}
