//! Taking a block back.

ghost use Rattle.std.specs.Prelude.{◌≡◌, ℕ, IfOk, OnOk, OnErr};
ghost use Rattle.txn.specs.Identity.{ids_of};
ghost use Rattle.coins.specs.Coins.{Coins};
ghost use Rattle.connect.specs.BlockContext.{Setting};
ghost use Rattle.coins.specs.Entries.{over, IsSound};
ghost use Rattle.connect.specs.ConnectedBlock.{IsConnected};
ghost use Rattle.connect.specs.inside.AppliedTransactions.{AreApplied, IsBlockApplied};

use block::Block;
use coins::{Base, Cache, Writes};
use hash::Id;
use std::alloc::Global;
use txn::Tx;
use undo::{BlockUndo, Spent, revert_in_layer};
use wire::Memory;

/// Takes back a block that was connected, with what it spent (Bitcoin Core's `DisconnectBlock`).
pub fn disconnect<B: Base>(
    alloc: Global,
    cache: &mut Cache<'_, B>,
    block: &Block,
    ids: &[Id],
    undo: &BlockUndo,
) -> Result<(), Memory>
    requires ids { ids.now ≡ ids_of block.now.txs }
    // Coins and undo are those that connecting it left.
    requires connected { (s : Setting) × (before : Coins) ×
        IsConnected s before block.now cache.old.coins undo.now }
    ensures ok { (s : Setting) (before : Coins) →
        IsConnected s before block.now cache.old.coins undo.now →
        OnOk result (cache.new ≡ record cache.old { coins = before }) }
    ensures err { OnErr result (cache.new ≡ cache.old) }
{
    let writes = writes_back(alloc, &*cache, block.txs.as_slice(), ids, undo)?;
    cache.absorb(writes)
}

/// The same as [`disconnect`] in a layer that is the caller's own, which is given back where the block was taken back:
/// out of memory, when part of it may be, it is dropped.
pub fn disconnect_in_layer<'b, B: Base>(
    alloc: Global,
    layer: Cache<'b, B>,
    block: &Block,
    ids: &[Id],
    undo: &BlockUndo,
) -> Result<Cache<'b, B>, Memory>
    requires ids { ids.now ≡ ids_of block.now.txs }
    // Coins and undo are those that connecting it left.
    requires connected { (s : Setting) × (before : Coins) ×
        IsConnected s before block.now layer.coins undo.now }
    ensures { (s : Setting) (before : Coins) →
        IsConnected s before block.now layer.entry.coins undo.now →
        IfOk result (λ left. left ≡ record layer.entry { coins = before }) }
{
    revert_txs(alloc, layer, block.txs.as_slice(), ids, undo)
}

/// What taking transactions back writes, on a layer over these coins.
fn writes_back<B: Base>(
    alloc: Global,
    base: &B,
    txs: &[Tx],
    ids: &[Id],
    undo: &BlockUndo,
) -> Result<Writes, Memory>
    requires ids { ids.now ≡ ids_of txs.now }
    requires applied { (height : ℕ) × (before : Coins) ×
        IsBlockApplied height before txs.now (B.coins base.now) undo.now }
    ensures sound { IfOk result (λ writes. IsSound (B.coins base.now) writes) }
    ensures over { (height : ℕ) (before : Coins) →
        IsBlockApplied height before txs.now (B.coins base.now) undo.now →
        IfOk result (λ writes. over (B.coins base.now) writes ≡ before) }
{
    let layer = revert_txs(alloc, Cache::over(alloc, base), txs, ids, undo)?;
    Ok(layer.into_writes())
}

/// Takes back the transactions of a block, the last one first. The coinbase spent nothing.
fn revert_txs<'b, B: Base>(
    alloc: Global,
    layer: Cache<'b, B>,
    txs: &[Tx],
    ids: &[Id],
    undo: &BlockUndo,
) -> Result<Cache<'b, B>, Memory>
    requires ids { ids.now ≡ ids_of txs.now }
    requires applied { (height : ℕ) × (before : Coins) ×
        IsBlockApplied height before txs.now layer.coins undo.now }
    ensures { (height : ℕ) (before : Coins) →
        IsBlockApplied height before txs.now layer.entry.coins undo.now →
        IfOk result (λ left. left ≡ record layer.entry { coins = before }) }
{
    let layer = revert_all(layer, &txs[1..], &ids[1..], undo.as_slice())?;
    revert_in_layer(layer, &txs[0], ids[0], &Spent::new(alloc))
}

/// Takes back transactions, the last one first.
fn revert_all<'b, B: Base>(
    mut layer: Cache<'b, B>,
    txs: &[Tx],
    ids: &[Id],
    undo: &[Spent],
) -> Result<Cache<'b, B>, Memory>
    requires ids { ids.now ≡ ids_of txs.now }
    requires applied { (height : ℕ) × (before : Coins) ×
        AreApplied height before txs.now layer.coins undo.now }
    ensures { (height : ℕ) (before : Coins) →
        AreApplied height before txs.now layer.entry.coins undo.now →
        IfOk result (λ left. left ≡ record layer.entry { coins = before }) }
{
    for done in 0..txs.len() {
        let index = txs.len() - 1 - done;
        layer = revert_in_layer(layer, &txs[index], ids[index], &undo[index])?;
    }
    Ok(layer)
}
