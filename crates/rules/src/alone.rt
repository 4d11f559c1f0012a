//! The rules that a block obeys by itself.

ghost use Rattle.std.specs.Prelude.{◌≡◌, ◌==◌, ◌||◌, ◌++◌, ◌∷◌, [], nat_lt, drop, length, sum_by, IfOk};
ghost use Rattle.std.specs.List.{list_any, flat_map};
ghost use Rattle.txn.specs.Check.{is_coinbase, tx_rules};
ghost use Rattle.txn.specs.First.{first_broken};
ghost use Rattle.txn.specs.Identity.{ids_of};
ghost use Rattle.txn.specs.declared.reason.Reason.TheVariants as reason;
ghost use Rattle.block.specs.Identity.{id_of};
ghost use Rattle.block.specs.Sizes.{size_of};
ghost use Rattle.rules.specs.Alone.{max_block_size, max_block_sigops, begins_with_coinbase, tx_sigops, alone_rules};

use crate::sigops::txs_sigops;
use block::{Block, meets_target, merkle, size};
use hash::Id;
use std::alloc::Global;
use txn::{Reason, Tx, check, ids};
use wire::Memory;

/// The most bytes of a block (Bitcoin Core's `MAX_BLOCK_BASE_SIZE`, as before segregated witness).
pub const MAX_BLOCK_SIZE: u64 = 1_000_000;

/// The most signature operations in the scripts of a block (Bitcoin Core's `MAX_BLOCK_SIGOPS`).
pub const MAX_BLOCK_SIGOPS: u32 = 20_000;

/// The first rule that a block breaks by itself (Bitcoin Core's `CheckBlock`).
#[tactic(auto, unfolding(crate::specs::Alone::alone_rules))]
pub fn block_alone(alloc: Global, block: &Block) -> Result<Option<Reason>, Memory>
    ensures { IfOk result (λ found. found ≡ first_broken (alone_rules block.now)) }
{
    // Of a block without work no transaction is hashed.
    let id = block.id();
    if !meets_target(&id) {
        return Ok(Some(Reason::HighHash));
    }
    let ids = ids(alloc, block.txs.as_slice())?;
    block_alone_with(alloc, block, &id, &ids)
}

/// The same with ids that were got before, the block's and its transactions', so that each is hashed once.
#[tactic(auto, unfolding(crate::specs::Alone::alone_rules))]
pub fn block_alone_with(
    alloc: Global,
    block: &Block,
    id: &Id,
    ids: &[Id],
) -> Result<Option<Reason>, Memory>
    requires id { id.now ≡ id_of block.now.header }
    requires ids { ids.now ≡ ids_of block.now.txs }
    ensures { IfOk result (λ found. found ≡ first_broken (alone_rules block.now)) }
{
    if !meets_target(id) {
        return Ok(Some(Reason::HighHash));
    }
    let txs = block.txs.as_slice();
    let (root, twin) = merkle(alloc, ids)?;
    if block.header.root != root {
        return Ok(Some(Reason::BadMerkleRoot));
    }
    if twin {
        return Ok(Some(Reason::DuplicateTransactions));
    }
    if has_bad_length(block) {
        return Ok(Some(Reason::BadBlockLength));
    }
    if !begins_with_coinbase(txs) {
        return Ok(Some(Reason::CoinbaseMissing));
    }
    if has_later_coinbase(txs) {
        return Ok(Some(Reason::CoinbaseMultiple));
    }
    broken_within(alloc, txs)
}

/// Whether it has no transaction, or too many bytes.
fn has_bad_length(block: &Block) -> bool
    ensures { result ≡ ((length block.now.txs == 0) || nat_lt max_block_size (size_of block.now)) }
{
    block.txs.is_empty() || size(block) > MAX_BLOCK_SIZE
}

fn begins_with_coinbase(txs: &[Tx]) -> bool
    ensures { result ≡ begins_with_coinbase txs.now }
{
    match txs.first() {
        Some(tx) => tx.is_coinbase(),
        None => false,
    }
}

/// Whether a transaction but the first is a coinbase.
fn has_later_coinbase(txs: &[Tx]) -> bool
    ensures { result ≡ list_any is_coinbase (drop 1 txs.now) }
{
    txs.len() > 1 && any_coinbase(&txs[1..])
}

fn any_coinbase(txs: &[Tx]) -> bool
    ensures { result ≡ list_any is_coinbase txs.now }
{
    txs.iter().any(|tx| tx.is_coinbase())
}

/// The first rule that its transactions break, one by one and then all together.
fn broken_within(alloc: Global, txs: &[Tx]) -> Result<Option<Reason>, Memory>
    ensures { IfOk result (λ found. found ≡
        first_broken (flat_map tx_rules txs.now ++
        (nat_lt max_block_sigops (sum_by tx_sigops txs.now), reason.TooManySigops) ∷ [])) }
{
    if let Some(reason) = broken_tx(alloc, txs)? {
        return Ok(Some(reason));
    }
    if has_many_sigops(txs) {
        return Ok(Some(Reason::TooManySigops));
    }
    Ok(None)
}

/// The first rule that a transaction breaks by itself.
fn broken_tx(alloc: Global, txs: &[Tx]) -> Result<Option<Reason>, Memory>
    ensures { IfOk result (λ found. found ≡ first_broken (flat_map tx_rules txs.now)) }
{
    for tx in txs {
        if let Some(reason) = check(alloc, tx)? {
            return Ok(Some(reason));
        }
    }
    Ok(None)
}

fn has_many_sigops(txs: &[Tx]) -> bool
    ensures { result ≡ nat_lt max_block_sigops (sum_by tx_sigops txs.now) }
{
    txs_sigops(txs) > u128::from(MAX_BLOCK_SIGOPS)
}
