//! Whether the medians time past are given from which a block's relative locks by time count (BIP 68).

ghost use Rattle.std.specs.Prelude.{◌≡◌};
ghost use Rattle.std.specs.List.{list_any};
ghost use Rattle.std.specs.FinMap as coin_map;
ghost use Rattle.connect.specs.BlockContext.{setting};
ghost use Rattle.ffi.specs.Medians.{lacks_medians, lacks_start, lacks_tx_start, spent_height};

use block::Block;
use coins::CoinMap;
use connect::Context;
use txn::sequence::{has_relative_locks, is_disabled, is_time};
use txn::{OutPoint, Tx, TxIn};

/// Whether a lock of a block counts from a median that isn't given.
pub(crate) fn lacks_medians(coins: &CoinMap, context: &Context, block: &Block) -> bool
    ensures { result ≡ lacks_medians (setting context.now) coins.now block.now }
{
    context.params.at(context.height).csv && is_any_tx(coins, context, block.txs.as_slice())
}

/// Whether it is one of some transaction.
fn is_any_tx(coins: &CoinMap, context: &Context, txs: &[Tx]) -> bool
    ensures { result ≡ list_any (lacks_tx_start (setting context.now) coins.now) txs.now }
{
    txs.iter().any(|tx| lacks_tx_start(coins, context, tx))
}

fn lacks_tx_start(coins: &CoinMap, context: &Context, tx: &Tx) -> bool
    ensures { result ≡ lacks_tx_start (setting context.now) coins.now tx.now }
{
    !tx.is_coinbase()
        && has_relative_locks(tx)
        && is_any_input(coins, context, tx.inputs.as_slice())
}

/// Whether it is one of some input.
fn is_any_input(coins: &CoinMap, context: &Context, inputs: &[TxIn]) -> bool
    ensures { result ≡ list_any (lacks_start (setting context.now) coins.now) inputs.now }
{
    inputs
        .iter()
        .any(|input| lacks_start(coins, context, input))
}

fn lacks_start(coins: &CoinMap, context: &Context, input: &TxIn) -> bool
    ensures { result ≡ lacks_start (setting context.now) coins.now input.now }
{
    let sequence = u64::from(input.sequence);
    if is_disabled(sequence) || !is_time(sequence) {
        return false;
    }
    let height = spent_height(coins, context, &input.prev);
    context.medians.len() <= height.saturating_sub(1) as usize
}

/// The height of the coin that a block spends at an outpoint: the block's own where there is none before.
fn spent_height(coins: &CoinMap, context: &Context, at: &OutPoint) -> u32
    ensures { result ≡ spent_height context.now.height (coin_map.get coins.now at.now) }
{
    match coins.get(at) {
        Some(coin) => coin.height,
        None => context.height,
    }
}
