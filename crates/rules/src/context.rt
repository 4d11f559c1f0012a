//! The rules of a block by its place.

ghost use Rattle.std.specs.Prelude.{◌≡◌, ◌+◌, nat_lt};
ghost use Rattle.std.specs.List.{list_all};
ghost use Rattle.locks.specs.Finality.{is_final};
ghost use Rattle.txn.specs.First.{first_broken};
ghost use Rattle.rules.specs.Params.{at};
ghost use Rattle.rules.specs.Context.{max_future_block_time, header_rules, place_rules, context_rules, finality_cutoff, coinbase_script};

use crate::height::begins_with_height;
use crate::params::Params;
use block::{Block, Header};
use locks::is_final;
use txn::{Reason, Tx};

/// The target of every block of regtest, in its compact form.
pub const REGTEST_BITS: u32 = 0x207f_ffff;

/// How many seconds a block's time may lie ahead of the clock (Bitcoin Core's `MAX_FUTURE_BLOCK_TIME`).
pub const MAX_FUTURE_BLOCK_TIME: u64 = 7200;

/// The first rule that a block breaks by its place, of its header and then of its transactions.
///
/// The median is the median time past of its parent; `now` is the time of the clock; both are in seconds since
/// 1970.
pub fn context_fault(
    block: &Block,
    height: u32,
    median: u32,
    now: u64,
    params: &Params,
) -> Option<Reason>
    ensures { result ≡ first_broken (context_rules (at params.now height) block.now height median
        now) }
{
    if let Some(reason) = header_context(&block.header, height, median, now, params) {
        return Some(reason);
    }
    let cutoff = finality_cutoff(&block.header, height, median, params);
    block_context(block, height, cutoff, params)
}

/// With what the locks of a block's transactions that are times are compared (BIP 113).
fn finality_cutoff(header: &Header, height: u32, median: u32, params: &Params) -> u32
    ensures { result ≡ finality_cutoff (at params.now height) header.now median }
{
    if params.at(height).csv {
        median
    } else {
        header.time
    }
}

/// The first rule that a header breaks by its place (Bitcoin Core's `ContextualCheckBlockHeader`).
///
/// The cutoff is the median time past of its parent; `now` is the time of the clock; both and the header's
/// time are in seconds since 1970. Which rules on versions are in force is the height's matter.
pub fn header_context(
    header: &Header,
    height: u32,
    cutoff: u32,
    now: u64,
    params: &Params,
) -> Option<Reason>
    ensures { result ≡ first_broken (header_rules (at params.now height) header.now cutoff now) }
{
    if header.bits != REGTEST_BITS {
        return Some(Reason::WrongBits);
    }
    if header.time <= cutoff {
        return Some(Reason::TimeTooOld);
    }
    if is_too_new(header.time, now) {
        return Some(Reason::TimeTooNew);
    }
    if params.at(height).is_outdated(header.version) {
        return Some(Reason::BadVersion);
    }
    None
}

/// Whether a time lies too far ahead of the clock. No time of a header is near the bound at which the sum stops.
fn is_too_new(time: u32, now: u64) -> bool
    ensures { result ≡ nat_lt (now + max_future_block_time) time }
{
    now.saturating_add(MAX_FUTURE_BLOCK_TIME) < u64::from(time)
}

/// The first rule that a block's transactions break by its place (Bitcoin Core's `ContextualCheckBlock`).
///
/// The cutoff of finality is the caller's: the median time past of the block's parent where the rules of BIP 113
/// are in force, and else the block's own time. The first transaction is taken as the coinbase.
pub fn block_context(block: &Block, height: u32, cutoff: u32, params: &Params) -> Option<Reason>
    ensures { result ≡ first_broken (place_rules (at params.now height) block.now height cutoff) }
{
    if !is_each_final(block.txs.as_slice(), height, cutoff) {
        return Some(Reason::NonFinal);
    }
    let rules = params.at(height);
    if rules.bip34 && !begins_with_height(coinbase_script(block.txs.as_slice()), height) {
        return Some(Reason::CoinbaseHeight);
    }
    None
}

fn is_each_final(txs: &[Tx], height: u32, cutoff: u32) -> bool
    ensures { result ≡ list_all (λ tx. is_final tx height cutoff) txs.now }
{
    txs.iter().all(|tx| is_final(tx, height, cutoff))
}

/// The script of the coinbase's input.
fn coinbase_script(txs: &[Tx]) -> &[u8]
    ensures { result.now ≡ coinbase_script txs.now }
{
    let Some(coinbase) = txs.first() else {
        return &[];
    };
    match coinbase.inputs.as_slice().first() {
        Some(input) => input.script.as_slice(),
        None => &[],
    }
}
