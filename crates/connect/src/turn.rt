//! A transaction in its turn: tested over the coins that it finds, and applied.

ghost use Rattle.std.specs.Prelude.{◌≡◌, ℕ, Some, ◌≤◌, ◌^◌, ◌≤ℤ◌, ◌&&◌, neg_ℤ, pos, int_lt, not, map, length, false, None, IfOk, IfErr, OnOk};
ghost use Rattle.std.specs.List.{IsDistinct, list_any};
ghost use Rattle.txn.specs.Check.{is_coinbase};
ghost use Rattle.txn.specs.First.{first_broken};
ghost use Rattle.txn.specs.Identity.{id_of};
ghost use Rattle.locks.specs.Relative.{are_met};
ghost use Rattle.undo.specs.Effect.{spends, without};
ghost use Rattle.rules.specs.Alone.{max_block_sigops};
ghost use Rattle.coins.specs.Coins.{Coins, same};
ghost use Rattle.connect.specs.BlockContext.{Setting, setting, median_below};
ghost use Rattle.connect.specs.Turns.{turn, plain_count, full_count};
ghost use Rattle.connect.specs.Faults.{is_immature, lock_start, fee, overwrites, turn_rules};
ghost use Rattle.connect.specs.inside.Turns.{HasFound, IsReason, IsLawful, Passes};
ghost use Rattle.connect.specs.laws.Broken.{UpToAmount, UpToCount};
ghost use Rattle.connect.specs.declared.lookups.Lookup.TheVariants.{Above};

use crate::amounts::{paid, worth};
use crate::block_fault::BlockFault;
use crate::context::Context;
use crate::counts::inner_sigops;
use crate::lookups::{Lookup, overwrites_in_turn};
use coins::{Base, Cache, Coin};
use hash::Id;
use locks::{LockStart, relative_ok};
use rules::{MAX_BLOCK_SIGOPS, tx_sigops};
use std::alloc::Global;
use txn::{Reason, Tx};
use undo::{Spent, add_outputs, take_inputs};
use wire::Memory;

/// How many blocks above a coinbase its coins may be spent (Bitcoin Core's `COINBASE_MATURITY`).
pub const COINBASE_MATURITY: u32 = 100;

/// What a transaction gives in its turn.
#[derive(Clone, Copy)]
pub(crate) struct Passed {
    /// What it spends without what it pays, in satoshis.
    pub fee: i128,
    /// The signature operations of the block up to and with it.
    pub counted: u128,
}

/// A layer without the coins that a transaction spends, these coins, and the signature operations of the block up to
/// and with its own plain ones.
#[derive(Drop)]
struct Taken<'b, B: Base> {
    layer: Cache<'b, B>,
    spent: Spent,
    plain: u128,
}

/// A transaction after its turn: the layer that it was applied to, with what it spent and gave.
#[derive(Drop)]
pub(crate) struct Turned<'b, B: Base> {
    pub layer: Cache<'b, B>,
    pub spent: Spent,
    pub passed: Passed,
}

/// Where a transaction is connected: its block's place, and where its outputs are looked for.
#[derive(Clone, Copy)]
pub(crate) struct Place<'a> {
    pub context: &'a Context<'a>,
    pub lookup: Lookup,
}

/// Tests and applies a transaction, after others that counted so many signature operations.
pub(crate) fn connect_tx<'b, B: Base>(
    alloc: Global,
    layer: Cache<'b, B>,
    place: &Place<'_>,
    tx: &Tx,
    id: Id,
    counted: u128,
) -> Result<Turned<'b, B>, BlockFault>
    requires lawful { IsLawful tx.now }
    requires id { id ≡ id_of tx.now }
    requires counted { counted ≤ max_block_sigops }
    requires below { place.now.lookup ≡ Above → overwrites layer.base tx.now ≡ false }
    ensures fault { let t = turn tx.now layer.entry.coins counted in
        IfErr result (IsReason (first_broken (turn_rules (setting place.now.context.now) t))) }
    ensures passes { let s = setting place.now.context.now in
        let t = turn tx.now layer.entry.coins counted in
        IfOk result (λ done. Passes s layer.entry t done.layer done.spent
        done.passed.fee done.passed.counted) }
{
    let context = place.context;
    // Asked before its inputs are taken: one may spend the coin at an outpoint of its own.
    let overwriting = overwrites_in_turn(&layer, tx, id, place.lookup);
    let Taken {
        layer,
        spent,
        plain,
    } = take_coins(alloc, layer, tx, counted)?;
    let coins = spent.as_slice();
    let fee = match test_amount(coins, context, tx) {
        Ok(fee) => fee,
        Err(reason) => return Err(BlockFault::Broken(reason)),
    };
    let counted = test_locks(alloc, coins, context, tx, plain)?;
    if overwriting {
        return Err(BlockFault::Broken(Reason::OverwritesCoin));
    }
    let layer = add_outputs(layer, tx, id, context.height)?;
    let passed = Passed { fee, counted };
    Ok(Turned {
        layer,
        spent,
        passed,
    })
}

/// Takes the coins that a transaction spends, where they are there and its own signature operations aren't too many.
/// Each is looked up once: the layer is dropped where a rule is broken.
fn take_coins<'b, B: Base>(
    alloc: Global,
    layer: Cache<'b, B>,
    tx: &Tx,
    counted: u128,
) -> Result<Taken<'b, B>, BlockFault>
    requires once { IsDistinct same (spends tx.now) }
    requires few { counted ≤ max_block_sigops }
    ensures fault { (s : Setting) → IfErr result (IsReason (first_broken
        (turn_rules s (turn tx.now layer.entry.coins counted)))) }
    ensures found { (s : Setting) → IfOk result (λ taken.
        HasFound s tx.now layer.entry.coins counted taken.spent) }
    ensures layer { IfOk result (λ taken. taken.layer ≡
        record layer.entry { coins = without layer.entry.coins (spends tx.now) }) }
    ensures plain { IfOk result (λ taken.
        taken.plain ≡ plain_count (turn tx.now layer.entry.coins counted)) }
    ensures few { IfOk result (λ taken. taken.plain ≤ max_block_sigops) }
    ensures each { IfOk result (λ taken. length taken.spent ≡ length (spends tx.now)) }
{
    let plain = counted.saturating_add(tx_sigops(tx));
    if plain > u128::from(MAX_BLOCK_SIGOPS) {
        return Err(BlockFault::Broken(Reason::TooManySigops));
    }
    let Some((layer, spent)) = take_inputs(alloc, layer, tx)? else {
        return Err(BlockFault::Broken(Reason::InputsMissingOrSpent));
    };
    Ok(Taken {
        layer,
        spent,
        plain,
    })
}

/// The age and the worth of these coins: what the transaction spends without what it pays, in satoshis.
fn test_amount(coins: &[Coin], context: &Context, tx: &Tx) -> Result<i128, Reason>
    requires few { length coins.now ≤ 1000000 }
    requires outputs { length tx.now.outputs ≤ 1000000 }
    ensures fault { (m : Coins) (n : ℕ)
        → HasFound (setting context.now) tx.now m n coins.now
        → IfErr result (λ reason.
        first_broken (turn_rules (setting context.now) (turn tx.now m n)) ≡ Some reason) }
    ensures enough { (m : Coins) (n : ℕ)
        → HasFound (setting context.now) tx.now m n coins.now
        → OnOk result (UpToAmount (setting context.now) (turn tx.now m n)) }
    ensures fee { (m : Coins) (n : ℕ)
        → HasFound (setting context.now) tx.now m n coins.now
        → IfOk result (λ given. given ≡ fee (turn tx.now m n)) }
    ensures low { IfOk result (λ given. neg_ℤ (pos (2 ^ 84)) ≤ℤ given) }
    ensures high { IfOk result (λ given. given ≤ℤ pos (2 ^ 84)) }
{
    if has_immature(coins, context.height) {
        return Err(Reason::PrematureCoinbaseSpend);
    }
    let worth = worth(coins);
    let paid = paid(tx.outputs.as_slice());
    if pays_too_much(tx, worth, paid) {
        return Err(Reason::InputsBelowOutputs);
    }
    Ok(worth - paid)
}

/// The relative locks, and the signature operations, pay-to-script-hash ones too.
fn test_locks(
    alloc: Global,
    coins: &[Coin],
    context: &Context,
    tx: &Tx,
    plain: u128,
) -> Result<u128, BlockFault>
    requires each { length coins.now ≡ length (spends tx.now) }
    requires inputs { length coins.now ≤ length tx.now.inputs }
    requires few { plain ≤ max_block_sigops }
    ensures fault { (m : Coins) (n : ℕ)
        → HasFound (setting context.now) tx.now m n coins.now
        → UpToAmount (setting context.now) (turn tx.now m n) → plain ≡ plain_count (turn tx.now m n)
        → IfErr result (IsReason (first_broken
        (turn_rules (setting context.now) (turn tx.now m n)))) }
    ensures count { (m : Coins) (n : ℕ)
        → HasFound (setting context.now) tx.now m n coins.now
        → UpToAmount (setting context.now) (turn tx.now m n) → plain ≡ plain_count (turn tx.now m n)
        → OnOk result (UpToCount (setting context.now) (turn tx.now m n)) }
    ensures counted { (m : Coins) (n : ℕ)
        → HasFound (setting context.now) tx.now m n coins.now
        → plain ≡ plain_count (turn tx.now m n)
        → IfOk result (λ all. all ≡ full_count (turn tx.now m n)) }
    ensures bounded { IfOk result (λ all. all ≤ max_block_sigops) }
{
    if is_locked(alloc, tx, coins, context)? {
        return Err(BlockFault::Broken(Reason::NonFinal));
    }
    let counted = plain.saturating_add(inner_sigops(coins, tx));
    if counted > u128::from(MAX_BLOCK_SIGOPS) {
        return Err(BlockFault::Broken(Reason::TooManySigops));
    }
    Ok(counted)
}

/// Whether a coinbase's coin is spent too early.
pub(crate) fn has_immature(coins: &[Coin], height: u32) -> bool
    ensures { result ≡ list_any (is_immature height) coins.now }
{
    coins.iter().any(|coin| is_immature(coin, height))
}

fn is_immature(coin: &Coin, height: u32) -> bool
    ensures { result ≡ is_immature height coin.now }
{
    coin.coinbase && u64::from(height) < u64::from(coin.height) + u64::from(COINBASE_MATURITY)
}

/// Whether a transaction pays more than it spends. A coinbase makes new coins.
pub(crate) fn pays_too_much(tx: &Tx, worth: i128, paid: i128) -> bool
    ensures { result ≡ (not (is_coinbase tx.now) && int_lt worth paid) }
{
    !tx.is_coinbase() && worth < paid
}

/// Whether a relative lock of a transaction isn't met, where such locks are in force. A coinbase has none.
fn is_locked(alloc: Global, tx: &Tx, coins: &[Coin], context: &Context) -> Result<bool, Memory>
    requires { length coins.now ≡ length (spends tx.now) }
    ensures { IfOk result (λ yes. yes ≡
        ((setting context.now).rules.csv &&
        not (are_met tx.now (map (lock_start context.now.medians.now) coins.now)
        context.now.height context.now.cutoff))) }
{
    if tx.is_coinbase() || !context.params.at(context.height).csv {
        return Ok(false);
    }
    let starts = lock_starts(alloc, coins, context.medians)?;
    Ok(!relative_ok(tx, &starts, context.height, context.cutoff))
}

/// From where the relative locks count of the inputs that spend these coins.
fn lock_starts(alloc: Global, coins: &[Coin], medians: &[u32]) -> Result<Vec<LockStart>, Memory>
    ensures { IfOk result (λ starts. starts.items ≡
        map (lock_start medians.now) coins.now) }
{
    let mut starts = Vec::with_capacity(alloc, coins.len())?;
    for coin in coins {
        starts.push(LockStart {
            height: coin.height,
            median: median_below(medians, coin.height),
        })?;
    }
    Ok(starts)
}

/// The median time past of the block below one of this height, or of genesis where it has none below.
fn median_below(medians: &[u32], height: u32) -> u32
    ensures { result ≡ median_below medians.now height }
{
    match medians.get(height.saturating_sub(1) as usize) {
        Some(median) => *median,
        None => 0,
    }
}
