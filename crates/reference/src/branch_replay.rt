//! The replay of a branch from genesis.

ghost use Rattle.std.specs.Prelude.{◌≡◌, ◌≤◌, ◌<◌, ◌∷◌, ℕ, true, length, map, reverse, take, IfOk, None, slice_index_or};
ghost use Rattle.std.specs.FinMap as coin_map;
ghost use Rattle.txn.specs.First.{first_broken};
ghost use Rattle.locks.specs.MedianTime.{median_of};
ghost use Rattle.rules.specs.Alone.{alone_rules};
ghost use Rattle.connect.specs.BlockContext.{setting};
ghost use Rattle.connect.specs.Turns.{effect};
ghost use Rattle.connect.specs.computed.Scripts.{connect_fault};
ghost use Rattle.tree.specs.MedianTime.{time_of};
ghost use Rattle.model.specs.Regtest.{ledger, medians_of};
ghost use Rattle.model.specs.Replay.{replay};
ghost use Rattle.reference.specs.declared.branch_replay.Trial.TheVariants.{Valid};
ghost use Rattle.reference.specs.inside.Replay.{AreAlone, blocks_in, chain_rules, is_valid, medians_in, trial_after, trial_on};

use crate::kept_block::KeptBlock;
use block::Block;
use coins::{Cache, CoinMap};
use connect::{BlockWithIds, Context, Env, connect};
use locks::{MEDIAN_TIME_SPAN, median};
use queue::{Alone, Open};
use rules::Params;
use signatures::Table;
use std::alloc::Global;
use txn::{Reason, ids};
use wire::Memory;

/// Under which heights of soft forks and which valid signatures blocks are judged.
#[derive(Clone, Copy)]
pub(crate) struct Chain<'a> {
    pub(crate) params: &'a Params,
    pub(crate) table: &'a Table,
}

/// What the replay of a block's branch gives.
#[derive(Clone, Copy, Debug, PartialEq, Eq)]
pub(crate) enum Trial {
    /// Each block connects.
    Valid,
    /// The block is the first that doesn't connect.
    Fails(Reason),
    /// One before it doesn't.
    Below,
}

/// The replay of a branch, whose places these are, and of a block on it.
pub(crate) fn replay(
    alloc: Global,
    chain: &Chain,
    held: &[KeptBlock],
    branch: &[usize],
    block: &Block,
) -> Result<Trial, Memory>
    requires alone { AreAlone held.now branch.now }
    requires block { first_broken (alone_rules block.now) ≡ None }
    requires some { 1 ≤ length branch.now }
    requires few { length branch.now ≤ 1000000 }
    ensures { IfOk result (λ trial.
        trial ≡ trial_on (chain_rules chain.now) (block.now ∷ blocks_in held.now branch.now)) }
{
    let medians = medians_by_height(alloc, held, branch)?;
    let base = CoinMap::new(alloc);
    let mut coins = Cache::over(alloc, &base);
    if !connect_all(alloc, chain, &mut coins, held, branch, &medians)? {
        return Ok(Trial::Below);
    }
    let context = Context {
        height: branch.len() as u32,
        cutoff: medians[branch.len() - 1],
        medians: &medians,
        params: chain.params,
    };
    let fault = connect_next(alloc, chain, &mut coins, &context, block)?;
    Ok(trial_of(fault))
}

/// What the replay of a valid branch and a block on it gives, by the block's fault.
fn trial_of(fault: Option<Reason>) -> Trial
    ensures { result ≡ trial_after Valid fault }
{
    match fault {
        None => Trial::Valid,
        Some(reason) => Trial::Fails(reason),
    }
}

/// The medians time past of the blocks of a branch by height, genesis first.
pub(crate) fn medians_by_height(
    alloc: Global,
    held: &[KeptBlock],
    branch: &[usize],
) -> Result<Vec<u32>, Memory>
    requires { (i : ℕ) → i < length branch.now → slice_index_or branch.now i 0 < length held.now }
    ensures { IfOk result (λ medians.
        medians.items ≡ reverse (medians_of (blocks_in held.now branch.now))) }
{
    let times = times_of(alloc, held, branch)?;
    medians(alloc, &times)
}

fn times_of(alloc: Global, held: &[KeptBlock], branch: &[usize]) -> Result<Vec<u32>, Memory>
    requires { (i : ℕ) → i < length branch.now → slice_index_or branch.now i 0 < length held.now }
    ensures { IfOk result (λ times. times.items ≡ map time_of (blocks_in held.now branch.now)) }
{
    let mut times = Vec::new(alloc);
    for index in 0..branch.len() {
        times.push(held[branch[index]].block.header.time)?;
    }
    Ok(times)
}

/// Of times that are listed from the newest block down, the median from each block on, the oldest first.
fn medians(alloc: Global, times: &[u32]) -> Result<Vec<u32>, Memory>
    ensures { IfOk result (λ medians. medians.items ≡ reverse (medians_in times.now)) }
{
    let mut medians = Vec::new(alloc);
    for height in 0..times.len() {
        medians.push(median_from(&times[times.len() - 1 - height..]))?;
    }
    Ok(medians)
}

fn median_from(times: &[u32]) -> u32
    requires { 1 ≤ length times.now }
    ensures { result ≡ median_of (take 11 times.now) }
{
    if times.len() <= MEDIAN_TIME_SPAN {
        return median(times);
    }
    median(&times[..MEDIAN_TIME_SPAN])
}

/// Connects the blocks of a branch one after the other, to no coins at first: whether each connects.
fn connect_all(
    alloc: Global,
    chain: &Chain,
    coins: &mut Cache<'_, CoinMap>,
    held: &[KeptBlock],
    branch: &[usize],
    medians: &[u32],
) -> Result<bool, Memory>
    requires empty { coins.old.coins ≡ coin_map.empty }
    requires alone { AreAlone held.now branch.now }
    requires some { 1 ≤ length branch.now }
    requires few { length branch.now ≤ 1000000 }
    requires medians { medians.now ≡ reverse (medians_of (blocks_in held.now branch.now)) }
    ensures valid { IfOk result (λ connects.
        connects ≡ is_valid (trial_on (chain_rules chain.now) (blocks_in held.now branch.now))) }
    ensures coins { IfOk result (λ connects.
        connects ≡ true → coins.new.coins ≡ replay ledger (blocks_in held.now branch.now)) }
{
    for height in 1..branch.len() {
        let context = Context {
            height: height as u32,
            cutoff: medians[height - 1],
            medians: &medians[..height],
            params: chain.params,
        };
        let block = &held[branch[branch.len() - 1 - height]].block;
        if let Some(_reason) = connect_next(alloc, chain, coins, &context, block)? {
            return Ok(false);
        }
    }
    Ok(true)
}

/// Connects a block. One that has a fault leaves the coins.
fn connect_next(
    alloc: Global,
    chain: &Chain,
    coins: &mut Cache<'_, CoinMap>,
    context: &Context,
    block: &Block,
) -> Result<Option<Reason>, Memory>
    requires alone { first_broken (alone_rules block.now) ≡ None }
    ensures fault { IfOk result (λ fault.
        fault
        ≡ connect_fault (setting context.now) coins.old.coins block.now.txs
        chain.now.table.now) }
    ensures coins { IfOk result (λ fault.
        fault ≡ None
        → coins.new.coins ≡ effect context.now.height coins.old.coins block.now.txs) }
{
    let ids = ids(alloc, block.txs.as_slice())?;
    let env = Env {
        signatures: chain.table,
        workers: 1,
        early: &[],
        crew: &Alone,
    };
    let of = BlockWithIds {
        block,
        ids: ids.as_slice(),
    };
    match connect(alloc, coins, context, &of, &env, &Open)? {
        Ok(_) => Ok(None),
        Err(reason) => Ok(Some(reason)),
    }
}
