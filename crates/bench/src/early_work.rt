//! Scripts that were run before their block is connected.

use crate::clock::Outcome;
use crate::connections::{HEIGHT, timed};
use crate::fault::BenchFault;
use block::Block;
use coins::CoinMap;
use connect::early_jobs;
use queue::{Alone, EarlyJobs, Open, Source, check_early};
use rules::Params;
use signatures::Table;
use std::alloc::Global;
use std::rt::Clock;
use std::slice;
use std::thread::Threads;
use txn::ids;
use workloads::inputs::blocks::wide_block;

/// The scripts of a block that can be run before it's connected.
fn jobs<'b>(alloc: Global, map: &CoinMap, block: &'b Block) -> Result<EarlyJobs<'b>, BenchFault> {
    let ids = ids(alloc, block.txs.as_slice())?;
    let flags = Params::regtest().at(HEIGHT);
    Ok(early_jobs(alloc, map, block, &ids, flags)?)
}

/// A block whose one transaction has so many inputs, connected where the verdicts of all of them are at hand. The inputs
/// are counted.
pub fn wide<R>(rt: &R, size: usize) -> Result<Outcome, BenchFault>
where
    R: AllocGlobal + Clock + Threads + Sync,
{
    let mut map = CoinMap::new(rt.alloc());
    let block = wide_block(rt.alloc(), &mut map, size)?;
    judged_before(rt, &map, &block)
}

/// A block connected whose scripts were run before.
fn judged_before<R>(rt: &R, map: &CoinMap, block: &Block) -> Result<Outcome, BenchFault>
where
    R: AllocGlobal + Clock + Threads + Sync,
{
    let table = Table::new(rt.alloc());
    let jobs = jobs(rt.alloc(), map, block)?;
    let verdicts = check_early(rt, rt.alloc(), jobs, Source::Listed(&table), 4, &Open)?;
    timed(
        rt,
        map,
        block,
        &table,
        1,
        slice::from_ref(&verdicts),
        &Alone,
    )
}
