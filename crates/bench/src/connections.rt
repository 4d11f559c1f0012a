//! Blocks connected to the coins before them.

ghost use Rattle.std.specs.Prelude.{◌≡◌, ◌≤◌, All, IfOk, None};
ghost use Rattle.txn.specs.First.{first_broken};
ghost use Rattle.txn.specs.Identity.{ids_of};
ghost use Rattle.rules.specs.Alone.{alone_rules};
ghost use Rattle.signatures.specs.Known.{all_known};
ghost use Rattle.queue.specs.Jobs.{known_then};

use crate::check::Check;
use crate::clock::{Outcome, Timer};
use crate::fault::{BenchFault, read_again};
use block::Block;
use coins::{Cache, CoinMap};
use connect::{BlockWithIds, Context, Env, connect};
use hash::Id;
use queue::{Crew, Open, Threaded, Verdicts};
use rules::{Params, block_alone_with};
use signatures::Table;
use std::alloc::Global;
use std::rt::Clock;
use std::thread::Threads;
use txn::ids;
use undo::BlockUndo;
use workloads::inputs::blocks::block_over;
use workloads::inputs::hoard::fill;
use workloads::inputs::spends::{Spends, to_keys};

/// The height of the blocks.
pub const HEIGHT: u32 = 101;

/// The payments of a block.
const PAYMENTS: usize = 2000;

/// A block of 2,000 payments connected to so many coins and those that it spends, its scripts run by so many
/// workers. The inputs are counted.
pub fn connected<R>(rt: &R, size: usize, workers: usize) -> Result<Outcome, BenchFault>
where
    R: AllocGlobal + Clock + Threads + Sync,
{
    let mut map = CoinMap::new(rt.alloc());
    fill(rt.alloc(), &mut map, size)?;
    connected_over(rt, &mut map, workers.clamp(1, 16))
}

/// The same over coins that are there.
fn connected_over<R>(rt: &R, map: &mut CoinMap, workers: usize) -> Result<Outcome, BenchFault>
where
    R: AllocGlobal + Clock + Threads + Sync,
    requires workers { (1 ≤ workers) × (workers ≤ 16) }
{
    let Spends { list, table } = to_keys(rt.alloc(), PAYMENTS)?;
    let block = block_over(rt.alloc(), map, list)?;
    timed(rt, map, &block, &table, workers, &[], &Threaded { rt })
}

/// Connects a block by this crew and these verdicts, and counts the coins that it spends. The environment is made where
/// the crew's type is a parameter (`connect::Env` says why).
#[tactic(auto, using(connect::specs::laws::AtTable::tables_early))]
pub fn timed<'a, R, C: Crew<Table>>(
    rt: &R,
    map: &CoinMap,
    block: &Block,
    table: &'a Table,
    workers: usize,
    early: &'a [Verdicts<'a>],
    crew: &'a C,
) -> Result<Outcome, BenchFault>
where
    R: AllocGlobal + Clock,
    requires ready { C.is_ready crew.now }
    requires workers { (1 ≤ workers) × (workers ≤ 16) }
    requires same_table { All (λ v. known_then v ≡ all_known table.now) early.now }
{
    let env = Env {
        signatures: table,
        workers,
        early,
        crew,
    };
    let ids = ids_alone(rt.alloc(), block)?;
    let mut cache = Cache::over(rt.alloc(), map);
    let timer = Timer::start(rt);
    counted(
        rt,
        timer,
        undo_of(rt.alloc(), &mut cache, block, &ids, &env),
    )
}

/// The ids of a block's transactions, where it breaks no rule by itself.
fn ids_alone(alloc: Global, block: &Block) -> Result<Vec<Id>, BenchFault>
    ensures alone { IfOk result (λ ids. first_broken (alone_rules block.now) ≡ None) }
    ensures ids { IfOk result (λ ids. ids.items ≡ ids_of block.now.txs) }
{
    let ids = ids(alloc, block.txs.as_slice())?;
    match block_alone_with(alloc, block, &block.id(), &ids)? {
        None => Ok(ids),
        Some(_) => Err(BenchFault::Unread),
    }
}

/// Connects a block.
fn undo_of<C: Crew<Table>>(
    alloc: Global,
    cache: &mut Cache<'_, CoinMap>,
    block: &Block,
    ids: &[Id],
    env: &Env<'_, Table, C>,
) -> Result<BlockUndo, BenchFault>
    requires alone { first_broken (alone_rules block.now) ≡ None }
    requires ids { ids.now ≡ ids_of block.now.txs }
{
    let context = Context {
        height: HEIGHT,
        cutoff: 1_296_688_602,
        medians: &[],
        params: &Params::regtest(),
    };
    let of = BlockWithIds { block, ids };
    read_again(connect(alloc, cache, &context, &of, env, &Open)?)
}

/// The result of a block that was connected until now. What it spent is freed behind the time.
fn counted(
    clock: &impl Clock,
    timer: Timer,
    undo: Result<BlockUndo, BenchFault>,
) -> Result<Outcome, BenchFault> {
    let undo = undo?;
    timer.stop(clock, Ok(Check::Count(count(&undo))))
}

/// How many coins were spent.
fn count(undo: &BlockUndo) -> u64 {
    let mut count = 0u64;
    for spent in undo.as_slice() {
        count = count.wrapping_add(spent.len() as u64);
    }
    count
}
