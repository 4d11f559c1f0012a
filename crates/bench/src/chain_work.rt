//! Blocks without payments submitted to a chainstate.

ghost use Rattle.activate.specs.CoreState.{IsChainstate};

use crate::check::Check;
use crate::clock::{Outcome, Timer};
use crate::fault::BenchFault;
use activate::Chainstate;
use connect::Env;
use model::{Bytes, Command};
use queue::{Alone, Open};
use signatures::Table;
use std::alloc::Global;
use std::rt::Clock;
use workloads::inputs;
use workloads::inputs::branch::Branch;
use workloads::inputs::lists::put_made;

/// When blocks are submitted, in seconds since 1970: after the times of all of them.
pub const NOW: u64 = 0xffff_ffff;

/// How many blocks are timed where it is asked what one costs on a chain of some height.
const TIMED: usize = 100;

/// How many blocks on genesis stand beside the two branches of a reorganisation.
const BESIDE: usize = 10_000;

/// What is submitted to a chainstate.
#[derive(Clone, Copy)]
pub enum ChainGrowth {
    /// A number of blocks of this branch, and then a number of blocks above them, which are timed.
    Above(Branch, usize, usize),
    /// A number of blocks on genesis, of which the first stays the active one and the others stand beside it.
    Beside(usize),
    /// The block by which another branch becomes active, where so many blocks are disconnected and one more is connected.
    /// Ten thousand blocks stand beside the two branches.
    Reorganised(usize),
}

impl ChainGrowth {
    /// A hundred blocks above so many.
    pub fn hundred_above(height: usize) -> ChainGrowth {
        ChainGrowth::Above(Branch::new(1), height, TIMED)
    }
}

/// Submits blocks to a chainstate, of which the last ones are timed.
pub fn grown<R: AllocGlobal + Clock>(rt: &R, growth: ChainGrowth) -> Result<Outcome, BenchFault> {
    let table = Table::new(rt.alloc());
    let mut chain = Chainstate::new(rt.alloc())?;
    grown_on(rt, &mut chain, &table, growth)
}

fn grown_on<R: AllocGlobal + Clock>(
    rt: &R,
    chain: &mut Chainstate,
    table: &Table,
    growth: ChainGrowth,
) -> Result<Outcome, BenchFault>
    requires { IsChainstate chain.old table.now }
{
    let commands = ready(rt.alloc(), chain, table, growth)?;
    let timer = Timer::start(rt);
    take_each(rt.alloc(), chain, table, &commands)?;
    timer.stop(rt, Ok(Check::Count(chain.height() as u64)))
}

/// Submits what stands below, and makes the submissions that are timed.
fn ready(
    alloc: Global,
    chain: &mut Chainstate,
    table: &Table,
    growth: ChainGrowth,
) -> Result<Vec<Command>, BenchFault>
    requires { IsChainstate chain.old table.now }
    ensures { IsChainstate chain.new table.now }
{
    match growth {
        ChainGrowth::Above(branch, height, count) => above(
            alloc, chain, table, branch, height, count,
        ),
        ChainGrowth::Beside(count) => Ok(beside(alloc, count)?),
        ChainGrowth::Reorganised(depth) => {
            fork(alloc, chain, table, depth)?;
            above(alloc, chain, table, Branch::new(2), depth, 1)
        }
    }
}

/// Submits so many blocks of the first branch, and ten thousand on genesis.
fn fork(
    alloc: Global,
    chain: &mut Chainstate,
    table: &Table,
    depth: usize,
) -> Result<(), BenchFault>
    requires { IsChainstate chain.old table.now }
    ensures { IsChainstate chain.new table.now }
{
    above(alloc, chain, table, Branch::new(1), depth, 0)?;
    take_made(alloc, chain, table, beside(alloc, BESIDE))
}

/// Submits so many blocks of a branch, and makes the submissions of those above them.
fn above(
    alloc: Global,
    chain: &mut Chainstate,
    table: &Table,
    mut branch: Branch,
    height: usize,
    count: usize,
) -> Result<Vec<Command>, BenchFault>
    requires { IsChainstate chain.old table.now }
    ensures { IsChainstate chain.new table.now }
{
    take_made(alloc, chain, table, next_ones(alloc, &mut branch, height))?;
    Ok(next_ones(alloc, &mut branch, count)?)
}

/// Takes commands one after the other, where they were made.
fn take_made(
    alloc: Global,
    chain: &mut Chainstate,
    table: &Table,
    commands: Result<Vec<Command>, inputs::InputsFault>,
) -> Result<(), BenchFault>
    requires { IsChainstate chain.old table.now }
    ensures { IsChainstate chain.new table.now }
{
    let commands = commands?;
    take_each(alloc, chain, table, &commands)
}

/// Takes commands one after the other.
fn take_each(
    alloc: Global,
    chain: &mut Chainstate,
    table: &Table,
    commands: &[Command],
) -> Result<(), BenchFault>
    requires { IsChainstate chain.old table.now }
    ensures { IsChainstate chain.new table.now }
{
    let env = Env {
        signatures: table,
        workers: 1,
        early: &[],
        crew: &Alone,
    };
    chain.run(alloc, commands, &env, &Open)?;
    Ok(())
}

/// The submission of a branch's next block, without payments.
fn next(alloc: Global, branch: &mut Branch) -> Result<Command, inputs::InputsFault> {
    let bytes = branch.next_bytes(alloc, Vec::new(alloc))?;
    // A list with no room beyond them, as a node makes it of bytes that are lent.
    Ok(Command::Submit(Bytes::from_slice(alloc, &bytes)?, NOW))
}

/// Submissions of a branch's next blocks.
fn next_ones(
    alloc: Global,
    branch: &mut Branch,
    count: usize,
) -> Result<Vec<Command>, inputs::InputsFault> {
    let mut commands = Vec::with_capacity(alloc, count)?;
    for _ in 0..count {
        put_made(&mut commands, next(alloc, branch))?;
    }
    Ok(commands)
}

/// Submissions of blocks on genesis.
fn beside(alloc: Global, count: usize) -> Result<Vec<Command>, inputs::InputsFault> {
    let mut commands = Vec::with_capacity(alloc, count)?;
    for number in 0..count {
        put_made(&mut commands, first(alloc, number))?;
    }
    Ok(commands)
}

/// The submission of a block on genesis, whose branch has this number.
fn first(alloc: Global, number: usize) -> Result<Command, inputs::InputsFault> {
    let number = (number % 1_000_000) as u32;
    next(alloc, &mut Branch::new(number.wrapping_add(10)))
}
