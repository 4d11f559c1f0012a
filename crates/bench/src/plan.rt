//! The chains over which a node is timed, and what its seats do there.

use crate::read_work::ReadKind;
use std::alloc::Global;
use txn::OutPoint;
use workloads::inputs::InputsFault;
use workloads::inputs::branch::Branch;
use workloads::inputs::payments::TO_TRUE_HASH;
use workloads::inputs::scripts::long_script_alone;
use workloads::inputs::start::{Start, branches as branches_of, paying, paying_to_hashes};

/// The payments of a block beside which is read, and in each of branches that are submitted at once.
const PAYMENTS: usize = 1000;

/// The payments that are submitted while the slowest read is looked for.
const SLOWEST: usize = 120_000;

/// The most blocks of them.
const MANY: usize = 240;

/// How many steps are timed where it is asked what one costs.
const STEPS: usize = 10;

/// How many branches are submitted at once.
const BRANCHES: u32 = 4;

/// The most coins that are read where the slowest read is looked for, a hundred times each.
const READ: usize = 10_000;

/// What the seats of a node do.
#[derive(Drop)]
pub enum SeatWorkload {
    /// Each reads each place.
    Reads(Vec<OutPoint>, ReadKind),
    /// The first submits blocks, and the others read.
    Beside(Vec<OutPoint>, ReadKind, Vec<Vec<u8>>),
    /// They submit blocks in turn.
    Turns(Vec<Vec<u8>>),
    /// They share branches.
    Branches(Vec<Vec<Vec<u8>>>),
    /// The first submits so many blocks on this branch, each as it is made.
    Kept(Branch, usize),
}

/// A node, and what is timed on it.
#[derive(Drop)]
pub struct Plan {
    pub seats: usize,
    pub workers: usize,
    /// The blocks that are submitted before, which isn't timed.
    pub below: Vec<Vec<u8>>,
    pub work: SeatWorkload,
}

/// Each seat reads this many coins.
pub fn reads(
    alloc: Global,
    coins: usize,
    seats: usize,
    look: ReadKind,
) -> Result<Plan, InputsFault> {
    let start = Start::shuffled(alloc, 0, coins)?;
    Ok(Plan {
        seats,
        workers: 1,
        below: start.blocks,
        work: SeatWorkload::Reads(start.spread, look),
    })
}

/// The same while another seat submits blocks of 2,000 payments.
pub fn reads_beside(alloc: Global, coins: usize, readers: usize) -> Result<Plan, InputsFault> {
    let start = Start::shuffled(alloc, PAYMENTS.saturating_mul(2), coins);
    let count = (coins / 1000).clamp(2, 60);
    beside(alloc, start, count, readers, ReadKind::Coin)
}

/// The slowest of a million reads while another seat submits blocks of so many payments.
pub fn slowest(alloc: Global, payments: usize) -> Result<Plan, InputsFault> {
    let start = Start::shuffled(alloc, payments, payments.saturating_mul(20).min(READ));
    let count = SLOWEST.checked_div(payments).unwrap_or(0).min(MANY);
    beside(alloc, start, count, 1, ReadKind::Slowest)
}

/// Reads of a chain's coins, where it was made, beside so many blocks that pay its others.
fn beside(
    alloc: Global,
    start: Result<Start, InputsFault>,
    count: usize,
    readers: usize,
    look: ReadKind,
) -> Result<Plan, InputsFault> {
    let start = start?;
    let written = paying(alloc, start.branch, start.coins.as_slice(), count)?;
    let Start { blocks, spread, .. } = start;
    Ok(Plan {
        seats: readers.saturating_add(1),
        workers: 1,
        below: blocks,
        work: SeatWorkload::Beside(spread, look, written),
    })
}

/// Blocks that pay a chain's coins, where it was made, submitted by seats in turn.
fn in_turn(
    alloc: Global,
    start: Result<Start, InputsFault>,
    count: usize,
    seats: usize,
    workers: usize,
) -> Result<Plan, InputsFault> {
    let start = start?;
    let written = paying(alloc, start.branch, start.coins.as_slice(), count)?;
    Ok(Plan {
        seats,
        workers,
        below: start.blocks,
        work: SeatWorkload::Turns(written),
    })
}

/// This many blocks of 1,000 payments on one branch.
pub fn turns(alloc: Global, count: usize, seats: usize) -> Result<Plan, InputsFault> {
    in_turn(alloc, Start::shuffled(alloc, PAYMENTS, 0), count, seats, 1)
}

/// This many blocks of 2,000 payments to the hash of a script: all that a submission takes, from bytes to published coins.
pub fn submitted(alloc: Global, count: usize) -> Result<Plan, InputsFault> {
    let start = Start::new(alloc, 2 * PAYMENTS, TO_TRUE_HASH)?;
    let written = paying_to_hashes(alloc, start.branch, start.coins.as_slice(), count)?;
    Ok(Plan {
        seats: 1,
        workers: 1,
        below: start.blocks,
        work: SeatWorkload::Turns(written),
    })
}

/// Ten blocks of so many payments over so many coins, each of which changes two coins for a payment and one more.
pub fn published(alloc: Global, coins: usize, payments: usize) -> Result<Plan, InputsFault> {
    // few at a small size
    let mut start = Start::shuffled(alloc, payments.min(coins), coins)?;
    // The first of these brings up to date the copy that the last step didn't change, and frees what was kept for that;
    // in those behind it the allocator sorts what was freed.
    start.add_empty(alloc, STEPS)?;
    in_turn(alloc, Ok(start), STEPS, 1, 1)
}

/// A block of so many payments whose scripts are what costs, each with 66 CHECKSIG over 9,600 opcodes, submitted to a
/// node of so many workers.
pub fn worked(alloc: Global, payments: usize, workers: usize) -> Result<Plan, InputsFault> {
    let script = long_script_alone(alloc)?;
    let start = Start::new(alloc, payments, script.as_slice());
    in_turn(alloc, start, 1, 1, workers)
}

/// A node of so many coins, at which nothing is timed.
pub fn kept_coins(alloc: Global, coins: usize) -> Result<Plan, InputsFault> {
    in_turn(alloc, Start::shuffled(alloc, 0, coins), 0, 1, 1)
}

/// Four branches of so many blocks of 1,000 payments on one base, beside a longer one, by so many seats at once.
pub fn branches(alloc: Global, count: usize, seats: usize) -> Result<Plan, InputsFault> {
    let mut start = Start::shuffled(alloc, PAYMENTS, 0)?;
    let branches = branches_of(alloc, start.branch, start.coins.as_slice(), BRANCHES, count)?;
    start.add_empty(alloc, count.saturating_add(1))?;
    Ok(Plan {
        seats,
        workers: 1,
        below: start.blocks,
        work: SeatWorkload::Branches(branches),
    })
}

/// This many blocks without payments, each submitted as it is made.
pub fn kept(alloc: Global, branch: Branch, count: usize) -> Plan {
    Plan {
        seats: 1,
        workers: 1,
        below: Vec::new(alloc),
        work: SeatWorkload::Kept(branch, count),
    }
}
