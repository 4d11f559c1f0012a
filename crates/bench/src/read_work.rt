//! Reads at seats of a node, by themselves and beside a writer.

use crate::check::Check;
use crate::clock::{Outcome, Timer};
use crate::fault::BenchFault;
use crate::plan::SeatWorkload;
use crate::seat_work::{at_once, submit};
use node::{Naming, Node, Seat};
use std::rt::Clock;
use std::sync::Wait;
use std::sync::atomic::AtomicBool;
use std::sync::atomic::Ordering::SeqCst;
use std::thread;
use std::thread::Threads;
use std::time::Duration;
use txn::OutPoint;

/// How often the coins are read where the slowest read is looked for.
const ROUNDS: usize = 100;

/// What a reader asks for.
#[derive(Clone, Copy)]
pub enum ReadKind {
    /// `gettxout` of each coin. What they are worth is summed.
    Coin,
    /// `getbestblockhash` as often. It is counted.
    Best,
    /// The first of two: each coin a hundred times by one seat. What they are worth is summed; the time is of the
    /// slowest read.
    Slowest,
}

/// What a coin is worth that is read.
fn read_coin<J: Naming, R: AllocGlobal>(
    rt: &R,
    seat: &mut Seat<'_, J>,
    at: &OutPoint,
) -> Result<u64, BenchFault> {
    Ok(match seat.gettxout(rt.alloc(), at)?.value {
        Some(output) => output.value.unsigned_abs(),
        None => 0,
    })
}

/// What a seat reads at each place.
pub fn read_each<J: Naming, R: AllocGlobal>(
    rt: &R,
    seat: &mut Seat<'_, J>,
    places: &[OutPoint],
    look: ReadKind,
) -> Result<u64, BenchFault> {
    let mut sum = 0u64;
    for at in places {
        let one = match look {
            ReadKind::Coin | ReadKind::Slowest => read_coin(rt, seat, at)?,
            ReadKind::Best => u64::from(seat.getbestblockhash()?.at > 0),
        };
        sum = sum.wrapping_add(one);
    }
    Ok(sum)
}

/// The slowest of so many rounds of reads by the first seat, and what was read.
fn slowest_of<J: Naming, R>(
    rt: &R,
    places: &[OutPoint],
    seats: &mut [Seat<'_, J>],
) -> Result<Outcome, BenchFault>
where
    R: AllocGlobal + Clock,
{
    let mut slowest = Slowest {
        spent: Duration::from_secs(0),
        sum: 0,
    };
    if let Some(seat) = seats.first_mut() {
        for _ in 0..ROUNDS {
            slowest.read_each(rt, places, seat)?;
        }
    }
    Ok(Outcome {
        check: Check::Count(slowest.sum),
        spent: slowest.spent,
    })
}

/// The slowest read, and what was read.
#[derive(Clone, Copy)]
struct Slowest {
    spent: Duration,
    sum: u64,
}

impl Slowest {
    fn read_each<J: Naming, R>(
        &mut self,
        rt: &R,
        places: &[OutPoint],
        seat: &mut Seat<'_, J>,
    ) -> Result<(), BenchFault>
    where
        R: AllocGlobal + Clock,
    {
        for at in places {
            let timer = Timer::start(rt);
            let worth = read_coin(rt, seat, at)?;
            self.spent = self.spent.max(timer.spent(rt)?);
            self.sum = self.sum.wrapping_add(worth);
        }
        Ok(())
    }
}

/// Submits blocks until it is told to end.
fn submit_until<J: Naming, R>(
    rt: &R,
    node: &Node<'_, J>,
    blocks: &[Vec<u8>],
    is_over: &AtomicBool,
    seat: &mut Seat<'_, J>,
) -> Result<(), BenchFault>
where
    R: Threads + Wait + Sync,
{
    for bytes in blocks {
        if is_over.load(SeqCst) {
            return Ok(());
        }
        submit(rt, node, seat, bytes.as_slice())?;
    }
    Ok(())
}

/// Reads while the first seat submits blocks.
pub fn reads_beside<J: Naming, R>(
    rt: &R,
    node: &Node<'_, J>,
    work: &SeatWorkload,
    blocks: &[Vec<u8>],
    seats: &mut [Seat<'_, J>],
) -> Result<Outcome, BenchFault>
where
    R: AllocGlobal + Clock + Threads + Wait + Sync,
{
    match seats.split_first_mut() {
        Some((writer, readers)) => beside(rt, node, work, blocks, writer, readers),
        None => Err(BenchFault::Node),
    }
}

fn beside<J: Naming, R>(
    rt: &R,
    node: &Node<'_, J>,
    work: &SeatWorkload,
    blocks: &[Vec<u8>],
    writer: &mut Seat<'_, J>,
    readers: &mut [Seat<'_, J>],
) -> Result<Outcome, BenchFault>
where
    R: AllocGlobal + Clock + Threads + Wait + Sync,
{
    let is_over = AtomicBool::new(false);
    let write = || submit_until(rt, node, blocks, &is_over, writer);
    let ask = || reads_to_end(rt, node, work, &is_over, readers);
    let (written, outcome) = thread::join(rt, write, ask);
    behind(written, outcome)
}

/// Each seat reads each place, or the first looks for the slowest read. Then the writer is told to end.
fn reads_to_end<J: Naming, R>(
    rt: &R,
    node: &Node<'_, J>,
    work: &SeatWorkload,
    is_over: &AtomicBool,
    seats: &mut [Seat<'_, J>],
) -> Result<Outcome, BenchFault>
where
    R: AllocGlobal + Clock + Threads + Wait + Sync,
{
    let outcome = match work {
        SeatWorkload::Beside(places, ReadKind::Slowest, _) => slowest_of(
            rt,
            places.as_slice(),
            seats,
        ),
        _ => at_once(rt, node, work, seats),
    };
    is_over.store(true, SeqCst);
    outcome
}

/// What came of reads, where the blocks beside them were submitted.
fn behind(
    written: Result<(), BenchFault>,
    outcome: Result<Outcome, BenchFault>,
) -> Result<Outcome, BenchFault> {
    written?;
    outcome
}
