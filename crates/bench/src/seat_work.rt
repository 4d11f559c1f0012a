//! What seats of a node do, timed.

use crate::chain_work::NOW;
use crate::check::Check;
use crate::clock::{Outcome, Timer};
use crate::fault::BenchFault;
use crate::plan::SeatWorkload;
use crate::read_work::read_each;
use node::{Naming, Node, Seat, SubmitReply};
use std::rt::Clock;
use std::sync::Wait;
use std::sync::atomic::AtomicU64;
use std::sync::atomic::Ordering::SeqCst;
use std::thread;
use std::thread::Threads;

/// Submits a block at a seat: how many are kept.
pub fn submit<J: Naming, R>(
    rt: &R,
    node: &Node<'_, J>,
    seat: &mut Seat<'_, J>,
    bytes: &[u8],
) -> Result<u64, BenchFault>
where
    R: Threads + Wait + Sync,
{
    let reply = seat.submit(rt, node, bytes, NOW)?.value;
    let is_kept = matches!(reply, SubmitReply::Accepted | SubmitReply::Inconclusive);
    Ok(u64::from(is_kept))
}

/// Submits blocks at a seat, and counts those that are kept.
pub fn submit_each<J: Naming, R>(
    rt: &R,
    node: &Node<'_, J>,
    seat: &mut Seat<'_, J>,
    blocks: &[Vec<u8>],
) -> Result<u64, BenchFault>
where
    R: Threads + Wait + Sync,
{
    let mut kept = 0u64;
    for bytes in blocks {
        kept = kept.wrapping_add(submit(rt, node, seat, bytes.as_slice())?);
    }
    Ok(kept)
}

/// Submits each block at the seat whose turn it is. Those that are kept are counted.
pub fn in_turn<J: Naming, R>(
    rt: &R,
    node: &Node<'_, J>,
    seats: &mut [Seat<'_, J>],
    blocks: &[Vec<u8>],
) -> Result<Outcome, BenchFault>
where
    R: Clock + Threads + Wait + Sync,
{
    let timer = Timer::start(rt);
    timer.stop(rt, submit_in_turn(rt, node, seats, blocks))
}

fn submit_in_turn<J: Naming, R>(
    rt: &R,
    node: &Node<'_, J>,
    seats: &mut [Seat<'_, J>],
    blocks: &[Vec<u8>],
) -> Result<Check, BenchFault>
where
    R: Threads + Wait + Sync,
{
    let mut kept = 0u64;
    for turn in 0..blocks.len() {
        let place = turn.checked_rem(seats.len()).unwrap_or(0);
        if let Some(seat) = seats.get_mut(place) {
            kept = kept.wrapping_add(submit(rt, node, seat, blocks[turn].as_slice())?);
        }
    }
    Ok(Check::Count(kept))
}

/// Each seat does its part of the work on a thread of its own. The time is of all together; what comes of it is summed.
pub fn at_once<J: Naming, R>(
    rt: &R,
    node: &Node<'_, J>,
    work: &SeatWorkload,
    seats: &mut [Seat<'_, J>],
) -> Result<Outcome, BenchFault>
where
    R: AllocGlobal + Clock + Threads + Wait + Sync,
{
    let sum = AtomicU64::new(0);
    let timer = Timer::start(rt);
    do_parts(rt, node, work, seats, &sum);
    timer.stop(rt, Ok(Check::Count(sum.load(SeqCst))))
}

/// Each seat does its part on a thread of its own, and adds what comes of it.
fn do_parts<J: Naming, R>(
    rt: &R,
    node: &Node<'_, J>,
    work: &SeatWorkload,
    seats: &mut [Seat<'_, J>],
    sum: &AtomicU64,
)
where
    R: AllocGlobal + Threads + Wait + Sync,
{
    let threads = seats.len().max(1);
    let act = |place: usize, seat: &mut Seat<'_, J>| {
        add_part(sum, part_of(rt, node, work, place, threads, seat));
    };
    thread::for_each_mut(rt, seats, threads, &act);
}

/// Adds what came of a seat's part, where it came to an end.
fn add_part(sum: &AtomicU64, part: Result<u64, BenchFault>) {
    if let Ok(own) = part {
        sum.fetch_add(own, SeqCst);
    }
}

/// What a seat reads, or how many of the blocks that it submits are kept.
fn part_of<J: Naming, R>(
    rt: &R,
    node: &Node<'_, J>,
    work: &SeatWorkload,
    place: usize,
    seats: usize,
    seat: &mut Seat<'_, J>,
) -> Result<u64, BenchFault>
where
    R: AllocGlobal + Threads + Wait + Sync,
{
    match work {
        SeatWorkload::Reads(places, look) | SeatWorkload::Beside(places, look, _) => {
            read_each(rt, seat, places.as_slice(), *look)
        }
        SeatWorkload::Branches(branches) => {
            submit_shared(rt, node, seat, branches.as_slice(), place, seats)
        }
        _ => Ok(0),
    }
}

/// Submits each of the branches that are a seat's own.
fn submit_shared<J: Naming, R>(
    rt: &R,
    node: &Node<'_, J>,
    seat: &mut Seat<'_, J>,
    branches: &[Vec<Vec<u8>>],
    place: usize,
    seats: usize,
) -> Result<u64, BenchFault>
where
    R: Threads + Wait + Sync,
{
    let mut kept = 0u64;
    for at in (place..branches.len()).step_by(seats.max(1)) {
        kept = kept.wrapping_add(submit_each(rt, node, seat, branches[at].as_slice())?);
    }
    Ok(kept)
}
