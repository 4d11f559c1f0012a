//! A node of some seats, over a chain that was made for it.

ghost use Rattle.std.specs.Prelude.{◌≡◌};

use crate::check::Check;
use crate::clock::{Outcome, Timer};
use crate::fault::BenchFault;
use crate::plan::{Plan, SeatWorkload};
use crate::read_work::reads_beside;
use crate::seat_work::{at_once, in_turn, submit, submit_each};
use node::{Naming, Node, Open, Opening, Params, Seat, Table};
use std::marker::Brand;
use std::rt::Clock;
use std::sync::{Arc, Wait};
use std::thread::Threads;
use workloads::inputs;
use workloads::inputs::branch::Branch;

/// Opens a node, submits blocks, which aren't timed, and has its seats do their work, where that was made.
pub fn at_node<R>(rt: &R, plan: Result<Plan, inputs::InputsFault>) -> Result<Outcome, BenchFault>
where
    R: AllocGlobal + Clock + Threads + Wait + Sync,
{
    let plan = plan?;
    let table = Arc::new(rt.alloc(), Table::new(rt.alloc()))?;
    let opening = Opening::new(Params::regtest(), &table, plan.seats);
    on_node::<Brand, R>(rt, opening, &plan)
}

/// Opens a node, does the work on it, and ends it. The plan is its caller's, and freed behind all: freed before what is
/// timed, the blocks' bytes would have the next allocation sort what the allocator has free.
fn on_node<J: Naming, R>(rt: &R, opening: Opening<'_>, plan: &Plan) -> Result<Outcome, BenchFault>
where
    R: AllocGlobal + Clock + Threads + Wait + Sync,
    requires { opening ≡ J.origin }
{
    let (node, mut seats) = Node::<J>::open(rt.alloc(), opening, plan.workers, &Open)?;
    let outcome = prepared(rt, &node, seats.as_mut_slice(), plan);
    ended(node.finish(seats.as_mut_slice()), outcome)
}

/// What was done on a node, where that ended.
fn ended<H: Drop>(
    history: Result<H, node::EndFault>,
    outcome: Result<Outcome, BenchFault>,
) -> Result<Outcome, BenchFault> {
    history.map_err(node::Fault::from)?;
    outcome
}

fn prepared<J: Naming, R>(
    rt: &R,
    node: &Node<'_, J>,
    seats: &mut [Seat<'_, J>],
    plan: &Plan,
) -> Result<Outcome, BenchFault>
where
    R: AllocGlobal + Clock + Threads + Wait + Sync,
{
    submit_below(rt, node, seats, plan.below.as_slice())?;
    done(rt, node, seats, &plan.work)
}

/// Submits blocks at the first seat, all of which have to be kept.
fn submit_below<J: Naming, R>(
    rt: &R,
    node: &Node<'_, J>,
    seats: &mut [Seat<'_, J>],
    below: &[Vec<u8>],
) -> Result<(), BenchFault>
where
    R: Threads + Wait + Sync,
{
    if let Some(seat) = seats.first_mut() {
        let kept = submit_each(rt, node, seat, below)?;
        if kept != below.len() as u64 {
            return Err(BenchFault::Unread);
        }
    }
    Ok(())
}

fn done<J: Naming, R>(
    rt: &R,
    node: &Node<'_, J>,
    seats: &mut [Seat<'_, J>],
    work: &SeatWorkload,
) -> Result<Outcome, BenchFault>
where
    R: AllocGlobal + Clock + Threads + Wait + Sync,
{
    match work {
        SeatWorkload::Beside(_, _, blocks) => reads_beside(
            rt,
            node,
            work,
            blocks.as_slice(),
            seats,
        ),
        SeatWorkload::Turns(blocks) => in_turn(rt, node, seats, blocks.as_slice()),
        SeatWorkload::Kept(branch, count) => kept(rt, node, seats, *branch, *count),
        SeatWorkload::Reads(_, _) | SeatWorkload::Branches(_) => at_once(rt, node, work, seats),
    }
}

/// Submits blocks without payments at the first seat, each as it is made. Those that stand are counted.
fn kept<J: Naming, R>(
    rt: &R,
    node: &Node<'_, J>,
    seats: &mut [Seat<'_, J>],
    branch: Branch,
    count: usize,
) -> Result<Outcome, BenchFault>
where
    R: AllocGlobal + Clock + Threads + Wait + Sync,
{
    let timer = Timer::start(rt);
    let kept = match seats.first_mut() {
        Some(seat) => submit_next_ones(rt, node, seat, branch, count),
        None => Err(BenchFault::Node),
    };
    timer.stop(rt, kept)
}

fn submit_next_ones<J: Naming, R>(
    rt: &R,
    node: &Node<'_, J>,
    seat: &mut Seat<'_, J>,
    mut branch: Branch,
    count: usize,
) -> Result<Check, BenchFault>
where
    R: AllocGlobal + Threads + Wait + Sync,
{
    let mut kept = 0u64;
    for _ in 0..count {
        let bytes = branch.next_bytes(rt.alloc(), Vec::new(rt.alloc()));
        kept = kept.wrapping_add(submit_made(rt, node, seat, bytes)?);
    }
    Ok(Check::Count(kept))
}

/// Submits a block, where it was made: how many are kept.
fn submit_made<J: Naming, R>(
    rt: &R,
    node: &Node<'_, J>,
    seat: &mut Seat<'_, J>,
    bytes: Result<Vec<u8>, inputs::InputsFault>,
) -> Result<u64, BenchFault>
where
    R: Threads + Wait + Sync,
{
    let bytes = bytes?;
    submit(rt, node, seat, bytes.as_slice())
}
