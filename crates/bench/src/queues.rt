//! Script checks on several threads.

ghost use Rattle.std.specs.Prelude.{All, IsTrue};
ghost use Rattle.queue.specs.Jobs.{HasInput};

use crate::check::Check;
use crate::clock::{Outcome, Timer};
use crate::fault::BenchFault;
use crate::scripts;
use interp::Job;
use queue::{Crew, Open, Runs, Threaded, first_failure};
use signatures::Table;
use std::alloc::Global;
use std::rt::Clock;
use std::thread::Threads;
use wire::Memory;
use workloads::inputs;
use workloads::inputs::spends::Spends;

/// Whether the queue takes these jobs: each is of an input that is there.
fn are_ready(jobs: &[Job]) -> bool
    ensures { IsTrue result → All HasInput jobs.now }
{
    jobs.iter().all(|job| {
        let tx = job.tx;
        job.input < tx.inputs.len()
    })
}

/// Who runs scripts.
#[derive(Clone, Copy)]
pub enum Runner {
    /// One after the other, without a queue. It is counted how many accept.
    Alone,
    /// The queue, by so many workers. It is counted how often no job failed.
    Queue(usize),
}

/// The scripts of these spends, where they were made, run so often.
pub fn checked<R>(
    rt: &R,
    spends: Result<Spends, inputs::InputsFault>,
    runner: Runner,
    times: usize,
) -> Result<Outcome, BenchFault>
where
    R: AllocGlobal + Clock + Threads + Sync,
{
    let spends = spends?;
    let jobs = spends.jobs(rt.alloc())?;
    timed(rt, jobs.as_slice(), &spends.table, runner, times)
}

fn timed<R>(
    rt: &R,
    jobs: &[Job],
    table: &Table,
    runner: Runner,
    times: usize,
) -> Result<Outcome, BenchFault>
where
    R: AllocGlobal + Clock + Threads + Sync,
{
    let timer = Timer::start(rt);
    let count = match runner {
        Runner::Alone => scripts::accepted_in_all(rt.alloc(), jobs, table, times),
        Runner::Queue(workers) => accepted_in_all(rt, jobs, table, workers, times),
    };
    timer.stop(rt, count)
}

/// How often no job fails.
fn accepted_in_all<R>(
    rt: &R,
    jobs: &[Job],
    table: &Table,
    workers: usize,
    times: usize,
) -> Result<Check, BenchFault>
where
    R: AllocGlobal + Threads + Sync,
{
    let mut count = 0u64;
    for _ in 0..times {
        let is_accepted = are_accepted(rt, jobs, table, workers)?;
        count = count.wrapping_add(u64::from(is_accepted));
    }
    Ok(Check::Count(count))
}

/// Whether no job fails.
fn are_accepted<R>(rt: &R, jobs: &[Job], table: &Table, workers: usize) -> Result<bool, BenchFault>
where
    R: AllocGlobal + Threads + Sync,
{
    if !are_ready(jobs) {
        return Ok(false);
    }
    let workers = workers.clamp(1, 16);
    let failure = failing(&Threaded { rt }, rt.alloc(), jobs, table, workers)?;
    Ok(failure.is_none())
}

/// The least job that isn't accepted, by a crew of so many.
fn failing<C: Crew<Table>>(
    crew: &C,
    alloc: Global,
    jobs: &[Job],
    table: &Table,
    workers: usize,
) -> Result<Option<usize>, Memory>
    requires ready { C.is_ready crew.now }
    requires inputs { All HasInput jobs.now }
{
    let runs = Runs {
        by: table,
        early: &[],
        crew,
        workers,
    };
    first_failure(alloc, jobs, &[], &runs, &Open)
}
