//! Crews, which run jobs ahead of the caller.

ghost use Rattle.std.specs.Prelude.{◌≡◌, ◌≤◌, All, IfOk};
ghost use denote.Param.Send.{IsSync};
ghost use Rattle.queue.specs.Jobs.{verdict_at};
ghost use Rattle.queue.specs.Ahead.{IsRight};
ghost use Rattle.queue.specs.laws.SharedValues.{IsSync-prop};

use crate::checks::Places;
use crate::found::{Found, both};
use crate::gate::Gate;
use crate::jobs::JobList;
use crate::judges::Judges;
use crate::workers::{Words, work};
use signatures::{KnownSignatures, Table};
use std::alloc::Global;
use std::sync::atomic::AtomicU64;
use std::thread::{Threads, map_indices};
use wire::Memory;

/// A crew runs jobs before the caller does, with what a judge knows of signatures: it is threads, or nobody. A function
/// that takes a crew needs no handle that starts threads.
pub trait Crew<S: Judges> {
    /// A fact on the crew's own type: threads may share the handle that starts them.
    ghost is_ready: { Self → Type 0 };

    /// That fact has one proof, so a struct can keep it next to a crew.
    ghost ready_once: { (crew : Self) → IsProp (is_ready crew) };

    /// The verdicts that the crew found, on any number of the list's jobs, also on none.
    fn run_ahead(
        &self,
        alloc: Global,
        list: &JobList<S>,
        workers: usize,
        gate: &(dyn Gate + Sync),
    ) -> Result<Found, Memory>
        requires { is_ready self.now }
        ensures { IfOk result (IsRight
            (verdict_at (S.known list.now.by.now) list.now.jobs.now)) };
}

/// A crew of one thread a worker.
#[derive(Clone, Copy)]
pub struct Threaded<'r, R> {
    pub rt: &'r R,
}

impl<'r, R: Threads + Sync> Crew<Table> for Threaded<'r, R> {
    ghost is_ready = { λ _. IsSync R.row };

    ghost ready_once = { λ _. IsSync-prop R.row };

    fn run_ahead(
        &self,
        alloc: Global,
        list: &JobList<Table>,
        workers: usize,
        gate: &(dyn Gate + Sync),
    ) -> Result<Found, Memory> {
        in_threads(self.rt, alloc, list, workers, &gate)
    }
}

impl<'r, R: Threads + Sync> Crew<KnownSignatures> for Threaded<'r, R> {
    ghost is_ready = { λ _. IsSync R.row };

    ghost ready_once = { λ _. IsSync-prop R.row };

    fn run_ahead(
        &self,
        alloc: Global,
        list: &JobList<KnownSignatures>,
        workers: usize,
        gate: &(dyn Gate + Sync),
    ) -> Result<Found, Memory> {
        in_threads(self.rt, alloc, list, workers, &gate)
    }
}

/// A crew of nobody: the caller runs every job, whatever the number of workers.
#[derive(Clone, Copy)]
pub struct Alone;

impl<S: Judges> Crew<S> for Alone {
    ghost use Rattle.std.specs.Coded.{Unit-prop};

    ghost is_ready = { λ _. Unit {0} };

    ghost ready_once = { λ _. Unit-prop };

    fn run_ahead(
        &self,
        alloc: Global,
        _list: &JobList<S>,
        _workers: usize,
        _gate: &(dyn Gate + Sync),
    ) -> Result<Found, Memory> {
        Ok(Found::nothing(alloc))
    }
}

/// What this number of workers finds. One worker finds nothing, as the caller would only wait for it.
pub(crate) fn in_threads<R: Threads + Sync, G: Gate + Sync, C: Places + Sync>(
    rt: &R,
    alloc: Global,
    list: &C,
    workers: usize,
    gate: &G,
) -> Result<Found, Memory>
    ensures { IfOk result (IsRight (C.verdict list.now)) }
{
    let workers = busy_workers(list, workers);
    if workers <= 1 {
        return Ok(Found::nothing(alloc));
    }
    let words = Words {
        claimed: AtomicU64::new(0),
        noted: AtomicU64::new(u64::MAX),
    };
    let reports = map_indices(
        rt,
        alloc,
        workers,
        &|_worker: usize| -> Result<Found, Memory>
            ensures { IfOk result (IsRight (C.verdict list.entry.now)) }
        { work(alloc, list, &words, gate) },
    )?;
    gather(alloc, list, reports)
}

/// Joins what the workers found, if none ran out of memory.
fn gather<C: Places>(
    alloc: Global,
    _list: &C,
    reports: Vec<Result<Found, Memory>>,
) -> Result<Found, Memory>
    requires { All (λ report. IfOk report (IsRight (C.verdict _list.now))) reports.items }
    ensures { IfOk result (IsRight (C.verdict _list.now)) }
{
    let mut all = Found::nothing(alloc);
    for report in reports {
        all = both(_list, all, report?)?;
    }
    Ok(all)
}

/// The least weight of places for each worker: starting a thread costs as much as the scripts of some eight payments.
const FOR_EACH_WORKER: usize = 2_000;

/// How many workers to start: at most `workers`, one for each place that has to be run, and one for each
/// `FOR_EACH_WORKER` of their weight. A place isn't run if its answer or the signature that it wants is known.
pub(crate) fn busy_workers<C: Places>(list: &C, workers: usize) -> usize
    ensures most { result ≤ workers }
    ensures places { result ≤ C.count list.now }
{
    let mut left = 0;
    let mut weight: usize = 0;
    for place in 0..list.count_places() {
        if left.min(weight / FOR_EACH_WORKER) >= workers {
            return workers;
        }
        if list.known(place).is_none() && list.wanted(place).is_none() {
            left += 1;
            weight = weight.saturating_add(list.weight(place));
        }
    }
    workers.min(left.min(weight / FOR_EACH_WORKER))
}
