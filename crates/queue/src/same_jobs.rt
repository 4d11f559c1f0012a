//! Jobs with an early verdict at the same place.

ghost use Rattle.std.specs.Prelude.{◌≡◌, ◌-◌, ◌<◌, ◌≤◌, IfOk, IsTrue, length};
ghost use Rattle.queue.specs.Early.{AreAllAsked, AreAskedAt, IsAskedAt};
ghost use Rattle.queue.specs.Jobs.{AreNumbered};

use crate::known_verdicts::goes_on;
use crate::verdicts::Verdicts;
use interp::Job;
use std::alloc::Global;
use wire::Memory;

/// For each job, whether the first of these verdicts is of it, at the same place; an empty list if they want nothing.
/// Mostly a block's early jobs are its jobs in the same order.
pub(crate) fn asked_jobs(
    alloc: Global,
    jobs: &[Job],
    numbers: &[usize],
    verdicts: &[Verdicts],
) -> Result<Vec<bool>, Memory>
    requires { AreNumbered numbers.now jobs.now }
    ensures { IfOk result (λ asked. AreAskedAt verdicts.now jobs.now asked.items) }
{
    match verdicts.first() {
        Some(own) if own.has_wants() => asked_by(alloc, jobs, numbers, own),
        _ => Ok(Vec::new(alloc)),
    }
}

/// For each job, whether these verdicts have it at the same place.
fn asked_by(
    alloc: Global,
    jobs: &[Job],
    numbers: &[usize],
    own: &Verdicts,
) -> Result<Vec<bool>, Memory>
    requires { AreNumbered numbers.now jobs.now }
    ensures { IfOk result (λ asked. AreAllAsked own.now jobs.now asked.items) }
{
    let mut asked = Vec::with_capacity(alloc, jobs.len())?;
    let mut before = false;
    for place in 0..jobs.len() {
        before = is_asked(jobs, numbers, own, place, before);
        asked.push(before)?;
    }
    Ok(asked)
}

/// Whether the verdict at a job's place is of that job. A job of the same transaction as a job before it that had its own
/// verdict isn't compared as a whole: with thousands of inputs this would take long.
fn is_asked(jobs: &[Job], numbers: &[usize], own: &Verdicts, place: usize, before: bool) -> bool
    requires place { place < length jobs.now }
    requires numbered { AreNumbered numbers.now jobs.now }
    requires before { IsTrue before → 1 ≤ place → IsAskedAt own.now jobs.now (place - 1) }
    ensures { IsTrue result → IsAskedAt own.now jobs.now place }
{
    let job = &jobs[place];
    if before && goes_on(numbers, place) && own.jobs().are_of_one(place - 1, place) {
        return own.jobs().asks_but_for_tx(place, job);
    }
    own.fits(place, job)
}
