//! The first job of a list that isn't accepted.

ghost use Rattle.std.specs.Prelude.{◌≡◌, ◌<◌, ◌≤◌, All, IfOk, Some, false, length, slice_get};
ghost use Rattle.queue.specs.Jobs.{AreNumbered, HasInput, IsEarly, verdict_at};
ghost use Rattle.queue.specs.FirstAnswer.{Told};
ghost use Rattle.queue.specs.inside.Walk.{Walked};

use crate::crew::Crew;
use crate::found::Found;
use crate::gate::Gate;
use crate::jobs::JobList;
use crate::judges::Judges;
use crate::known_verdicts::known_answers;
use crate::same_jobs::asked_jobs;
use crate::verdicts::Verdicts;
use crate::walk::{Walk, go_through, slots_of};
use interp::Job;
use std::alloc::Global;
use wire::Memory;

/// The judge of signatures, the crew that runs scripts, and the verdicts that were found earlier.
#[derive(Drop)]
pub struct Runs<'a, S: Judges, C: Crew<S>> {
    pub by: &'a S,
    pub early: &'a [Verdicts<'a>],
    pub crew: &'a C,
    pub workers: usize,
}

/// The first job that is refused, if any; or the signatures that have to be verified first: all that the jobs before the
/// first refused one want, so that one round finds many. A job with a fitting early verdict isn't run, nor does the caller
/// run one behind a refused job.
pub fn first_failure<S: Judges, C: Crew<S>>(
    alloc: Global,
    jobs: &[Job],
    numbers: &[usize],
    runs: &Runs<S, C>,
    gate: &(dyn Gate + Sync),
) -> Result<Option<usize>, S::Stop>
    requires ready { C.is_ready runs.now.crew.now }
    requires inputs { All HasInput jobs.now }
    // Jobs of one number are of one transaction, which is compared once with a verdict's.
    requires numbered { AreNumbered numbers.now jobs.now }
    requires early { All (IsEarly (S.known runs.now.by.now)) runs.now.early.now }
    ensures { Told (length jobs.now) (verdict_at (S.known runs.now.by.now) jobs.now) S.told result }
{
    let walk = walked(alloc, jobs, numbers, runs, gate)?;
    if !walk.wants.is_empty() {
        return Err(runs.by.stop(walk.wants));
    }
    if walk.end < jobs.len() {
        return Ok(Some(walk.end));
    }
    Ok(None)
}

/// Walks over all jobs, after the crew has run.
fn walked<S: Judges, C: Crew<S>>(
    alloc: Global,
    jobs: &[Job],
    numbers: &[usize],
    runs: &Runs<S, C>,
    gate: &(dyn Gate + Sync),
) -> Result<Walk, Memory>
    requires ready { C.is_ready runs.now.crew.now }
    requires inputs { All HasInput jobs.now }
    requires numbered { AreNumbered numbers.now jobs.now }
    requires early { All (IsEarly (S.known runs.now.by.now)) runs.now.early.now }
    ensures { IfOk result (λ walk. Walked (length jobs.now)
        (verdict_at (S.known runs.now.by.now) jobs.now) walk.end walk.wants.items) }
{
    let known = known_answers(alloc, jobs, numbers, runs.early, runs.by)?;
    let asked = asked_jobs(alloc, jobs, numbers, runs.early)?;
    let list = JobList {
        jobs,
        count: first_no(jobs.len(), &known),
        by: runs.by,
        early: runs.early,
        known: &known,
        asked: &asked,
    };
    let Found { accepted, others } = runs.crew.run_ahead(alloc, &list, runs.workers, gate)?;
    let slots = slots_of(alloc, &list, others, list.count)?;
    go_through(alloc, &list, &accepted, slots, &gate)
}

/// The first place with a known refusal, or `count`: no place behind it is looked at.
fn first_no(count: usize, known: &[Option<bool>]) -> usize
    ensures inside { result ≤ count }
    ensures refused { result < count → slice_get known.now result ≡ Some (Some false) }
{
    for place in 0..count {
        if let Some(Some(false)) = known.get(place) {
            return place;
        }
    }
    count
}
