//! Answers that are known before jobs are run.

ghost use Rattle.std.specs.Prelude.{◌≡◌, ◌-◌, ◌<◌, ◌≤◌, ℕ, All, IfOk, IfSome, IsSome, IsTrue, Some, length, slice_get};
ghost use Rattle.interp.specs.declared.job.Job.{Job};
ghost use Rattle.interp.specs.Question.{question_of};
ghost use Rattle.queue.specs.Jobs.{AreNumbered, HasInput, IsEarly, verdict_at};
ghost use Rattle.interp.specs.Answer.{Says};
ghost use Rattle.interp.specs.computed.Step.{verdict};
ghost use Rattle.queue.specs.Early.{AreAllKnown, AreKnown, Fits};
ghost use Rattle.queue.specs.inside.KnownAnswers.{Covers, IsOfSame};

use crate::judges::Judges;
use crate::verdict_index::{Index, Slot};
use crate::verdicts::Verdicts;
use interp::Job;
use std::alloc::Global;
use wire::Memory;

/// Of each job its answer, where a verdict fits it. Without any verdict it is no list at all.
///
/// A job with the number of the job before it is of the same transaction, which isn't compared again.
pub(crate) fn known_answers<S: Judges>(
    alloc: Global,
    jobs: &[Job],
    numbers: &[usize],
    verdicts: &[Verdicts],
    by: &S,
) -> Result<Vec<Option<bool>>, Memory>
    requires inputs { All HasInput jobs.now }
    requires numbered { AreNumbered numbers.now jobs.now }
    requires early { All (IsEarly (S.known by.now)) verdicts.now }
    ensures right { IfOk result (λ known.
        AreKnown (verdict_at (S.known by.now) jobs.now) known.items) }
    // Each job that a verdict fits has its answer, so none of them is run.
    ensures all { IfOk result (λ known. AreAllKnown verdicts.now jobs.now known.items) }
{
    if verdicts.is_empty() {
        return Ok(Vec::new(alloc));
    }
    let index = Index::new(alloc, verdicts)?;
    answers_in(alloc, jobs, numbers, &index, by)
}

/// Of each job its answer, where a verdict of the index fits it.
fn answers_in<S: Judges>(
    alloc: Global,
    jobs: &[Job],
    numbers: &[usize],
    index: &Index,
    by: &S,
) -> Result<Vec<Option<bool>>, Memory>
    requires inputs { All HasInput jobs.now }
    requires numbered { AreNumbered numbers.now jobs.now }
    requires covers { Covers index.now.verdicts.now index.now.slots.entries }
    requires early { All (IsEarly (S.known by.now)) index.now.verdicts.now }
    ensures right { IfOk result (λ known.
        AreKnown (verdict_at (S.known by.now) jobs.now) known.items) }
    ensures all { IfOk result (λ known.
        AreAllKnown index.now.verdicts.now jobs.now known.items) }
{
    let mut known = Vec::with_capacity(alloc, jobs.len())?;
    let mut slot = None;
    for place in 0..jobs.len() {
        let job = &jobs[place];
        let before = slot_before(jobs, numbers, index, place, slot);
        slot = index.find(before, job);
        known.push(answer_in(index, slot, job, by))?;
    }
    Ok(known)
}

/// The slot of the job before this one, if both are of one transaction.
fn slot_before(
    jobs: &[Job],
    numbers: &[usize],
    index: &Index,
    place: usize,
    before: Option<Slot>,
) -> Option<Slot>
    requires place { place < length jobs.now }
    requires numbered { AreNumbered numbers.now jobs.now }
    requires before { (job : Job) → 1 ≤ place → slice_get jobs.now (place - 1) ≡ Some job →
        IfSome before (λ slot. Fits index.now.verdicts.now slot (question_of job)) }
    ensures { (job : Job) → slice_get jobs.now place ≡ Some job →
        IfSome result (λ slot. IsOfSame index.now.verdicts.now slot job.tx.now) }
{
    if goes_on(numbers, place) {
        return before;
    }
    None
}

/// The answer of the verdict in a slot, if there is one.
fn answer_in<S: Judges>(index: &Index, slot: Option<Slot>, job: &Job, by: &S) -> Option<bool>
    requires fits { IfSome slot (λ slot.
        Fits index.now.verdicts.now slot (question_of job.now)) }
    requires early { All (IsEarly (S.known by.now)) index.now.verdicts.now }
    ensures right { IfSome result (λ answer.
        verdict (S.known by.now) (question_of job.now) ≡ Says answer) }
    ensures some { IsSome slot → IsSome result }
{
    index.answer(slot?, job, by)
}

/// Whether the number at a place equals the one before it.
pub(crate) fn goes_on(numbers: &[usize], place: usize) -> bool
    ensures { IsTrue result → (number : ℕ) × (1 ≤ place) ×
        (slice_get numbers.now (place - 1) ≡ Some number) ×
        (slice_get numbers.now place ≡ Some number) }
{
    if place == 0 {
        return false;
    }
    match (numbers.get(place - 1), numbers.get(place)) {
        (Some(before), Some(number)) => before == number,
        _ => false,
    }
}
