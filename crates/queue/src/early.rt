//! Verdicts that are found before the lock is taken.

ghost use Rattle.std.specs.Prelude.{◌≡◌, ℕ, ◌<◌, ◌≤◌, [], ◌∷◌, ◌++◌, All, IfOk, IfSome, None, OnOk, length, vec_len};
ghost use Rattle.queue.specs.Ahead.{answer_of};
ghost use Rattle.queue.specs.Jobs.{HasInput, answers_to, known_of, questions, said};
ghost use Rattle.queue.specs.inside.KnownAnswers.{AreSaid, AreTheirWants, AreWanted, wanted_in};
ghost use Rattle.queue.specs.inside.Walk.{AreRight};

use crate::checks::Places;
use crate::crew::busy_workers;
use crate::early_jobs::EarlyJobs;
use crate::gate::Gate;
use crate::jobs::JobList;
use crate::judges::Judges;
use crate::source::Source;
use crate::verdict::Verdict;
use crate::verdicts::Verdicts;
use crate::walk::{empty_slots, take};
use crate::workers::run;
use interp::Job;
use signatures::KeptTriple;
use std::alloc::Global;
use std::thread::{Threads, for_each_mut};
use wire::Memory;

/// For each job, whether it is accepted, or which signature it wants.
#[derive(Drop)]
struct Answers {
    answers: Vec<Option<bool>>,
    wants: Vec<Option<Box<KeptTriple>>>,
}

impl Answers {
    /// Adds the next job's verdict.
    fn add(&mut self, verdict: Verdict) -> Result<(), Memory>
        ensures answers { OnOk result (self.new.answers.items
            ≡ self.old.answers.items ++ said (answer_of verdict) ∷ []) }
        ensures wants { OnOk result (self.new.wants.items
            ≡ self.old.wants.items ++ wanted_in verdict ∷ []) }
    {
        let (answer, want) = match verdict {
            Verdict::Yes => (Some(true), None),
            Verdict::No => (Some(false), None),
            Verdict::Wants(triple) => (None, Some(triple)),
        };
        self.answers.push(answer)?;
        self.wants.push(want)?;
        Ok(())
    }
}

/// The verdicts of jobs. No job is skipped; one that wants a signature without a known verdict has none.
pub fn check_early<'t, R: Threads + Sync, G: Gate + Sync>(
    rt: &R,
    alloc: Global,
    jobs: EarlyJobs<'t>,
    source: Source<'t>,
    workers: usize,
    gate: &G,
) -> Result<Verdicts<'t>, Memory>
    requires workers { (1 ≤ workers) × (workers ≤ 16) }
    ensures { IfOk result (λ verdicts.
        verdicts ≡ record { batch = jobs.entry; by = source.entry }) }
{
    let Answers { answers, wants } = early_answers(rt, alloc, &jobs, source, workers, gate)?;
    Ok(Verdicts::of(jobs, source, answers, wants))
}

/// What each job's scripts answer, in order.
fn early_answers<R: Threads + Sync, G: Gate + Sync>(
    rt: &R,
    alloc: Global,
    jobs: &EarlyJobs,
    source: Source,
    workers: usize,
    gate: &G,
) -> Result<Answers, Memory>
    requires workers { (1 ≤ workers) × (workers ≤ 16) }
    ensures answers { IfOk result (λ found.
        found.answers.items ≡ answers_to (known_of source.entry) (questions jobs.now)) }
    ensures wants { IfOk result (λ found.
        AreTheirWants (known_of source.entry) (questions jobs.now) found.wants.items) }
{
    let midstates = jobs.midstates(alloc)?;
    let jobs = jobs.jobs(alloc, &midstates)?;
    match source {
        Source::Listed(table) => all_answers(rt, alloc, &all_of(&jobs, table), workers, gate),
        Source::Found(found) => all_answers(rt, alloc, &all_of(&jobs, found), workers, gate),
    }
}

/// All of these jobs, none with a known answer.
fn all_of<'a, S: Judges>(jobs: &'a [Job<'a>], by: &'a S) -> JobList<'a, S>
    requires { All HasInput jobs.now }
    ensures jobs { (result.jobs.now ≡ jobs.entry.now) × (result.count ≡ length jobs.entry.now) }
    ensures by { result.by.now ≡ by.entry.now }
    ensures known { result.known.now ≡ [] }
{
    JobList {
        jobs,
        count: jobs.len(),
        by,
        early: &[],
        known: &[],
        asked: &[],
    }
}

/// What is found at each place, if there was memory for all.
fn all_answers<R: Threads + Sync, G: Gate + Sync, C: Places + Sync>(
    rt: &R,
    alloc: Global,
    list: &C,
    workers: usize,
    gate: &G,
) -> Result<Answers, Memory>
    requires workers { 0 < workers }
    requires unknown { (place : ℕ) → C.known_at list.now place ≡ None }
    ensures answers { IfOk result (λ found. (vec_len found.answers ≡ C.count list.now)
        × AreSaid (C.verdict list.now) found.answers.items) }
    ensures wants { IfOk result (λ found. AreWanted (C.verdict list.now) found.wants.items) }
{
    let mut slots = verdicts(rt, alloc, list, workers, gate)?;
    let mut found = Answers {
        answers: Vec::with_capacity(alloc, slots.len())?,
        wants: Vec::with_capacity(alloc, slots.len())?,
    };
    for place in 0..slots.len() {
        let Some(verdict) = take(list, &mut slots, place) else {
            return Err(Memory);
        };
        found.add(verdict)?;
    }
    Ok(found)
}

/// The verdict on each place, except where there was no memory.
fn verdicts<R: Threads + Sync, G: Gate + Sync, C: Places + Sync>(
    rt: &R,
    alloc: Global,
    list: &C,
    workers: usize,
    gate: &G,
) -> Result<Vec<Option<Verdict>>, Memory>
    requires workers { 0 < workers }
    requires unknown { (place : ℕ) → C.known_at list.now place ≡ None }
    ensures len { IfOk result (λ slots. vec_len slots ≡ C.count list.now) }
    ensures each { IfOk result (λ slots. AreRight (C.verdict list.now) slots.items) }
{
    let mut slots = empty_slots(alloc, list, list.count_places())?;
    for_each_mut(
        rt,
        slots.as_mut_slice(),
        busy_workers(list, workers).max(1),
        &|place: usize, slot: &mut Option<Verdict>|
            requires { (place < C.count list.now) × (C.known_at list.now place ≡ None) }
            ensures { IfSome slot.exit.now (λ v. C.verdict list.entry.now place ≡ answer_of v) }
        { *slot = verdict(alloc, list, place, gate) },
    );
    Ok(slots)
}

/// The verdict on a place, unless there was no memory.
fn verdict<G: Gate, C: Places>(alloc: Global, list: &C, place: usize, gate: &G) -> Option<Verdict>
    requires place { place < C.count list.now }
    requires unknown { C.known_at list.now place ≡ None }
    ensures { IfSome result (λ v. C.verdict list.now place ≡ answer_of v) }
{
    run(alloc, list, place, gate).ok()
}
