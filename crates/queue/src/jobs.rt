//! A list's jobs, with their known answers.

ghost use Rattle.std.specs.Prelude.{◌≡◌, ◌≤◌, All, length};
ghost use Rattle.std.proofs.Props.{props};
ghost use Rattle.queue.specs.Jobs.{HasInput, IsEarly, verdict_at};
ghost use Rattle.queue.specs.Early.{AreAllKnown, AreAskedAt, AreKnown, answer_at};

use crate::checks::Places;
use crate::judges::Judges;
use crate::verdict::Verdict;
use crate::verdicts::Verdicts;
use interp::{Job, Unverified, verify_with};
use signatures::KeptTriple;
use std::alloc::Global;
use wire::Memory;

/// The first jobs of a list, their known answers, and the judge of signatures.
#[derive(Drop)]
pub struct JobList<'a, S: Judges> {
    pub jobs: &'a [Job<'a>],
    /// How many jobs are looked at.
    pub count: usize,
    pub by: &'a S,
    /// Verdicts that were found earlier.
    pub early: &'a [Verdicts<'a>],
    pub known: &'a [Option<bool>],
    /// For each job, whether the first of `early` has it at the same place; it may be shorter than the list.
    pub asked: &'a [bool],
    pub ghost inside: { count ≤ length jobs.now },
    pub ghost right: { AreKnown (verdict_at (S.known by.now) jobs.now) known.now } by { Prim.hlevel props },
    // Each job with a fitting early verdict has its answer, so it isn't run.
    pub ghost all: { AreAllKnown early.now jobs.now known.now } by { Prim.hlevel props },
    pub ghost inputs: { All HasInput jobs.now } by { Prim.hlevel props },
    pub ghost before: { All (IsEarly (S.known by.now)) early.now } by { Prim.hlevel props },
    pub ghost at_place: { AreAskedAt early.now jobs.now asked.now } by { Prim.hlevel props },
}

/// A job's weight besides its scripts.
const OF_EACH_JOB: usize = 128;

impl<'a, S: Judges> Places for JobList<'a, S> {
    ghost count = { λ list. list.count };

    ghost verdict = { λ list. verdict_at (S.known list.by.now) list.jobs.now };

    ghost known_at = { λ list place. answer_at list.known.now place };

    fn count_places(&self) -> usize {
        self.count
    }

    fn known(&self, place: usize) -> Option<bool> {
        *self.known.get(place)?
    }

    fn wanted(&self, place: usize) -> Option<&KeptTriple> {
        if !*self.asked.get(place)? {
            return None;
        }
        let triple = self.early.first()?.want(place)?;
        match self
            .by
            .find(triple.key(), triple.signature(), triple.digest())
        {
            Some(_) => None,
            None => Some(triple),
        }
    }

    fn weight(&self, place: usize) -> usize {
        let job = &self.jobs[place];
        let tx = job.tx;
        let own = match tx.inputs.as_slice().get(job.input) {
            Some(input) => input.script.as_slice().len(),
            None => 0,
        };
        OF_EACH_JOB
            .saturating_add(job.spent.len())
            .saturating_add(own)
    }

    fn judge(&self, alloc: Global, place: usize) -> Result<Verdict, Memory> {
        match verify_with(alloc, &self.jobs[place], self.by) {
            Ok(true) => Ok(Verdict::Yes),
            Ok(false) => Ok(Verdict::No),
            Err(Unverified::Unknown(triple)) => Ok(Verdict::Wants(triple)),
            Err(Unverified::Memory) => Err(Memory),
        }
    }
}
