//! Answers that were got before they are asked for.

ghost use Rattle.std.specs.Prelude.{◌≡◌, ◌↔◌, ℕ, IfSome, IsSome, IsTrue, Some, slice_get};
ghost use Rattle.std.specs.Option.{IfNone};

use crate::early_jobs::EarlyJobs;
use crate::source::Source;
use interp::Job;
use signatures::KeptTriple;
use std::marker::Model;

/// The answers to early jobs by a table, or by what was found out. A clause sees what they ask, and by what they were got.
///
/// It has the scripts that the jobs spend, and borrows the transactions and the signatures.
#[derive(Drop)]
pub struct Verdicts<'t> {
    jobs: EarlyJobs<'t>,
    by: Source<'t>,
    answers: Vec<Option<bool>>,
    /// Of each job the signature that it wants, if it wants one.
    wants: Vec<Option<Box<KeptTriple>>>,
}

impl<'t> Model for Verdicts<'t> {
    ghost use Rattle.std.specs.Coded.{codes};
    ghost use Rattle.std.specs.FinSet as set;
    ghost use Rattle.std.specs.Prelude.{◌≡◌};
    ghost use Rattle.signatures.specs.Known.{coded_verdicts};
    ghost use Rattle.signatures.specs.Triple.{triple_cmp, coded_triple};
    ghost use Rattle.queue.specs.Jobs.{Answered, answers_to, known_of, questions};
    ghost use Rattle.queue.specs.inside.KnownAnswers.{AreTheirWants};

    ghost Value = { Answered };

    ghost coded = { Prim.hlevel (codes, set.code {R = triple_cmp} coded_triple, coded_verdicts) };

    ghost view = { λ v. record { batch = v.jobs; by = v.by } };

    ghost invariant = { λ v. (v.answers.items ≡ answers_to (known_of v.by) (questions v.jobs))
        × AreTheirWants (known_of v.by) (questions v.jobs) v.wants.items };
}

impl<'t> Verdicts<'t> {
    ghost use Rattle.interp.specs.Answer.{Wants};
    ghost use Rattle.interp.specs.Question.{Question, question_of};
    ghost use Rattle.interp.specs.computed.Step.{verdict};
    ghost use Rattle.queue.specs.Early.{answer_at};
    ghost use Rattle.queue.specs.Jobs.{answers_to, known_of, known_then, questions};
    ghost use Rattle.queue.specs.inside.KnownAnswers.{AreTheirWants};

    /// The verdicts with these answers and wants.
    pub(crate) fn of(
        jobs: EarlyJobs<'t>,
        by: Source<'t>,
        answers: Vec<Option<bool>>,
        wants: Vec<Option<Box<KeptTriple>>>,
    ) -> Verdicts<'t>
        requires answers { answers.items ≡ answers_to (known_of by) (questions jobs) }
        requires wants { AreTheirWants (known_of by) (questions jobs) wants.items }
        ensures { result ≡ record { batch = jobs.entry; by = by.entry } }
    {
        Verdicts {
            jobs,
            by,
            answers,
            wants,
        }
    }

    /// Whether each job is accepted, in order; none where a signature was unknown.
    pub fn answers(&self) -> &[Option<bool>]
        ensures { result.now ≡ answers_to (known_then self.now) (questions self.now.batch) }
    {
        self.answers.as_slice()
    }

    /// The answer at a place, if there is one.
    pub(crate) fn answer(&self, place: usize) -> Option<bool>
        ensures { let asked = questions self.now.batch in
            result ≡ answer_at (answers_to (known_then self.now) asked) place }
    {
        *self.answers.get(place)?
    }

    /// The signature that the job at a place wants, if it was found to want one.
    pub(crate) fn want(&self, place: usize) -> Option<&KeptTriple>
        ensures { (q : Question) → slice_get (questions self.now.batch) place ≡ Some q →
            IfSome result (λ t. verdict (known_then self.now) q ≡ Wants t.now) }
    {
        match self.wants.get(place)? {
            Some(triple) => Some(triple.as_ref()),
            None => None,
        }
    }

    /// Whether a job was found to want a signature.
    pub(crate) fn has_wants(&self) -> bool {
        self.wants.iter().any(|want| want.is_some())
    }

    /// Whether the verdict at a place fits a job: whether it was asked of an equal transaction, for the same input, which
    /// spends the same script, under the same rules. At a place without a verdict none fits.
    ///
    /// Such a job isn't run again where these verdicts are passed ([`crate::first_failure`]), if it was answered.
    pub fn fits(&self, place: usize, job: &Job) -> bool
        ensures { IsTrue result ↔
            (slice_get (questions self.now.batch) place ≡ Some (question_of job.now)) }
    {
        self.jobs.fits(place, job)
    }

    /// The place of an answer that fits a job, looked for among all.
    pub(crate) fn find(&self, job: &Job) -> Option<usize>
        ensures found { IfSome result (λ at. let asked = questions self.now.batch in
            (slice_get asked at ≡ Some (question_of job.now)) ×
            IsSome (answer_at (answers_to (known_then self.now) asked) at)) }
        ensures none { IfNone result ((at : ℕ) → let asked = questions self.now.batch in
            slice_get asked at ≡ Some (question_of job.now) →
            ¬ IsSome (answer_at (answers_to (known_then self.now) asked) at)) }
    {
        for at in 0..self.jobs.len() {
            if self.answer(at).is_some() && self.jobs.fits(at, job) {
                return Some(at);
            }
        }
        None
    }

    /// What they answer.
    pub(crate) fn jobs(&self) -> &EarlyJobs<'t>
        ensures { result.now ≡ self.now.batch }
    {
        &self.jobs
    }
}
