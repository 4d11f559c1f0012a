//! Verdicts, found by what they answer.

ghost use Rattle.std.specs.Prelude.{◌≡◌, ℕ, Bool, All, IfOk, IfSome, IsSome, IsTrue, OnOk, Some, slice_get};
ghost use Rattle.std.specs.Option.{IfNone};
ghost use Rattle.queue.specs.declared.verdict_index.Key.{Key};
ghost use Rattle.queue.specs.declared.verdict_index.Slot.{Slot};
ghost use Rattle.interp.specs.Question.{Question, question_of};
ghost use Rattle.queue.specs.Jobs.{HasInput, IsEarly, known_then, questions};
ghost use Rattle.interp.specs.Answer.{Says};
ghost use Rattle.interp.specs.computed.Step.{verdict};
ghost use Rattle.queue.specs.inside.KnownAnswers.{Covers, IsOfSame, key_of, slot_for};
ghost use Rattle.queue.specs.Early.{Fits};

use crate::judges::Judges;
use crate::verdicts::Verdicts;
use interp::Job;
use std::alloc::Global;
use std::collections::BTreeMap;
use txn::OutPoint;
use wire::Memory;

/// By what a verdict is found: the number of the input, and the first outpoint that its transaction spends. The number
/// comes first, so that keys of one transaction, which may have thousands of inputs, differ before their ids are compared.
#[derive(Clone, Copy, Debug, PartialEq, Eq, PartialOrd, Ord)]
pub struct Key {
    pub input: usize,
    pub outpoint: OutPoint,
}

/// A verdict: in which of the lists, and at which place of it.
#[derive(Clone, Copy, Debug, PartialEq, Eq)]
pub struct Slot {
    pub verdicts: usize,
    pub place: usize,
}

/// Verdicts, and of each key that some have one of them.
#[derive(Drop)]
pub struct Index<'a, 't> {
    verdicts: &'a [Verdicts<'t>],
    slots: BTreeMap<Key, Slot>,
}

impl<'a, 't> Index<'a, 't> {
    /// The index of these verdicts.
    pub fn new(alloc: Global, verdicts: &'a [Verdicts<'t>]) -> Result<Index<'a, 't>, Memory>
        ensures verdicts { IfOk result (λ index. index.verdicts.now ≡ verdicts.entry.now) }
        ensures covers { IfOk result (λ index.
            Covers verdicts.entry.now index.slots.entries) }
    {
        let mut slots = BTreeMap::new(alloc);
        for list in 0..verdicts.len() {
            add_slots(&mut slots, list, &verdicts[list])?;
        }
        Ok(Index { verdicts, slots })
    }

    /// A verdict that fits a job. There is one where any of them fits it.
    ///
    /// Where the caller gives the verdict that fitted the job before, and both jobs are of one transaction, that isn't
    /// compared again.
    pub fn find(&self, before: Option<Slot>, job: &Job) -> Option<Slot>
        requires input { HasInput job.now }
        requires covers { Covers self.now.verdicts.now self.now.slots.entries }
        requires before { IfSome before (λ slot.
            IsOfSame self.now.verdicts.now slot job.now.tx.now) }
        ensures found { IfSome result (λ slot.
            Fits self.now.verdicts.now slot (question_of job.now)) }
        ensures none { IfNone result
            ((slot : Slot) → ¬ Fits self.now.verdicts.now slot (question_of job.now)) }
    {
        let slot = *self.slots.get(&key_of(job))?;
        if self.fits(slot, before, job) {
            return Some(slot);
        }
        // Verdicts of one key ask different things: rare enough to look at all.
        self.search(job)
    }

    /// Whether the verdict in a slot fits a job.
    fn fits(&self, slot: Slot, before: Option<Slot>, job: &Job) -> bool
        requires before { IfSome before (λ slot.
            IsOfSame self.now.verdicts.now slot job.now.tx.now) }
        ensures { IsTrue result → Fits self.now.verdicts.now slot (question_of job.now) }
    {
        let Some(own) = self.verdicts.get(slot.verdicts) else {
            return false;
        };
        if own.answer(slot.place).is_none() {
            return false;
        }
        match before {
            Some(other)
                if other.verdicts == slot.verdicts
                    && own.jobs().are_of_one(other.place, slot.place) => {
                own.jobs().asks_but_for_tx(slot.place, job)
            }
            _ => own.fits(slot.place, job),
        }
    }

    /// A verdict that fits a job, looked for among all.
    fn search(&self, job: &Job) -> Option<Slot>
        ensures found { IfSome result (λ slot.
            Fits self.now.verdicts.now slot (question_of job.now)) }
        ensures none { IfNone result
            ((slot : Slot) → ¬ Fits self.now.verdicts.now slot (question_of job.now)) }
    {
        for list in 0..self.verdicts.len() {
            if let Some(place) = self.verdicts[list].find(job) {
                return Some(Slot {
                    verdicts: list,
                    place,
                });
            }
        }
        None
    }

    /// The answer of the verdict in a slot, which is right by all that this judge knows.
    pub fn answer<S: Judges>(&self, slot: Slot, job: &Job, _by: &S) -> Option<bool>
        requires fits { Fits self.now.verdicts.now slot (question_of job.now) }
        requires early { All (IsEarly (S.known _by.now)) self.now.verdicts.now }
        ensures some { IsSome result }
        ensures right { IfSome result (λ answer.
            verdict (S.known _by.now) (question_of job.now) ≡ Says answer) }
    {
        let own = &self.verdicts[slot.verdicts];
        own.answer(slot.place)
    }
}

/// By what the verdict is found that answers a job.
fn key_of(job: &Job) -> Key
    requires { HasInput job.now }
    ensures { result ≡ key_of (question_of job.now) }
{
    let tx = job.tx;
    Key {
        outpoint: tx.inputs.as_slice()[0].prev,
        input: job.input,
    }
}

/// Puts the answers of one list into their slots. Of two with the same key the later one is kept.
fn add_slots(slots: &mut BTreeMap<Key, Slot>, list: usize, own: &Verdicts) -> Result<(), Memory>
    ensures own { OnOk result ((place : ℕ) (q : Question) (answer : Bool) →
        slice_get (questions own.now.batch) place ≡ Some q →
        verdict (known_then own.now) q ≡ Says answer →
        IsSome (slot_for slots.new.entries (key_of q))) }
    ensures others { OnOk result ((key : Key) →
        IsSome (slot_for slots.old.entries key) → IsSome (slot_for slots.new.entries key)) }
{
    for place in 0..own.jobs().len() {
        if own.answer(place).is_none() {
            continue;
        }
        let key = own.jobs().key(place);
        slots.insert(
            key,
            Slot {
                verdicts: list,
                place,
            },
        )?;
    }
    Ok(())
}
