//! Verdicts on signatures that a seat tells, kept for scripts that it runs before the lock.

ghost use Rattle.std.specs.Prelude.{◌≡◌, IfSome, Some};
ghost use Rattle.signatures.specs.Known.{verdict_in};
ghost use Rattle.signatures.specs.laws.Growth.{Grows};
ghost use Rattle.queue.specs.Jobs.{IsEarly};
ghost use Rattle.view.specs.Origin.{known_in};
ghost use Rattle.view.specs.ViewState.{IsLegal};

use crate::published_history::PublishedHistory;
use queue::Verdicts;
use signatures::{KeptTriple, KnownSignatures, KnowsSignatures};
use std::alloc::Global;
use std::marker::{Model, PhantomData};
use view::{Naming, SeenHistory};

/// Verdicts that a seat told, with a history that has them. What other seats told isn't here.
#[derive(Drop)]
pub(crate) struct Learnt<J: Naming> {
    found: KnownSignatures,
    seen: SeenHistory,
    of: PhantomData<J>,
}

impl<J: Naming> Model for Learnt<J> {
    ghost use Rattle.std.specs.Coded.{codes};
    ghost use Rattle.std.specs.Prelude.{◌≡◌};
    ghost use Rattle.signatures.specs.Known.{coded_verdicts};
    ghost use Rattle.node.specs.inside.Learnt.{LearntState, IsLearnt};

    ghost Value = { LearntState };

    ghost coded = { Prim.hlevel (codes, coded_verdicts) };

    ghost view = { λ l. record { found = l.found; seen = l.seen } };

    ghost invariant = { λ l. IsLearnt J.origin l.seen l.found };
}

impl<J: Naming> Learnt<J> {
    /// No verdict, of a history that a seat has seen.
    pub(crate) fn new(alloc: Global, seen: SeenHistory) -> Learnt<J>
        requires book { seen.book ≡ J.origin.book }
        ensures { result.seen ≡ seen }
    {
        Learnt {
            found: KnownSignatures::new(alloc),
            seen,
            of: PhantomData,
        }
    }

    /// The same verdicts, or none where a step has used them.
    pub(crate) fn unless(self, alloc: Global, is_used: bool) -> Learnt<J> {
        if is_used {
            return Learnt::new(alloc, self.seen.copy());
        }
        self
    }

    /// The verdicts.
    pub(crate) fn found(&self) -> &KnownSignatures
        ensures { result.now ≡ self.now.found }
    {
        &self.found
    }

    /// A history that has them.
    pub(crate) fn seen(&self) -> SeenHistory
        ensures book { result.book ≡ J.origin.book }
        ensures known { Grows (verdict_in self.now.found) (known_in J.origin result.entries) }
    {
        self.seen.copy()
    }

    /// One verdict more, of a history. Where there is no memory for it it isn't kept, which costs time alone.
    pub(crate) fn add(&mut self, triple: &KeptTriple, valid: bool, history: SeenHistory)
        requires book { history.book ≡ J.origin.book }
        requires legal { IsLegal J.origin history.entries }
        requires known { known_in J.origin history.entries triple.now ≡ Some valid }
    {
        let (key, signature, digest) = (triple.key(), triple.signature(), triple.digest());
        if !self.seen.begins(&history) || self.found.find(key, signature, digest).is_some() {
            return;
        }
        if self.found.learn_kept(triple, valid).is_ok() {
            self.seen = history;
        }
    }
}

/// Verdicts that were got before the lock, with a history that has all that they were got by.
#[derive(Drop)]
pub(crate) struct Early<'t> {
    pub(crate) verdicts: Verdicts<'t>,
    pub(crate) seen: SeenHistory,
}

/// The verdicts, if the history under the lock goes on from theirs.
pub(crate) fn still_early<'t, J: Naming>(
    history: &PublishedHistory<J>,
    early: Option<Early<'t>>,
) -> Option<Verdicts<'t>>
    requires book { IfSome early (λ e. e.seen.book ≡ J.origin.book) }
    requires early { IfSome early (λ e. IsEarly (known_in J.origin e.seen.entries) e.verdicts) }
    ensures { IfSome result (IsEarly (known_in J.origin history.now.journal)) }
{
    let Early { verdicts, seen } = early?;
    if seen.begins(&history.note()) {
        return Some(verdicts);
    }
    None
}
