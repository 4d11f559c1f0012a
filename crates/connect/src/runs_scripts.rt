//! Who runs the scripts of a block, and by what is known of signatures.

ghost use Rattle.std.specs.Prelude.{◌≡◌, All, List, None, Option, length, IfSome};
ghost use Rattle.signatures.specs.Known.{Agrees, Known};
ghost use Rattle.signatures.specs.Triple.{Triple, Triples};
ghost use Rattle.queue.specs.Jobs.{AreNumbered, HasInput, verdict_at};
ghost use Rattle.queue.specs.FirstAnswer.{AreOfBoth, Told};

use crate::context::Env;
use interp::Job;
use queue::{Crew, Gate, Judges, Runs, first_failure};
use std::alloc::Global;
use wire::Memory;

/// Who runs the scripts of a block.
pub trait RunsScripts {
    /// Why there may be no answer: `Memory` where all signatures are known, and else `Undecided`.
    type Stop: From<Memory> + Drop;

    /// What is known of signatures.
    ghost known: { Self → Known };

    /// A set of valid signatures that agrees with it.
    ghost agreeing: { Self → Triples };

    /// The signatures that a stop lists, which have to be verified first; out of memory it has no list.
    ghost told: { Self.Stop → Option (List Triple) };

    /// Whether there are verdicts that were got before, so that maybe no job is run.
    fn has_verdicts(&self) -> bool;

    /// The least place whose job isn't accepted, or none; or all signatures that the jobs before it want.
    fn first_failure(
        &self,
        alloc: Global,
        jobs: &[Job],
        numbers: &[usize],
        gate: &(dyn Gate + Sync),
    ) -> Result<Option<usize>, Self::Stop>
        requires inputs { All HasInput jobs.now }
        // Jobs of one number are of one transaction.
        requires numbered { AreNumbered numbers.now jobs.now }
        ensures { Told (length jobs.now) (verdict_at (known self.now) jobs.now) told result };

    /// The stop that lists what two list, one behind the other.
    fn join(&self, first: Self::Stop, other: Self::Stop) -> Self::Stop
        ensures { IfSome (told result) (AreOfBoth (told first) (told other)) };

    /// Whether a stop lists so many signatures that no further block is asked for its own; also where it lists none.
    fn is_enough(&self, stop: &Self::Stop) -> bool;

    ghost agrees: { (it : Self) → Agrees (known it) (agreeing it) };

    /// Out of memory a stop has no list.
    ghost memory_tells: { (memory : _) (stop : Self.Stop) → Self.Stop.from_gives memory stop →
        told stop ≡ None };
}

impl<'a, S: Judges, C: Crew<S>> RunsScripts for Env<'a, S, C> {
    type Stop = S::Stop;

    ghost known = { λ env. S.known env.signatures.now };

    ghost agreeing = { λ env. S.agreeing env.signatures.now };

    ghost told = { S.told };

    ghost agrees = { λ env. S.agrees env.signatures.now };

    ghost memory_tells = { S.memory_tells };

    fn has_verdicts(&self) -> bool {
        !self.early.is_empty()
    }

    fn first_failure(
        &self,
        alloc: Global,
        jobs: &[Job],
        numbers: &[usize],
        gate: &(dyn Gate + Sync),
    ) -> Result<Option<usize>, S::Stop> {
        let runs = Runs {
            by: self.signatures,
            early: self.early,
            crew: self.crew,
            workers: self.workers,
        };
        first_failure(alloc, jobs, numbers, &runs, gate)
    }

    fn join(&self, first: S::Stop, other: S::Stop) -> S::Stop {
        self.signatures.join(first, other)
    }

    fn is_enough(&self, stop: &S::Stop) -> bool {
        self.signatures.is_enough(stop)
    }
}
