//! Who says whether signatures are valid, and how a caller is told that some aren't known.

ghost use Rattle.std.specs.Prelude.{◌≡◌, ◌<◌, List, All, None, Option, Some, length, IfSome};
ghost use Rattle.signatures.specs.Triple.{Triple};
ghost use Rattle.queue.specs.FirstAnswer.{AreOfBoth};

use crate::branch_wants::{are_enough, joined};
use crate::no_answer::Undecided;
use signatures::{KeptTriple, KnownSignatures, KnowsSignatures, Table};
use wire::Memory;

/// Who judges signatures, and what a call by this judge answers where it has no answer.
pub trait Judges: KnowsSignatures {
    /// Why there may be no answer: of a table want of memory alone.
    type Stop: From<Memory> + Drop;

    /// The signatures that a stop tells, if it tells any.
    ghost told: { Self.Stop → Option (List Triple) };

    /// The stop that tells these signatures.
    fn stop(&self, wants: Vec<KeptTriple>) -> Self::Stop
        requires unknown { All (λ t. Self.known self.now t ≡ None) wants.items }
        requires some { 0 < length wants.items }
        ensures { told result ≡ Some wants.items };

    /// The stop that tells what two tell, one behind the other.
    fn join(&self, first: Self::Stop, other: Self::Stop) -> Self::Stop
        ensures { IfSome (told result) (AreOfBoth (told first) (told other)) };

    /// Whether a stop tells so many signatures that no others are looked for; also where it tells none.
    fn is_enough(&self, stop: &Self::Stop) -> bool;

    /// A stop for want of memory tells none.
    ghost memory_tells: { (memory : _) (stop : Self.Stop) → Self.Stop.from_gives memory stop →
        told stop ≡ None };
}

impl Judges for Table {
    ghost use Rattle.std.specs.Prelude.{refl};

    type Stop = Memory;

    ghost told = { λ _. None };

    fn stop(&self, _wants: Vec<KeptTriple>) -> Memory {
        unreachable!()
    }

    fn join(&self, first: Memory, _other: Memory) -> Memory {
        first
    }

    fn is_enough(&self, _stop: &Memory) -> bool {
        true
    }

    ghost memory_tells = { λ _ _ _. refl };
}

impl Judges for KnownSignatures {
    ghost use Rattle.queue.specs.Jobs.{told_by};
    ghost use Rattle.queue.specs.laws.NoAnswer.{memory_tells};

    type Stop = Undecided;

    ghost told = { told_by };

    fn stop(&self, wants: Vec<KeptTriple>) -> Undecided {
        Undecided::Unknown(wants)
    }

    fn join(&self, first: Undecided, other: Undecided) -> Undecided {
        joined(first, other)
    }

    fn is_enough(&self, stop: &Undecided) -> bool {
        are_enough(stop)
    }

    ghost memory_tells = { memory_tells };
}
