//! Places, each with a verdict, which workers go through.

ghost use Rattle.std.specs.Prelude.{◌≡◌, ℕ, ◌<◌, Bool, IfOk, IfSome, None, Option};
ghost use Rattle.interp.specs.Answer.{Answer, Says, Wants};
ghost use Rattle.queue.specs.Ahead.{answer_of};

use crate::verdict::Verdict;
use signatures::KeptTriple;
use std::alloc::Global;
use wire::Memory;

/// Places to be judged.
///
/// The threads are generic in it: a closure of a thread that captures a type with a lifetime passes no fact on.
pub trait Places {
    ghost count: { Self → ℕ };

    ghost verdict: { Self → ℕ → Answer Bool };

    /// The known answers.
    ghost known_at: { Self → ℕ → Option Bool };

    fn count_places(&self) -> usize
        ensures { result ≡ count self.now };

    /// The answer for a place, if it is known.
    fn known(&self, place: usize) -> Option<bool>
        requires { place < count self.now }
        ensures value { result ≡ known_at self.now place }
        ensures right { IfSome result (λ answer. verdict self.now place ≡ Says answer) };

    /// The signature that a place wants, if an earlier run said so and there is still no verdict on it.
    fn wanted(&self, place: usize) -> Option<&KeptTriple>
        requires { place < count self.now }
        ensures { IfSome result (λ t. verdict self.now place ≡ Wants t.now) };

    /// Roughly the work at a place, in bytes of scripts.
    fn weight(&self, place: usize) -> usize
        requires { place < count self.now };

    /// The verdict on a place without a known answer.
    fn judge(&self, alloc: Global, place: usize) -> Result<Verdict, Memory>
        requires place { place < count self.now }
        requires unknown { known_at self.now place ≡ None }
        ensures { IfOk result (λ v. verdict self.now place ≡ answer_of v) };
}
